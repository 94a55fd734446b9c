//! What a completing call finds, and how it ends its requests.

ghost use Rattle.std.specs.Prelude.{◌≡◌, ◌≤◌, ◌∷◌, [], Some, false, length};
ghost use Rattle.std.specs.List.{list_any, position};
ghost use Rattle.std.specs.Vec.{vec_capacity};
ghost use Rattle.requests.specs.Completions.{Completes, outcome_at, all_outcomes, without};
ghost use Rattle.requests.specs.Lists.{named, is_twice};
ghost use Rattle.requests.specs.Steps.{EndsBy, FindsUnfinished, answer_for, is_done, is_unfinished};

use crate::answer::{Answer, Outcomes};
use crate::awaited_requests::{Awaited, AwaitedAll};
use crate::list::RequestList;
use crate::outcome::Outcome;
use crate::table::{Request, Requests, Tested};

/// The lowest place whose request is finished.
fn first_done(table: &Requests, requests: &[Option<Request>]) -> Option<usize>
    ensures { result ≡ position (is_done table.now.slots) requests.now }
{
    requests.iter().position(|request| table.is_done(*request))
}

/// The lowest place whose request is unfinished.
fn first_unfinished(table: &Requests, requests: &[Option<Request>]) -> Option<usize>
    ensures { result ≡ position (is_unfinished table.now.slots) requests.now }
{
    requests
        .iter()
        .position(|request| table.is_unfinished(*request))
}

/// A place whose request is unfinished, if there is one. It is looked for from `start` on, and then before it.
fn find_unfinished(table: &Requests, requests: &[Option<Request>], start: usize) -> Option<usize>
    ensures { FindsUnfinished table.now.slots requests.now result }
{
    let (before, behind) = requests.split_at(start.min(requests.len()));
    match first_unfinished(table, behind) {
        Some(place) => Some(before.len() + place),
        None => first_unfinished(table, before),
    }
}

/// Ends each of the requests, which all are finished, and puts their outcomes into the memory for them.
fn end_each(
    table: &mut Requests,
    requests: &[Option<Request>],
    mut outcomes: Vec<Outcome>,
) -> Vec<Outcome>
    requires finished { list_any (is_unfinished table.old.slots) requests.now ≡ false }
    requires once { is_twice (named requests.now) ≡ false }
    requires empty { outcomes.items ≡ [] }
    requires room { length requests.now ≤ vec_capacity outcomes }
    ensures outcomes { all_outcomes (outcome_at table.old.slots) requests.now ≡ Some result.items }
    ensures slots { table.new.slots ≡ without table.old.slots (named requests.now) }
    ensures serial { table.new.serial ≡ table.old.serial }
{
    for request in requests {
        outcomes.push_reserved(table.end_finished(*request));
    }
    outcomes
}

impl Requests {
    /// Whether the request is finished, and its outcome not yet handed out; the null request never is.
    fn is_done(&self, request: Option<Request>) -> bool
        ensures { result ≡ is_done self.now.slots request }
    {
        match request {
            Some(request) => self.is_finished(request),
            None => false,
        }
    }

    /// Whether the request is unfinished, or isn't there; the null request never is.
    fn is_unfinished(&self, request: Option<Request>) -> bool
        ensures { result ≡ is_unfinished self.now.slots request }
    {
        match request {
            Some(request) => !self.is_finished(request),
            None => false,
        }
    }

    /// Ends the request if it is finished, and hands its outcome out.
    fn end(&mut self, request: Request) -> Option<Outcome>
        ensures { EndsBy self.old request (outcome_at self.old.slots request) result self.new }
    {
        match self.test(request) {
            Tested::Done(outcome) => Some(outcome),
            Tested::Absent | Tested::Pending => None,
        }
    }

    /// Ends a request that is finished, and hands its outcome out; that of the null request is empty.
    fn end_finished(&mut self, request: Option<Request>) -> Outcome
        requires { is_unfinished self.old.slots request ≡ false }
        ensures outcome { answer_for self.old.slots request ≡ Some result }
        ensures slots { self.new.slots ≡ without self.old.slots (named (request ∷ [])) }
        ensures serial { self.new.serial ≡ self.old.serial }
    {
        let Some(request) = request else {
            return Outcome::Empty;
        };
        self.end(request).unwrap_or(Outcome::Empty)
    }

    /// What a completing call answers, and its requests are used up; or, where it isn't ready, what it waits for, and
    /// nothing changes (MPI 3.1, 3.7.3 and 3.7.5). It takes no memory.
    // Mostly its caller knows which of these it is.
    #[inline(always)]
    pub fn complete(&mut self, awaited: Awaited) -> Result<Answer, Awaited>
        ensures { Completes self.old awaited result self.new }
    {
        match awaited {
            Awaited::One(None) => Ok(Answer::One(Outcome::Empty)),
            Awaited::One(Some(request)) => match self.end(request) {
                Some(outcome) => Ok(Answer::One(outcome)),
                None => Err(Awaited::One(Some(request))),
            },
            Awaited::AnyOf(requests) => self.complete_any(requests),
            Awaited::AllOf(all) => self.complete_all(all),
        }
    }

    /// Ends the first request of the list that is finished.
    #[inline(never)]
    fn complete_any(&mut self, requests: RequestList) -> Result<Answer, Awaited>
        ensures { Completes self.old (Awaited.AnyOf requests) result self.new }
    {
        if requests.is_inactive() {
            return Ok(Answer::IndexUndefined);
        }
        match first_done(self, requests.as_slice()) {
            Some(place) => {
                let outcome = self.end_finished(requests.as_slice()[place]);
                Ok(Answer::Index(place, outcome))
            }
            None => Err(Awaited::AnyOf(requests)),
        }
    }

    /// Ends all requests of the list, once each is finished.
    #[inline(never)]
    fn complete_all(&mut self, all: AwaitedAll) -> Result<Answer, Awaited>
        ensures { Completes self.old (Awaited.AllOf all) result self.new }
    {
        match find_unfinished(self, all.requests().as_slice(), all.place()) {
            Some(place) => Err(Awaited::AllOf(all.with_place(place))),
            None => {
                let (requests, room) = all.into_parts();
                let outcomes = end_each(self, requests.as_slice(), room.into_vec());
                Ok(Answer::All(Outcomes::new(outcomes)))
            }
        }
    }
}
