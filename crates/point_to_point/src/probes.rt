//! What probes find, and how a message is taken out of matching (MPI 3.1, 3.8).

ghost use Rattle.std.specs.Option.{option_copied};
ghost use Rattle.std.specs.Prelude.{◌≡◌, true, IfErr, None, OnOk, is_some};
ghost use Rattle.match_queues.specs.State.{place_for};
ghost use Rattle.point_to_point_calls.specs.CoreCalls as replies;
ghost use Rattle.point_to_point_calls.specs.declared.refusal.Refusal.TheVariants as refusals;
ghost use Rattle.point_to_point.specs.Calls.{CanSearch, IsSoughtProbe, sought_at};
ghost use Rattle.point_to_point.specs.CoreState.{CanStart};
ghost use Rattle.point_to_point.specs.Messages.{Searches, TakesOut, found_for, looked, probed_by, search_limit};

use crate::rank::Core;
use communicator_members::{Members, status_in};
use match_queues::Message;
use point_to_point_calls::{Refusal, RoutedProbe, SoughtProbe, null_status, status_of};
use requests::{Request, RequestProgress, TakenOut};
use vocabulary::{Source, Status};

/// The receive that a probe stands for, as it would stand in the queue.
pub(crate) fn probed_by(
    source: Source,
    tag: Option<u32>,
    context: u64,
) -> match_queues::PostedReceive
    ensures { result ≡ probed_by source tag context }
{
    match_queues::PostedReceive {
        request: 0,
        context,
        source,
        tag,
    }
}

impl Core {
    /// What a receive of this source, tag and context that is posted now would be matched with: the status of that
    /// message, whose source is a rank of world, or none. It takes no memory and changes nothing (MPI 3.1, 3.8.1).
    pub fn look(&self, source: Source, tag: Option<u32>, context: u64) -> Option<Status>
        ensures { result ≡ looked self.now.state source tag context None }
    {
        if let Source::Null = source {
            return Some(null_status());
        }
        let posted = probed_by(source, tag, context);
        match self.queues.message_for(&posted) {
            Some(message) => Some(status_of(message)),
            None => None,
        }
    }

    /// Where the message stands that such a receive would take now: the one search for it.
    fn place_of_probed(&self, routed: &RoutedProbe) -> Option<usize>
        ensures { result ≡
            sought_at routed.now.route.named (probed_by routed.now.route.named routed.now.probe.tag routed.now.route.context)
            self.now.places }
    {
        let route = routed.route;
        match route.named {
            Source::Null => None,
            Source::Any | Source::Rank(_) => {
                let posted = probed_by(route.named, routed.probe.tag, route.context);
                self.queues.place_for(&posted)
            }
        }
    }

    /// The message that stands at the place that was found for a probe, if one was.
    fn probed_at(&self, routed: &RoutedProbe, found: Option<usize>) -> Option<&Message>
        requires { found ≡
            place_for (probed_by routed.now.route.named routed.now.probe.tag routed.now.route.context) self.now.places }
        ensures none { found ≡ None → option_copied result ≡ None }
        ensures exact { option_copied result ≡
            found_for self.now.state routed.now.route.named routed.now.probe.tag routed.now.route.context }
    {
        // By the route and the tag of the probe the message was found.
        let _routed = routed;
        self.queues.message_at(found)
    }

    /// The message that a matching probe would take out now. It takes no memory and changes nothing.
    pub fn seek_for_probe(&self, routed: RoutedProbe) -> SoughtProbe
        ensures routed { result.routed ≡ routed }
        ensures sought { IsSoughtProbe self.now result }
    {
        let found = self.place_of_probed(&routed);
        SoughtProbe { routed, found }
    }

    /// The limit that a matching probe meets, which is 13: it needs a place only for a message that it found.
    pub fn limit_of_search(&self, sought: &SoughtProbe) -> Option<Refusal>
        requires { IsSoughtProbe self.now sought.now }
        ensures { result ≡ search_limit sought.now.routed.route.named self.now.state sought.now.routed }
    {
        match sought.routed.route.named {
            Source::Null => None,
            Source::Any | Source::Rank(_) => {
                match self.probed_at(&sought.routed, sought.found) {
                    Some(_) => self.limit_of_receive(),
                    None => None,
                }
            }
        }
    }

    /// Makes room for the message that a matching probe found, which meets no limit; or finds that there is no memory
    /// (14). What the core holds stays as it is, and the message stays where it was found.
    pub fn prepare_search(&mut self, sought: &SoughtProbe) -> Result<(), Refusal>
        requires sought { IsSoughtProbe self.old sought.now }
        requires limit { search_limit sought.now.routed.route.named self.old.state sought.now.routed ≡ None }
        ensures room { OnOk result (CanSearch sought.now.routed.route.named self.new sought.now.routed) }
        ensures sought { IsSoughtProbe self.new sought.now }
        ensures kept { self.new.state ≡ self.old.state }
        ensures payloads { self.new.payloads ≡ self.old.payloads }
        ensures err { IfErr result (λ e. e ≡ refusals.OutOfMemory) }
    {
        match sought.routed.route.named {
            Source::Null => Ok(()),
            Source::Any | Source::Rank(_) => {
                if self.probed_at(&sought.routed, sought.found).is_none() {
                    return Ok(());
                }
                self.make_room_to_start()
            }
        }
    }

    /// Takes the message out of matching that stands at the place which was found for a probe, if one was.
    #[tactic(auto, using(match_queues::proofs::Steps::found_there, match_queues::proofs::Steps::found_stands))]
    fn take_out(
        &mut self,
        routed: RoutedProbe,
        found: Option<usize>,
        group: Option<Members>,
    ) -> Option<(Option<Request>, Status)>
        requires found { found ≡ place_for (probed_by routed.route.named routed.probe.tag routed.route.context) self.old.places }
        requires start { is_some (found_for self.old.state routed.route.named routed.probe.tag routed.route.context) ≡ true →
            CanStart self.old }
        ensures exact { TakesOut self.old.state (record routed { group = group })
            (found_for self.old.state routed.route.named routed.probe.tag routed.route.context) (replies.Matched result)
            self.new.state }
        ensures placed { self.new.state.place ≡ self.old.state.place }
        ensures payloads { self.new.payloads ≡ self.old.payloads }
    {
        if self.probed_at(&routed, found).is_none() {
            return None;
        }
        let Some(place) = found else { unreachable!() };
        let message = self.queues.take(place);
        let status = status_in(&group, status_of(&message));
        let request = self.requests.start(RequestProgress::TakenOut(TakenOut {
            group,
            message: Some(message),
        }));
        Some((Some(request), status))
    }

    /// Takes the message out of matching that was found for a probe, if one was, in the room that was made for it: the
    /// message, or that of the null process, which is `None`, with its status. By the group that names the source (MPI
    /// 3.1, 3.2.5 and 3.8.2).
    pub fn search(
        &mut self,
        sought: SoughtProbe,
        group: Option<Members>,
    ) -> Option<(Option<Request>, Status)>
        requires sought { IsSoughtProbe self.old sought }
        requires room { CanSearch sought.routed.route.named self.old sought.routed }
        ensures exact { Searches self.old.state (record sought.routed { group = group }) (replies.Matched result)
            self.new.state }
        ensures placed { self.new.state.place ≡ self.old.state.place }
        ensures payloads { self.new.payloads ≡ self.old.payloads }
    {
        let SoughtProbe { routed, found } = sought;
        match routed.route.named {
            Source::Null => Some((None, null_status())),
            Source::Any | Source::Rank(_) => self.take_out(routed, found, group),
        }
    }
}
