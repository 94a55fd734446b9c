//! What a process knows of the ranks of its job.

ghost use Rattle.std.specs.Prelude.{◌≡◌, ◌≢◌, ◌<◌, ℕ, max, length, IfOk, IsOkUnless};
ghost use Rattle.incarnation.specs.Knowledge.{known_at, opening, after_learn};
ghost use Rattle.incarnation.specs.Judgements.{JudgeGives, judgement};

use crate::judgement::Judgement;
use crate::place::Place;
use crate::refusal::IncarnationRefusal;
use alike::{Alike, are_alike};
use datagram::Header;
use std::alloc::Global;
use std::marker::Model;

/// The place of a process, and the incarnation at which it knows each rank of its job. Contracts
/// see it as a `Knowledge`.
///
/// ```text
///  a rank known at I: judge of a header from I ───────► current
///                     judge of one from above I ──────► a lesson ── learn ─► known at that one
///                     judge of one from below I ──────► refused (28)
///  what is known never falls
/// ```
#[derive(Drop)]
pub struct Peers {
    place: Place,
    /// The incarnation at which each rank is known, by rank.
    known: Vec<u16>,
}

impl Model for Peers {
    ghost use Rattle.std.specs.Prelude.{◌≡◌, ◌<◌, length};
    ghost use Rattle.incarnation.specs.Knowledge.{Knowledge};

    ghost Value = { Knowledge };

    ghost view = { λ p. record { place = p.place; known = p.known.items } };

    ghost invariant = { λ p.
        (length p.known.items ≡ p.place.size) × (p.place.endpoint.rank < p.place.size) };
}

impl Peers {
    /// What a process knows when it starts: itself at its own incarnation, and every other rank at
    /// incarnation 0. The only error is want of memory.
    pub fn new(alloc: Global, place: Place) -> Result<Self, IncarnationRefusal>
        requires { place.endpoint.rank < place.size }
        ensures ok { IfOk result (λ peers. peers ≡ opening place) }
        ensures own { IfOk result (λ peers.
            known_at peers place.endpoint.rank ≡ place.endpoint.incarnation) }
        ensures others { IfOk result (λ peers. (other : ℕ) → other < place.size
            → other ≢ place.endpoint.rank → known_at peers other ≡ 0) }
        ensures err { IsOkUnless result IncarnationRefusal.OutOfMemory }
    {
        let Ok(mut known) = vec![in alloc; 0u16; place.size as usize] else {
            return Err(IncarnationRefusal::OutOfMemory);
        };
        known[place.endpoint.rank as usize] = place.endpoint.incarnation;
        Ok(Peers { place, known })
    }

    /// Where this process stands. It knows one incarnation of each rank of its job.
    pub fn place(&self) -> Place
        ensures place { result ≡ self.now.place }
        ensures each { length self.now.known ≡ self.now.place.size }
    {
        self.place
    }

    /// The incarnation at which a rank is known. It takes no memory.
    pub fn known(&self, rank: u16) -> u16
        requires { rank < self.now.place.size }
        ensures { result ≡ known_at self.now rank }
    {
        self.known[rank as usize]
    }

    /// The incarnation at which each rank of the job is known, by rank. It takes no memory.
    pub fn incarnations(&self) -> &[u16]
        ensures { result.now ≡ self.now.known }
    {
        self.known.as_slice()
    }

    /// Judges a datagram by both of its endpoints. Refused is the first that holds of: 26 (another
    /// job), 27 (for another rank or a later incarnation of this one, or from no other rank of the
    /// job), 28 (from a former incarnation of the source), 29 (for a former incarnation of this
    /// rank). It changes nothing, and takes no memory.
    #[tactic(auto, unfolding(crate::specs::Judgements::judgement))]
    pub fn judge(&self, header: Header) -> Result<Judgement, IncarnationRefusal>
        ensures rule { JudgeGives self.now header result }
        ensures exact { result ≡ judgement self.now header }
    {
        let own = self.place.endpoint;
        let source = header.source;
        let target = header.target;
        if header.job != self.place.job {
            return Err(IncarnationRefusal::ForeignJob);
        }
        let is_for_rank = (target.rank == own.rank)
            & (target.incarnation <= own.incarnation)
            & (source.rank != own.rank)
            & (source.rank < self.place.size);
        if !is_for_rank {
            return Err(IncarnationRefusal::NotForMe);
        }
        let known = self.known[source.rank as usize];
        if source.incarnation < known {
            return Err(IncarnationRefusal::StaleSource);
        }
        if target.incarnation < own.incarnation {
            return Err(IncarnationRefusal::StaleTarget);
        }
        if source.incarnation > known {
            return Ok(Judgement::Learn(source.incarnation));
        }
        Ok(Judgement::Current)
    }

    /// Knows the rank at this incarnation, or still at the one at which it is known where that is
    /// greater. Nothing else changes. It takes no memory.
    pub fn learn(&mut self, rank: u16, incarnation: u16)
        requires { rank < self.old.place.size }
        ensures exact { self.new ≡ after_learn self.old rank incarnation }
        ensures greater { known_at self.new rank ≡ max (known_at self.old rank) incarnation }
        ensures others { (other : ℕ) → other ≢ rank
            → known_at self.new other ≡ known_at self.old other }
    {
        let known = &mut self.known[rank as usize];
        *known = (*known).max(incarnation);
    }
}

impl Alike for Peers {
    fn stands_as(&self, other: &Self) -> bool {
        self.place.stands_as(&other.place) && are_alike(&self.known, &other.known)
    }
}
