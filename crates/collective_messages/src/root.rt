//! The root of a collective.

ghost use Rattle.std.specs.Prelude.{◌≡◌};
ghost use Rattle.collective_messages.specs.Ways.{root_of};

use payload::Record;

/// The rank in the communicator of the root, or 0 where there is none.
pub fn root_of(entered: Record) -> u32
    ensures { result ≡ root_of entered }
{
    match entered {
        Record::Bcast(rooted) | Record::Gather(rooted) | Record::Scatter(rooted) => rooted.root,
        Record::Reduce(_, rooted) => rooted.root,
        Record::Barrier | Record::Allreduce(..) | Record::Dup | Record::Split => 0,
    }
}
