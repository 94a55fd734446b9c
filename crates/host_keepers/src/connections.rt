//! Which keeper a rank has, and how many connections to hosts begin at a time.

ghost use Rattle.std.specs.Prelude.{◌≡◌};
ghost use Rattle.std.specs.List.{position_from};
ghost use Rattle.host_keepers.specs.Connections.{is_name, may_connect};

use launch_keeper::Word;

/// How many connections to hosts begin at a time, at most.
pub const MOST_BEGINNING: usize = 8;

/// Whether one more connection may begin, while so many have begun and aren't there yet.
pub fn may_connect(beginning: usize) -> bool
    ensures { result ≡ may_connect beginning }
{
    beginning < MOST_BEGINNING
}

/// The keeper of a host, by its place among those of hosts of these names: one host has one keeper, however many ranks
/// it has. None where no host has this name.
pub fn keeper_of(names: &[Word], name: &[u8]) -> Option<usize>
    ensures { result ≡ position_from (is_name name.now) 0 names.now }
{
    names.iter().position(|other| other.as_bytes() == name)
}
