//! How many collectives a rank has entered.

ghost use Rattle.std.specs.Prelude.{◌≡◌, ◌<◌, ◌≤◌, ◌+◌, length, position, vec_len, vec_capacity};
ghost use Rattle.collective_messages.specs.Tallies.{is_in, count_at, count_in, raised};

/// How many collectives a rank has entered on the communicator with a context.
#[derive(Clone, Copy)]
pub struct Tally {
    /// The number of the context.
    pub context: u64,
    /// How many collectives were entered: the number of the next one.
    pub entered: u32,
}

/// Where the tally of a context stands.
pub fn place_in(tallies: &[Tally], context: u64) -> Option<usize>
    ensures { result ≡ position (is_in context) tallies.now }
{
    tallies.iter().position(|tally| tally.context == context)
}

/// How many collectives were entered in a context: none where it has no tally.
pub fn count_in(tallies: &[Tally], context: u64) -> u32
    ensures { result ≡ count_in tallies.now context }
{
    match place_in(tallies, context) {
        Some(place) => match tallies.get(place) {
            Some(tally) => tally.entered,
            None => 0,
        },
        None => 0,
    }
}

/// One more collective was entered in a context, for whose tally there is room.
pub fn raise(tallies: &mut Vec<Tally>, context: u64)
    requires room { vec_len tallies.old + 1 ≤ vec_capacity tallies.old }
    requires below { count_in tallies.old.items context < 4294967295 }
    ensures { tallies.new.items ≡ raised tallies.old.items context }
{
    let entered = count_in(tallies.as_slice(), context) + 1;
    let tally = Tally { context, entered };
    match place_in(tallies.as_slice(), context) {
        Some(place) => tallies[place] = tally,
        None => tallies.push(tally).unwrap(),
    }
}
