//! A set of ranks with one bit for each, on the stack.

ghost use Rattle.std.specs.Prelude.{◌≡◌, ℕ, ◌<◌, false};
ghost use Rattle.groups.specs.RankSets.{is_marked, Marks};
ghost use Rattle.groups.specs.Groups.{is_member};

/// A set of ranks: one bit for each of the 65,536 that a `u16` can name, 8 KiB in all, so that a
/// pass over two groups needs no memory and no search.
#[derive(Drop)]
pub(crate) struct RankSet {
    /// The bits: that of rank `r` is bit `r % 64` of word `r / 64`, the lowest bit being 0.
    pub(crate) words: [u64; RankSet::WORDS],
}

impl RankSet {
    /// How many words hold a bit for each rank.
    const WORDS: usize = 1024;

    /// The set of no rank.
    pub(crate) fn new() -> Self
        ensures { (rank : ℕ) → is_marked result.words rank ≡ false }
    {
        RankSet {
            words: [0; RankSet::WORDS],
        }
    }

    /// Puts a rank into the set.
    pub(crate) fn insert(&mut self, rank: u16)
        ensures { Marks self.old.words self.new.words rank }
    {
        self.words[usize::from(rank / 64)] |= 1 << (rank % 64);
    }

    /// Whether a rank is in the set.
    pub(crate) fn contains(&self, rank: u16) -> bool
        ensures { result ≡ is_marked self.now.words rank }
    {
        (self.words[usize::from(rank / 64)] >> (rank % 64)) & 1 == 1
    }

    /// The set of these ranks.
    pub(crate) fn of(ranks: &[u16]) -> Self
        ensures { (rank : ℕ) → is_marked result.words rank ≡ is_member ranks.now rank }
    {
        let mut set = RankSet::new();
        for rank in ranks {
            set.insert(*rank);
        }
        set
    }
}
