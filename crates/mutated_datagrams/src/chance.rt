//! Numbers that look like those of chance, and are the same from the same seed.

/// Where the numbers have come to (a shift register, as of Marsaglia, 2003).
#[derive(Clone, Copy)]
pub struct Chance {
    state: u64,
}

impl Chance {
    /// The numbers from this seed on.
    pub fn new(seed: u64) -> Chance {
        Chance {
            state: seed.wrapping_mul(0x9e37_79b9_7f4a_7c15) | 1,
        }
    }

    /// The next number.
    pub fn next(&mut self) -> u64 {
        let mut state = self.state;
        state ^= state.wrapping_shl(13);
        state ^= state.wrapping_shr(7);
        state ^= state.wrapping_shl(17);
        self.state = state;
        state.wrapping_mul(0x2545_f491_4f6c_dd1d).wrapping_shr(8)
    }

    /// The next one below a bound; 0 where nothing is below it.
    pub fn below(&mut self, bound: u64) -> u64 {
        let number = self.next();
        if bound == 0 { 0 } else { number % bound }
    }

    /// A place in a list of this length; 0 where it has none.
    pub fn place(&mut self, len: usize) -> usize {
        self.below(len as u64) as usize
    }

    /// A byte.
    pub fn byte(&mut self) -> u8 {
        (self.next() % 256) as u8
    }

    /// A byte below a bound; 0 where none is below it.
    pub fn small(&mut self, bound: u8) -> u8 {
        let byte = self.byte();
        if bound == 0 { 0 } else { byte % bound }
    }

    /// Whether one chance in so many comes true.
    pub fn one_in(&mut self, bound: u64) -> bool {
        self.below(bound) == 0
    }
}
