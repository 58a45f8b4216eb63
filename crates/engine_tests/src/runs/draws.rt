//! Random numbers, the same ones each time.

/// Marsaglia's xorshift.
#[derive(Clone, Copy)]
pub(crate) struct Draws {
    state: u64,
}

impl Draws {
    pub fn new() -> Draws {
        Draws {
            state: 88172645463325252,
        }
    }

    /// The next 56 bits.
    pub fn bits(&mut self) -> u64 {
        self.state ^= self.state << 13;
        self.state ^= self.state >> 7;
        self.state ^= self.state << 17;
        self.state >> 8
    }

    /// A number below `end`, which isn't 0.
    pub fn below(&mut self, end: u32) -> u32 {
        (self.bits() >> 32) as u32 % end.max(1)
    }

    pub fn other(&mut self) -> Draws {
        Draws {
            state: self.bits() | 1,
        }
    }
}
