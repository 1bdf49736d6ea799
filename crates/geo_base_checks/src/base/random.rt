//! Numbers that look random.

/// Numbers that look random, the same from the same beginning (a linear congruential generator: Knuth, The Art of Computer
/// Programming, volume 2).
#[derive(Drop)]
pub struct Random {
    pub state: u64,
}

impl Random {
    /// One below a bound, or 0 where that is 0.
    pub fn below(&mut self, bound: u64) -> u64 {
        self.state = self
            .state
            .wrapping_mul(6_364_136_223_846_793_005)
            .wrapping_add(1_442_695_040_888_963_407);
        (self.state >> 33).checked_rem(bound).unwrap_or(0)
    }

    /// One below a bound, behind another number.
    pub fn behind(&mut self, first: u64, bound: u64) -> u64 {
        self.below(bound).wrapping_add(first)
    }

    /// Whether it is one time in so many.
    pub fn one_in(&mut self, times: u64) -> bool {
        self.below(times) == 0
    }
}
