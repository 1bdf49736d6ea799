//! Numbers that follow from a seed.

/// The numbers of SplitMix64 (Steele, Lea and Flood 2014).
#[derive(Clone, Copy)]
pub struct Random {
    state: u64,
}

impl Random {
    pub fn new(seed: u64) -> Random {
        Random { state: seed }
    }

    /// The next number.
    pub fn number(&mut self) -> u64 {
        self.state = self.state.wrapping_add(0x9E37_79B9_7F4A_7C15);
        let mut mixed = self.state;
        mixed = (mixed ^ (mixed >> 30)).wrapping_mul(0xBF58_476D_1CE4_E5B9);
        mixed = (mixed ^ (mixed >> 27)).wrapping_mul(0x94D0_49BB_1331_11EB);
        mixed ^ (mixed >> 31)
    }

    /// Any byte.
    pub fn byte(&mut self) -> u8 {
        u8::try_from(self.below(256)).unwrap_or(0)
    }

    /// Other numbers, which these begin.
    pub fn split(&mut self) -> Random {
        Random::new(self.number())
    }

    /// A number below another, or 0 where that is 0.
    pub fn below(&mut self, bound: u64) -> u64 {
        self.number().checked_rem(bound).unwrap_or(0)
    }

    /// A number between two, both among them.
    pub fn within(&mut self, least: u64, most: u64) -> u64 {
        least.wrapping_add(self.below(most.wrapping_sub(least).wrapping_add(1)))
    }

    /// Whether the one of so many cases is met.
    pub fn one_in(&mut self, cases: u64) -> bool {
        self.below(cases) == 0
    }

    /// A number below another by Zipf's law: as many have one length in bits as another.
    pub fn rank(&mut self, bound: u64) -> u64 {
        let lengths = u64::BITS.wrapping_sub(bound.leading_zeros());
        let length = u32::try_from(self.below(u64::from(lengths))).unwrap_or(0);
        let first = 1u64.wrapping_shl(length);
        first
            .wrapping_sub(1)
            .wrapping_add(self.below(first))
            .checked_rem(bound)
            .unwrap_or(0)
    }
}
