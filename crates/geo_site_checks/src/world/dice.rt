//! What a seed draws.
ghost use Rattle.std.specs.Prelude.{◌<◌, ◌≤◌, ◌^◌};

/// How many events a seeded schedule has, but for those that ask for numbers in the end.
pub const EVENTS: usize = 24;

/// The moments of a schedule are about here, more than thirty days after 0.
const FIRST: u64 = 2_600_000;

/// A linear congruential generator (Knuth, MMIX).
#[derive(Drop)]
pub struct Dice {
    pub state: u64,
}

impl Dice {
    pub fn below(&mut self, bound: u64) -> u64
        requires positive { 0 < bound }
        ensures below { result < bound }
    {
        self.state = self
            .state
            .wrapping_mul(6_364_136_223_846_793_005)
            .wrapping_add(1_442_695_040_888_963_407);
        (self.state >> 33) % bound
    }

    pub fn site(&mut self, sites: u8) -> u8
        requires positive { 1 ≤ sites }
        ensures { (1 ≤ result) × (result ≤ sites) }
    {
        self.below(sites as u64) as u8 + 1
    }

    pub fn name(&mut self) -> &'static [u8] {
        match self.below(3) {
            0 => b"a",
            1 => b"b",
            _ => b"c",
        }
    }

    /// A moment about the time of an event. The moments of a schedule rise, and now and then go back.
    pub fn now(&mut self, event: usize) -> u64
        ensures { result ≤ 2 ^ 40 }
    {
        FIRST + 2 * event.min(EVENTS) as u64 + self.below(20)
    }

    /// When a value ends: mostly never, in the past, after up to forty seconds, or at a moment.
    pub fn exptime(&mut self) -> i64 {
        match self.below(10) {
            0 => -1,
            1 | 2 | 3 => self.below(40) as i64 + 1,
            4 => self.now(EVENTS) as i64,
            _ => 0,
        }
    }

    /// How long a flush waits: mostly up to twenty seconds, else as long as until an end.
    pub fn delay(&mut self) -> i64 {
        match self.below(3) {
            0 => self.exptime(),
            _ => self.below(20) as i64 + 1,
        }
    }

    pub fn bytes(&mut self) -> &'static [u8] {
        match self.below(4) {
            0 => b"",
            1 => b"7",
            2 => b"18446744073709551615",
            _ => b"hello",
        }
    }
}
