//! Which moment it is.
ghost use Rattle.std.specs.Prelude.{ℕ, ◌≤◌, ◌^◌};

use std::rt;

/// Tells the moments at which requests are answered.
pub trait Clock {
    // It shows this moment at some time.
    ghost shows: { Self → ℕ → Type 0 };

    /// The moment, in seconds from 1 to 2^40. It may go back.
    fn now<R: rt::Clock>(&self, rt: &R) -> u64
        ensures shown { shows self.now result }
        ensures least { 1 ≤ result }
        ensures most { result ≤ 2 ^ 40 };
}
