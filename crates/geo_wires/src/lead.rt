//! Links on which a site puts its rounds.
use geo_link::{Link, MemoryLink};
use std::alloc::Global;
use std::sync::Wait;
use std::time::Duration;

/// A link on which a site puts its rounds.
pub trait Lead: Link {
    /// Whether a parcel can be put. A link that is down may come up for that.
    fn is_ready<R: Wait>(&mut self, _rt: &R, _alloc: Global) -> bool {
        true
    }

    /// For how long it rests before the next round.
    fn rest(&self, every: Duration) -> Duration {
        every
    }

    /// Whether the other end is to have one more round where this one stops, and is waited for.
    fn owes_a_last_round(&self) -> bool {
        false
    }

    /// Waits until the other end has taken all that was put, for no longer than a link is waited for.
    fn finish(&mut self, _alloc: Global) {}
}

impl Lead for MemoryLink {}
