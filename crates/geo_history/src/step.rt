//! One call at a site, with what it answered.
use geo_site::{Answer, Event};
use geo_versions::{Digest, Key};

/// One call of a seat.
#[derive(Drop)]
pub struct Step {
    /// Whose call it was, 0 to 255.
    pub seat: u8,
    /// Which of the seat's steps it is, from 1.
    pub number: u64,
    pub event: Event,
    pub answer: Answer,
    /// The key whose bytes were evicted for what a command stored, if any.
    pub victim: Option<Key>,
    /// The SHA-256, and the length in bytes, of what a command made of older bytes and stored (append, prepend, incr, decr).
    pub made: Option<(Digest, u32)>,
}
