//! Where sessions can be held up.
use std::rt::Clock;
use std::sync::Wait;

/// Where sessions can be held up between an answer and its writing, as a test does that wants two of them at once. Sessions
/// on several threads may share one.
pub trait Gate: Sync {
    /// Comes before an answer of the backend is written. `call` is its number in its session, from 1.
    fn pass<R: Wait + Clock>(&self, rt: &R, call: u64);

    /// Whether it never waits, so that a backend may keep to itself what it asks.
    fn is_open(&self) -> bool {
        false
    }
}

/// A gate that never waits.
#[derive(Clone, Copy, Debug, PartialEq, Eq)]
pub struct OpenGate;

impl Gate for OpenGate {
    fn pass<R: Wait + Clock>(&self, _rt: &R, _call: u64) {}

    fn is_open(&self) -> bool {
        true
    }
}
