//! Lists that grow without moving what is there.
//!
//! A history is appended to under a lock, so an append must not copy what came before it. [`Chunks`] keeps its elements in chunks of
//! one size; contracts see a list. The crate stands on nothing.
#![tactic(auto)]

mod chunks;

pub use chunks::Chunks;
