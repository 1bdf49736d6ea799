//! Plain servers: what sites know after a schedule, by sets of operations as lists and nothing else.
//!
//! The definitions as a program. It is slow and has no vectors, records or deltas; tests compare every faster body with it, and no program
//! stands on it.
#![tactic(auto)]

mod issue;
pub mod knowledge;
pub mod known;
pub mod meaning;
pub mod operation;
mod request;
