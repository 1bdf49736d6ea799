//! Lamport's stamps, and vectors of the clocks that a site knows.
//!
//! A stamp names an operation: when it was issued, by its site's clock, and where. A vector says for each site up to which
//! time its operations are known. Nothing here takes memory, and nothing knows of keys or values. It stands on `geo_lattice`,
//! in whose sense vectors are a lattice.
#![tactic(auto)]

pub mod acks;
pub mod retired;
pub mod stamp;
pub mod vector;

pub use acks::Acks;
pub use retired::Retired;
pub use stamp::{LAST_TIME, MOST_SITES, Stamp};
pub use vector::Vector;
