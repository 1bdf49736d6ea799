//! What is known of each key: the greatest write or delete, the latest expiry, and the floor below which nothing counts.
//!
//! A [`Versions`] keeps what a set of operations means, without the operations; [`laws`] says what follows of the meaning. It stands
//! on records, lattices and stamps, and knows nothing of sites, held values or the protocol.
#![tactic(auto)]

mod floor;
pub mod laws;
mod news;
mod removal;
mod rising;
mod shown;
pub mod versions;

pub use geo_records::{Body, Digest, Key, LONGEST_VALUE, Length, Rec, Version};
pub use removal::sift;
pub use rising::are_rising;
pub use versions::Versions;
