//! What is kept of a key, and what a set of operations means.
//!
//! [`Key`] is what a client names a value by. A [`Rec`] is what is known of one: the greatest write or delete, by SHA-256, flags and
//! length in the place of the bytes, and the latest expiry. `specs/` says what an operation is and what a set of operations means. It
//! stands on lattices and stamps, and knows nothing of sites, held values or the protocol.
#![tactic(auto)]

pub mod body;
pub mod digest;
pub mod key;
pub mod length;
pub(crate) mod order;
pub mod version;

pub use body::{Body, Rec};
pub use digest::Digest;
pub use key::Key;
pub use length::{LONGEST_VALUE, Length};
pub use version::{Version, shown_version};
