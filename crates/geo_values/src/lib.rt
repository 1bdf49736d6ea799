//! Values under keys: bytes in the chunks of slab classes, and for each class the lists that say which goes next.
//!
//! `specs/` has the stock of a [`Values`], which is what can be seen of it, and what each call makes of it. It stands on slabs and on
//! the segmented LRU, and knows nothing of versions, sites or the protocol.
#![tactic(auto)]

pub mod blob;
pub mod parts;
pub mod values;

pub use blob::Blob;
pub use values::Values;
