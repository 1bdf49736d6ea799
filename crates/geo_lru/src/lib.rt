//! The segmented LRU of one slab class: which of its items goes next.
//!
//! [`Segments`] has memcached's three lists HOT, WARM and COLD (`doc/new_lru.txt`). `specs/` says what each call makes of them.
//! An item is a number that the caller chose. The crate stands on the kit's `lru`, and knows nothing of keys, values or slabs.
#![tactic(auto)]

pub mod access;
mod cold;
mod juggle;
mod list;
pub mod segments;

pub use access::Access;
pub use segments::Segments;
