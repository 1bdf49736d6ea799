//! Storage for values: pages of a mebibyte that slab classes cut into chunks, each class into chunks of its size (memcached's slabs.c).
//!
//! A [`Slabs`] is seen as the chunks of each class, with the bytes that each holds, and the number of pages that are spare. All memory is
//! taken when it is made. `proofs/Kept.antt` has what callers want of a put and of a free: every other chunk keeps what it holds. The
//! crate stands on std alone, and knows nothing of keys.
#![tactic(auto)]

mod class;
mod lengths;
pub mod slabs;

pub use slabs::{CLASSES, Chunk, MOST_PAGES, Slabs, SlabsError, class_of};
