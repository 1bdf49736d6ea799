//! Maps that join key by key, and columns of numbers beside their entries.
//!
//! A [`MapOf`] is a lattice of lattices (geo_lattice): what it means at a key is what the value there means, and the least where there is
//! none. A [`Column`] keeps a measure of each entry beside it, so that those with low measures are found without a look at the others. It
//! knows nothing of stamps, keys or sites.
#![tactic(auto)]

pub mod column;
pub(crate) mod coming;
pub(crate) mod dropping;
pub mod map_of;

pub use column::Column;
pub use map_of::MapOf;
