//! Values that join: what two sites know, put together in any order and however often, is the same.
//!
//! A [`Lattice`] states what its values mean and how meanings join, and proves that joining is associative, commutative and
//! idempotent. [`Max`], [`Lww`] and [`Pair`] are made of one another. It stands on std alone, and knows nothing of stamps, keys or
//! sites.
#![tactic(auto)]

pub mod change;
pub mod exact;
pub mod items;
pub mod lattice;
pub mod lww;
pub mod max;
pub mod pair;
pub mod twin;

pub use change::{Change, Glance, Measure, Show, Test};
pub use exact::Exact;
pub use items::Items;
pub use lattice::{Bottom, Flat, Lattice};
pub use lww::Lww;
pub use max::Max;
pub use pair::Pair;
pub use twin::Twin;
