//! Parcels: what one site tells another of what was written.
//!
//! A parcel is a delta of the sender's state (Almeida et al. 2018): the records that the receiver may lack, never a value. It
//! stands on versions and stamps, and knows nothing of held values, requests or links.
#![tactic(auto)]

mod begin;
mod buffer;
mod changes;
mod cutting;
mod headed;
mod lookup;
mod parcel;
mod ranges;
mod trail;

pub use buffer::{Buffer, MOST_CHANGES};
pub use changes::Changes;
pub use cutting::cut;
pub use lookup::Lookup;
pub use parcel::Parcel;
pub use ranges::stays_in_range;
pub use trail::Trail;
