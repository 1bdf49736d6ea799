//! What a schedule leaves.
use crate::event::Trace;
use geo_delta::Parcel;
use geo_site::Site;
use thiserror::Error;

/// What a schedule leaves: the sites in order of their numbers, the parcels in order of the sends that succeeded, and what came
/// of each event.
#[derive(Drop)]
pub struct Outcome {
    pub sites: Vec<Site>,
    pub parcels: Vec<Parcel>,
    pub traces: Vec<Trace>,
}

/// Why there is no outcome.
#[derive(Clone, Copy, Debug, PartialEq, Eq, Error)]
pub enum WorldError {
    /// The setups are not those of sites 1 to n in order, or one is refused for another cause than memory.
    #[error("the setups are not those of sites 1 to n")]
    Setups,
    /// The event at this index, from 0, names a site or a parcel that is not there.
    #[error("event {0} names a site or a parcel that is not there")]
    BadEvent(usize),
    /// Memory was wanted for the sites or for what is kept of the events.
    #[error("out of memory")]
    Memory,
}
