//! The sites, and the parcels among them.
use geo_delta::Parcel;
use geo_site::Site;

/// The sites in order of their numbers, and the parcels in order of the sends that succeeded.
#[derive(Drop)]
pub struct World {
    pub sites: Vec<Site>,
    pub parcels: Vec<Parcel>,
}
