//! Opening the sites of a cluster.
ghost use Rattle.std.specs.Prelude.{◌≡◌, length, IfOk};
ghost use Rattle.geo_world.specs.Setups.{are_setups, is_setup};
ghost use Rattle.geo_world.specs.Agreement.{WorldOpens};
ghost use Rattle.geo_world.specs.Doing.{EachOpens};
ghost use Rattle.geo_world.specs.Tables.{empty_tables, Keep};

use crate::outcome::WorldError;
use crate::world::World;
use geo_site::{MOST_RECORDS, Setup, Site};
use geo_slabs::{CLASSES, MOST_PAGES};
use geo_stamp::MOST_SITES;
use std::alloc::Global;

/// Whether a setup is that of the site with this number among so many, and a site can be made of it.
fn is_good(sites: usize, number: usize, setup: &Setup) -> bool
    ensures { result ≡ is_setup sites number setup.now }
{
    setup.site as usize == number
        && setup.sites as usize == sites
        && setup.pages as usize >= CLASSES
        && setup.pages as usize <= MOST_PAGES
        && setup.max_records >= 1
        && setup.max_records <= MOST_RECORDS
}

/// Whether the setups are those of sites 1 to n in order, of each of which a site can be made.
pub fn are_good(setups: &[Setup]) -> bool
    ensures { result ≡ are_setups setups.now }
{
    let sites = setups.len();
    if sites < 1 || sites > MOST_SITES as usize {
        return false;
    }
    for (index, setup) in setups.iter().enumerate() {
        if !is_good(sites, index + 1, setup) {
            return false;
        }
    }
    true
}

impl World {
    /// Sites that know nothing, each with the pages of its setup, and no parcel.
    pub fn open(alloc: Global, setups: Vec<Setup>) -> Result<World, WorldError>
        ensures opens { WorldOpens setups.items result }
        ensures each { IfOk result (λ world. EachOpens setups.items world.sites.items) }
        ensures empty { IfOk result (λ world. Keep world.sites.items world.parcels.items (empty_tables (length setups.items))) }
    {
        if !are_good(&setups) {
            return Err(WorldError::Setups);
        }
        let mut sites = Vec::new(alloc);
        for setup in &setups {
            let Ok(hasher) = setup.hasher.clone() else {
                return Err(WorldError::Memory);
            };
            let own = Setup {
                site: setup.site,
                sites: setup.sites,
                pages: setup.pages,
                max_records: setup.max_records,
                reap_after: setup.reap_after,
                hasher,
            };
            let Ok(site) = Site::new(alloc, own) else {
                return Err(WorldError::Memory);
            };
            if sites.push(site).is_err() {
                return Err(WorldError::Memory);
            }
        }
        Ok(World {
            sites,
            parcels: Vec::new(alloc),
        })
    }
}
