//! What the sites of a script are told at their start.
ghost use Rattle.std.specs.Prelude.{◌≡◌, ◌≤◌, true, length, IfOk};
ghost use Rattle.std.specs.List.{All};
ghost use Rattle.geo_world.specs.Setups.{are_setups, start};
ghost use Rattle.geo_world.specs.Agreement.{Agrees};
ghost use Rattle.geo_world.specs.Doing.{EachOpens};
ghost use Rattle.geo_world.specs.Tables.{empty_tables, Keep};
ghost use Rattle.geo_cluster.specs.Effects.{AreTold};
ghost use Rattle.geo_cluster.specs.Connections.{IsNew};

use crate::script::connection::Connection;
use geo_site::Setup;
use geo_world::{World, WorldError};
use std::alloc::{AllocError, Global};
use std::hash::RandomState;

/// What as many sites are told, each of which has `pages` pages for values, may keep `max` records, and keeps its own writes for
/// `reap` seconds behind their end.
pub fn told(
    alloc: Global,
    hasher: RandomState,
    sites: u8,
    pages: u32,
    max: u32,
    reap: u32,
) -> Result<Vec<Setup>, AllocError>
    requires most { sites ≤ 16 }
    ensures many { IfOk result (λ setups. length setups.items ≡ sites) }
    ensures told { IfOk result (λ setups. AreTold 1 sites pages max reap setups.items) }
{
    let mut setups = Vec::new(alloc);
    for index in 0..sites {
        setups.push(Setup {
            site: index + 1,
            sites,
            pages,
            max_records: max,
            reap_after: reap,
            hasher,
        })?;
    }
    Ok(setups)
}

/// A connection for each site, on which nothing came.
pub fn connections(alloc: Global, sites: u8) -> Result<Vec<Connection>, AllocError>
    ensures many { IfOk result (λ all. length all.items ≡ sites) }
    ensures new { IfOk result (λ all. All IsNew all.items) }
{
    let mut all = Vec::new(alloc);
    for _site in 0..sites {
        all.push(Connection::new(alloc))?;
    }
    Ok(all)
}

/// The sites that were told this, which know nothing, and no parcel.
pub fn opened(alloc: Global, setups: Vec<Setup>) -> Result<World, AllocError>
    requires { are_setups setups.items ≡ true }
    ensures many { IfOk result (λ world. length world.sites.items ≡ length setups.items) }
    ensures agrees { IfOk result (λ world. Agrees world.sites.items world.parcels.items (start setups.items)) }
    ensures each { IfOk result (λ world. EachOpens setups.items world.sites.items) }
    ensures keep { IfOk result (λ world. Keep world.sites.items world.parcels.items (empty_tables (length setups.items))) }
{
    match World::open(alloc, setups) {
        Ok(world) => Ok(world),
        Err(WorldError::Memory) => Err(AllocError),
        Err(WorldError::Setups | WorldError::BadEvent(_)) => unreachable!(),
    }
}
