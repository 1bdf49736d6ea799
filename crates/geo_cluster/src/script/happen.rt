//! One event of a script.
ghost use Rattle.std.specs.Prelude.{◌≡◌, true, IfErr, IfOk};
ghost use Rattle.geo_world.specs.There.{is_in_time};
ghost use Rattle.geo_cluster.specs.Standing.{Steps, EventDoes};
ghost use Rattle.geo_cluster.specs.Wants.{ComesFor};

use crate::script::cluster::Cluster;
use crate::script::texts::trace_line;
use geo_world::{Event, Trace, WorldError};
use std::alloc::{AllocError, Global};

impl Cluster {
    /// What comes of an event. None where it names a site or a parcel that isn't there.
    pub fn step(&mut self, alloc: Global, event: &Event) -> Result<Option<Trace>, AllocError>
        requires { is_in_time event.now ≡ true }
        ensures does { IfOk result (λ o. Steps self.old event.now o self.new) }
        ensures wants { IfErr result (λ _. ComesFor self.old event.now) }
    {
        match self.world.step(alloc, event, 0) {
            Ok(trace) => Ok(Some(trace)),
            Err(WorldError::BadEvent(_)) => Ok(None),
            Err(WorldError::Memory) => Err(AllocError),
            Err(WorldError::Setups) => unreachable!(),
        }
    }

    /// Lets an event happen, and answers what its line prints. None where it names a site or a parcel that isn't there.
    pub fn happen(&mut self, alloc: Global, event: Event) -> Result<Option<Vec<u8>>, AllocError>
        requires { is_in_time event ≡ true }
        ensures does { IfOk result (λ o. EventDoes self.old event o self.new) }
        ensures wants { IfErr result (λ _. ComesFor self.old event) }
    {
        let parcels = self.world.parcels.len();
        let Some(trace) = self.step(alloc, &event)? else {
            return Ok(None);
        };
        Ok(Some(trace_line(alloc, parcels, &trace)?))
    }
}
