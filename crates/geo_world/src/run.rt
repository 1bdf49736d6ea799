//! Whole schedules.
ghost use Rattle.std.specs.Prelude.{◌≡◌, ℕ, ◌+◌, length, IfOk, IfErr, slice_get, Some, true};
ghost use Rattle.geo_records.specs.Operations.{SameOperations};
ghost use Rattle.geo_site.specs.declared.site.Site.{Site};
ghost use Rattle.geo_world.specs.Schedule.{Known, known, EachLawful};
ghost use Rattle.geo_world.specs.Served.{NoCollision, AllServe};
ghost use Rattle.geo_world.specs.Setups.{are_setups, start};
ghost use Rattle.geo_world.specs.There.{is_in_time, all_in_time, EachThere};
ghost use Rattle.geo_world.specs.Tables.{empty_tables, kept, Keep, EachTallies};
ghost use Rattle.geo_world.specs.Agreement.{Agrees, ShowsVersions, SameVersions};
ghost use Rattle.geo_world.specs.Running.{wants_memory, RunRefuses};
ghost use Rattle.geo_world.specs.Surviving.{named, EachStable};
ghost use Rattle.geo_world.specs.Doing.{RunsAlone, HavePages};

use crate::event::{Event, Trace};
use crate::open::are_good;
use crate::outcome::{Outcome, WorldError};
use crate::there::first_missing;
use crate::world::World;
use geo_site::{LAST_MOMENT, SendError, Setup, TakeError};
use std::alloc::Global;

/// Whether the moment of an event, if it has one, is one of a schedule.
pub fn is_in_time_event(event: &Event) -> bool
    ensures { result ≡ is_in_time event.now }
{
    match event {
        Event::Command { now, .. } | Event::Tick { now, .. } | Event::Reap { now, .. } => {
            *now <= LAST_MOMENT
        }
        Event::Evict { .. }
        | Event::Send { .. }
        | Event::Take { .. }
        | Event::Remove { .. }
        | Event::Fill { .. }
        | Event::Retire { .. } => true,
    }
}

/// Whether each moment of the events is one that [`run_schedule`] takes: at most 2^40.
pub fn are_in_time(events: &[Event]) -> bool
    ensures { result ≡ all_in_time events.now }
{
    events.iter().all(is_in_time_event)
}

/// Whether memory was wanted for a parcel.
fn wanted_memory(trace: &Trace) -> bool
    ensures { result ≡ wants_memory trace.now }
{
    matches!(
        trace,
        Trace::SendRefused(SendError::Memory) | Trace::TakeRefused(TakeError::Memory)
    )
}

/// Runs a schedule: any list of commands, evictions, sends, takes, removals, ticks, reaps, fills and retirements over the sites that the
/// setups make, in which a parcel may be taken never, often and in any order. An eviction drops the bytes of a key at one site, a removal
/// what is left of keys that every site knows to be deleted, a tick carries out a flush that waits and is due, and a reap deletes what a
/// site wrote itself and ended long ago: they are events like the others, and come when the schedule says. A store evicts by itself
/// where its slab class is full, and its trace tells which key. A fill offers a site bytes of a key, any at all: it holds them where its
/// version names their SHA-256 and length, it has none, and their class has room. A retirement tells one site that another is gone for
/// good, whether that one has stopped or not: the sites that hold it for gone go on without it.
///
/// Whatever the schedule, each event has a trace that it can have: each reply is plain memcached's over what its site then
/// holds, or the refusal that is due; a store evicts no key but another one of which bytes of the same class were held; a
/// parcel's addressee never finds a gap, and refuses it exactly where it holds the sender for gone. The horizon that a removal goes by is
/// stable among all sites that no retirement names. What a site keeps of each key is a function of the events and their traces, and so are
/// whether its map is full, how many records `stats` tells, and what a removal drops and goes by.
///
/// In the end sites and parcels are what is known along the schedule. Each site's floor and versions are those of the operations
/// that it knows, whatever was evicted, so that sites which know the same operations hold equal versions. Bytes in a reply are what
/// the operation wrote whose stamp the version has, unless two values that were written or offered have one SHA-256.
///
/// Each event does at its site what that site's own call says, and changes no other: bytes go by themselves only where their slab
/// class is full, and each site keeps the pages that its setup tells.
///
/// An event that names a site or a parcel that cannot be there is told before anything is done, so that want of memory never takes
/// its place. Where a parcel is missing because its send wanted memory, the run wanted it; where it is missing because it was for a site
/// that its sender held for gone, the event that names it is told.
pub fn run_schedule(
    alloc: Global,
    setups: Vec<Setup>,
    events: &[Event],
) -> Result<Outcome, WorldError>
    requires moments { all_in_time events.now ≡ true }
    ensures sites { IfOk result (λ o. (are_setups setups.items ≡ true) × (length o.sites.items ≡ length setups.items)) }
    ensures traced { IfOk result (λ o. length o.traces.items ≡ length events.now) }
    ensures there { IfOk result (λ o. EachThere (length setups.items) (start setups.items) events.now o.traces.items) }
    ensures lawful { IfOk result (λ o. EachLawful (start setups.items) events.now o.traces.items) }
    ensures tallies { IfOk result (λ o. EachTallies (start setups.items) (empty_tables (length setups.items)) events.now o.traces.items) }
    ensures keep { IfOk result (λ o. Keep o.sites.items o.parcels.items (kept (start setups.items)
        (empty_tables (length setups.items)) events.now o.traces.items)) }
    ensures agrees { IfOk result (λ o. Agrees o.sites.items o.parcels.items (known (start setups.items) events.now o.traces.items)) }
    ensures versions { IfOk result (λ o. (k number : ℕ) (site : Site) → number ≡ k + 1 → slice_get o.sites.items k ≡ Some site
        → ShowsVersions site ((known (start setups.items) events.now o.traces.items).at number)) }
    ensures equal { IfOk result (λ o. (j k : ℕ) (one other : Site) → slice_get o.sites.items j ≡ Some one
        → slice_get o.sites.items k ≡ Some other
        → SameOperations ((known (start setups.items) events.now o.traces.items).at (j + 1))
        ((known (start setups.items) events.now o.traces.items).at (k + 1)) → SameVersions one other) }
    ensures served { IfOk result (λ o. NoCollision (known (start setups.items) events.now o.traces.items) events.now
        → AllServe (start setups.items) events.now o.traces.items) }
    ensures survivors { IfOk result (λ o. EachStable (named events.now) (start setups.items) events.now o.traces.items) }
    ensures alone { IfOk result (λ o. RunsAlone setups.items events.now o.traces.items o.sites.items) }
    ensures pages { IfOk result (λ o. HavePages setups.items o.sites.items) }
    ensures refused { IfErr result (RunRefuses setups.items events.now) }
{
    if !are_good(&setups) {
        return Err(WorldError::Setups);
    }
    if let Some(index) = first_missing(setups.len(), events) {
        return Err(WorldError::BadEvent(index));
    }
    let mut world = World::open(alloc, setups)?;
    let mut traces = Vec::new(alloc);
    let mut wanted = false;
    for (index, event) in events.iter().enumerate() {
        // Each event can be there: one that is not lacks a parcel whose send wanted memory, or was refused as its addressee is retired.
        let trace = match world.step(alloc, event, index) {
            Ok(trace) => trace,
            Err(WorldError::BadEvent(_)) if !wanted => return Err(WorldError::BadEvent(index)),
            Err(_) => return Err(WorldError::Memory),
        };
        wanted |= wanted_memory(&trace);
        if traces.push(trace).is_err() {
            return Err(WorldError::Memory);
        }
    }
    let World { sites, parcels } = world;
    Ok(Outcome {
        sites,
        parcels,
        traces,
    })
}
