//! Schedules worked by hand, and seeded ones beside the plain program.
mod dice;
mod drawn;
mod due;
mod evicts;
mod follow;
mod hand;
mod large;
mod lines;
mod retiring;
mod seeded;
mod table;

use geo_site::Setup;
use geo_versions::Key;
use geo_world::{Event, Outcome, are_in_time, run_schedule};
use std::alloc::{AllocError, Global};
use std::hash::RandomState;
use std::test::Fail;

/// What the sites of a schedule are told: how many they are, how many records each may have, and how long each keeps its ended
/// writes. Each has a page for each slab class.
#[derive(Clone, Copy)]
pub struct Plan {
    pub sites: u8,
    pub records: u32,
    pub reap_after: u32,
}

fn setups(alloc: Global, plan: &Plan, hasher: &RandomState) -> Result<Vec<Setup>, AllocError> {
    let mut all = Vec::new(alloc);
    for index in 0..plan.sites {
        all.push(Setup {
            site: index.wrapping_add(1),
            sites: plan.sites,
            pages: 15,
            max_records: plan.records,
            reap_after: plan.reap_after,
            hasher: hasher.clone()?,
        })?;
    }
    Ok(all)
}

fn key(alloc: Global, bytes: &[u8]) -> Result<Key, Fail> {
    Ok(Key::new(alloc, bytes)?.ok_or("no key")?)
}

/// The outcome of a schedule that is known to have one, with a trace for each event.
fn run(
    alloc: Global,
    plan: &Plan,
    hasher: &RandomState,
    events: &[Event],
) -> Result<Outcome, Fail> {
    if !are_in_time(events) {
        return Err("out of time".into());
    }
    let setups = setups(alloc, plan, hasher)?;
    Ok(
        run_schedule(alloc, setups, events)
            .ok()
            .ok_or("no outcome")?,
    )
}
