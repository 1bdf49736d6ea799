//! Seeded schedules of two to four sites, with few keys, evictions, fills, and parcels lost, late, repeated and reordered: the run is
//! what the plain program says.
use super::dice::Dice;
use super::drawn::schedule;
use super::due::Table;
use super::follow::named;
use super::{Plan, key, run, setups};
use geo_requests::Reply;
use geo_site::{SendError, TakeError};
use geo_versions::Key;
use geo_world::{Event, Trace};
use std::alloc::Global;
use std::hash::RandomState;
use std::test::Fail;

const SCHEDULES: u64 = 400;

/// What schedules were worth: versions that were named, and how often parcels were taken, maps were full, values were touched,
/// flushes were carried out when they were due, keys were reaped, deletes were dropped, values that were missing were offered,
/// values were evicted, for what was stored and by themselves, sites were retired, and parcels were refused for that, at either end.
#[derive(Clone, Copy)]
pub struct Worth {
    pub named: u64,
    pub taken: u64,
    full: u64,
    touched: u64,
    ticked: u64,
    reaped: u64,
    pub removed: u64,
    filled: u64,
    pub evicted: u64,
    pub victims: u64,
    pub retired: u64,
    pub unsent: u64,
    pub untaken: u64,
}

impl Worth {
    pub fn none() -> Worth {
        Worth {
            named: 0,
            taken: 0,
            full: 0,
            touched: 0,
            ticked: 0,
            reaped: 0,
            removed: 0,
            filled: 0,
            evicted: 0,
            victims: 0,
            retired: 0,
            unsent: 0,
            untaken: 0,
        }
    }

    /// One trace more.
    fn add(&mut self, trace: &Trace) {
        let count = match trace {
            Trace::Taken => &mut self.taken,
            Trace::Replied(Reply::MapFull, _) => &mut self.full,
            Trace::Replied(Reply::Touched, _) => &mut self.touched,
            Trace::Replied(_, Some(_)) => &mut self.victims,
            Trace::Evicted(true) => &mut self.evicted,
            Trace::Filled(filled) if filled.is_done() => &mut self.filled,
            Trace::Ticked(true) => &mut self.ticked,
            Trace::Reaped(true) => &mut self.reaped,
            Trace::Removed { count, .. } if *count > 0 => &mut self.removed,
            Trace::Retired(true) => &mut self.retired,
            Trace::SendRefused(SendError::Retired) => &mut self.unsent,
            Trace::TakeRefused(TakeError::Retired) => &mut self.untaken,
            _ => return,
        };
        *count = count.wrapping_add(1);
    }

    fn add_all(&mut self, traces: &[Trace]) {
        for trace in traces {
            self.add(trace);
        }
    }
}

/// Runs a schedule, and adds what it was worth, where the run is what the plain program says.
pub fn add_schedule(
    alloc: Global,
    hasher: &RandomState,
    plan: &Plan,
    removes: bool,
    are_large: bool,
    names: &[Key],
    events: &[Event],
    worth: &mut Worth,
) -> Result<(), Fail> {
    let outcome = run(alloc, plan, hasher, events)?;
    let told = setups(alloc, plan, hasher)?;
    let table = Table {
        limit: plan.records as u64,
        removes,
    };
    let named = named(alloc, &told, table, names, events, &outcome, are_large)?;
    worth.named = worth.named.wrapping_add(named);
    worth.add_all(&outcome.traces);
    Ok(())
}

/// Two to four sites with room for one, two or all three of the keys, that keep what ended for up to twenty seconds. Sites that
/// drop deletes are one or two, with room for all keys.
fn plan(dice: &mut Dice, removes: bool) -> Plan {
    let sites = if removes {
        1 + dice.below(2) as u8
    } else {
        2 + dice.below(3) as u8
    };
    let records = if removes { 3 } else { 1 + dice.below(3) as u32 };
    Plan {
        sites,
        records,
        reap_after: dice.below(20) as u32,
    }
}

/// Draws the schedule of a seed, runs it, and adds what it was worth.
fn add_seed(
    alloc: Global,
    hasher: &RandomState,
    seed: u64,
    removes: bool,
    names: &[Key],
    worth: &mut Worth,
) -> Result<(), Fail> {
    let mut dice = Dice { state: seed };
    let plan = plan(&mut dice, removes);
    let events = schedule(alloc, &mut dice, plan.sites.max(1), removes)?;
    add_schedule(alloc, hasher, &plan, removes, false, names, &events, worth)
}

/// The keys of seeded schedules.
pub fn names(alloc: Global) -> Result<Vec<Key>, Fail> {
    let mut all = Vec::new(alloc);
    for name in [b"a", b"b", b"c"] {
        all.push(key(alloc, name)?)?;
    }
    Ok(all)
}

/// What the schedules of all seeds were worth.
fn worth_of(alloc: Global, hasher: &RandomState, removes: bool) -> Result<Worth, Fail> {
    let names = names(alloc)?;
    let mut worth = Worth::none();
    for seed in 0..SCHEDULES {
        add_seed(alloc, hasher, seed, removes, &names, &mut worth)?;
    }
    Ok(worth)
}

/// What came too seldom for schedules to be worth running, or wrongly.
fn lacking(worth: &Worth) -> &'static str {
    if worth.taken <= SCHEDULES {
        "taken"
    } else if worth.named <= SCHEDULES / 2 {
        "named"
    } else if worth.full <= SCHEDULES / 10 {
        "full"
    } else if worth.touched <= SCHEDULES / 50 {
        "touched"
    } else if worth.ticked <= SCHEDULES / 50 {
        "ticked"
    } else if worth.reaped <= SCHEDULES / 50 {
        "reaped"
    } else if worth.evicted <= SCHEDULES / 10 {
        "evicted"
    } else if worth.filled <= SCHEDULES / 100 {
        "filled"
    } else if worth.victims > 0 {
        // Each class has more chunks than there are keys.
        "victims"
    } else {
        "nothing"
    }
}

/// The same of schedules with removals.
fn lacking_with_removals(worth: &Worth) -> &'static str {
    if worth.taken <= SCHEDULES / 10 {
        "taken"
    } else if worth.named <= SCHEDULES / 10 {
        "named"
    } else if worth.removed <= SCHEDULES / 50 {
        "removed"
    } else {
        "nothing"
    }
}

#[test]
fn schedules_are_what_the_plain_program_says(rt: HostRuntime) -> Result<(), Fail> {
    let hasher = RandomState::new(&rt)?;
    let worth = worth_of(rt.alloc(), &hasher, false)?;
    assert_eq!(rt; lacking(&worth), "nothing");
    Ok(())
}

#[test]
fn schedules_with_removals_are_what_the_plain_program_says(rt: HostRuntime) -> Result<(), Fail> {
    let hasher = RandomState::new(&rt)?;
    let worth = worth_of(rt.alloc(), &hasher, true)?;
    assert_eq!(rt; lacking_with_removals(&worth), "nothing");
    Ok(())
}
