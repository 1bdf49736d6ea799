//! Schedules worked by hand.
use super::lines::{add_event, push, push_fault, push_outcome};
use super::table::{MOMENTS, PAGES, SCHEDULES};
use super::{Plan, setups};
use geo_site::Setup;
use geo_world::{Event, are_good, are_in_time, run_schedule};
use std::alloc::{AllocError, Global};
use std::hash::RandomState;
use std::process::Abort;
use std::test::Fail;

/// An event, and its trace.
pub type Row = (&'static str, &'static str);

/// So many sites, the events with their traces, and what comes of them all.
#[derive(Drop)]
pub struct Worked {
    pub sites: u8,
    pub rows: &'static [Row],
    pub end: &'static str,
}

fn events(alloc: Global, rows: &[Row]) -> Result<Vec<Event>, AllocError> {
    let mut events = Vec::new(alloc);
    for (line, _) in rows {
        add_event(alloc, &mut events, line)?;
    }
    Ok(events)
}

/// What is to come of a schedule: a line for each trace, where there is one, and the end.
fn owed(alloc: Global, schedule: &Worked) -> Result<Vec<u8>, AllocError> {
    let mut owed = Vec::new(alloc);
    for (_, trace) in schedule.rows {
        if !trace.is_empty() {
            push(&mut owed, trace)?;
            push(&mut owed, "\n")?;
        }
    }
    push(&mut owed, schedule.end)?;
    Ok(owed)
}

/// Shows what comes of these events.
fn push_run(
    alloc: Global,
    out: &mut Vec<u8>,
    setups: Vec<Setup>,
    events: &[Event],
) -> Result<(), AllocError> {
    if !are_in_time(events) {
        return push(out, "out of time");
    }
    match run_schedule(alloc, setups, events) {
        Ok(outcome) => push_outcome(alloc, out, &outcome),
        Err(fault) => push_fault(alloc, out, fault),
    }
}

/// What comes of a schedule.
fn shown(alloc: Global, hasher: &RandomState, schedule: &Worked) -> Result<Vec<u8>, AllocError> {
    let plan = Plan {
        sites: schedule.sites,
        records: 1000,
        reap_after: 60,
    };
    let events = events(alloc, schedule.rows)?;
    let mut out = Vec::new(alloc);
    push_run(alloc, &mut out, setups(alloc, &plan, hasher)?, &events)?;
    Ok(out)
}

fn comes_out(
    rt: &impl Abort,
    alloc: Global,
    hasher: &RandomState,
    schedule: &Worked,
) -> Result<(), AllocError> {
    let shown = shown(alloc, hasher, schedule)?;
    let owed = owed(alloc, schedule)?;
    assert_eq!(rt; str::from_utf8(&shown).ok(), str::from_utf8(&owed).ok());
    Ok(())
}

#[test]
fn schedules_come_out_as_worked_by_hand(rt: HostRuntime) -> Result<(), Fail> {
    let hasher = RandomState::new(&rt)?;
    for schedule in SCHEDULES {
        comes_out(&rt, rt.alloc(), &hasher, schedule)?;
    }
    Ok(())
}

/// Whether setups are good, where no schedule runs over those that aren't.
fn judged(alloc: Global, setups: Vec<Setup>, out: &mut Vec<u8>) -> Result<(), AllocError> {
    match are_good(&setups) {
        true => push(out, "good"),
        false => push_run(alloc, out, setups, &[]),
    }
}

/// Two sites' setups, of which the second has so many pages.
fn paged(alloc: Global, hasher: &RandomState, pages: u32) -> Result<Vec<Setup>, AllocError> {
    let plan = Plan {
        sites: 2,
        records: 1000,
        reap_after: 60,
    };
    let mut setups = setups(alloc, &plan, hasher)?;
    if let Some(second) = setups.last_mut() {
        second.pages = pages;
    }
    Ok(setups)
}

/// Setups of two sites with so many pages at the second, of two sites in the other order, and of none.
fn all_judged(alloc: Global, hasher: &RandomState, out: &mut Vec<u8>) -> Result<(), AllocError> {
    for pages in PAGES {
        judged(alloc, paged(alloc, hasher, *pages)?, out)?;
        push(out, " ")?;
    }
    let mut turned = paged(alloc, hasher, 15)?;
    turned.reverse();
    judged(alloc, turned, out)?;
    push(out, " ")?;
    judged(alloc, Vec::new(alloc), out)
}

#[test]
fn refuses_setups_that_are_not_good(rt: HostRuntime) -> Result<(), Fail> {
    let alloc = rt.alloc();
    let hasher = RandomState::new(&rt)?;
    let mut out = Vec::new(alloc);
    all_judged(alloc, &hasher, &mut out)?;
    let got = str::from_utf8(&out).ok();
    assert_eq!(rt; got, Some("setups good good setups setups setups"));
    Ok(())
}

/// Whether the event that a line says is in time.
fn is_in_time(alloc: Global, line: &str) -> Result<Option<bool>, AllocError> {
    let mut events = Vec::new(alloc);
    add_event(alloc, &mut events, line)?;
    if events.len() != 1 {
        return Ok(None);
    }
    Ok(Some(are_in_time(&events)))
}

#[test]
fn a_moment_after_the_last_is_not_in_time(rt: HostRuntime) -> Result<(), Fail> {
    for (line, in_time) in MOMENTS {
        assert_eq!(rt; is_in_time(rt.alloc(), line)?, Some(*in_time), "{line}");
    }
    Ok(())
}
