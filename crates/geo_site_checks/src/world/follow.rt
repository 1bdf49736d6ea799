//! Whether a run is what the plain program says.
ghost use Rattle.std.specs.Prelude.{◌≤◌};

use super::due::{Table, replies_as_due};
use super::evicts::evicts_as_due;
use geo_plain::knowledge::Knowledge;
use geo_plain::known::{Known, known_after};
use geo_plain::meaning::latest;
use geo_requests::{Reply, Request, ValueBytes};
use geo_site::{Filled, RetireError, SendError, Setup, Site, TakeError};
use geo_stamp::Retired;
use geo_versions::Key;
use geo_world::{Event, Outcome, Trace};
use std::alloc::Global;
use std::test::Fail;

/// What the plain program says of a site.
fn site_of(known: &Known, site: u8) -> Result<&Knowledge, Fail> {
    Ok(
        known
            .sites
            .get((site as usize).wrapping_sub(1))
            .ok_or("no site")?,
    )
}

/// What it says of a site after a flush that is due.
fn flushed(alloc: Global, known: &mut Known, site: u8, now: u64) -> Result<&Knowledge, Fail> {
    if known.sites.len() > 16 || !known.has(site) {
        return Err("no site")?;
    }
    known.flush_due(alloc, site, now).ok().ok_or("not flushed")?;
    site_of(known, site)
}

/// Whether a site knows each operation up to a time that any site outside of a set knows.
fn knows_up_to(site: &Knowledge, known: &Known, retired: Retired, time: u64) -> bool {
    known.sites.iter().zip(1..=16u8).all(|(other, number)| {
        retired.has(number)
            || other.ops.iter().all(|op| {
                op.stamp.time() > time || site.ops.iter().any(|own| own.stamp == op.stamp)
            })
    })
}

/// Whether each site that another does not hold for retired knows every operation up to a time that one of these sites knows, and issues
/// no other one there.
fn is_stable(known: &Known, site: u8, time: u64) -> Result<bool, Fail> {
    let retired = site_of(known, site)?.retired;
    Ok(
        known
            .sites
            .iter()
            .zip(1..=16u8)
            .filter(|(_, number)| !retired.has(*number))
            .all(|(site, _)| latest(site.ops.as_slice()) >= time
                && knows_up_to(site, known, retired, time)),
    )
}

/// Whether a parcel is made for another site: not for itself, nor for one that is held for retired.
fn is_sent(known: &Known, site: u8, to: u8) -> Result<bool, Fail> {
    Ok(site != to && !site_of(known, site)?.retired.has(to))
}

/// What comes of a take, by whom the parcel is for and from.
fn is_taken(
    known: &Known,
    site: u8,
    parcel: usize,
    refusal: Option<TakeError>,
) -> Result<bool, Fail> {
    let sent = known.sent.get(parcel).ok_or("no parcel")?;
    let due = if sent.to != site {
        Some(TakeError::NotForMe)
    } else if site_of(known, site)?.retired.has(sent.from) {
        Some(TakeError::Retired)
    } else {
        None
    };
    Ok(due == refusal)
}

/// Whether a command evicts and answers what it is due to, after a flush that is due.
fn is_answered(
    alloc: Global,
    known: &mut Known,
    table: Table,
    names: &[Key],
    site: u8,
    now: u64,
    request: &Request,
    reply: &Reply,
    victim: Option<&Key>,
) -> Result<bool, Fail> {
    let at = flushed(alloc, known, site, now)?;
    let evicts = evicts_as_due(alloc, at, now, names, request, reply, victim)?;
    Ok(evicts && replies_as_due(alloc, at, site, now, table, names, request, reply)?)
}

/// Whether a reap deletes a key where it is due to, after a flush that is due.
fn is_reaped(
    alloc: Global,
    known: &mut Known,
    site: u8,
    now: u64,
    key: &Key,
    done: bool,
) -> Result<bool, Fail> {
    let at = flushed(alloc, known, site, now)?;
    Ok(done == at.is_to_reap(site, now, key))
}

/// What comes of bytes that a site is offered, where each class has room.
fn filled(at: &Knowledge, key: &Key, bytes: &ValueBytes) -> Filled {
    match at.version_of(key) {
        Some(version)
            if version.digest == bytes.digest() && version.length as usize == bytes.len() =>
            match at.held(key) {
                Some(_) => Filled::Held,
                None => Filled::Done,
            },
        _ => Filled::NotNamed,
    }
}

/// Whether the trace is what the plain program says of the event.
fn is_due(
    alloc: Global,
    known: &mut Known,
    table: Table,
    names: &[Key],
    event: &Event,
    trace: &Trace,
) -> Result<bool, Fail> {
    match (event, trace) {
        (Event::Command { site, now, request }, Trace::Replied(reply, victim)) => {
            let victim = victim.as_ref();
            is_answered(
                alloc, known, table, names, *site, *now, request, reply, victim,
            )
        }
        (Event::Evict { site, key }, Trace::Evicted(done)) => {
            Ok(*done == site_of(known, *site)?.held(key).is_some())
        }
        (Event::Tick { site, now }, Trace::Ticked(done)) => {
            Ok(*done == site_of(known, *site)?.flushes_due(*now))
        }
        (Event::Reap { site, now, key }, Trace::Reaped(done)) => {
            is_reaped(alloc, known, *site, *now, key, *done)
        }
        (Event::Fill { site, key, bytes }, Trace::Filled(told)) => {
            Ok(*told == filled(site_of(known, *site)?, key, bytes))
        }
        (Event::Remove { site }, Trace::Removed { horizon, .. }) => {
            is_stable(known, *site, *horizon)
        }
        (Event::Send { site, to }, Trace::Sent) => is_sent(known, *site, *to),
        (Event::Send { site, to }, Trace::SendRefused(SendError::NoSuchSite)) => Ok(site == to),
        (Event::Send { site, to }, Trace::SendRefused(SendError::Retired)) => {
            Ok(site != to && !is_sent(known, *site, *to)?)
        }
        (Event::Take { site, parcel }, Trace::Taken) => is_taken(known, *site, *parcel, None),
        (Event::Take { site, parcel }, Trace::TakeRefused(why)) => {
            is_taken(known, *site, *parcel, Some(*why))
        }
        (Event::Retire { site, other }, Trace::Retired(fresh)) => {
            Ok(site != other && *fresh != site_of(known, *site)?.retired.has(*other))
        }
        (Event::Retire { site, other }, Trace::RetireRefused(RetireError::NoSuchSite)) => {
            Ok(site == other)
        }
        _ => Ok(false),
    }
}

/// What is known after an event more, with its trace, where the trace is what the plain program says of the event.
fn follow(
    alloc: Global,
    known: &mut Known,
    table: Table,
    names: &[Key],
    event: &[Event],
    trace: &[Trace],
) -> Result<(), Fail> {
    let ([one], [its]) = (event, trace) else {
        return Err("no event")?;
    };
    if !is_due(alloc, known, table, names, one, its)? {
        return Err("not what is due")?;
    }
    if known.sites.len() > 16 {
        return Err("too many sites")?;
    }
    Ok(
        known
            .follow(alloc, event, trace)
            .ok()
            .ok_or("not followed")?,
    )
}

fn follow_all(
    alloc: Global,
    known: &mut Known,
    table: Table,
    names: &[Key],
    events: &[Event],
    traces: &[Trace],
) -> Result<(), Fail> {
    if traces.len() != events.len() {
        return Err("not as many traces")?;
    }
    for (event, trace) in events.chunks(1).zip(traces.chunks(1)) {
        follow(alloc, known, table, names, event, trace)?;
    }
    Ok(())
}

/// What is known after these events, with their traces.
fn known_of(
    alloc: Global,
    setups: &[Setup],
    events: &[Event],
    traces: &[Trace],
) -> Result<Known, Fail> {
    Ok(
        known_after(alloc, setups, events, traces)
            .ok()
            .ok_or("no knowledge")?,
    )
}

/// How many keys have a version, where all are what the plain program names, and what is held too.
fn named_alike(plain: &Knowledge, site: &Site, names: &[Key]) -> Result<u64, Fail> {
    let mut named = 0u64;
    if site.floor() != plain.floor() {
        return Err("flushed otherwise")?;
    }
    for name in names {
        let version = site.version_of(name);
        if version != plain.version_of(name) || site.holds(name) != plain.held(name).is_some() {
            return Err("named otherwise")?;
        }
        if version.is_some() {
            named = named.wrapping_add(1);
        }
    }
    Ok(named)
}

fn all_named_alike(known: &Known, outcome: &Outcome, names: &[Key]) -> Result<u64, Fail> {
    let mut named = 0u64;
    if known.sites.len() != outcome.sites.len() || known.sent.len() != outcome.parcels.len() {
        return Err("not as many")?;
    }
    for (plain, site) in known.sites.iter().zip(&outcome.sites) {
        named = named.wrapping_add(named_alike(plain, site, names)?);
    }
    Ok(named)
}

/// How many keys are named, where each trace is what the plain program says of its event, and then all is named and held as it says.
fn followed(
    alloc: Global,
    setups: &[Setup],
    table: Table,
    names: &[Key],
    events: &[Event],
    outcome: &Outcome,
) -> Result<u64, Fail> {
    let mut known = known_of(alloc, setups, &[], &[])?;
    follow_all(alloc, &mut known, table, names, events, &outcome.traces)?;
    all_named_alike(&known, outcome, names)
}

/// The same, where it follows the events at once.
fn followed_at_once(
    alloc: Global,
    setups: &[Setup],
    names: &[Key],
    events: &[Event],
    outcome: &Outcome,
) -> Result<u64, Fail> {
    let known = known_of(alloc, setups, events, &outcome.traces)?;
    all_named_alike(&known, outcome, names)
}

/// How many keys are named, where the plain program says the same of the run, step by step and at once. Where values are large it
/// follows step by step alone.
pub fn named(
    alloc: Global,
    setups: &[Setup],
    table: Table,
    names: &[Key],
    events: &[Event],
    outcome: &Outcome,
    are_large: bool,
) -> Result<u64, Fail> {
    let named = followed(alloc, setups, table, names, events, outcome)?;
    if !are_large && followed_at_once(alloc, setups, names, events, outcome)? != named {
        return Err("followed otherwise")?;
    }
    Ok(named)
}
