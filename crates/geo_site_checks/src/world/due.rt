//! What the plain program says of a reply.
ghost use Rattle.std.specs.Prelude.{◌≤◌, ◌^◌};

use geo_equal::Equal;
use geo_lattice::Twin;
use geo_memcache::{Answer, Ask, Decision, Effect, ask_of, expiry_of};
use geo_plain::knowledge::Knowledge;
use geo_plain::meaning::{is_on, latest};
use geo_plain::operation::Act;
use geo_requests::{Found, Reply, Request, Stats};
use geo_stamp::Stamp;
use geo_versions::Key;
use std::alloc::Global;
use std::test::Fail;

/// How many records a site may have, and whether it drops any.
#[derive(Clone, Copy)]
pub struct Table {
    pub limit: u64,
    pub removes: bool,
}

/// Whether a reply is the one that is due to a request, at a site that knows and holds this much, has such a table, and has carried
/// out a flush that was due.
pub fn replies_as_due(
    alloc: Global,
    at: &Knowledge,
    site: u8,
    now: u64,
    table: Table,
    names: &[Key],
    request: &Request,
    reply: &Reply,
) -> Result<bool, Fail> {
    if now > 1 << 40 {
        return Err("out of time")?;
    }
    let room = Room {
        limit: table.limit,
        records: recorded(at, names),
    };
    if let Some((key, ask)) = ask_of(request) {
        return decides_as_due(alloc, at, now, room, key, &ask, reply);
    }
    Ok(match (request, reply) {
        (Request::Fetch { keys, numbers }, Reply::Values(found)) => {
            shows_as_due(at, now, *numbers, keys.as_slice(), found.as_slice())
        }
        (
            Request::FetchTouch {
                exptime,
                keys,
                numbers,
            },
            Reply::Values(found),
        ) => {
            let expiry = expiry_of(*exptime, now);
            touches_as_due(
                alloc,
                at,
                now,
                *numbers,
                expiry,
                keys.as_slice(),
                found.as_slice(),
            )?
        }
        (Request::FlushAll { .. }, Reply::Done) => true,
        (Request::Stats, Reply::Stats(stats)) => {
            counts_records(at, table, room.records, names, stats.records)
                && *stats == stats_due(at, site, stats.records, names)
        }
        (Request::ShowVersion, Reply::Version) => true,
        _ => false,
    })
}

/// How many records a site may have, and has.
#[derive(Clone, Copy)]
struct Room {
    limit: u64,
    records: u64,
}

/// Whether a stamp is later than all flushes.
fn is_later(floor: Option<Stamp>, stamp: Stamp) -> bool {
    match floor {
        None => true,
        Some(floor) => floor < stamp,
    }
}

/// Whether a site knows an operation on a key that is later than all flushes.
fn is_recorded(at: &Knowledge, name: &Key) -> bool {
    let floor = at.floor();
    at.ops
        .iter()
        .any(|op| is_on(name, op) && is_later(floor, op.stamp))
}

fn recorded(at: &Knowledge, names: &[Key]) -> u64 {
    names.iter().filter(|name| is_recorded(at, *name)).count() as u64
}

/// Whether a site may have so many records, where its operations leave `most`: all of them, or where it drops some at least those
/// with a version.
fn counts_records(at: &Knowledge, table: Table, most: u64, names: &[Key], records: u64) -> bool {
    let least = names
        .iter()
        .filter(|name| at.version_of(*name).is_some())
        .count() as u64;
    records == most || (table.removes && least <= records && records < most)
}

fn stats_due(at: &Knowledge, site: u8, records: u64, names: &[Key]) -> Stats {
    Stats {
        curr_items: names.iter().filter(|name| at.held(*name).is_some()).count() as u64,
        get_hits: at.hits,
        get_misses: at.misses,
        evictions: at.evictions,
        site: site as u64,
        clock: latest(at.ops.as_slice()),
        records,
    }
}

fn decides_as_due(
    alloc: Global,
    at: &Knowledge,
    now: u64,
    room: Room,
    key: &Key,
    ask: &Ask<'_>,
    reply: &Reply,
) -> Result<bool, Fail>
    requires moment { now ≤ 2 ^ 40 }
{
    let decision = at.decision(alloc, now, key, ask)?;
    let crowded = room.records >= room.limit && !is_recorded(at, key);
    Ok(decided_as_due(&decision, crowded, reply))
}

/// Whether the reply is the decision's, or that the map is full where it would be too full.
fn decided_as_due(decision: &Decision, crowded: bool, reply: &Reply) -> bool {
    match (&decision.effect, &decision.answer) {
        (Effect::Nothing, Answer::Reply(due)) => due.equals(reply),
        (_, Answer::Reply(due)) => match crowded {
            true => matches!(reply, Reply::MapFull),
            false => due.equals(reply),
        },
        _ => false,
    }
}

/// The keys that these touches are of.
fn names_of(alloc: Global, touches: &[Act]) -> Result<Vec<Key>, Fail> {
    let mut touched = Vec::new(alloc);
    for touch in touches {
        if let Act::Touch { key, .. } = touch {
            touched.push(key.twin(alloc)?)?;
        }
    }
    Ok(touched)
}

/// The keys that a fetch with touches touches, in their order.
fn touched_keys(
    alloc: Global,
    at: &Knowledge,
    now: u64,
    expiry: u64,
    keys: &[Key],
) -> Result<Vec<Key>, Fail> {
    let mut before = Vec::new(alloc);
    let mut acts = Vec::new(alloc);
    at.add_touches(alloc, now, expiry, &mut before, keys, &mut acts)?;
    names_of(alloc, acts.as_slice())
}

/// Whether the values are those of the keys that such a fetch touches.
fn touches_as_due(
    alloc: Global,
    at: &Knowledge,
    now: u64,
    numbers: bool,
    expiry: u64,
    keys: &[Key],
    found: &[Found],
) -> Result<bool, Fail> {
    let touched = touched_keys(alloc, at, now, expiry, keys)?;
    Ok(shows_as_due(at, now, numbers, touched.as_slice(), found))
}

/// Whether the values are those of the keys that are visible, in their order.
fn shows_as_due(at: &Knowledge, now: u64, numbers: bool, keys: &[Key], found: &[Found]) -> bool {
    let mut left = found;
    for key in keys {
        if let Some(entry) = at.visible(now, key) {
            let [first, rest @ ..] = left else {
                return false;
            };
            let unique = if numbers { Some(entry.unique) } else { None };
            if first.key != *key
                || first.flags != entry.flags
                || first.unique != unique
                || first.bytes.as_slice() != entry.bytes
            {
                return false;
            }
            left = rest;
        }
    }
    left.is_empty()
}
