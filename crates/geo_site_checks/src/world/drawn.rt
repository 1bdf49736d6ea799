//! The schedules that seeds draw.
ghost use Rattle.std.specs.Prelude.{◌≤◌};

use super::dice::{Dice, EVENTS};
use super::key;
use geo_lattice::{Items, Twin};
use geo_requests::{Request, ValueBytes, Verb};
use geo_versions::Key;
use geo_world::Event;
use std::alloc::Global;
use std::test::Fail;

fn store(alloc: Global, dice: &mut Dice, key: Key, verb: Verb) -> Result<Request, Fail> {
    Ok(Request::Store {
        verb,
        key,
        flags: dice.below(3) as u32,
        exptime: dice.exptime(),
        // The unique numbers of the first two stamps of the first two sites.
        unique: Some(dice.below(2) * 256 + dice.below(2) + 257),
        bytes: ValueBytes::of(dice.bytes().to_vec(alloc)?),
        noreply: false,
    })
}

/// What a client may ask of one key.
fn change(alloc: Global, dice: &mut Dice, key: Key) -> Result<Request, Fail> {
    let noreply = false;
    let verb = match dice.below(17) {
        0 | 1 | 2 | 3 | 4 => Verb::Set,
        5 => Verb::Add,
        6 => Verb::Replace,
        7 => Verb::Append,
        8 => Verb::Prepend,
        9 => Verb::Cas,
        10 => return Ok(Request::Delete { key, noreply }),
        11 | 12 | 13 | 14 => return Ok(touch(dice, key)),
        face => return Ok(arith(dice, key, face == 15)),
    };
    store(alloc, dice, key, verb)
}

fn touch(dice: &mut Dice, key: Key) -> Request {
    Request::Touch {
        key,
        exptime: dice.exptime(),
        noreply: false,
    }
}

fn arith(dice: &mut Dice, key: Key, up: bool) -> Request {
    Request::Arith {
        up,
        key,
        by: dice.below(10),
        noreply: false,
    }
}

/// Two keys, which may be the same.
fn two_keys(alloc: Global, dice: &mut Dice) -> Result<Items<Key>, Fail> {
    let mut keys = Vec::new(alloc);
    for _ in 0..2 {
        keys.push(key(alloc, dice.name())?)?;
    }
    Ok(Items::of(keys))
}

fn fetch(alloc: Global, dice: &mut Dice) -> Result<Request, Fail> {
    Ok(Request::Fetch {
        keys: two_keys(alloc, dice)?,
        numbers: dice.below(2) == 0,
    })
}

fn fetch_touch(alloc: Global, dice: &mut Dice) -> Result<Request, Fail> {
    let exptime = dice.exptime();
    Ok(Request::FetchTouch {
        exptime,
        keys: two_keys(alloc, dice)?,
        numbers: dice.below(2) == 0,
    })
}

fn request(alloc: Global, dice: &mut Dice) -> Result<Request, Fail> {
    match dice.below(18) {
        0 | 1 | 2 => fetch(alloc, dice),
        3 => Ok(Request::Stats),
        4 => Ok(Request::ShowVersion),
        5 | 6 => fetch_touch(alloc, dice),
        7 => Ok(Request::FlushAll {
            delay: dice.delay(),
            noreply: false,
        }),
        _ => {
            let key = key(alloc, dice.name())?;
            change(alloc, dice, key)
        }
    }
}

/// A client's request at a site.
pub fn command(alloc: Global, dice: &mut Dice, site: u8, index: usize) -> Result<Event, Fail> {
    let now = dice.now(index);
    let request = request(alloc, dice)?;
    Ok(Event::Command { site, now, request })
}

pub fn evict(alloc: Global, dice: &mut Dice, site: u8) -> Result<Event, Fail> {
    let key = key(alloc, dice.name())?;
    Ok(Event::Evict { site, key })
}

pub fn reap(alloc: Global, dice: &mut Dice, site: u8, index: usize) -> Result<Event, Fail> {
    let now = dice.now(index);
    let key = key(alloc, dice.name())?;
    Ok(Event::Reap { site, now, key })
}

/// The bytes that the last set of a key wrote before, but for so many.
fn set_before<'a>(before: &'a [Event], key: &Key, passed: u64) -> Option<&'a ValueBytes> {
    let mut left = passed;
    for event in before.iter().rev() {
        let Event::Command { request, .. } = event else {
            continue;
        };
        match request {
            Request::Store {
                verb: Verb::Set,
                key: own,
                bytes,
                ..
            } if own == key => {
                if left == 0 {
                    return Some(bytes);
                }
                left = left.wrapping_sub(1);
            }
            _ => {}
        }
    }
    None
}

/// Bytes that the site's version of the key may name: mostly those that the last set of it wrote, if there was one.
pub fn fill(alloc: Global, dice: &mut Dice, site: u8, before: &[Event]) -> Result<Event, Fail> {
    let key = key(alloc, dice.name())?;
    let passed = if dice.below(3) == 0 { 1 } else { 0 };
    let bytes = match set_before(before, &key, passed) {
        Some(bytes) => bytes.twin(alloc)?,
        None => ValueBytes::of(dice.bytes().to_vec(alloc)?),
    };
    Ok(Event::Fill { site, key, bytes })
}

/// A parcel for another site, or a send to itself, which is refused.
fn send(dice: &mut Dice, sites: u8, site: u8, addressees: &mut Vec<u8>) -> Result<Event, Fail>
    requires positive { 1 ≤ sites }
{
    let to = dice.site(sites);
    if to != site {
        addressees.push(to)?;
    }
    Ok(Event::Send { site, to })
}

/// Mostly at its addressee, so that most parcels are taken.
fn take(dice: &mut Dice, site: u8, face: u64, addressees: &[u8]) -> Event {
    match addressees.len() as u64 {
        0 => Event::Send { site, to: site },
        sent => {
            let parcel = dice.below(sent) as usize;
            let site = if face == 11 { site } else { addressees[parcel] };
            Event::Take { site, parcel }
        }
    }
}

fn event(
    alloc: Global,
    dice: &mut Dice,
    sites: u8,
    faces: u64,
    index: usize,
    before: &[Event],
    addressees: &mut Vec<u8>,
) -> Result<Event, Fail>
    requires positive { 1 ≤ sites }
{
    let site = dice.site(sites);
    match dice.below(faces.max(1)) {
        23 | 24 | 25 => Ok(Event::Remove { site }),
        0 | 1 | 2 | 3 | 4 | 5 | 16 | 17 => command(alloc, dice, site, index),
        18 | 19 => evict(alloc, dice, site),
        20 | 21 | 22 => fill(alloc, dice, site, before),
        12 | 13 => Ok(Event::Tick {
            site,
            now: dice.now(index),
        }),
        14 | 15 => reap(alloc, dice, site, index),
        6 | 7 => send(dice, sites, site, addressees),
        face => Ok(take(dice, site, face, addressees.as_slice())),
    }
}

fn add_events(
    alloc: Global,
    dice: &mut Dice,
    sites: u8,
    removes: bool,
    events: &mut Vec<Event>,
    addressees: &mut Vec<u8>,
) -> Result<(), Fail>
    requires positive { 1 ≤ sites }
{
    let faces = if removes { 26 } else { 23 };
    for index in 0..EVENTS {
        let before = events.as_slice();
        let next = event(alloc, dice, sites, faces, index, before, addressees)?;
        events.push(next)?;
    }
    add_stats(events, dice, sites)
}

/// In the end each site is asked for its numbers.
pub fn add_stats(events: &mut Vec<Event>, dice: &mut Dice, sites: u8) -> Result<(), Fail> {
    for index in 0..sites {
        events.push(Event::Command {
            site: index.wrapping_add(1),
            now: dice.now(EVENTS),
            request: Request::Stats,
        })?;
    }
    Ok(())
}

/// A schedule of so many sites, which drop deletes or not.
pub fn schedule(
    alloc: Global,
    dice: &mut Dice,
    sites: u8,
    removes: bool,
) -> Result<Vec<Event>, Fail>
    requires positive { 1 ≤ sites }
{
    let mut events = Vec::new(alloc);
    let mut addressees = Vec::new(alloc);
    add_events(alloc, dice, sites, removes, &mut events, &mut addressees)?;
    Ok(events)
}
