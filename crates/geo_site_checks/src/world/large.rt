//! Seeded schedules of two sites over large values, of which a page has one or two chunks, so that stores evict.
use super::dice::Dice;
use super::drawn::add_stats;
use super::seeded::{Worth, add_schedule, names};
use super::{Plan, key};
use geo_lattice::Items;
use geo_requests::{Request, ValueBytes, Verb};
use geo_versions::Key;
use geo_world::Event;
use std::alloc::Global;
use std::hash::RandomState;
use std::test::Fail;

const EVENTS: usize = 10;

const SCHEDULES: u64 = 10;

const PLAN: Plan = Plan {
    sites: 2,
    records: 1000,
    reap_after: 60,
};

/// A store of so many bytes that are alike.
fn store(alloc: Global, verb: Verb, key: Key, byte: u8, length: usize) -> Result<Request, Fail> {
    Ok(Request::Store {
        verb,
        key,
        flags: 0,
        exptime: 0,
        unique: None,
        bytes: ValueBytes::of(vec![in alloc; byte; length]?),
        noreply: false,
    })
}

/// 400,000 to a mebibyte of zeros, or of ones.
fn set(alloc: Global, dice: &mut Dice, key: Key) -> Result<Request, Fail> {
    let length = 400_000 + dice.below(648_577) as usize;
    let byte = dice.below(2) as u8;
    store(alloc, Verb::Set, key, byte, length)
}

fn fetch(alloc: Global, key: Key) -> Result<Request, Fail> {
    let mut keys = Vec::new(alloc);
    keys.push(key)?;
    Ok(Request::Fetch {
        keys: Items::of(keys),
        numbers: false,
    })
}

/// Mostly a store.
fn request(alloc: Global, dice: &mut Dice) -> Result<Request, Fail> {
    let key = key(alloc, dice.name())?;
    match dice.below(6) {
        0 => fetch(alloc, key),
        1 => store(alloc, Verb::Append, key, 0, 100_000),
        _ => set(alloc, dice, key),
    }
}

fn command(alloc: Global, dice: &mut Dice, site: u8) -> Result<Event, Fail> {
    let request = request(alloc, dice)?;
    Ok(Event::Command {
        site,
        now: 100,
        request,
    })
}

/// Mostly at the first site. What it sends is taken by the second, and the other way round.
fn event(alloc: Global, dice: &mut Dice, addressees: &mut Vec<u8>) -> Result<Event, Fail> {
    let site = if dice.below(4) == 0 { 2 } else { 1 };
    let to = 3u8.wrapping_sub(site);
    let last = addressees.last().copied();
    match (dice.below(10), last) {
        (0 | 1, _) => {
            let key = key(alloc, dice.name())?;
            Ok(Event::Evict { site, key })
        }
        (2, _) => {
            addressees.push(to)?;
            Ok(Event::Send { site, to })
        }
        (3, Some(site)) => Ok(Event::Take {
            site,
            parcel: addressees.len().wrapping_sub(1),
        }),
        _ => command(alloc, dice, site),
    }
}

fn add_events(
    alloc: Global,
    dice: &mut Dice,
    events: &mut Vec<Event>,
    addressees: &mut Vec<u8>,
) -> Result<(), Fail> {
    for _ in 0..EVENTS {
        events.push(event(alloc, dice, addressees)?)?;
    }
    add_stats(events, dice, 2)
}

fn schedule(alloc: Global, seed: u64) -> Result<Vec<Event>, Fail> {
    let mut dice = Dice { state: seed };
    let mut events = Vec::new(alloc);
    let mut addressees = Vec::new(alloc);
    add_events(alloc, &mut dice, &mut events, &mut addressees)?;
    Ok(events)
}

fn add_seed(
    alloc: Global,
    hasher: &RandomState,
    seed: u64,
    names: &[Key],
    worth: &mut Worth,
) -> Result<(), Fail> {
    let events = schedule(alloc, seed)?;
    add_schedule(alloc, hasher, &PLAN, false, true, names, &events, worth)
}

/// What the schedules of all seeds were worth.
fn worth_of(alloc: Global, hasher: &RandomState) -> Result<Worth, Fail> {
    let names = names(alloc)?;
    let mut worth = Worth::none();
    for seed in 0..SCHEDULES {
        add_seed(alloc, hasher, seed, &names, &mut worth)?;
    }
    Ok(worth)
}

/// What came too seldom for the schedules to be worth running.
fn lacking(worth: &Worth) -> &'static str {
    if worth.named <= SCHEDULES {
        "named"
    } else if worth.victims <= SCHEDULES / 2 {
        "victims"
    } else if worth.evicted == 0 {
        "evicted"
    } else if worth.taken == 0 {
        "taken"
    } else {
        "nothing"
    }
}

#[test]
fn stores_of_large_values_evict_what_the_plain_program_says(rt: HostRuntime) -> Result<(), Fail> {
    let hasher = RandomState::new(&rt)?;
    let worth = worth_of(rt.alloc(), &hasher)?;
    assert_eq!(rt; lacking(&worth), "nothing");
    Ok(())
}
