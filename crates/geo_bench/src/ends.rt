//! Keys that end while clients touch them, whose bytes come in crumbs.
ghost use Rattle.std.specs.Prelude.{◌≡◌};

use crate::client::{Client, Talk};
use crate::hall::{Fresh, Hall, Size, new_site, opened};
use crate::lines::{Store, push_end, push_of_key, push_store, push_with_figure, push_word, set};
use crate::random::Random;
use crate::tables::{Length, Tables};
use anyhow::Result;
use geo_station::{Room, Unopened};
use std::alloc::{AllocError, Global};
use std::hash::RandomState;
use std::marker::Brand;
use std::rt::Clock;
use std::sync::Wait;

/// How many connections there are.
const CONNECTIONS: u64 = 10;

/// How many keys each sets first.
const FIRST: u64 = 2_000;

/// How many requests each makes a second, at the scale of 1: 14 of all are 3 sets, 3 touches, 2 gats and 6 gets.
const REQUESTS: u64 = 14;

/// How many seconds it takes.
const SECONDS: u64 = 120;

/// The moment at which it begins.
const NOON: u64 = 1_000_000;

/// How often the site is maintained a second.
const MAINTENANCES: u64 = 10;

/// How many keys the lines name by which keys end at once, and the longest of them.
const MANY: u64 = 1_000;

const MOST: u64 = 6_500;

/// A client for a second.
#[derive(Drop)]
struct Toucher {
    /// How many keys it sets, from this one on.
    first: u64,
    fills: u64,
    /// How many other requests it makes.
    requests: u64,
    /// How many keys end at once by its first line.
    ending: u64,
}

/// Sets a key that ends in 30 to 600 seconds.
fn push_ending(
    tables: &Tables,
    random: &mut Random,
    key: &[u8],
    out: &mut Vec<u8>,
) -> Result<(), AllocError> {
    let length = random.within(8, 60) as usize;
    let store = Store {
        exptime: random.within(30, 600),
        ..set(key, tables.value(random, length))
    };
    push_store(out, &store)
}

/// Writes the end of a get and touch of some keys.
fn push_touched(tables: &Tables, random: &mut Random, out: &mut Vec<u8>) -> Result<(), AllocError> {
    for _key in 0..random.within(1, 4) {
        push_word(out, tables.any(random))?;
    }
    push_end(out)
}

/// One request.
fn push_request(tables: &Tables, random: &mut Random, out: &mut Vec<u8>) -> Result<(), AllocError> {
    let key = tables.any(random);
    match random.below(REQUESTS) {
        0..3 => push_ending(tables, random, key, out),
        3..6 => push_with_figure(out, b"touch", key, random.within(1, 600)),
        6..8 => {
            out.extend_from_slice(if random.one_in(2) {
                b"gat 30"
            } else {
                b"gat 90"
            })?;
            push_touched(tables, random, out)
        }
        _ => push_of_key(out, b"get", key),
    }
}

impl Toucher {
    /// Sets keys.
    fn fill(
        &mut self,
        tables: &Tables,
        random: &mut Random,
        out: &mut Vec<u8>,
    ) -> Result<(), AllocError> {
        for _line in 0..self.fills.min(40) {
            push_ending(tables, random, tables.key(self.first), out)?;
            self.first = self.first.wrapping_add(1);
            self.fills = self.fills.wrapping_sub(1);
        }
        Ok(())
    }

    /// Has keys end at once.
    fn end(
        &mut self,
        tables: &Tables,
        random: &mut Random,
        out: &mut Vec<u8>,
    ) -> Result<(), AllocError> {
        let first = random.below(tables.count());
        out.extend_from_slice(b"gat -1")?;
        for number in 0..self.ending {
            push_word(out, tables.key(first.wrapping_add(number)))?;
        }
        self.ending = 0;
        push_end(out)
    }
}

impl Talk for Toucher {
    fn say(
        &mut self,
        tables: &Tables,
        random: &mut Random,
        _answered: u64,
        out: &mut Vec<u8>,
    ) -> Result<(), AllocError> {
        if self.fills > 0 {
            return self.fill(tables, random, out);
        }
        if self.ending > 0 {
            return self.end(tables, random, out);
        }
        for _line in 0..self.requests.min(5) {
            push_request(tables, random, out)?;
            self.requests = self.requests.wrapping_sub(1);
        }
        Ok(())
    }
}

/// How many keys end at once in a second: some in each third, and many in two.
fn ending_in(second: u64, number: u64) -> u64 {
    match (second % 40, number) {
        (37, 3) => MOST,
        (_, 0) if second % 3 == 1 => MANY,
        _ => 0,
    }
}

/// The clients of a second.
fn touchers<'a>(
    alloc: Global,
    tables: &'a Tables,
    random: &mut Random,
    second: u64,
    scale: u64,
) -> Result<Vec<Client<'a, Toucher>>> {
    let mut all = Vec::new(alloc);
    for number in 0..CONNECTIONS {
        let toucher = Toucher {
            first: 0,
            fills: 0,
            requests: REQUESTS.wrapping_mul(scale),
            ending: ending_in(second, number),
        };
        all.push(Client::new(alloc, tables, random.split(), toucher).in_crumbs())?;
    }
    Ok(all)
}

/// The clients that set all keys.
fn fillers<'a>(
    alloc: Global,
    tables: &'a Tables,
    random: &mut Random,
) -> Result<Vec<Client<'a, Toucher>>> {
    let fills = tables.count() / CONNECTIONS;
    let mut all = Vec::new(alloc);
    for number in 0..CONNECTIONS {
        let toucher = Toucher {
            first: number.wrapping_mul(fills),
            fills,
            requests: 0,
            ending: 0,
        };
        all.push(Client::new(alloc, tables, random.split(), toucher))?;
    }
    Ok(all)
}

fn run_named<R: Wait + Clock, L: Room>(
    rt: &R,
    alloc: Global,
    unopened: Unopened,
    seed: u64,
    scale: u64,
) -> Result<u64>
    requires name { unopened.name ≡ L.name }
    requires parts { unopened.parts ≡ L.parts }
    requires table { unopened.table ≡ L.table }
    requires four { unopened.parts ≡ 4 }
{
    let mut random = Random::new(seed);
    let (first, seconds) = if scale == 0 {
        (20, 5)
    } else {
        (FIRST, SECONDS)
    };
    let keys = CONNECTIONS.wrapping_mul(first);
    let tables = Tables::new(alloc, &mut random, keys, Length::Nine)?;
    let mut hall: Hall<L> = opened(rt, alloc, unopened)?;
    let clients = fillers(alloc, &tables, &mut random)?;
    hall.serve(rt, alloc, NOON, clients, 0)?;
    for second in 1..seconds {
        let moment = NOON.wrapping_add(second);
        let clients = touchers(alloc, &tables, &mut random, second, scale.max(1))?;
        hall.serve(rt, alloc, moment, clients, 0)?;
        for _time in 0..MAINTENANCES {
            hall.maintain(rt, alloc, moment)?;
        }
    }
    hall.ended(rt, alloc)
}

/// The sum of all that came of it.
pub fn run<R: Wait + Clock>(
    rt: &R,
    alloc: Global,
    hasher: &RandomState,
    seed: u64,
    scale: u64,
) -> Result<u64> {
    let size = Size {
        pages: 15,
        max_records: 100_000,
        reap_after: 2,
    };
    let unopened = new_site(alloc, hasher, size, 1, 1)?.unopened(alloc, 4)?;
    run_named::<R, Brand>(rt, alloc, unopened, seed, scale)
}
