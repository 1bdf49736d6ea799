//! Clients of a site whose pages hold a part of what they store.
ghost use Rattle.std.specs.Prelude.{◌≡◌};

use crate::client::{Client, Talk};
use crate::hall::{Fresh, Hall, Size, new_site, opened};
use crate::lines::{push_of_key, push_store, set};
use crate::random::Random;
use crate::tables::{Length, Tables};
use anyhow::Result;
use geo_station::{Room, Unopened};
use std::alloc::{AllocError, Global};
use std::hash::RandomState;
use std::marker::Brand;
use std::rt::Clock;
use std::sync::Wait;

/// How many connections there are.
const CONNECTIONS: u64 = 20;

/// How many keys there are.
const KEYS: u64 = 40_000;

/// How often each client says something, at the scale of 1.
const TURNS: u64 = 1_000;

/// The moment at which all happens.
const NOON: u64 = 1_000_000;

/// A maintenance comes after so many passes.
const EVERY: u64 = 10;

/// How many bytes `STORED` and the end of its line have.
const STORED: u64 = 8;

/// How many bytes come in answer to a get that finds nothing.
const MISS: u64 = 5;

/// A client that sets what it didn't find.
#[derive(Drop)]
struct Reader {
    /// How often it says something, and how often it did.
    turns: u64,
    turn: u64,
    /// The number of the key that it asked for last, and how many bytes of the answer come before that get's.
    asked: u64,
    before: u64,
}

/// How long a value is: most are short in the first quarter of a run and the third, and long in the others.
fn length(random: &mut Random, is_long: bool) -> usize {
    let bytes = if random.one_in(100) {
        random.rank(200_000).wrapping_add(4_000)
    } else if is_long {
        random.rank(4_000).wrapping_add(300)
    } else {
        random.rank(512).wrapping_add(64)
    };
    bytes as usize
}

/// The number of one of so many keys.
fn number(random: &mut Random, keys: u64) -> u64 {
    if random.one_in(2) {
        random.rank(keys).wrapping_mul(7_919)
    } else {
        random.below(keys)
    }
}

impl Reader {
    /// Whether values are long now.
    fn is_long(&self) -> bool {
        let quarter = self
            .turn
            .wrapping_mul(4)
            .checked_div(self.turns)
            .unwrap_or(0);
        quarter & 1 == 1
    }

    /// Sets the key that was asked for last and not found, mostly, or now and then another.
    fn push_set(
        &mut self,
        tables: &Tables,
        random: &mut Random,
        is_missed: bool,
        out: &mut Vec<u8>,
    ) -> Result<(), AllocError> {
        self.before = 0;
        let percent = random.below(100);
        let is_set = if is_missed {
            percent < 70
        } else {
            percent < 30
        };
        if !is_set {
            return Ok(());
        }
        let number = if is_missed {
            self.asked
        } else {
            number(random, tables.count())
        };
        let length = length(random, self.is_long());
        self.before = STORED;
        push_store(out, &set(tables.key(number), tables.value(random, length)))
    }
}

impl Talk for Reader {
    fn say(
        &mut self,
        tables: &Tables,
        random: &mut Random,
        answered: u64,
        out: &mut Vec<u8>,
    ) -> Result<(), AllocError> {
        if self.turn >= self.turns {
            return Ok(());
        }
        self.turn = self.turn.wrapping_add(1);
        let is_missed = answered == self.before.wrapping_add(MISS);
        self.push_set(tables, random, is_missed, out)?;
        self.asked = number(random, tables.count());
        push_of_key(out, b"get", tables.key(self.asked))
    }
}

/// The clients.
fn readers<'a>(
    alloc: Global,
    tables: &'a Tables,
    random: &mut Random,
    turns: u64,
) -> Result<Vec<Client<'a, Reader>>> {
    let mut all = Vec::new(alloc);
    for _reader in 0..CONNECTIONS {
        let reader = Reader {
            turns,
            turn: 0,
            asked: 0,
            before: 0,
        };
        all.push(Client::new(alloc, tables, random.split(), reader))?;
    }
    Ok(all)
}

/// What came of it at one site.
fn run_named<R: Wait + Clock, L: Room>(
    rt: &R,
    alloc: Global,
    unopened: Unopened,
    tables: &Tables,
    random: &mut Random,
    turns: u64,
) -> Result<u64>
    requires name { unopened.name ≡ L.name }
    requires parts { unopened.parts ≡ L.parts }
    requires table { unopened.table ≡ L.table }
    requires four { unopened.parts ≡ 4 }
{
    let mut hall: Hall<L> = opened(rt, alloc, unopened)?;
    let clients = readers(alloc, tables, random, turns)?;
    hall.serve(rt, alloc, NOON, clients, EVERY)?;
    hall.ended(rt, alloc)
}

/// The sum of all that came of it at a site of so many pages.
fn run_at<R: Wait + Clock>(
    rt: &R,
    alloc: Global,
    hasher: &RandomState,
    pages: u32,
    tables: &Tables,
    random: &mut Random,
    turns: u64,
) -> Result<u64> {
    let size = Size {
        pages,
        max_records: 1_000_000,
        reap_after: 60,
    };
    let unopened = new_site(alloc, hasher, size, 1, 1)?.unopened(alloc, 4)?;
    run_named::<R, Brand>(rt, alloc, unopened, tables, random, turns)
}

/// The sum of all that came of it at two sites, of which one has more pages.
pub fn run<R: Wait + Clock>(
    rt: &R,
    alloc: Global,
    hasher: &RandomState,
    seed: u64,
    scale: u64,
) -> Result<u64> {
    let mut random = Random::new(seed);
    let (keys, turns) = if scale == 0 {
        (500, 40)
    } else {
        (KEYS, TURNS.wrapping_mul(scale))
    };
    let tables = Tables::new(alloc, &mut random, keys, Length::Varied)?;
    let few = run_at(rt, alloc, hasher, 15, &tables, &mut random, turns)?;
    let many = run_at(rt, alloc, hasher, 60, &tables, &mut random, turns)?;
    Ok(few.rotate_left(1) ^ many)
}
