//! The clients of a web cache, at one site: some thirty gets for a set, of keys that are asked for by Zipf's law.
ghost use Rattle.std.specs.Prelude.{◌≡◌};

use crate::client::{Client, Talk};
use crate::hall::{Fresh, Hall, Size, lone_site, opened};
use crate::lines::{
    Store, push_end, push_figure, push_number, push_of_key, push_store, push_with_figure,
    push_word, set,
};
use crate::random::Random;
use crate::tables::{LONGEST, Length, Tables};
use anyhow::Result;
use geo_station::{Room, Unopened};
use std::alloc::{AllocError, Global};
use std::hash::RandomState;
use std::marker::Brand;
use std::rt::Clock;
use std::sync::Wait;

/// How many connections there are.
const CONNECTIONS: u64 = 50;

/// How many keys each sets first.
const FIRST: u64 = 400;

/// How often each says something, at the scale of 1.
const TURNS: u64 = 100;

/// The moment at which all happens.
const NOON: u64 = 1_000_000;

/// A maintenance comes after so many passes.
const EVERY: u64 = 3;

/// A client of a web cache.
#[derive(Drop)]
struct Visitor {
    number: u64,
    /// How many keys it set at first.
    filled: u64,
    fills: u64,
    /// How often it says something then.
    turns: u64,
    turn: u64,
}

/// How long a value is: mostly below 500 bytes, with a tail to many KiB.
fn length(random: &mut Random) -> usize {
    let percent = random.below(100);
    let bytes = if percent < 90 {
        random.rank(480).wrapping_add(24)
    } else if percent < 99 {
        random.rank(3_500).wrapping_add(500)
    } else {
        random.rank(60_000).wrapping_add(4_000)
    };
    bytes as usize
}

/// A key that is asked for: one in six was never set.
fn asked<'a>(tables: &'a Tables, random: &mut Random) -> &'a [u8] {
    if random.one_in(6) {
        tables.unknown(random)
    } else {
        tables.frequent(random)
    }
}

/// A get of one key, or of 10 to 100.
fn push_get(
    tables: &Tables,
    random: &mut Random,
    out: &mut Vec<u8>,
    verb: &[u8],
) -> Result<(), AllocError> {
    out.extend_from_slice(verb)?;
    let count = if random.one_in(10) {
        random.within(10, 100)
    } else {
        1
    };
    for _key in 0..count {
        push_word(out, asked(tables, random))?;
    }
    push_end(out)
}

/// A store of a frequent key.
fn push_stored(
    tables: &Tables,
    random: &mut Random,
    out: &mut Vec<u8>,
    verb: &[u8],
) -> Result<(), AllocError> {
    let length = length(random);
    let key = tables.frequent(random);
    let store = Store {
        verb,
        flags: random.below(4),
        ..set(key, tables.value(random, length))
    };
    push_store(out, &store)
}

/// A cas by a number that was once given, or by none.
fn push_cas(tables: &Tables, random: &mut Random, out: &mut Vec<u8>) -> Result<(), AllocError> {
    let key = tables.frequent(random);
    let unique = random.below(30_000).wrapping_mul(256).wrapping_add(1);
    let store = Store {
        verb: b"cas",
        unique: Some(unique),
        ..set(key, tables.value(random, 100))
    };
    push_store(out, &store)
}

/// A few bytes more for a frequent key.
fn push_more(
    tables: &Tables,
    random: &mut Random,
    out: &mut Vec<u8>,
    verb: &[u8],
) -> Result<(), AllocError> {
    let key = tables.frequent(random);
    let store = Store {
        verb,
        ..set(key, tables.value(random, 20))
    };
    push_store(out, &store)
}

/// Writes the key of one of a hundred counters.
fn push_counter(random: &mut Random, out: &mut Vec<u8>) -> Result<(), AllocError> {
    out.extend_from_slice(b" visits:of:page:")?;
    push_number(out, random.rank(100))
}

/// A counter is set, or counted up or down.
fn push_count(random: &mut Random, out: &mut Vec<u8>) -> Result<(), AllocError> {
    if random.one_in(8) {
        out.extend_from_slice(b"set")?;
        push_counter(random, out)?;
        return out.extend_from_slice(b" 0 0 4\r\n9900\r\n");
    }
    out.extend_from_slice(if random.one_in(4) { b"decr" } else { b"incr" })?;
    push_counter(random, out)?;
    push_figure(out, random.below(200))?;
    push_end(out)
}

/// A set without an answer.
fn push_silent(tables: &Tables, random: &mut Random, out: &mut Vec<u8>) -> Result<(), AllocError> {
    let length = length(random);
    let key = tables.frequent(random);
    let store = Store {
        noreply: true,
        ..set(key, tables.value(random, length))
    };
    push_store(out, &store)
}

/// A touch of a frequent key.
fn push_touch(tables: &Tables, random: &mut Random, out: &mut Vec<u8>) -> Result<(), AllocError> {
    let key = tables.frequent(random);
    push_with_figure(out, b"touch", key, random.within(1_000, 90_000))
}

/// One request.
fn push_request(tables: &Tables, random: &mut Random, out: &mut Vec<u8>) -> Result<(), AllocError> {
    match random.below(1_000) {
        0..30 => push_stored(tables, random, out, b"set"),
        30..33 => push_of_key(out, b"delete", tables.frequent(random)),
        33..36 => push_stored(tables, random, out, b"add"),
        36..38 => push_cas(tables, random, out),
        38..48 => push_count(random, out),
        48..50 => push_more(tables, random, out, b"append"),
        50..52 => push_more(tables, random, out, b"prepend"),
        52..56 => push_touch(tables, random, out),
        56..60 => push_get(tables, random, out, b"gat 80000"),
        60..66 => push_get(tables, random, out, b"gets"),
        66..70 => push_silent(tables, random, out),
        _ => push_get(tables, random, out, b"get"),
    }
}

impl Visitor {
    /// Sets some of the keys that it sets at first.
    fn fill(
        &mut self,
        tables: &Tables,
        random: &mut Random,
        out: &mut Vec<u8>,
    ) -> Result<(), AllocError> {
        for _line in 0..random.within(1, 30) {
            let number = self
                .number
                .wrapping_mul(self.fills)
                .wrapping_add(self.filled);
            let length = length(random);
            push_store(out, &set(tables.key(number), tables.value(random, length)))?;
            self.filled = self.filled.wrapping_add(1);
        }
        Ok(())
    }

    /// Three visitors set the longest value when half of what they say is said, and get it somewhat later.
    fn push_longest(
        &self,
        tables: &Tables,
        random: &mut Random,
        out: &mut Vec<u8>,
    ) -> Result<(), AllocError> {
        let key = tables.key(self.number);
        if self.number % 17 != 5 {
            return Ok(());
        }
        let half = self.turns / 2;
        if self.turn == half {
            push_store(out, &set(key, tables.value(random, LONGEST)))?;
        }
        if self.turn == half.wrapping_add(2) {
            push_of_key(out, b"get", key)?;
        }
        Ok(())
    }
}

impl Talk for Visitor {
    fn say(
        &mut self,
        tables: &Tables,
        random: &mut Random,
        _answered: u64,
        out: &mut Vec<u8>,
    ) -> Result<(), AllocError> {
        if self.filled < self.fills {
            return self.fill(tables, random, out);
        }
        if self.turn >= self.turns {
            return Ok(());
        }
        self.turn = self.turn.wrapping_add(1);
        self.push_longest(tables, random, out)?;
        for _line in 0..random.within(1, 30) {
            push_request(tables, random, out)?;
        }
        Ok(())
    }
}

/// The clients.
fn visitors<'a>(
    alloc: Global,
    tables: &'a Tables,
    random: &mut Random,
    fills: u64,
    turns: u64,
) -> Result<Vec<Client<'a, Visitor>>> {
    let mut all = Vec::new(alloc);
    for number in 0..CONNECTIONS {
        let visitor = Visitor {
            number,
            filled: 0,
            fills,
            turns,
            turn: 0,
        };
        all.push(Client::new(alloc, tables, random.split(), visitor))?;
    }
    Ok(all)
}

fn run_named<R: Wait + Clock, L: Room>(
    rt: &R,
    alloc: Global,
    unopened: Unopened,
    seed: u64,
    scale: u64,
) -> Result<u64>
    requires name { unopened.name ≡ L.name }
    requires parts { unopened.parts ≡ L.parts }
    requires table { unopened.table ≡ L.table }
    requires four { unopened.parts ≡ 4 }
{
    let mut random = Random::new(seed);
    let (fills, turns) = if scale == 0 {
        (8, 6)
    } else {
        (FIRST, TURNS.wrapping_mul(scale))
    };
    let tables = Tables::new(
        alloc,
        &mut random,
        CONNECTIONS.wrapping_mul(fills),
        Length::Varied,
    )?;
    let mut hall: Hall<L> = opened(rt, alloc, unopened)?;
    let clients = visitors(alloc, &tables, &mut random, fills, turns)?;
    hall.serve(rt, alloc, NOON, clients, EVERY)?;
    hall.ended(rt, alloc)
}

/// The sum of all that came of it, at a site whose steps are logged or not.
pub fn run<R: Wait + Clock>(
    rt: &R,
    alloc: Global,
    hasher: &RandomState,
    logged: bool,
    seed: u64,
    scale: u64,
) -> Result<u64> {
    let size = Size {
        pages: 64,
        max_records: 1_000_000,
        reap_after: 60,
    };
    let unopened = lone_site(alloc, hasher, size, logged)?.unopened(alloc, 4)?;
    run_named::<R, Brand>(rt, alloc, unopened, seed, scale)
}
