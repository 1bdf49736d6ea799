//! Four sites that tell each other what was written at each.
ghost use Rattle.std.specs.Prelude.{◌≡◌};

use crate::hall::{Size, new_site};
use crate::place::{Opens, Place, opened_beside, parcel_of};
use crate::random::Random;
use crate::requests::{delete, store, touch};
use crate::sites::{Ask, Beside, Sites, Told};
use crate::sum::Sum;
use crate::tables::{Length, Tables};
use anyhow::{Result, anyhow};
use geo_grammar::{Request, Verb};
use geo_station::{Room, Unopened};
use std::alloc::Global;
use std::hash::RandomState;
use std::marker::Brand;
use std::sync::Wait;

/// How many keys there are, and how many of them are set before the rounds.
const KEYS: u64 = 30_000;

const FIRST: u64 = 20_000;

/// How many rounds there are, at the scale of 1, and how many writes come before each.
const ROUNDS: u64 = 10;

const WRITES: u64 = 500;

/// How many writes come before each of three rounds: more than a site's ring of changes holds.
const MANY: u64 = 10_000;

/// The sites that tell each other in a round, in turn.
const PAIRS: &[(u8, u8)] = &[(1, 2), (1, 3), (1, 4), (2, 3), (2, 4), (3, 4)];

/// A write of a key: mostly a set of a short value.
fn written(alloc: Global, tables: &Tables, random: &mut Random) -> Result<Request> {
    let key = if random.one_in(2) {
        tables.any(random)
    } else {
        tables.frequent(random)
    };
    match random.below(100) {
        0..8 => delete(alloc, key),
        8..16 => touch(alloc, key, random.number()),
        _ => {
            let length = random.within(8, 100) as usize;
            store(alloc, Verb::Set, key, tables.value(random, length))
        }
    }
}

/// One of the four sites.
fn any_site(random: &mut Random) -> u8 {
    match random.number() & 3 {
        0 => 1,
        1 => 2,
        2 => 3,
        _ => 4,
    }
}

/// So many writes, each at some site.
fn write<R: Wait, S: Sites>(
    rt: &R,
    alloc: Global,
    sites: &mut S,
    tables: &Tables,
    random: &mut Random,
    count: u64,
) -> Result<()> {
    for _write in 0..count {
        let request = written(alloc, tables, random)?;
        sites.ask(rt, any_site(random), Ask::Act(request))?;
    }
    Ok(())
}

/// Sets the first keys.
fn fill<R: Wait, S: Sites>(
    rt: &R,
    alloc: Global,
    sites: &mut S,
    tables: &Tables,
    random: &mut Random,
    count: u64,
) -> Result<()> {
    for number in 0..count {
        let bytes = tables.value(random, 50);
        let request = store(alloc, Verb::Set, tables.key(number), bytes)?;
        sites.ask(rt, any_site(random), Ask::Act(request))?;
    }
    Ok(())
}

/// A site takes the parcel of a frame.
fn arrive<R: Wait, S: Sites>(
    rt: &R,
    alloc: Global,
    sites: &mut S,
    to: u8,
    frame: &[u8],
) -> Result<()> {
    sites.ask(rt, to, Ask::Take(parcel_of(alloc, frame)?))?;
    Ok(())
}

/// One site tells another. A frame in ten is lost, one in ten comes late, and one in twenty twice.
fn tell<R: Wait, S: Sites>(
    rt: &R,
    alloc: Global,
    sites: &mut S,
    random: &mut Random,
    from: u8,
    to: u8,
) -> Result<()> {
    let Told::Frame(frame) = sites.ask(rt, from, Ask::Frame(to))? else {
        return Err(anyhow!("no frame"));
    };
    match random.below(20) {
        0 | 1 => {}
        2 | 3 => {
            sites.ask(rt, to, Ask::Delay(frame))?;
        }
        4 => {
            arrive(rt, alloc, sites, to, frame.as_slice())?;
            arrive(rt, alloc, sites, to, frame.as_slice())?;
        }
        _ => arrive(rt, alloc, sites, to, frame.as_slice())?,
    }
    Ok(())
}

/// Each site tells each other, and is maintained.
fn round<R: Wait, S: Sites>(
    rt: &R,
    alloc: Global,
    sites: &mut S,
    random: &mut Random,
) -> Result<()> {
    for at in 1..5u8 {
        sites.ask(rt, at, Ask::TakeLate)?;
    }
    for pair in PAIRS.iter() {
        let (one, other) = *pair;
        tell(rt, alloc, sites, random, one, other)?;
        tell(rt, alloc, sites, random, other, one)?;
    }
    for at in 1..5u8 {
        sites.ask(rt, at, Ask::Maintain)?;
    }
    Ok(())
}

/// So many rounds, before each of which so much is written.
fn rounds<R: Wait, S: Sites>(
    rt: &R,
    alloc: Global,
    sites: &mut S,
    tables: &Tables,
    random: &mut Random,
    amount: Amount,
) -> Result<()> {
    for _round in 0..amount.rounds {
        write(rt, alloc, sites, tables, random, amount.writes)?;
        round(rt, alloc, sites, random)?;
    }
    Ok(())
}

/// All that happens.
fn all<R: Wait, S: Sites>(rt: &R, alloc: Global, sites: S, measure: Measure) -> Result<u64> {
    let mut sites = sites;
    let Measure {
        prefix,
        seed,
        scale,
    } = measure;
    let is_small = scale == 0;
    let mut random = Random::new(seed);
    let keys = if is_small { 300 } else { KEYS };
    let (first, writes, many) = if is_small {
        (100, 20, 60)
    } else {
        (FIRST, WRITES, MANY)
    };
    let tables = Tables::under(alloc, &mut random, prefix, keys, Length::Varied)?;
    fill(rt, alloc, &mut sites, &tables, &mut random, first)?;
    let quiet = Amount {
        rounds: 3,
        writes: 0,
    };
    rounds(rt, alloc, &mut sites, &tables, &mut random, quiet)?;
    let usual = Amount {
        rounds: ROUNDS.wrapping_mul(scale).max(3),
        writes,
    };
    rounds(rt, alloc, &mut sites, &tables, &mut random, usual)?;
    let busy = Amount {
        rounds: 3,
        writes: many,
    };
    rounds(rt, alloc, &mut sites, &tables, &mut random, busy)?;
    let flush = Request::FlushAll {
        delay: 0,
        noreply: false,
    };
    sites.ask(rt, any_site(&mut random), Ask::Act(flush))?;
    let last = Amount { rounds: 4, writes };
    rounds(rt, alloc, &mut sites, &tables, &mut random, last)?;
    let mut sum = Sum::new();
    for at in 1..5u8 {
        if let Told::Total(total) = sites.ask(rt, at, Ask::Total)? {
            sum.add(total);
        }
    }
    Ok(sum.total())
}

/// How many rounds, and how many writes come before each.
#[derive(Clone, Copy)]
struct Amount {
    rounds: u64,
    writes: u64,
}

/// How the keys begin, from which number all follows, and how much is to be done.
#[derive(Clone, Copy)]
struct Measure {
    prefix: &'static str,
    seed: u64,
    scale: u64,
}

/// What happens at four sites, whatever they are and are opened from.
fn run_opened<R: Wait, U: Drop, A: Opens<U>, B: Opens<U>, C: Opens<U>, D: Opens<U>>(
    rt: &R,
    alloc: Global,
    first: U,
    second: U,
    third: U,
    last: U,
    measure: Measure,
) -> Result<u64>
    requires first { A.fits first }
    requires second { B.fits second }
    requires third { C.fits third }
    requires last { D.fits last }
{
    let low: Beside<A, B> = opened_beside(rt, alloc, first, second, 2, 2)?;
    let high: Beside<C, D> = opened_beside(rt, alloc, third, last, 2, 4)?;
    let sites = Beside {
        low,
        high,
        first_high: 3,
    };
    all(rt, alloc, sites, measure)
}

/// The same at four stations, which a type each stands for.
fn run_named<R: Wait, A: Room, B: Room, C: Room, D: Room>(
    rt: &R,
    alloc: Global,
    first: Unopened,
    second: Unopened,
    third: Unopened,
    last: Unopened,
    measure: Measure,
) -> Result<u64>
    requires first_name { first.name ≡ A.name }
    requires first_parts { first.parts ≡ A.parts }
    requires first_table { first.table ≡ A.table }
    requires second_name { second.name ≡ B.name }
    requires second_parts { second.parts ≡ B.parts }
    requires second_table { second.table ≡ B.table }
    requires third_name { third.name ≡ C.name }
    requires third_parts { third.parts ≡ C.parts }
    requires third_table { third.table ≡ C.table }
    requires last_name { last.name ≡ D.name }
    requires last_parts { last.parts ≡ D.parts }
    requires last_table { last.table ≡ D.table }
{
    run_opened::<R, Unopened, Place<A>, Place<B>, Place<C>, Place<D>>(
        rt, alloc, first, second, third, last, measure,
    )
}

/// The sum of all that came of it, with keys that begin so.
pub fn run<R: Wait>(
    rt: &R,
    alloc: Global,
    hasher: &RandomState,
    prefix: &'static str,
    seed: u64,
    scale: u64,
) -> Result<u64> {
    let size = Size {
        pages: 15,
        max_records: 40_000,
        reap_after: 60,
    };
    let first = new_site(alloc, hasher, size, 1, 4)?.unopened(alloc, 2)?;
    let second = new_site(alloc, hasher, size, 2, 4)?.unopened(alloc, 2)?;
    let third = new_site(alloc, hasher, size, 3, 4)?.unopened(alloc, 2)?;
    let last = new_site(alloc, hasher, size, 4, 4)?.unopened(alloc, 2)?;
    let measure = Measure {
        prefix,
        seed,
        scale,
    };
    run_named::<R, Brand, Brand, Brand, Brand>(rt, alloc, first, second, third, last, measure)
}
