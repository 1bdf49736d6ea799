//! Three sites that are asked by eight seats each, and the audit of what was done there.
ghost use Rattle.std.specs.Prelude.{◌≡◌, true};
ghost use Rattle.geo_audit.specs.Verdicts.{AreInOrder};

use crate::hall::{Size, new_site};
use crate::place::{Opens, Place, opened_beside};
use crate::random::Random;
use crate::requests::{delete, get, incr, store};
use crate::sites::{Ask, Beside, Sites, Told};
use crate::sum::Sum;
use crate::tables::{Length, Tables};
use anyhow::{Result, anyhow};
use geo_audit::{Verdict, audit};
use geo_delta::Parcel;
use geo_grammar::{Request, Verb};
use geo_history::History;
use geo_station::{Room, Unopened};
use std::alloc::Global;
use std::hash::RandomState;
use std::marker::Brand;
use std::sync::Wait;

/// How many keys there are.
const KEYS: u64 = 2_000;

/// How many steps are made, at the scale of 1.
const STEPS: u64 = 1_000;

/// The second three sites make one in so many of the steps.
const FEWER: u64 = 4;

/// Their histories begin anew after so many steps.
const ERA: u64 = 5_000;

/// A request, of which one in eight counts a number up.
fn asked(alloc: Global, tables: &Tables, random: &mut Random) -> Result<Request> {
    let key = tables.frequent(random);
    let length = random.within(8, 200) as usize;
    match random.below(40) {
        0..20 => get(alloc, key),
        20..30 => store(alloc, Verb::Set, key, tables.value(random, length)),
        30..32 => store(alloc, Verb::Append, key, tables.value(random, 10)),
        32..35 => delete(alloc, key),
        35 => store(alloc, Verb::Set, tables.unknown(random), b"900"),
        _ => incr(alloc, tables.unknown(random), random.below(100)),
    }
}

/// A site makes a parcel for the one behind it, or for the other.
fn send<R: Wait, S: Sites>(
    rt: &R,
    sites: &mut S,
    parcels: &mut Vec<Parcel>,
    at: u8,
    is_behind: bool,
) -> Result<()> {
    let to = match (at, is_behind) {
        (1, true) => 2,
        (1, false) => 3,
        (2, true) => 3,
        (2, false) => 1,
        (_, true) => 1,
        (_, false) => 2,
    };
    let Told::Parcel(parcel) = sites.ask(rt, at, Ask::Send(to))? else {
        return Err(anyhow!("no parcel"));
    };
    parcels.push(parcel)?;
    Ok(())
}

/// The last parcel that is on the way comes to the site that it is for.
fn take<R: Wait, S: Sites>(rt: &R, sites: &mut S, parcels: &mut Vec<Parcel>) -> Result<()> {
    if let Some(parcel) = parcels.pop() {
        sites.ask(rt, parcel.to, Ask::Take(parcel))?;
    }
    Ok(())
}

/// One step at some site.
fn step<R: Wait, S: Sites>(
    rt: &R,
    alloc: Global,
    sites: &mut S,
    parcels: &mut Vec<Parcel>,
    tables: &Tables,
    random: &mut Random,
) -> Result<()> {
    let at = match random.below(3) {
        0 => 1,
        1 => 2,
        _ => 3,
    };
    match random.below(500) {
        0 => {
            sites.ask(rt, at, Ask::Maintain)?;
        }
        1..3 => send(rt, sites, parcels, at, random.one_in(2))?,
        3..5 => take(rt, sites, parcels)?,
        _ => {
            sites.ask(rt, at, Ask::Act(asked(alloc, tables, random)?))?;
        }
    }
    Ok(())
}

/// All steps, with new eras after so many.
fn steps<R: Wait, S: Sites>(
    rt: &R,
    alloc: Global,
    sites: &mut S,
    tables: &Tables,
    measure: Measure,
) -> Result<()> {
    let mut random = measure.random;
    let mut parcels = Vec::new(alloc);
    for number in 0..measure.steps {
        step(rt, alloc, sites, &mut parcels, tables, &mut random)?;
        if number % 500 == 499 {
            for at in 1..4u8 {
                sites.ask(rt, at, Ask::Renew(measure.era))?;
            }
        }
    }
    Ok(())
}

/// All steps, the audit of what was done by rising number of the site, and the sum of what came of all.
fn all<R: Wait, S: Sites>(
    rt: &R,
    alloc: Global,
    sites: S,
    tables: &Tables,
    measure: Measure,
) -> Result<u64> {
    let mut sites = sites;
    steps(rt, alloc, &mut sites, tables, measure)?;
    let mut sum = Sum::new();
    for at in 1..4u8 {
        if let Told::Total(total) = sites.ask(rt, at, Ask::Total)? {
            sum.add(total);
        }
    }
    let mut histories = Vec::new(alloc);
    sites.close(&mut histories)?;
    audited(alloc, histories.as_slice(), sum)
}

/// Whether they are those of the sites from 1 on, in order.
fn are_in_order(histories: &[History]) -> bool
    ensures { result ≡ true → AreInOrder histories.now }
{
    for at in 0..histories.len() {
        if histories[at].setup.site as usize != at + 1 {
            return false;
        }
    }
    true
}

/// Takes in what an audit finds.
fn add_verdict(sum: &mut Sum, verdict: &Verdict) {
    match verdict {
        Verdict::Sound(events) => {
            sum.add(1);
            sum.add(events.len() as u64);
        }
        Verdict::Stuck(counts) => {
            sum.add(2);
            for count in counts.iter() {
                sum.add(*count as u64);
            }
        }
        Verdict::Wrong { site, step } => {
            sum.add(3);
            sum.add(u64::from(*site));
            sum.add(*step as u64);
        }
        Verdict::LaterEra { site } => {
            sum.add(4);
            sum.add(u64::from(*site));
        }
    }
}

/// Audits what was done, and gives the sum of all.
fn audited(alloc: Global, histories: &[History], sum: Sum) -> Result<u64> {
    let mut sum = sum;
    for history in histories.iter() {
        sum.add(u64::from(history.opening.era));
        sum.add(history.steps.len() as u64);
    }
    if !are_in_order(histories) {
        return Err(anyhow!("no order"));
    }
    add_verdict(&mut sum, &audit(alloc, histories)?);
    Ok(sum.total())
}

/// What is to be done.
#[derive(Clone, Copy)]
struct Measure {
    random: Random,
    steps: u64,
    era: u64,
}

/// What happens at three sites, whatever they are and are opened from.
fn run_opened<R: Wait, U: Drop, A: Opens<U>, B: Opens<U>, C: Opens<U>>(
    rt: &R,
    alloc: Global,
    first: U,
    second: U,
    third: U,
    tables: &Tables,
    measure: Measure,
) -> Result<u64>
    requires first { A.fits first }
    requires second { B.fits second }
    requires third { C.fits third }
{
    let low: Beside<A, B> = opened_beside(rt, alloc, first, second, 8, 2)?;
    let high = C::opened(rt, alloc, third, 8)?;
    let sites = Beside {
        low,
        high,
        first_high: 3,
    };
    all(rt, alloc, sites, tables, measure)
}

/// The same at three stations, which a type each stands for.
fn run_named<R: Wait, A: Room, B: Room, C: Room>(
    rt: &R,
    alloc: Global,
    first: Unopened,
    second: Unopened,
    third: Unopened,
    tables: &Tables,
    measure: Measure,
) -> Result<u64>
    requires first_name { first.name ≡ A.name }
    requires first_parts { first.parts ≡ A.parts }
    requires first_table { first.table ≡ A.table }
    requires second_name { second.name ≡ B.name }
    requires second_parts { second.parts ≡ B.parts }
    requires second_table { second.table ≡ B.table }
    requires third_name { third.name ≡ C.name }
    requires third_parts { third.parts ≡ C.parts }
    requires third_table { third.table ≡ C.table }
{
    run_opened::<R, Unopened, Place<A>, Place<B>, Place<C>>(
        rt, alloc, first, second, third, tables, measure,
    )
}

/// One of the three sites, of eight seats.
fn site_of(alloc: Global, hasher: &RandomState, number: u8) -> Result<Unopened> {
    let size = Size {
        pages: 15,
        max_records: 10_000,
        reap_after: 60,
    };
    new_site(alloc, hasher, size, number, 3)?.unopened(alloc, 8)
}

/// The sum of what came of it at three sites.
fn run_at<R: Wait>(
    rt: &R,
    alloc: Global,
    hasher: &RandomState,
    tables: &Tables,
    measure: Measure,
) -> Result<u64> {
    let first = site_of(alloc, hasher, 1)?;
    let second = site_of(alloc, hasher, 2)?;
    let third = site_of(alloc, hasher, 3)?;
    run_named::<R, Brand, Brand, Brand>(rt, alloc, first, second, third, tables, measure)
}

/// The sum of all that came of it, at three sites, and at three whose histories begin anew.
pub fn run<R: Wait>(
    rt: &R,
    alloc: Global,
    hasher: &RandomState,
    seed: u64,
    scale: u64,
) -> Result<u64> {
    let mut random = Random::new(seed);
    let (keys, steps) = if scale == 0 {
        (50, 400)
    } else {
        (KEYS, STEPS.wrapping_mul(scale))
    };
    let tables = Tables::new(alloc, &mut random, keys, Length::Varied)?;
    let first = Measure {
        random: random.split(),
        steps,
        era: u64::MAX,
    };
    let second = Measure {
        random: random.split(),
        steps: steps / FEWER,
        era: ERA,
    };
    let sound = run_at(rt, alloc, hasher, &tables, first)?;
    let later = run_at(rt, alloc, hasher, &tables, second)?;
    Ok(sound.rotate_left(1) ^ later)
}
