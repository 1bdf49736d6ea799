//! What a send costs: behind few changes it is made of these, however many records there are. No clause speaks of it.
use geo_requests::{Reply, Request};
use geo_site::{Setup, Site};
use geo_versions::Key;
use std::alloc::Global;
use std::hash::RandomState;
use std::rt::Clock;
use std::test::Fail;
use std::time::{Duration, Instant};

/// How often a send is timed.
const TRIES: usize = 20;

/// How many records a site with few has, and one with many: more than it notes changes.
const FEW: usize = 30;

const MANY: usize = 30_000;

/// More records, for a send behind more changes than are noted with what was known after each.
const MORE: usize = 60_000;

/// So many changes of one key.
const BEHIND: usize = 5_000;

/// How many times as long a send may take where there are a thousand times as many records.
const MOST_RATIO: u128 = 20;

/// How many times as long a send behind many changes may take where there are two thousand times as many records.
const MOST_RATIO_BEHIND: u128 = 6;

/// One site of three.
fn opened(alloc: Global, hasher: &RandomState, site: u8) -> Result<Site, Fail> {
    let setup = Setup {
        site,
        sites: 3,
        pages: 15,
        max_records: 200_000,
        reap_after: 60,
        hasher: hasher.clone()?,
    };
    Ok(Site::new(alloc, setup).ok().ok_or("no site")?)
}

/// Deletes the key of a number, which has a record then.
fn delete(alloc: Global, site: &mut Site, number: usize) -> Result<(), Fail> {
    let text = format!(in alloc; "{number}")?;
    let request = Request::Delete {
        key: Key::new(alloc, text.as_bytes())?.ok_or("no key")?,
        noreply: false,
    };
    match site.act(alloc, 100, &request) {
        Reply::NotFound => Ok(()),
        _ => Err("another reply".into()),
    }
}

fn tell(alloc: Global, from: &Site, to: &mut Site, number: u8) -> Result<(), Fail> {
    let parcel = from.send(alloc, number).ok().ok_or("no parcel")?;
    let _taken = to.take(alloc, parcel).ok().ok_or("not taken")?;
    Ok(())
}

/// The second learns all that the first knows, and says so; and the third learns it.
fn spread(alloc: Global, one: &mut Site, two: &mut Site, three: &mut Site) -> Result<(), Fail> {
    tell(alloc, one, two, 2)?;
    tell(alloc, two, one, 1)?;
    tell(alloc, one, three, 3)
}

/// Gives the first site so many records, which the others come to know. It hears so of the second.
fn fill(
    alloc: Global,
    hasher: &RandomState,
    one: &mut Site,
    three: &mut Site,
    records: usize,
) -> Result<(), Fail> {
    for number in 0..records {
        delete(alloc, one, number)?;
    }
    let mut two = opened(alloc, hasher, 2)?;
    spread(alloc, one, &mut two, three)
}

/// How long a send to the second site takes, which has one record.
fn send_time<R: Clock>(rt: &R, alloc: Global, one: &Site) -> Result<Duration, Fail> {
    let start = Instant::now(rt)?;
    let parcel = one.send(alloc, 2).ok().ok_or("no parcel")?;
    let time = start.elapsed(rt)?;
    if parcel.records.as_slice().len() != 1 {
        return Err("not one record".into());
    }
    Ok(time)
}

/// The shortest times of a send behind a change of the site's own, and of one behind a change that it took.
type Times = (Duration, Duration);

/// The times of sends at the first site, where each change is of one key: its own, and the third's at the same time, which wins.
fn times_at<R: Clock>(
    rt: &R,
    alloc: Global,
    one: &mut Site,
    three: &mut Site,
) -> Result<Times, Fail> {
    let mut least = (Duration::from_secs(60), Duration::from_secs(60));
    for _try in 0..TRIES {
        delete(alloc, one, 0)?;
        least.0 = least.0.min(send_time(rt, alloc, one)?);
        delete(alloc, three, 0)?;
        tell(alloc, three, one, 1)?;
        least.1 = least.1.min(send_time(rt, alloc, one)?);
    }
    Ok(least)
}

/// The times of sends at a site of so many records.
fn times<R: Clock>(
    rt: &R,
    alloc: Global,
    hasher: &RandomState,
    records: usize,
) -> Result<Times, Fail> {
    let mut one = opened(alloc, hasher, 1)?;
    let mut three = opened(alloc, hasher, 3)?;
    fill(alloc, hasher, &mut one, &mut three, records)?;
    times_at(rt, alloc, &mut one, &mut three)
}

#[test]
fn a_send_behind_a_change_passes_over_no_other_records(rt: HostRuntime) -> Result<(), Fail> {
    let hasher = RandomState::new(&rt)?;
    let few = times(&rt, rt.alloc(), &hasher, FEW)?;
    let many = times(&rt, rt.alloc(), &hasher, MANY)?;
    let own = few.0.as_nanos().saturating_mul(MOST_RATIO);
    let taken = few.1.as_nanos().saturating_mul(MOST_RATIO);
    assert!(rt; many.0.as_nanos() < own, "{:?} and {:?}", few.0, many.0);
    assert!(rt; many.1.as_nanos() < taken, "{:?} and {:?}", few.1, many.1);
    Ok(())
}

/// The shortest time of a send behind many changes of one key, at a site of so many records.
fn time_behind<R: Clock>(
    rt: &R,
    alloc: Global,
    hasher: &RandomState,
    records: usize,
) -> Result<Duration, Fail> {
    let mut one = opened(alloc, hasher, 1)?;
    let mut three = opened(alloc, hasher, 3)?;
    fill(alloc, hasher, &mut one, &mut three, records)?;
    for _change in 0..BEHIND {
        delete(alloc, &mut one, 0)?;
    }
    let mut least = Duration::from_secs(60);
    for _try in 0..TRIES {
        least = least.min(send_time(rt, alloc, &one)?);
    }
    Ok(least)
}

#[test]
fn a_send_behind_many_changes_passes_over_no_other_records(rt: HostRuntime) -> Result<(), Fail> {
    let hasher = RandomState::new(&rt)?;
    let few = time_behind(&rt, rt.alloc(), &hasher, FEW)?;
    let many = time_behind(&rt, rt.alloc(), &hasher, MORE)?;
    let most = few.as_nanos().saturating_mul(MOST_RATIO_BEHIND);
    assert!(rt; many.as_nanos() < most, "{few:?} and {many:?}");
    Ok(())
}
