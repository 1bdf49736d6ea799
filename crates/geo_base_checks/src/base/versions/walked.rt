//! What versions tell of what ended, and what a map of records tells that is walked and kept as it was before there were columns.
ghost use Rattle.std.specs.Prelude.{◌≡◌};
ghost use Rattle.geo_records.specs.Operations.{above, is_above, version_in};
ghost use Rattle.geo_versions.specs.Records.{has_ended, is_old, rec_above, rec_means, rec_remaining};

use crate::base::random::Random;
use crate::base::versions::body;
use geo_lattice::{Bottom, Change, Exact, Lattice, Lww, Pair, Test, Twin};
use geo_maps::MapOf;
use geo_records::shown_version;
use geo_stamp::Stamp;
use geo_versions::{Body, Key, Rec, Versions};
use std::alloc::{AllocError, Global};
use std::hash::RandomState;
use std::process::Abort;
use std::test::Fail;

fn is_known<V: Exact + Drop>(horizon: u64, register: &Lww<Stamp, V>) -> bool
    ensures { result ≡ is_old horizon register.now.register }
{
    match register.get() {
        None => true,
        Some((stamp, _)) => stamp.time() <= horizon,
    }
}

/// Drops the records without a version of which every site knows all.
#[derive(Clone, Copy)]
struct Remaining {
    horizon: u64,
}

impl Change<Rec> for Remaining {
    ghost changed = { λ c r. rec_remaining c.horizon r };

    fn change(&self, value: &mut Rec) {
        if shown_version(value).is_none()
            && is_known(self.horizon, &value.left)
            && is_known(self.horizon, &value.right)
        {
            *value = Rec::bottom();
        }
    }
}

/// Whether an operation with this stamp counts: where it is above the floor.
fn counts(floor: Option<Stamp>, stamp: Stamp) -> bool
    ensures { result ≡ is_above floor stamp }
{
    match floor {
        None => true,
        Some(floor) => floor < stamp,
    }
}

fn drop_below<V: Exact + Drop>(floor: Option<Stamp>, register: &mut Lww<Stamp, V>)
    ensures { register.new.register ≡ above floor register.old.register }
{
    if let Some((stamp, _)) = register.get() {
        if !counts(floor, *stamp) {
            *register = Lww::none();
        }
    }
}

/// Drops the registers that are not above the floor.
#[derive(Clone, Copy)]
struct AboveFloor {
    floor: Option<Stamp>,
}

impl Change<Rec> for AboveFloor {
    ghost changed = { λ c r. rec_above c.floor r };

    fn change(&self, value: &mut Rec) {
        drop_below(self.floor, &mut value.left);
        drop_below(self.floor, &mut value.right);
    }
}

/// The versions that are writes of a site and ended before a moment, in seconds.
#[derive(Clone, Copy)]
struct Ended {
    site: u8,
    before: u64,
}

impl Test<Rec> for Ended {
    ghost passing = { λ t r. has_ended t.site t.before (version_in (rec_means r)) };

    fn passes(&self, value: &Rec) -> bool {
        match shown_version(value) {
            None => false,
            Some(version) => {
                version.stamp.site() == self.site
                    && version.expiry != 0
                    && version.expiry < self.before
            }
        }
    }
}

/// Versions, and a map of the same records.
#[derive(Drop)]
struct Both {
    floor: Option<Stamp>,
    walked: MapOf<Key, Rec>,
    versions: Versions,
}

impl Both {
    fn new(alloc: Global, hasher: RandomState) -> Both {
        Both {
            floor: None,
            walked: MapOf::with_hasher(alloc, hasher),
            versions: Versions::new(alloc, hasher),
        }
    }

    /// Puts a write into the map that is walked.
    fn put(
        &mut self,
        alloc: Global,
        key: &Key,
        stamp: Stamp,
        body: &Body,
        expiry: u64,
    ) -> Result<(), AllocError> {
        if !counts(self.floor, stamp) {
            return Ok(());
        }
        let left = Lww::of(stamp, *body);
        let right = Lww::of(stamp, expiry);
        self.walked.put(alloc, key, Pair { left, right })
    }

    fn write(
        &mut self,
        alloc: Global,
        key: &Key,
        stamp: Stamp,
        body: &Body,
        expiry: u64,
    ) -> Result<(), AllocError> {
        self.put(alloc, key, stamp, body, expiry)?;
        self.versions.write(alloc, key, stamp, *body, expiry)
    }

    fn touch(&mut self, key: &Key, stamp: Stamp, expiry: u64) {
        if counts(self.floor, stamp) && self.walked.get(key).is_some() {
            let left = Lww::none();
            let right = Lww::of(stamp, expiry);
            self.walked.join_at(key, Pair { left, right });
        }
        if self.versions.record(key).is_some() {
            self.versions.touch(key, stamp, expiry);
        }
    }

    /// Raises the floor of the map that is walked.
    fn raise(&mut self, stamp: Stamp) {
        if counts(self.floor, stamp) {
            let above = AboveFloor { floor: Some(stamp) };
            self.floor = above.floor;
            self.walked.change_all(&above);
        }
    }

    fn flush(&mut self, stamp: Stamp) {
        self.raise(stamp);
        self.versions.raise_floor(stamp);
    }

    fn take(
        &mut self,
        floor: Option<Stamp>,
        records: Vec<(Key, Rec)>,
        same: Vec<(Key, Rec)>,
    ) -> Result<(), AllocError> {
        let later = match floor {
            Some(stamp) if counts(self.floor, stamp) => floor,
            _ => self.floor,
        };
        self.walked.ready_list(same.as_slice())?;
        self.walked.join_list(same, &AboveFloor { floor: later });
        if let Some(stamp) = floor {
            self.raise(stamp);
        }
        let alloc = *records.allocator();
        self.versions.ready_records(alloc, records.as_slice())?;
        self.versions.join_records(floor, records);
        Ok(())
    }

    /// Joins others, after which the measures are taken anew.
    fn join(&mut self, alloc: Global, other: Both) -> Result<(), AllocError> {
        let Both {
            floor,
            walked,
            versions,
        } = other;
        let later = match floor {
            Some(stamp) if counts(self.floor, stamp) => floor,
            _ => self.floor,
        };
        let above = AboveFloor { floor: later };
        self.floor = above.floor;
        self.walked.ready(alloc, &walked)?;
        self.walked.join_changed(walked, &above);
        self.walked.change_all(&above);
        self.versions.ready(alloc, &versions)?;
        self.versions.join(versions);
        Ok(())
    }

    /// Removes in both, and tells whether as many records went.
    fn remove(&mut self, horizon: u64) -> bool {
        let before = self.walked.len();
        self.walked.change_all(&Remaining { horizon });
        let removed = self.versions.remove_below(horizon);
        before.saturating_sub(self.walked.len()) == removed
    }

    fn ended_are_the_same(&self, site: u8, before: u64) -> bool {
        self.versions.ended(site, before) == self.walked.found(&Ended { site, before })
    }
}

/// One of 400 keys.
fn some_key(alloc: Global, random: &mut Random) -> Result<Key, Fail> {
    let letters = *b"abcdefghijklmnopqrst";
    let mut name = [b'-'; 2];
    for byte in name.iter_mut() {
        let number = random.below(20) as usize;
        *byte = letters.get(number).copied().unwrap_or(b'-');
    }
    Ok(Key::new(alloc, &name)?.ok_or("no key")?)
}

/// A stamp of one of three sites behind a time.
fn some_stamp(random: &mut Random, time: u64) -> Result<Stamp, Fail> {
    let site = match random.below(3) {
        0 => 1,
        1 => 2,
        _ => 3,
    };
    Ok(Stamp::new(random.behind(time, 10), site).ok_or("no stamp")?)
}

/// Whether few writes end at a time: then most that came together have no end below a moment.
fn is_calm(time: u64) -> bool {
    time / 600 == 1
}

/// When a write ends, 0 where it doesn't.
fn some_end(random: &mut Random, time: u64, calm: bool) -> u64 {
    if random.one_in(3) || (calm && !random.one_in(30)) {
        return 0;
    }
    random.behind(time, 60)
}

/// A write that may end, or a delete.
fn some_write(random: &mut Random, time: u64, calm: bool) -> (Body, u64) {
    if random.one_in(3) {
        return (body(None), 0);
    }
    (body(Some(("v", 0, 1))), some_end(random, time, calm))
}

/// What a client does.
fn write_some(
    alloc: Global,
    random: &mut Random,
    both: &mut Both,
    time: u64,
    calm: bool,
) -> Result<(), Fail> {
    for _write in 0..random.below(20) {
        let key = some_key(alloc, random)?;
        let stamp = some_stamp(random, time)?;
        if random.one_in(4) {
            both.touch(&key, stamp, some_end(random, time, calm));
        } else {
            let (body, expiry) = some_write(random, time, calm);
            both.write(alloc, &key, stamp, &body, expiry)?;
        }
    }
    Ok(())
}

/// What another site tells.
fn take_some(alloc: Global, random: &mut Random, both: &mut Both, time: u64) -> Result<(), Fail> {
    let mut records = Vec::new(alloc);
    let mut same = Vec::new(alloc);
    for _record in 0..random.below(30) {
        let key = some_key(alloc, random)?;
        let stamp = some_stamp(random, time)?;
        let (body, expiry) = some_write(random, time, is_calm(time));
        let left = Lww::of(stamp, body);
        let right = Lww::of(stamp, expiry);
        let record = Pair { left, right };
        same.push((key.copied(alloc)?, record.twin(alloc)?))?;
        records.push((key, record))?;
    }
    let floor = if random.one_in(12) {
        Some(some_stamp(random, time.saturating_sub(30))?)
    } else {
        None
    };
    both.take(floor, records, same)?;
    Ok(())
}

/// A step at a time, and whether as many records went in both.
fn step(
    alloc: Global,
    hasher: RandomState,
    random: &mut Random,
    both: &mut Both,
    time: u64,
) -> Result<bool, Fail> {
    match random.below(24) {
        0 => both.flush(some_stamp(random, time.saturating_sub(50))?),
        1 => {
            let mut other = Both::new(alloc, hasher);
            write_some(alloc, random, &mut other, time, false)?;
            both.join(alloc, other)?;
        }
        2..8 => take_some(alloc, random, both, time)?,
        8..16 => return Ok(both.remove(time.saturating_sub(random.below(60)))),
        _ => write_some(alloc, random, both, time, is_calm(time))?,
    }
    Ok(true)
}

/// All that is known, joined to versions that know nothing.
fn joined_anew(alloc: Global, hasher: RandomState, known: Both) -> Result<Both, AllocError> {
    let mut both = Both::new(alloc, hasher);
    both.join(alloc, known)?;
    Ok(both)
}

#[test]
fn what_ended_is_told_in_the_order_of_a_walk(rt: HostRuntime) -> Result<(), Fail> {
    let hasher = RandomState::new(&rt)?;
    for seed in 0..6 {
        let mut random = Random { state: seed };
        let mut both = Both::new(rt.alloc(), hasher);
        for round in 0..500 {
            let time = u64::wrapping_mul(round, 3).wrapping_add(100);
            assert!(&rt; step(rt.alloc(), hasher, &mut random, &mut both, time)?);
            assert!(&rt; both.versions.len() == both.walked.len());
            if round % 70 == 69 {
                both = joined_anew(rt.alloc(), hasher, both)?;
            }
            for site in 1..4 {
                let before = random.behind(time.saturating_sub(40), 90);
                assert!(&rt; both.ended_are_the_same(site, before));
            }
        }
    }
    Ok(())
}

/// The key of a number below 400.
fn key_of(alloc: Global, number: u64) -> Result<Key, Fail> {
    let letters = *b"abcdefghijklmnopqrst";
    let first = letters.get((number / 20) as usize).copied();
    let second = letters.get((number % 20) as usize).copied();
    let name = [first.unwrap_or(b'-'), second.unwrap_or(b'-')];
    Ok(Key::new(alloc, &name)?.ok_or("no key")?)
}

/// Writes a number of keys, of which so many are one site's and those behind them another's, and each ends.
fn write_each(alloc: Global, both: &mut Both, others: u64, all: u64) -> Result<(), Fail> {
    for number in 0..all {
        let key = key_of(alloc, number)?;
        let site = if number < others { 2 } else { 1 };
        let stamp = Stamp::new(u64::wrapping_add(number, 1), site).ok_or("no stamp")?;
        let end = u64::wrapping_add(number.wrapping_mul(7) % 50, 100);
        both.write(alloc, &key, stamp, &body(Some(("v", 0, 1))), end)?;
    }
    Ok(())
}

/// Deletes a key, which every site knows then, and removes what is known so.
fn delete_and_remove(alloc: Global, both: &mut Both, number: u64, time: u64) -> Result<bool, Fail> {
    let key = key_of(alloc, number)?;
    let stamp = Stamp::new(time, 2).ok_or("no stamp")?;
    both.write(alloc, &key, stamp, &body(None), 0)?;
    Ok(both.remove(time))
}

/// Whether the same is told of three sites at some moments.
fn each_ended_is_the_same(both: &Both) -> bool {
    for before in [100, 101, 120, 149, 200] {
        for site in 1..4 {
            if !both.ended_are_the_same(site, before) {
                return false;
            }
        }
    }
    true
}

/// Whether the same goes and is told while some of the first records go, each of whose places the last record takes.
fn some_go(alloc: Global, both: &mut Both) -> Result<bool, Fail> {
    for turn in 0..8 {
        let (number, time) = (u64::wrapping_mul(turn, 2), u64::wrapping_add(1000, turn));
        if !delete_and_remove(alloc, both, number, time)? || !each_ended_is_the_same(both) {
            return Ok(false);
        }
    }
    Ok(true)
}

#[test]
fn many_of_anothers_writes_end_before_the_first_own(rt: HostRuntime) -> Result<(), Fail> {
    let hasher = RandomState::new(&rt)?;
    for others in [20, 40, 100, 300] {
        let mut both = Both::new(rt.alloc(), hasher);
        write_each(rt.alloc(), &mut both, others, u64::wrapping_add(others, 30))?;
        assert!(&rt; some_go(rt.alloc(), &mut both)?);
    }
    Ok(())
}
