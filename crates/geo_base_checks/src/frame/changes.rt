//! That the newest changes give what a scan of all records gives, and which parcels are cut of them.
ghost use Rattle.std.specs.Prelude.{◌≡◌, true, IfOk, OnOk};
ghost use Rattle.geo_versions.specs.Maps.{record_in};
ghost use Rattle.geo_delta.specs.Changes.{KnowsBut, nothing_pending};
ghost use Rattle.geo_delta.specs.Telling.{Tells};

use super::show::{frame, push_number, push_parcel};
use geo_delta::{Changes, Parcel, cut};
use geo_frame::Message;
use geo_lattice::Twin;
use geo_stamp::{Retired, Stamp, Vector};
use geo_versions::{Body, Digest, Key, Length, Rec, Versions};
use std::alloc::{AllocError, Global};
use std::hash::RandomState;
use std::test::Fail;

mod table;

use table::Op;

/// How many changes further back than the newest are kept.
const BEHIND: usize = 8192;

/// What a site of two keeps that notes each change.
#[derive(Drop)]
struct Site {
    versions: Versions,
    changes: Changes,
    vector: Vector,
}

fn new_site(rt: &HostRuntime) -> Result<Site, Fail>
    ensures { IfOk result (λ s. Tells nothing_pending (record_in s.versions) s.changes) }
{
    let alloc = rt.alloc();
    Ok(Site {
        versions: Versions::new(alloc, RandomState::new(rt)?),
        changes: Changes::new(alloc, 2, BEHIND)?,
        vector: Vector::new(2),
    })
}

/// Whether the vector knows all records.
fn knows_all(versions: &Versions, vector: &Vector, alloc: Global) -> Result<bool, AllocError>
    ensures { IfOk result (λ all. all ≡ true → KnowsBut nothing_pending vector.now (record_in versions.now)) }
{
    let news = versions.since(alloc, vector)?;
    Ok(news.as_slice().is_empty())
}

/// Writes a key and notes it.
fn write(site: &mut Site, alloc: Global, key: &Key, stamp: Stamp, body: Body) -> Result<(), Fail>
    requires { Tells nothing_pending (record_in site.old.versions) site.old.changes }
    ensures { OnOk result (Tells nothing_pending (record_in site.new.versions) site.new.changes) }
{
    site.versions.write(alloc, key, stamp, body, 0)?;
    site.vector.raise(stamp.site(), stamp.time());
    if !knows_all(&site.versions, &site.vector, alloc)? {
        return Err("not known".into());
    }
    if !site.changes.newest.note(key, &site.vector) {
        return Err("no memory".into());
    }
    if !site.changes.trail.note(key, &site.vector) {
        return Err("no memory".into());
    }
    Ok(())
}

/// Keeps no change, but what is known.
fn lose(site: &mut Site, alloc: Global) -> Result<(), Fail>
    ensures { OnOk result (Tells nothing_pending (record_in site.new.versions) site.new.changes) }
{
    if !knows_all(&site.versions, &site.vector, alloc)? {
        return Err("not known".into());
    }
    site.changes.newest.lose(&site.vector);
    site.changes.trail.lose();
    Ok(())
}

/// The key of a number: its digits, and so many bytes before those of a great one that the key takes memory.
fn key(alloc: Global, number: usize) -> Result<Key, Fail> {
    let text = if number < 10_000 {
        format!(in alloc; "{number}")?
    } else {
        format!(in alloc; "a-key-that-takes-memory-{number}")?
    };
    Ok(Key::new(alloc, text.as_bytes())?.ok_or("no key")?)
}

/// Writes to the key of a number.
fn write_at(
    site: &mut Site,
    alloc: Global,
    number: usize,
    by: u8,
    time: u64,
    body: Body,
) -> Result<(), Fail>
    requires { Tells nothing_pending (record_in site.old.versions) site.old.changes }
    ensures { OnOk result (Tells nothing_pending (record_in site.new.versions) site.new.changes) }
{
    let stamp = Stamp::new(time, by).ok_or("no stamp")?;
    let key = key(alloc, number)?;
    write(site, alloc, &key, stamp, body)
}

/// Deletes the keys of so many numbers, one after the other.
fn delete_many(site: &mut Site, alloc: Global, many: usize) -> Result<(), Fail>
    requires { Tells nothing_pending (record_in site.old.versions) site.old.changes }
    ensures { OnOk result (Tells nothing_pending (record_in site.new.versions) site.new.changes) }
{
    for number in 0..many {
        write_at(site, alloc, number, 1, number as u64 + 1, Body::Gone)?;
    }
    Ok(())
}

fn empty_value() -> Body {
    Body::Value {
        digest: Digest::of(b""),
        flags: 5,
        length: Length::of(0),
    }
}

/// The vector of these two clocks.
fn clocks(first: u32, second: u32) -> Vector {
    let mut vector = Vector::new(2);
    vector.raise(1, u64::from(first));
    vector.raise(2, u64::from(second));
    vector
}

/// The second site has retired.
fn retired() -> Retired {
    let mut retired = Retired::none();
    retired.add(2);
    retired
}

/// The parcel that the changes give from a base.
fn parcel(site: &Site, alloc: Global, base: &Vector) -> Result<Parcel, AllocError>
    requires { Tells nothing_pending (record_in site.now.versions) site.now.changes }
{
    cut(
        alloc,
        &site.versions,
        &site.changes,
        1,
        2,
        base,
        &site.vector,
        &retired(),
    )
}

/// Whether these are the same records.
fn are_same(one: &[(Key, Rec)], other: &[(Key, Rec)]) -> bool {
    one.len() == other.len()
        && one
            .iter()
            .zip(other)
            .all(|(a, b)| a.0 == b.0 && a.1.left.get() == b.1.left.get())
}

/// Whether a parcel from this base has the records that a scan of all finds.
fn cuts_as_a_scan(site: &Site, alloc: Global, base: &Vector) -> Result<bool, AllocError>
    requires { Tells nothing_pending (record_in site.now.versions) site.now.changes }
{
    let all = site.versions.since(alloc, base)?;
    let parcel = parcel(site, alloc, base)?;
    Ok(are_same(parcel.records.as_slice(), all.as_slice()))
}

/// How many records the changes give, `none` where they do not reach back to the base; and whether a parcel is unlike a scan.
fn push_recent(
    out: &mut Vec<u8>,
    site: &Site,
    alloc: Global,
    base: &Vector,
) -> Result<(), AllocError>
    requires { Tells nothing_pending (record_in site.now.versions) site.now.changes }
{
    if !cuts_as_a_scan(site, alloc, base)? {
        out.extend_from_slice(b"unlike a scan ")?;
    }
    match site.changes.newest.recent(alloc, &site.versions, base)? {
        Some(all) => push_number(out, all.len() as u64, b" "),
        None => out.extend_from_slice(b"none "),
    }
}

/// How many records the changes further back give, `none` where they tell of no vector that the base covers.
fn push_behind(
    out: &mut Vec<u8>,
    site: &Site,
    alloc: Global,
    base: &Vector,
) -> Result<(), AllocError>
    requires { Tells nothing_pending (record_in site.now.versions) site.now.changes }
{
    match site.changes.trail.recent(alloc, &site.versions, base)? {
        Some(all) => push_number(out, all.len() as u64, b" behind "),
        None => out.extend_from_slice(b"none behind "),
    }
}

/// The parcel from a base, a copy of it, and how long its frame is.
fn push_cut(out: &mut Vec<u8>, site: &Site, alloc: Global, base: &Vector) -> Result<(), Fail>
    requires { Tells nothing_pending (record_in site.now.versions) site.now.changes }
{
    let parcel = parcel(site, alloc, base)?;
    push_parcel(out, &parcel)?;
    out.extend_from_slice(b" and ")?;
    push_parcel(out, &parcel.twin(alloc)?)?;
    out.extend_from_slice(b" in ")?;
    Ok(push_number(
        out,
        frame(alloc, &Message::Parcel(parcel))?.len() as u64,
        b" bytes; ",
    )?)
}

fn step(site: &mut Site, alloc: Global, op: Op, out: &mut Vec<u8>) -> Result<(), Fail>
    requires { Tells nothing_pending (record_in site.old.versions) site.old.changes }
    ensures { OnOk result (Tells nothing_pending (record_in site.new.versions) site.new.changes) }
{
    match op {
        Op::Delete(number, by, time) => write_at(site, alloc, number, by, time, Body::Gone),
        Op::DeleteMany(many) => delete_many(site, alloc, many),
        Op::Value(number) => write_at(site, alloc, number, 1, 1, empty_value()),
        Op::Lose => lose(site, alloc),
        Op::Recent(first, second) => Ok(push_recent(out, site, alloc, &clocks(first, second))?),
        Op::Behind(first, second) => Ok(push_behind(out, site, alloc, &clocks(first, second))?),
        Op::Cut(first, second) => push_cut(out, site, alloc, &clocks(first, second)),
    }
}

fn follow(site: &mut Site, alloc: Global, ops: &[Op], out: &mut Vec<u8>) -> Result<(), Fail>
    requires { Tells nothing_pending (record_in site.old.versions) site.old.changes }
{
    for op in ops {
        step(site, alloc, *op, out)?;
    }
    out.extend_from_slice(b"reach ")?;
    Ok(push_number(out, site.changes.newest.reach().entry(1), b"")?)
}

/// What a new site shows that does all of this.
fn told(rt: &HostRuntime, ops: &[Op]) -> Result<Vec<u8>, Fail> {
    let mut site = new_site(rt)?;
    let mut out = Vec::new(rt.alloc());
    follow(&mut site, rt.alloc(), ops, &mut out)?;
    Ok(out)
}

#[test]
fn the_changes_give_what_a_scan_gives(rt: HostRuntime) -> Result<(), Fail> {
    for (ops, shown) in table::ROWS {
        assert_eq!(rt; told(&rt, ops)?.as_slice(), *shown);
    }
    Ok(())
}
