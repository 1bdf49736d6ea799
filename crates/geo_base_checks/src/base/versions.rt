//! Keys, digests and contents, and what is known of keys.
ghost use Rattle.std.specs.Prelude.{◌≡◌, None};

use crate::base::text::{check, join, show_number, show_numbers};
use geo_lattice::{Lattice, Lww, Pair, Twin};
use geo_stamp::{LAST_TIME, Stamp, Vector};
use geo_versions::{Body, Digest, Key, Length, Rec, Version, Versions, are_rising, sift};
use std::alloc::{AllocError, Global};
use std::hash::RandomState;
use std::process::Abort;
use std::test::Fail;

mod table;
mod walked;

use table::{
    At, CONTENTS, Content, KEYS, NEWS, RISING, Record, SIFTED, Step, TO_SIFT, VERSIONS, VersionRow,
};

fn is_equal(key: &Key, other: &Key) -> bool {
    key == other
}

/// What a key is called whose twin is equal to it and has its bytes.
fn twin_name(alloc: Global, key: &Key, bytes: &[u8]) -> Result<&'static str, AllocError> {
    let twin = key.twin(alloc)?;
    if is_equal(&twin, key) && twin.bytes() == bytes {
        return Ok("key");
    }
    Ok("unlike")
}

/// Shows whether bytes are a key, and one with an equal twin.
fn show_key(out: &mut String, bytes: &[u8]) -> Result<(), AllocError> {
    let alloc = *out.allocator();
    match Key::new(alloc, bytes)? {
        None => out.push_str("none"),
        Some(key) => out.push_str(twin_name(alloc, &key, bytes)?),
    }
}

/// Whether the first key is less than the second, and another.
fn is_less(alloc: Global, low: &[u8], high: &[u8]) -> Result<bool, AllocError> {
    let Some(low) = Key::new(alloc, low)? else {
        return Ok(false);
    };
    let Some(high) = Key::new(alloc, high)? else {
        return Ok(false);
    };
    Ok(low < high && low != high)
}

#[test]
fn keys_are_1_to_250_allowed_bytes(rt: HostRuntime) -> Result<(), Fail> {
    let mut out = String::new(rt.alloc());
    for (bytes, want) in KEYS {
        out.clear();
        show_key(&mut out, bytes)?;
        check(&rt, out.as_str(), want);
        assert_eq!(rt; Key::is_valid(bytes), *want == "key");
    }
    assert!(rt; is_less(rt.alloc(), b"a!", b"a\xff")?);
    Ok(())
}

/// A digest that begins with these bytes. The others are 0.
fn digest(text: &str) -> Digest {
    let mut bytes = [0; 32];
    for (place, byte) in bytes.iter_mut().zip(text.as_bytes()) {
        *place = *byte;
    }
    Digest::new(bytes)
}

fn body(content: Content) -> Body {
    match content {
        None => Body::Gone,
        Some((text, flags, length)) => Body::Value {
            digest: digest(text),
            flags,
            length: Length::of(u32::from(length)),
        },
    }
}

/// Whether the second of two contents with one stamp stays, whichever is joined to the other.
fn stays(at: &Stamp, lower: &Body, higher: &Body) -> bool {
    let mut first = Lww::of(*at, *lower);
    first.join(Lww::of(*at, *higher));
    let mut second = Lww::of(*at, *higher);
    second.join(Lww::of(*at, *lower));
    let wanted = Some((*at, *higher));
    first.get().copied() == wanted && second.get().copied() == wanted
}

#[test]
fn of_equal_stamps_the_greater_content_stays(rt: HostRuntime) -> Result<(), Fail> {
    let at = Stamp::new(3, 2).ok_or("no stamp")?;
    let mut lower = None;
    for content in CONTENTS {
        let higher = body(*content);
        if let Some(lower) = lower {
            assert!(rt; stays(&at, &lower, &higher), "{content:?}");
        }
        lower = Some(higher);
    }
    Ok(())
}

#[test]
fn the_digest_of_no_bytes_is_that_of_fips_180_4(rt: HostRuntime) {
    let digest = Digest::of(b"");
    let bytes = digest.bytes();
    assert_eq!(rt; &bytes[..4], [0xe3, 0xb0, 0xc4, 0x42].as_slice());
    assert_eq!(rt; &bytes[28..], [0x78, 0x52, 0xb8, 0x55].as_slice());
}

/// The registers of a record, None where a stamp is out of range.
fn rec(record: Record) -> Option<Rec> {
    let Record(_, at, content, expiry, expiry_at) = record;
    let stamp = Stamp::new(at.0, at.1)?;
    let expiry_stamp = Stamp::new(expiry_at.0, expiry_at.1)?;
    Some(Pair {
        left: Lww::of(stamp, body(content)),
        right: Lww::of(expiry_stamp, expiry),
    })
}

fn push_record(records: &mut Vec<(Key, Rec)>, record: Record) -> Result<(), AllocError> {
    let alloc = *records.allocator();
    let Some(rec) = rec(record) else {
        return Ok(());
    };
    if let Some(key) = Key::new(alloc, record.0.as_bytes())? {
        records.push((key, rec))?;
    }
    Ok(())
}

fn records_of(alloc: Global, table: &[Record]) -> Result<Vec<(Key, Rec)>, AllocError> {
    let mut records = Vec::new(alloc);
    for record in table {
        push_record(&mut records, *record)?;
    }
    Ok(records)
}

fn show_stamp(out: &mut String, stamp: &Stamp) -> Result<(), AllocError> {
    show_number(out, stamp.time())?;
    write!(out, ".{}", stamp.site())
}

/// Shows the bytes of a digest up to the first that is 0.
fn show_digest(out: &mut String, digest: &Digest) -> Result<(), AllocError> {
    out.push_str(" ")?;
    for byte in digest.bytes() {
        if *byte == 0 {
            return Ok(());
        }
        out.push(char::from(*byte))?;
    }
    Ok(())
}

fn show_expiry(out: &mut String, expiry: u64, stamp: &Stamp) -> Result<(), AllocError> {
    show_number(out, expiry)?;
    show_stamp(out, stamp)
}

fn show_version(out: &mut String, version: Option<Version>) -> Result<(), AllocError> {
    let Some(version) = version else {
        return out.push_str(" gone");
    };
    show_digest(out, &version.digest)?;
    show_numbers(out, &[u64::from(version.flags), u64::from(version.length)])?;
    show_stamp(out, &version.stamp)?;
    show_expiry(out, version.expiry, &version.expiry_stamp)
}

fn show_name(out: &mut String, key: &Key) -> Result<(), AllocError> {
    out.push_str(", ")?;
    out.push_str(str::from_utf8(key.bytes()).unwrap_or("?"))
}

fn show_body(out: &mut String, body: &Body) -> Result<(), AllocError> {
    match body {
        Body::Gone => out.push_str(" gone"),
        Body::Value {
            digest,
            flags,
            length,
        } => {
            show_digest(out, digest)?;
            show_numbers(out, &[u64::from(*flags), u64::from(length.get())])
        }
    }
}

fn show_rec(out: &mut String, rec: &Rec) -> Result<(), AllocError> {
    match rec.left.get() {
        None => out.push_str(" -")?,
        Some((stamp, body)) => {
            show_body(out, body)?;
            show_stamp(out, stamp)?;
        }
    }
    match rec.right.get() {
        None => out.push_str(" -"),
        Some((stamp, expiry)) => show_expiry(out, *expiry, stamp),
    }
}

fn show_records(out: &mut String, records: &[(Key, Rec)]) -> Result<(), AllocError> {
    for (key, rec) in records {
        show_name(out, key)?;
        show_rec(out, rec)?;
    }
    Ok(())
}

/// Shows the version of a key that has a record, or a version without one.
fn show_known(out: &mut String, known: &Versions, name: &str) -> Result<(), AllocError> {
    let Some(key) = Key::new(*out.allocator(), name.as_bytes())? else {
        return Ok(());
    };
    let version = known.version_of(&key);
    if version.is_none() && known.record(&key).is_none() {
        return Ok(());
    }
    show_name(out, &key)?;
    show_version(out, version)
}

fn show_state(out: &mut String, known: &Versions) -> Result<(), AllocError> {
    match known.floor() {
        None => out.push_str(":-")?,
        Some(floor) => write!(out, ":{}.{}", floor.time(), floor.site())?,
    }
    write!(out, " {}", known.len())?;
    for name in ["a", "ab", "b", "c"] {
        show_known(out, known, name)?;
    }
    Ok(())
}

fn write(
    known: &mut Versions,
    alloc: Global,
    name: &str,
    at: At,
    content: Content,
    expiry: u64,
) -> Result<(), AllocError> {
    let Some(stamp) = Stamp::new(at.0, at.1) else {
        return Ok(());
    };
    match Key::new(alloc, name.as_bytes())? {
        None => Ok(()),
        Some(key) => known.write(alloc, &key, stamp, body(content), expiry),
    }
}

fn touch(
    known: &mut Versions,
    alloc: Global,
    name: &str,
    at: At,
    expiry: u64,
) -> Result<(), AllocError> {
    let Some(stamp) = Stamp::new(at.0, at.1) else {
        return Ok(());
    };
    if let Some(key) = Key::new(alloc, name.as_bytes())? {
        if known.record(&key).is_some() {
            known.touch(&key, stamp, expiry);
        }
    }
    Ok(())
}

fn join_records(
    known: &mut Versions,
    alloc: Global,
    floor: At,
    table: &[Record],
) -> Result<(), AllocError> {
    let records = records_of(alloc, table)?;
    known.ready_records(alloc, records.as_slice())?;
    known.join_records(Stamp::new(floor.0, floor.1), records);
    Ok(())
}

/// What a site knows after one write.
fn after(
    alloc: Global,
    hasher: RandomState,
    name: &str,
    at: At,
    content: Content,
) -> Result<Versions, AllocError> {
    let mut known = Versions::new(alloc, hasher);
    write(&mut known, alloc, name, at, content, 0)?;
    Ok(known)
}

fn flush(known: &mut Versions, at: At) {
    if let Some(stamp) = Stamp::new(at.0, at.1) {
        known.raise_floor(stamp);
    }
}

fn change(
    out: &mut String,
    known: &mut Versions,
    hasher: RandomState,
    step: Step,
) -> Result<(), AllocError> {
    let alloc = *out.allocator();
    match step {
        Step::Write(name, at, content, expiry) => write(known, alloc, name, at, content, expiry),
        Step::Touch(name, at, expiry) => touch(known, alloc, name, at, expiry),
        Step::Flush(at) => {
            flush(known, at);
            Ok(())
        }
        Step::Ready(table) => known.ready_records(alloc, records_of(alloc, table)?.as_slice()),
        Step::JoinRecords(floor, table) => join_records(known, alloc, floor, table),
        Step::Join(name, at, content) => join(out, known, after(alloc, hasher, name, at, content)?),
        Step::Remove(horizon) => show_number(out, known.remove_below(horizon) as u64),
        _ => Ok(()),
    }
}

/// Shows the records that a vector of these clocks does not know.
fn show_since(out: &mut String, known: &Versions, times: &[u64]) -> Result<(), AllocError> {
    let mut base = Vector::new(times.len().min(16));
    let mut site = 0u8;
    for time in times {
        site = site.saturating_add(1);
        base.raise(site, (*time).min(LAST_TIME));
    }
    let since = known.since(*out.allocator(), &base)?;
    show_records(out, since.as_slice())
}

fn show_all(out: &mut String, known: &Versions) -> Result<(), AllocError> {
    for (key, version) in &known.all(*out.allocator())? {
        show_name(out, key)?;
        show_version(out, Some(*version))?;
    }
    Ok(())
}

fn show_ended(out: &mut String, known: &Versions, site: u8, before: u64) -> Result<(), AllocError> {
    match known.ended(site, before) {
        None => out.push_str("none"),
        Some(key) => out.push_str(str::from_utf8(key.bytes()).unwrap_or("?")),
    }
}

fn show_with(out: &mut String, known: &Versions, record: Record) -> Result<(), AllocError> {
    let Some(rec) = rec(record) else {
        return Ok(());
    };
    match Key::new(*out.allocator(), record.0.as_bytes())? {
        None => Ok(()),
        Some(key) => show_version(out, known.version_with(&key, &rec)),
    }
}

fn step(
    out: &mut String,
    known: &mut Versions,
    hasher: RandomState,
    step: Step,
) -> Result<(), AllocError> {
    match step {
        Step::Since(times) => show_since(out, known, times),
        Step::All => show_all(out, known),
        Step::Ended(site, before) => show_ended(out, known, site, before),
        Step::With(record) => show_with(out, known, record),
        _ => {
            change(out, known, hasher, step)?;
            show_state(out, known)
        }
    }
}

fn version_row(
    rt: &impl Abort,
    out: &mut String,
    known: &mut Versions,
    hasher: RandomState,
    row: &VersionRow,
) -> Result<(), AllocError> {
    out.clear();
    step(out, known, hasher, row.0)?;
    check(rt, out.as_str(), row.1);
    Ok(())
}

fn version_rows(
    rt: &impl Abort,
    out: &mut String,
    hasher: RandomState,
    rows: &[VersionRow],
) -> Result<(), AllocError> {
    let mut known = Versions::new(*out.allocator(), hasher);
    for row in rows {
        version_row(rt, out, &mut known, hasher, row)?;
    }
    Ok(())
}

/// Plays each table, beginning with nothing known.
fn version_tables(
    rt: &impl Abort,
    out: &mut String,
    hasher: RandomState,
) -> Result<(), AllocError> {
    for rows in VERSIONS {
        version_rows(rt, out, hasher, rows)?;
    }
    Ok(())
}

#[test]
fn versions_are_what_operations_left(rt: HostRuntime) -> Result<(), Fail> {
    let hasher = RandomState::new(&rt)?;
    let mut out = String::new(rt.alloc());
    version_tables(&rt, &mut out, hasher)?;
    Ok(())
}

/// Shows what is left of the records above a horizon.
fn show_sifted(out: &mut String, horizon: u64) -> Result<(), AllocError> {
    let mut records = records_of(*out.allocator(), TO_SIFT)?;
    sift(&mut records, horizon);
    show_records(out, records.as_slice())
}

fn rise(alloc: Global, table: &[Record]) -> Result<bool, AllocError> {
    Ok(are_rising(records_of(alloc, table)?.as_slice()))
}

#[test]
fn records_are_sifted_and_seen_to_rise(rt: HostRuntime) -> Result<(), Fail> {
    let mut out = String::new(rt.alloc());
    for (horizon, want) in SIFTED {
        out.clear();
        show_sifted(&mut out, *horizon)?;
        check(&rt, out.as_str(), want);
    }
    for (table, want) in RISING {
        assert_eq!(rt; rise(rt.alloc(), table)?, *want, "{}", table.len());
    }
    Ok(())
}

/// Shows what is news where these records are known.
fn show_news(out: &mut String, hasher: RandomState, table: &[Record]) -> Result<(), AllocError> {
    let alloc = *out.allocator();
    let mut known = Versions::new(alloc, hasher);
    join_records(&mut known, alloc, (0, 0), table)?;
    let mut records = records_of(alloc, TO_SIFT)?;
    known.leave_news(&mut records);
    show_records(out, records.as_slice())
}

#[test]
fn what_is_known_is_no_news(rt: HostRuntime) -> Result<(), Fail> {
    let hasher = RandomState::new(&rt)?;
    let mut out = String::new(rt.alloc());
    for (table, want) in NEWS {
        out.clear();
        show_news(&mut out, hasher, table)?;
        check(&rt, out.as_str(), want);
    }
    Ok(())
}
