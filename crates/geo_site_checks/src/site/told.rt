//! Parcels that are made by hand.
use crate::site::lines::{cut, number, small};
use geo_delta::Parcel;
use geo_lattice::{Items, Lww, Pair};
use geo_stamp::{LAST_TIME, Retired, Stamp, Vector};
use geo_versions::{Body, Digest, Key, Length, Rec};
use std::alloc::{AllocError, Global};

/// The last time, or the one that a word says.
fn time(word: &str) -> u64 {
    match word {
        "last" => LAST_TIME,
        _ => number(word).min(LAST_TIME),
    }
}

/// The record of a write of one byte by site 2.
fn record(time: u64, byte: &[u8], end: u64) -> Option<Rec> {
    let stamp = Stamp::new(time, 2)?;
    let body = Body::Value {
        digest: Digest::of(byte),
        flags: 0,
        length: Length::of(1),
    };
    Some(Pair {
        left: Lww::of(stamp, body),
        right: Lww::of(stamp, end),
    })
}

/// Adds the write that `KEY:TIME:BYTE:END` says, or none where it says none.
fn add_write(alloc: Global, records: &mut Vec<(Key, Rec)>, text: &str) -> Result<(), AllocError> {
    let mut words = text.split(':');
    let (name, at) = (words.next().unwrap_or(""), words.next().unwrap_or(""));
    let (byte, end) = (words.next().unwrap_or(""), words.next().unwrap_or(""));
    let Some(rec) = record(time(at), byte.as_bytes(), number(end)) else {
        return Ok(());
    };
    let Some(key) = Key::new(alloc, name.as_bytes())? else {
        return Ok(());
    };
    records.push((key, rec))?;
    Ok(())
}

fn writes(alloc: Global, text: &str) -> Result<Vec<(Key, Rec)>, AllocError> {
    let mut records = Vec::new(alloc);
    for write in text.split(' ') {
        add_write(alloc, &mut records, write)?;
    }
    Ok(records)
}

/// What a vector of two sites says that knows site 2 up to a time.
fn vector(time: u64) -> Vector {
    let mut vector = Vector::new(2);
    vector.raise(2, time.min(LAST_TIME));
    vector
}

/// The parcel that `FROM TO BASE UPTO FLUSH WRITES` says, of two sites, where base and upto are the times of site 2, and a flush of
/// time 0 is none.
pub fn told(alloc: Global, text: &str) -> Result<Parcel, AllocError> {
    let (from, rest) = cut(text);
    let (to, rest) = cut(rest);
    let (base, rest) = cut(rest);
    let (upto, rest) = cut(rest);
    let (flush, rest) = cut(rest);
    Ok(Parcel {
        from: small(from),
        to: small(to),
        base: vector(time(base)),
        upto: vector(time(upto)),
        retired: Retired::none(),
        floor: Stamp::new(number(flush), 2),
        records: Items::of(writes(alloc, rest)?),
    })
}
