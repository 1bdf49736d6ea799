//! What a set of operations means.
ghost use Rattle.std.specs.Prelude.{◌≡◌, ℕ, length, None, Some, map, cond};
ghost use Rattle.geo_records.specs.Operations.{latest as latest_of, floor_of, floor_joined, flush_of, body_of, expiry_of, newest, above, is_above, version_in, version_of as version_named};
ghost use Rattle.geo_laws.specs.Registers.{by_both, newer};
ghost use Rattle.geo_stamp.specs.Stamps.{stamp_cmp};
ghost use Rattle.geo_records.specs.Bodies.{body_cmp};
ghost use Rattle.std.specs.Ordering.{nat_cmp};
ghost use Rattle.geo_site.specs.Entries.{names};
ghost use Rattle.geo_plain.specs.Plain.{act_of, is_about, operation_of, operations_of};

use crate::operation::{Act, Operation};
use geo_lattice::Exact;
use geo_stamp::Stamp;
use geo_versions::{Body, Digest, Key, Length, Version};

/// The greatest time of an operation, 0 where there is none.
pub fn latest(ops: &[Operation]) -> u64
    ensures { result ≡ latest_of (operations_of ops.now) }
{
    match ops {
        [] => 0,
        [op, rest @ ..] => op.stamp.time().max(latest(rest)),
    }
}

/// Whether an operation is on a key.
pub fn is_on(key: &Key, op: &Operation) -> bool
    ensures { result ≡ is_about key.now (act_of op.now.act) }
{
    match &op.act {
        Act::Write(written) => written.key == *key,
        Act::Delete { key: own } | Act::Touch { key: own, .. } => own == key,
        Act::Flush => false,
    }
}

fn greater_floor(one: Option<Stamp>, other: Option<Stamp>) -> Option<Stamp>
    ensures { result ≡ floor_joined one other }
{
    match (one, other) {
        (None, other) => other,
        (one, None) => one,
        (Some(one), Some(other)) => Some(if one < other { other } else { one }),
    }
}

fn flushed_at(op: &Operation) -> Option<Stamp>
    ensures { result ≡ flush_of (operation_of op.now) }
{
    match &op.act {
        Act::Flush => Some(op.stamp),
        _ => None,
    }
}

/// The greatest stamp of a flush.
pub fn floor(ops: &[Operation]) -> Option<Stamp>
    ensures { result ≡ floor_of (operations_of ops.now) }
{
    match ops {
        [] => None,
        [op, rest @ ..] => greater_floor(flushed_at(op), floor(rest)),
    }
}

/// The greater of two registers, by stamp and then by content, of which each may be empty.
fn greater<T: Exact + Drop>(
    one: Option<(Stamp, T)>,
    other: Option<(Stamp, T)>,
) -> Option<(Stamp, T)>
    ensures { result ≡ newer (by_both stamp_cmp T.order) one other }
{
    match (one, other) {
        (None, other) => other,
        (one, None) => one,
        (Some(one), Some(other)) => {
            let order = one.0.cmp(&other.0).then(one.1.cmp(&other.1));
            Some(if order.is_lt() { other } else { one })
        }
    }
}

fn body_left(key: &Key, op: &Operation) -> Option<(Stamp, Body)>
    ensures { result ≡ body_of key.now (operation_of op.now) }
{
    match &op.act {
        Act::Write(written) if *key == written.key => {
            let body = Body::Value {
                digest: Digest::of(written.bytes.as_slice()),
                flags: written.flags,
                length: Length::of(written.bytes.len() as u32),
            };
            Some((op.stamp, body))
        }
        Act::Delete { key: own } if key == own => Some((op.stamp, Body::Gone)),
        _ => None,
    }
}

/// The greatest write or delete of a key, whatever the floor.
fn newest_body(key: &Key, ops: &[Operation]) -> Option<(Stamp, Body)>
    ensures { result ≡ newest (by_both stamp_cmp body_cmp) (body_of key.now) (operations_of ops.now) }
{
    match ops {
        [] => None,
        [op, rest @ ..] => greater(body_left(key, op), newest_body(key, rest)),
    }
}

fn expiry_left(key: &Key, op: &Operation) -> Option<(Stamp, u64)>
    ensures { result ≡ expiry_of key.now (operation_of op.now) }
{
    match &op.act {
        Act::Write(written) if *key == written.key => Some((op.stamp, written.expiry)),
        Act::Delete { key: own } if key == own => Some((op.stamp, 0)),
        Act::Touch { key: own, expiry } if key == own => Some((op.stamp, *expiry)),
        _ => None,
    }
}

/// The greatest write, delete or touch of a key, whatever the floor.
fn newest_expiry(key: &Key, ops: &[Operation]) -> Option<(Stamp, u64)>
    ensures { result ≡ newest (by_both stamp_cmp nat_cmp) (expiry_of key.now) (operations_of ops.now) }
{
    match ops {
        [] => None,
        [op, rest @ ..] => greater(expiry_left(key, op), newest_expiry(key, rest)),
    }
}

fn is_above_floor(floor: Option<Stamp>, stamp: Stamp) -> bool
    ensures { result ≡ is_above floor stamp }
{
    match floor {
        None => true,
        Some(floor) => floor < stamp,
    }
}

/// What a register holds, where that is above the floor.
fn above_floor<T: Drop>(floor: &Option<Stamp>, left: Option<(Stamp, T)>) -> Option<(Stamp, T)>
    ensures { result ≡ above floor.now left }
{
    let left = left?;
    if is_above_floor(*floor, left.0) {
        Some(left)
    } else {
        None
    }
}

fn version_shown(winner: Option<(Stamp, Body)>, expiry: Option<(Stamp, u64)>) -> Option<Version>
    ensures { result ≡ version_in (winner, expiry) }
{
    let (stamp, body) = winner?;
    let (expiry_stamp, expiry) = expiry.unwrap_or((stamp, 0));
    match body {
        Body::Gone => None,
        Body::Value {
            digest,
            flags,
            length,
        } => Some(Version {
            stamp,
            digest,
            flags,
            length: length.get(),
            expiry_stamp,
            expiry,
        }),
    }
}

/// The version of a key that the operations name.
pub fn version_of(key: &Key, ops: &[Operation]) -> Option<Version>
    ensures { result ≡ version_named (operations_of ops.now) key.now }
{
    let lowest = floor(ops);
    let body = newest_body(key, ops);
    let expiry = newest_expiry(key, ops);
    let winner = above_floor(&lowest, body);
    version_shown(winner, above_floor(&lowest, expiry))
}

/// Whether a version names these bytes.
pub fn is_named(version: Option<Version>, bytes: &[u8]) -> bool
    ensures { result ≡ names version bytes.now }
{
    match version {
        None => false,
        Some(version) => version.digest == Digest::of(bytes)
            && version.length as usize == bytes.len(),
    }
}
