//! Requests of one key.
use anyhow::{Result, anyhow};
use geo_lattice::Items;
use geo_requests::{Request, ValueBytes, Verb};
use geo_versions::Key;
use std::alloc::Global;

fn key_of(alloc: Global, bytes: &[u8]) -> Result<Key> {
    match Key::new(alloc, bytes)? {
        Some(key) => Ok(key),
        None => Err(anyhow!("no key")),
    }
}

/// A store of a value that never ends.
pub fn store(alloc: Global, verb: Verb, key: &[u8], bytes: &[u8]) -> Result<Request> {
    Ok(Request::Store {
        verb,
        key: key_of(alloc, key)?,
        flags: 0,
        exptime: 0,
        unique: None,
        bytes: ValueBytes::of(Vec::from_slice(alloc, bytes)?),
        noreply: false,
    })
}

/// A get of one key.
pub fn get(alloc: Global, key: &[u8]) -> Result<Request> {
    let mut keys = Vec::new(alloc);
    keys.push(key_of(alloc, key)?)?;
    Ok(Request::Fetch {
        keys: Items::of(keys),
        numbers: true,
    })
}

pub fn delete(alloc: Global, key: &[u8]) -> Result<Request> {
    Ok(Request::Delete {
        key: key_of(alloc, key)?,
        noreply: false,
    })
}

/// A touch for an hour or so.
pub fn touch(alloc: Global, key: &[u8], more: u64) -> Result<Request> {
    Ok(Request::Touch {
        key: key_of(alloc, key)?,
        exptime: i64::try_from(more & 1023).unwrap_or(0).wrapping_add(3_000),
        noreply: false,
    })
}

/// Counts a number up.
pub fn incr(alloc: Global, key: &[u8], by: u64) -> Result<Request> {
    Ok(Request::Arith {
        up: true,
        key: key_of(alloc, key)?,
        by,
        noreply: false,
    })
}
