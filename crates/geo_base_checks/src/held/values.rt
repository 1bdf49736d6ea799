//! Values under keys.
use crate::held::check;
use geo_slabs::Slabs;
use geo_values::{Blob, Values};
use geo_versions::{Digest, Key};
use std::alloc::{AllocError, Global};
use std::hash::RandomState;
use std::process::Abort;
use std::test::Fail;

mod table;

use table::{ROWS, Step};

/// The class of the largest values, which have a page each.
const LARGEST: usize = 14;

/// The least length of that class.
const LARGE: usize = 524_289;

/// The bytes of a page.
const PAGE: usize = 1_048_576;

fn name_of(key: &Key) -> &str {
    str::from_utf8(key.bytes()).unwrap_or("?")
}

/// The key of one byte, which is one that keys may have.
fn key(alloc: Global, name: u8) -> Result<Key, AllocError> {
    Key::new(alloc, &[name])?.ok_or(AllocError)
}

/// Shows a key, or that there is none.
fn show_key(out: &mut String, key: Option<Key>) -> Result<(), AllocError> {
    match key {
        None => out.push_str("-"),
        Some(key) => out.push_str(name_of(&key)),
    }
}

/// Stores a blob under a key, and shows which key was evicted.
fn store(
    out: &mut String,
    values: &mut Values,
    name: u8,
    blob: &Blob<'_>,
) -> Result<(), AllocError> {
    if blob.bytes().len() > PAGE {
        return out.push_str("too long");
    }
    let alloc = *out.allocator();
    let key = key(alloc, name)?;
    let evicted = values.store(alloc, &key, blob)?;
    show_key(out, evicted)
}

/// So many times one byte.
fn bytes(alloc: Global, byte: u8, many: usize) -> Result<Vec<u8>, AllocError> {
    vec![in alloc; byte; many]
}

/// Stores a blob under each key.
fn fill(
    out: &mut String,
    values: &mut Values,
    names: &str,
    blob: &Blob<'_>,
) -> Result<(), AllocError> {
    for name in names.as_bytes() {
        store(out, values, *name, blob)?;
    }
    Ok(())
}

/// Admits a blob under a key that is not held, and shows whether it was.
fn admit(
    out: &mut String,
    values: &mut Values,
    name: u8,
    blob: &Blob<'_>,
) -> Result<(), AllocError> {
    let alloc = *out.allocator();
    let key = key(alloc, name)?;
    if values.holds(&key) {
        return out.push_str("-");
    }
    if blob.bytes().len() > PAGE {
        return out.push_str("too long");
    }
    let is_held = values.admit(alloc, &key, blob)?;
    out.push_str(if is_held { "+" } else { "x" })
}

fn admit_all(
    out: &mut String,
    values: &mut Values,
    names: &str,
    blob: &Blob<'_>,
) -> Result<(), AllocError> {
    for name in names.as_bytes() {
        admit(out, values, *name, blob)?;
    }
    Ok(())
}

/// Shows whether the bytes of a blob are got and found by their digest.
fn get(out: &mut String, values: &Values, name: u8, blob: &Blob<'_>) -> Result<(), AllocError> {
    let key = key(*out.allocator(), name)?;
    let digest = Digest::of(blob.bytes());
    let found = values.find(&key, &digest);
    match values.get(&key, &digest) {
        None if found.is_none() => out.push_str(" none"),
        Some(held) if held == blob.bytes() && found.is_some_and(|(_, bytes)| bytes == held) => {
            out.push_str(" got")
        }
        _ => out.push_str(" other"),
    }
}

fn holds(out: &mut String, values: &Values, name: u8) -> Result<(), AllocError> {
    let is_held = values.holds(&key(*out.allocator(), name)?);
    out.push_str(if is_held { " held" } else { " not" })
}

fn drop_key(out: &mut String, values: &mut Values, name: u8) -> Result<(), AllocError> {
    let was_held = values.drop_key(&key(*out.allocator(), name)?);
    out.push_str(if was_held { " dropped" } else { " none" })
}

fn hit(values: &mut Values, alloc: Global, name: u8) -> Result<(), AllocError> {
    values.hit(&key(alloc, name)?);
    Ok(())
}

fn juggle(out: &mut String, values: &mut Values) -> Result<(), AllocError> {
    let has_moved = values.juggle(LARGEST)?;
    out.push_str(if has_moved { "+" } else { "." })
}

/// Evicts what the largest class has.
fn evict(out: &mut String, values: &mut Values) -> Result<(), AllocError> {
    for _ in 0..9 {
        let evicted = values.evict_tail(LARGEST);
        if evicted.is_none() {
            return out.push_str("-");
        }
        show_key(out, evicted)?;
    }
    Ok(())
}

fn retain_other_keys(values: &mut Values, names: &str) {
    values.retain(|key, _, _| !names.contains(name_of(key)));
}

fn retain_other_bytes(values: &mut Values, dropped: &Digest) {
    values.retain(|_, digest, _| *digest != *dropped);
}

fn retain_length(values: &mut Values, length: usize) {
    values.retain(|_, _, other| other == length);
}

/// Changes what is held by a test or a hit, which shows nothing.
fn change(values: &mut Values, alloc: Global, step: Step) -> Result<(), AllocError> {
    match step {
        Step::Hit(name) => hit(values, alloc, name),
        Step::HitAt(name, place) => {
            values.hit_at(place, &key(alloc, name)?);
            Ok(())
        }
        Step::RetainOtherBytes(byte, many) => {
            retain_other_bytes(values, &Digest::of(&bytes(alloc, byte, many)?));
            Ok(())
        }
        Step::RetainOtherKeys(names) => {
            retain_other_keys(values, names);
            Ok(())
        }
        Step::RetainLength(length) => {
            retain_length(values, length);
            Ok(())
        }
        _ => Ok(()),
    }
}

fn step(
    out: &mut String,
    values: &mut Values,
    large: &Blob<'_>,
    step: Step,
) -> Result<(), AllocError> {
    let alloc = *out.allocator();
    match step {
        Step::Fill(names) => fill(out, values, names, large),
        Step::Admit(names) => admit_all(out, values, names, large),
        Step::IsFull => out.push_str(if values.is_full(LARGE) {
            " full"
        } else {
            " room"
        }),
        Step::Store(name, byte, many) => store(
            out,
            values,
            name,
            &Blob::new(&bytes(alloc, byte, many)?),
        ),
        Step::Get(name, byte, many) => get(
            out,
            values,
            name,
            &Blob::new(&bytes(alloc, byte, many)?),
        ),
        Step::Len => write!(out, "{}", values.len()),
        Step::Holds(name) => holds(out, values, name),
        Step::DropKey(name) => drop_key(out, values, name),
        Step::Juggle => juggle(out, values),
        Step::Evict => evict(out, values),
        _ => change(values, alloc, step),
    }
}

/// Values with so many pages.
fn values_of(alloc: Global, hasher: RandomState, pages: usize) -> Result<Values, AllocError> {
    match Slabs::new(alloc, pages) {
        Ok(slabs) => Values::new(alloc, hasher, slabs),
        Err(_) => Err(AllocError),
    }
}

fn play(
    out: &mut String,
    values: &mut Values,
    large: &Blob<'_>,
    steps: &[Step],
) -> Result<(), AllocError> {
    for what in steps {
        step(out, values, large, *what)?;
    }
    Ok(())
}

/// Plays each row with new values, and with one blob of the largest class.
fn play_rows(
    rt: &impl Abort,
    out: &mut String,
    hasher: RandomState,
    large: &Blob<'_>,
) -> Result<(), AllocError> {
    for (pages, steps, want) in ROWS {
        let mut values = values_of(*out.allocator(), hasher, *pages)?;
        out.clear();
        play(out, &mut values, large, steps)?;
        check(rt, out.as_str(), want);
    }
    Ok(())
}

#[test]
fn values_are_held_until_they_are_dropped_or_evicted(rt: HostRuntime) -> Result<(), Fail> {
    let hasher = RandomState::new(&rt)?;
    let large = bytes(rt.alloc(), 7, LARGE)?;
    let mut out = String::new(rt.alloc());
    play_rows(&rt, &mut out, hasher, &Blob::new(&large))?;
    Ok(())
}

#[test]
fn a_blob_has_the_sha_256_of_its_bytes(rt: HostRuntime) -> Result<(), Fail> {
    let blob = Blob::new(b"abc");
    let digest = blob.digest();
    // FIPS 180-4's example of one block.
    let seen = (blob.bytes(), &digest.bytes()[..4]);
    assert_eq!(rt;
        seen,
        (b"abc".as_slice(), [0xba, 0x78, 0x16, 0xbf].as_slice())
    );
    Ok(())
}
