//! Versions of which some are removed, so that others change places: what ended first is told whatever memory was refused meanwhile.
use geo_scenes::shown::{
    push_body_register, push_expiry_register, push_floor, push_key, push_number,
};
use geo_scenes::texts::key;
use geo_scenes::{Scene, Stop};
use geo_stamp::Stamp;
use geo_versions::{Body, Digest, Key, Length, Versions};
use std::alloc::{AllocError, Global};
use std::hash::RandomState;
use std::random::RandomSource;
use std::rt::Clock;
use std::sync::Wait;

/// A call at the versions of a site. Keys go by numbers.
#[derive(Clone, Copy)]
enum Call {
    /// A write at a time, which ends at a moment.
    Write(usize, u64, u64),
    /// A touch, by which it ends at another moment.
    Touch(usize, u64, u64),
    Delete(usize, u64),
    /// A removal up to a time.
    Remove(u64),
    /// Which write ended first before a moment.
    Ended(u64),
    Flush(u64),
}

/// So many keys are written before the other calls.
const FIRST: usize = 40;

/// What is called then. So few are deleted at a time that a removal drops them one by one, and the last record takes the place of each.
const CALLS: &[Call] = &[
    Call::Ended(1020),
    Call::Delete(3, 200),
    Call::Delete(0, 201),
    Call::Remove(201),
    Call::Ended(1009),
    Call::Ended(1060),
    Call::Write(3, 210, 1002),
    Call::Write(40, 211, 1001),
    Call::Write(41, 212, 1030),
    Call::Ended(1003),
    Call::Delete(7, 220),
    Call::Delete(39, 221),
    Call::Delete(20, 222),
    Call::Remove(221),
    Call::Ended(1040),
    Call::Ended(1004),
    Call::Touch(38, 230, 1000),
    Call::Ended(1001),
    Call::Touch(38, 231, 1090),
    Call::Remove(222),
    Call::Ended(1002),
    Call::Ended(1100),
    Call::Delete(1, 240),
    Call::Remove(240),
    Call::Flush(110),
    Call::Ended(1100),
    Call::Ended(1050),
    Call::Write(1, 250, 1040),
    Call::Delete(12, 251),
    Call::Remove(251),
    Call::Ended(1041),
    Call::Ended(1070),
];

/// The versions of a site, and the keys that are asked.
#[derive(Drop)]
pub struct Order {
    versions: Versions,
    keys: Vec<Key>,
}

/// The stamp of the site at a time.
fn stamp(time: u64) -> Option<Stamp> {
    Stamp::new(time, 1)
}

fn body() -> Body {
    Body::Value {
        digest: Digest::of(b"v"),
        flags: 0,
        length: Length::of(1),
    }
}

/// The call at a place.
fn call_at(place: usize) -> Option<Call> {
    match place.checked_sub(FIRST) {
        // Ends rise and fall, so that few low ones stand together.
        None => {
            let turn = (place as u64).wrapping_mul(23) % 60;
            Some(Call::Write(
                place,
                u64::wrapping_add(100, place as u64),
                turn.wrapping_add(1000),
            ))
        }
        Some(later) => CALLS.get(later).copied(),
    }
}

impl Order {
    /// Versions that know nothing.
    pub fn new<R: RandomSource>(rt: &R, alloc: Global) -> Result<Order, Stop> {
        let mut keys = Vec::new(alloc);
        for number in 0..60u8 {
            let name = [b'a' + number / 26, b'a' + number % 26];
            keys.push(key(alloc, name.as_slice())?)?;
        }
        let Ok(hasher) = RandomState::new(rt) else {
            return Err(Stop::Wrong("no random bytes"));
        };
        Ok(Order {
            versions: Versions::new(alloc, hasher),
            keys,
        })
    }

    fn write(
        &mut self,
        alloc: Global,
        number: usize,
        time: u64,
        body: &Body,
        expiry: u64,
    ) -> Result<(), Stop> {
        let Some(key) = self.keys.get(number) else {
            return Err(Stop::Wrong("no key"));
        };
        let Some(at) = stamp(time) else {
            return Err(Stop::Wrong("no stamp"));
        };
        self.versions.write(alloc, key, at, *body, expiry)?;
        Ok(())
    }

    fn touch(&mut self, number: usize, time: u64, expiry: u64) -> Result<(), Stop> {
        let Some(at) = stamp(time) else {
            return Err(Stop::Wrong("no stamp"));
        };
        match self.keys.get(number) {
            Some(key) if self.versions.record(key).is_some() => {
                self.versions.touch(key, at, expiry);
                Ok(())
            }
            _ => Err(Stop::Wrong("no record")),
        }
    }

    fn push_ended(&self, before: u64, out: &mut Vec<u8>) -> Result<(), AllocError> {
        match self.versions.ended(1, before) {
            Some(key) => out.extend_from_slice(key.bytes()),
            None => out.extend_from_slice(b"none"),
        }
    }
}

impl Scene for Order {
    fn count(&self) -> usize {
        FIRST + CALLS.len()
    }

    fn begin(&mut self, _place: usize) -> Result<(), Stop> {
        Ok(())
    }

    fn call<R: Wait + Clock>(
        &mut self,
        _rt: &R,
        alloc: Global,
        place: usize,
        out: &mut Vec<u8>,
    ) -> Result<(), Stop> {
        let Some(call) = call_at(place) else {
            return Err(Stop::Wrong("no such call"));
        };
        match call {
            Call::Write(number, time, expiry) => self.write(alloc, number, time, &body(), expiry),
            Call::Touch(number, time, expiry) => self.touch(number, time, expiry),
            Call::Delete(number, time) => self.write(alloc, number, time, &Body::Gone, 0),
            Call::Remove(horizon) => {
                let count = self.versions.remove_below(horizon);
                out.push(b'0' + (count % 10) as u8)?;
                Ok(())
            }
            Call::Ended(before) => {
                self.push_ended(before, out)?;
                Ok(())
            }
            Call::Flush(time) => {
                let Some(at) = stamp(time) else {
                    return Err(Stop::Wrong("no stamp"));
                };
                self.versions.raise_floor(at);
                Ok(())
            }
        }
    }

    fn show<R: Wait>(
        &mut self,
        _rt: &R,
        _alloc: Global,
        out: &mut Vec<u8>,
    ) -> Result<(), AllocError> {
        push_number(out, self.versions.len() as u64)?;
        push_floor(out, &self.versions.floor())?;
        for key in &self.keys {
            if let Some(rec) = self.versions.record(key) {
                push_key(out, key)?;
                push_body_register(out, &rec.left)?;
                push_expiry_register(out, &rec.right)?;
            }
        }
        Ok(())
    }

    fn glance(&self) -> u64 {
        let mut sum = self.versions.len() as u64;
        for key in &self.keys {
            if let Some(version) = self.versions.version_of(key) {
                sum = sum.wrapping_mul(31).wrapping_add(version.expiry);
            }
        }
        sum
    }
}
