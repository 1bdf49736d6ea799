//! Frames of which a bit or a field is another, or whose end is missing, and what is told of each.
use crate::lines::{Line, Sites, frame_of};
use geo_frame::{FrameFault, Message, decode};
use geo_scenes::texts::word;
use geo_scenes::{Scene, Stop};
use geo_versions::Digest;
use std::alloc::{AllocError, Global};
use std::random::RandomSource;
use std::rt::Clock;
use std::sync::Wait;

/// How often each fault was told, by its number, and how often none was.
#[derive(Clone, Copy)]
struct Counts {
    faults: [u64; 8],
    read: u64,
}

const NAMES: [&[u8]; 8] = [
    b"Short ",
    b"Magic ",
    b"Version ",
    b"Field ",
    b"Order ",
    b"Damaged ",
    b"Trailing ",
    b"Memory ",
];

/// The place of a fault among the names.
fn place_of(fault: FrameFault) -> usize {
    match fault {
        FrameFault::Short => 0,
        FrameFault::Magic => 1,
        FrameFault::Version => 2,
        FrameFault::Field => 3,
        FrameFault::Order => 4,
        FrameFault::Damaged => 5,
        FrameFault::Trailing => 6,
        FrameFault::Memory => 7,
    }
}

impl Counts {
    fn none() -> Counts {
        Counts {
            faults: [0; 8],
            read: 0,
        }
    }

    /// Counts what is told of a frame that comes to sites. One that is read is taken, which changes the site that it names.
    fn count(&mut self, alloc: Global, sites: &mut Sites, frame: &[u8]) {
        match decode(alloc, frame) {
            Ok(message) => {
                self.read = self.read.saturating_add(1);
                if let Message::Parcel(parcel) = message {
                    sites.hand(alloc, parcel);
                }
            }
            Err(fault) => {
                if let Some(count) = self.faults.get_mut(place_of(fault)) {
                    *count = count.saturating_add(1);
                }
            }
        }
    }

    /// Writes the names of those that were told, with how often.
    fn push(&self, out: &mut Vec<u8>) -> Result<(), AllocError> {
        for (name, count) in NAMES.iter().zip(self.faults.iter()) {
            if *count > 0 {
                word(out, name, *count)?;
                out.extend_from_slice(b" ")?;
            }
        }
        word(out, b"read ", self.read)?;
        out.extend_from_slice(b"\n")
    }
}

/// What is told where one bit is another, each in turn. The frame is the same afterwards.
fn flipped(alloc: Global, sites: &mut Sites, frame: &mut Vec<u8>) -> Counts {
    let mut counts = Counts::none();
    for place in 0..frame.len() {
        for bit in 0..8u32 {
            let Some(byte) = frame.get(place).copied() else {
                return counts;
            };
            let other = byte ^ 1u8.wrapping_shl(bit);
            if let Some(cell) = frame.get_mut(place) {
                *cell = other;
            }
            counts.count(alloc, sites, frame.as_slice());
            if let Some(cell) = frame.get_mut(place) {
                *cell = byte;
            }
        }
    }
    counts
}

/// What is told where the end is missing, from each place on.
fn cut(alloc: Global, sites: &mut Sites, frame: &[u8]) -> Counts {
    let mut counts = Counts::none();
    for place in 0..frame.len() {
        let (front, _) = frame.split_at(place);
        counts.count(alloc, sites, front);
    }
    counts
}

/// The frame of a parcel of a scene.
fn frame_at(alloc: Global, sites: &Sites, number: usize) -> Result<Vec<u8>, Stop> {
    match sites.parcel(number) {
        Some(parcel) => frame_of(alloc, parcel),
        None => Err(Stop::Wrong("no such parcel")),
    }
}

/// Makes all calls of a scene, and lets what they answer go.
fn made<R: Wait + Clock>(rt: &R, alloc: Global, sites: &mut Sites) -> Result<(), Stop> {
    let mut answers = Vec::new(alloc);
    for place in 0..sites.count() {
        sites.call(rt, alloc, place, &mut answers)?;
    }
    Ok(())
}

/// Tells what comes of a parcel's frame that is spoiled in each way, and that the sites are what they were.
fn spoil<R: Wait>(
    rt: &R,
    alloc: Global,
    sites: &mut Sites,
    number: usize,
    out: &mut Vec<u8>,
) -> Result<(), Stop> {
    let mut before = Vec::new(alloc);
    let mut after = Vec::new(alloc);
    sites.show(rt, alloc, &mut before)?;
    let mut frame = frame_at(alloc, sites, number)?;
    word(out, b"bytes ", frame.len() as u64)?;
    out.extend_from_slice(b"\n  flipped: ")?;
    flipped(alloc, sites, &mut frame).push(out)?;
    out.extend_from_slice(b"  cut: ")?;
    cut(alloc, sites, frame.as_slice()).push(out)?;
    out.extend_from_slice(b"  longer: ")?;
    let mut counts = Counts::none();
    frame.push(0)?;
    counts.count(alloc, sites, frame.as_slice());
    counts.push(out)?;
    sites.show(rt, alloc, &mut after)?;
    if before.as_slice() != after.as_slice() {
        return Err(Stop::Wrong("the sites are not what they were"));
    }
    Ok(())
}

/// A value without bytes, with flags, told to the other site.
const EMPTY: &[Line] = &[Line::Act(1, 100, b"set e 5 0 0\r\n\r\n"), Line::Send(1, 2)];

/// What a site is told that was heard to know all but the last.
const HEARD: &[Line] = &[
    Line::Act(1, 100, b"set a 0 0 2\r\nhi\r\n"),
    Line::Send(1, 2),
    Line::Take(2, 0),
    Line::Send(2, 1),
    Line::Take(1, 1),
    Line::Act(1, 100, b"set b 0 0 2\r\nyo\r\n"),
    Line::Send(1, 2),
];

/// Two keys, told in one parcel.
const BOTH: &[Line] = &[
    Line::Act(1, 100, b"set a 0 0 2\r\nhi\r\n"),
    Line::Act(1, 100, b"set b 0 0 2\r\nyo\r\n"),
    Line::Send(1, 2),
];

/// Tells what comes of the frames of several parcels of a scene.
fn spoil_each<R: Wait + Clock + RandomSource>(
    rt: &R,
    alloc: Global,
    lines: &'static [Line],
    numbers: &[usize],
    out: &mut Vec<u8>,
) -> Result<(), Stop> {
    let mut sites = Sites::new(rt, alloc, 2, lines)?;
    made(rt, alloc, &mut sites)?;
    for number in numbers {
        spoil(rt, alloc, &mut sites, *number, out)?;
    }
    Ok(())
}

/// Tells how often each fault is found in frames that are spoiled bit by bit and byte by byte.
pub fn tell_spoiled<R: Wait + Clock + RandomSource>(
    rt: &R,
    alloc: Global,
    out: &mut Vec<u8>,
) -> Result<(), Stop> {
    out.extend_from_slice(b"frames\n")?;
    spoil_each(rt, alloc, EMPTY, &[0], out)?;
    spoil_each(rt, alloc, HEARD, &[0, 1, 2], out)
}

/// A byte in the place of another, and what is wrong with it.
type Patch = (&'static str, usize, u8);

/// In the frame of one record: at 9 the kind, from 10 on from, to and the number of sites, from 13 and 29 on the vectors, from 45 on the
/// retired sites, from 53 on the floor, from 62 on the count, from 66 on the key, from 68 on the body with its stamp, digest, flags and
/// length, from 118 on the expiry.
const PATCHES: &[Patch] = &[
    ("of no kind", 9, 0),
    ("an ask, and more", 9, 2),
    ("an offer, and more", 9, 3),
    ("of a fourth kind", 9, 4),
    ("from no site", 10, 0),
    ("from a third of two", 10, 3),
    ("to no site", 11, 0),
    ("to the sender", 11, 1),
    ("to a third of two", 11, 3),
    ("of no sites", 12, 0),
    ("of one site", 12, 1),
    ("of seventeen", 12, 17),
    ("a base beyond the last clock", 13, 1),
    ("a clock beyond the last", 29, 1),
    ("a site that has retired", 52, 1),
    ("a third of two that has retired", 52, 4),
    ("a floor beyond the last clock", 53, 1),
    ("a floor of no site", 60, 1),
    ("a floor of no time", 61, 1),
    ("no record, and bytes", 65, 0),
    ("one record of two", 65, 2),
    ("a key without bytes", 66, 0),
    ("a space in a key", 67, 0x20),
    ("a delete character in a key", 67, 0x7f),
    ("no body, and bytes", 68, 0),
    ("another kind of body", 68, 3),
    ("a body beyond the last clock", 69, 1),
    ("a body of no time", 76, 0),
    ("a body of no site", 77, 0),
    ("a body of a third site", 77, 3),
    ("a value too long", 114, 1),
    ("no expiry, and bytes", 118, 0),
    ("another kind of expiry", 118, 2),
    ("an expiry beyond the last clock", 119, 1),
    ("an expiry of no time", 126, 0),
    ("an expiry of no site", 127, 0),
    ("an expiry of a third site", 127, 3),
    ("other flags", 113, 6),
    ("another end", 135, 1),
];

/// In the frame of two records, `a` and `b`, whose keys stand at 67 and 137.
const ORDERS: &[Patch] = &[
    ("a key again", 67, b'b'),
    ("a key before the one before", 67, b'c'),
    ("a key that is none, and before", 137, 0x20),
    ("another second key", 137, b'c'),
];

/// The frame with another byte, and the SHA-256 that is then right.
fn patched(alloc: Global, frame: &[u8], place: usize, byte: u8) -> Result<Vec<u8>, Stop> {
    let (fields, _) = frame.split_at(frame.len().saturating_sub(32));
    let mut other = Vec::from_slice(alloc, fields)?;
    match other.get_mut(place) {
        Some(cell) => *cell = byte,
        None => return Err(Stop::Wrong("no such byte")),
    }
    let digest = Digest::of(other.as_slice());
    other.extend_from_slice(digest.bytes().as_slice())?;
    Ok(other)
}

/// Tells what is read of a frame with another byte.
fn tell_patch(alloc: Global, frame: &[u8], patch: &Patch, out: &mut Vec<u8>) -> Result<(), Stop> {
    let (what, place, byte) = *patch;
    let other = patched(alloc, frame, place, byte)?;
    let told: &[u8] = match decode(alloc, other.as_slice()) {
        Ok(_) => b"read",
        Err(fault) => NAMES
            .get(place_of(fault))
            .map_or(b"", |name| name.trim_ascii_end()),
    };
    out.extend_from_slice(what.as_bytes())?;
    out.extend_from_slice(b": ")?;
    out.extend_from_slice(told)?;
    Ok(out.extend_from_slice(b"\n")?)
}

fn tell_patches<R: Wait + Clock + RandomSource>(
    rt: &R,
    alloc: Global,
    lines: &'static [Line],
    patches: &[Patch],
    out: &mut Vec<u8>,
) -> Result<(), Stop> {
    let mut sites = Sites::new(rt, alloc, 2, lines)?;
    made(rt, alloc, &mut sites)?;
    let frame = frame_at(alloc, &sites, 0)?;
    for patch in patches {
        tell_patch(alloc, frame.as_slice(), patch, out)?;
    }
    Ok(())
}

/// Tells what is read of frames whose SHA-256 is right and of which one field is not.
pub fn tell_fields<R: Wait + Clock + RandomSource>(
    rt: &R,
    alloc: Global,
    out: &mut Vec<u8>,
) -> Result<(), Stop> {
    out.extend_from_slice(b"fields\n")?;
    tell_patches(rt, alloc, EMPTY, PATCHES, out)?;
    tell_patches(rt, alloc, BOTH, ORDERS, out)
}
