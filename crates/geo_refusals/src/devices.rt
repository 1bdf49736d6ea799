//! Links over readers and writers that fail.
use geo_delta::Parcel;
use geo_frame::{Message, encode, fits};
use geo_lattice::Items;
use geo_link::{Link, LinkError, StreamLink};
use geo_scenes::texts::word;
use geo_scenes::{Fused, Stop};
use geo_stamp::{Retired, Vector};
use std::alloc::{AllocError, Global};
use std::sync::Wait;

/// A link that reads these bytes, whose devices pass so many calls each.
fn link_over(
    alloc: Global,
    bytes: &[u8],
    reads: usize,
    writes: usize,
) -> Result<StreamLink<Fused, Fused>, AllocError> {
    let reader = Fused::reader(alloc, bytes, reads)?;
    let writer = Fused::writer(alloc, 200, writes)?;
    StreamLink::new(alloc, reader, writer)
}

/// A parcel without records, whose frame has 98 bytes.
fn parcel(alloc: Global) -> Message {
    let mut upto = Vector::new(2);
    upto.raise(1, 1);
    Message::Parcel(Parcel {
        from: 1,
        to: 2,
        base: Vector::new(2),
        upto,
        retired: Retired::none(),
        floor: None,
        records: Items::of(Vec::new(alloc)),
    })
}

/// The frames of two parcels.
fn two_frames(alloc: Global) -> Result<Vec<u8>, Stop> {
    let parcel = parcel(alloc);
    if !fits(&parcel) {
        return Err(Stop::Wrong("a parcel out of range"));
    }
    let Ok(mut frames) = encode(alloc, &parcel) else {
        return Err(Stop::Memory);
    };
    let Ok(again) = encode(alloc, &parcel) else {
        return Err(Stop::Memory);
    };
    frames.extend_from_slice(again.as_slice())?;
    Ok(frames)
}

fn say(out: &mut Vec<u8>, why: LinkError) -> Result<(), AllocError> {
    let alloc = *out.allocator();
    out.extend_from_slice(format!(in alloc; ", {why:?}")?.as_bytes())
}

/// Gets parcels up to an error, and tells how many, and the error.
fn get_all<L: Link, R: Wait>(
    rt: &R,
    alloc: Global,
    link: &mut L,
    out: &mut Vec<u8>,
) -> Result<(), Stop> {
    for count in 0..9u64 {
        if let Err(why) = link.get(rt, alloc) {
            word(out, b"got ", count)?;
            return Ok(say(out, why)?);
        }
    }
    Err(Stop::Wrong("it goes on"))
}

fn put<L: Link, R: Wait>(rt: &R, alloc: Global, link: &mut L) -> Result<(), LinkError> {
    let parcel = parcel(alloc);
    if !fits(&parcel) {
        return Err(LinkError::TooLong);
    }
    link.put(rt, alloc, parcel)
}

/// Puts up to two parcels, and tells how many were put, and why no more.
fn put_two<L: Link, R: Wait>(
    rt: &R,
    alloc: Global,
    link: &mut L,
    out: &mut Vec<u8>,
) -> Result<(), Stop> {
    for count in 0..2u64 {
        if let Err(why) = put(rt, alloc, link) {
            word(out, b"put ", count)?;
            return Ok(say(out, why)?);
        }
    }
    Ok(word(out, b"put ", 2)?)
}

/// Tells what is answered from then on.
fn tell_after<L: Link, R: Wait>(
    rt: &R,
    alloc: Global,
    link: &mut L,
    out: &mut Vec<u8>,
) -> Result<(), Stop> {
    out.extend_from_slice(b"; then get")?;
    match link.get(rt, alloc) {
        Ok(_) => out.extend_from_slice(b" a parcel")?,
        Err(why) => say(out, why)?,
    }
    out.extend_from_slice(b", put")?;
    match put(rt, alloc, link) {
        Ok(()) => out.extend_from_slice(b" one")?,
        Err(why) => say(out, why)?,
    }
    Ok(out.extend_from_slice(b"\n")?)
}

/// What is got where a reader fails behind so many reads.
fn read_behind<R: Wait>(
    rt: &R,
    alloc: Global,
    bytes: &[u8],
    calls: usize,
    out: &mut Vec<u8>,
) -> Result<(), Stop> {
    let mut link = link_over(alloc, bytes, calls, 99)?;
    get_all(rt, alloc, &mut link, out)?;
    tell_after(rt, alloc, &mut link, out)
}

/// What is put where a writer fails behind so many writes.
fn write_behind<R: Wait>(
    rt: &R,
    alloc: Global,
    bytes: &[u8],
    calls: usize,
    out: &mut Vec<u8>,
) -> Result<(), Stop> {
    let mut link = link_over(alloc, bytes, 99, calls)?;
    put_two(rt, alloc, &mut link, out)?;
    tell_after(rt, alloc, &mut link, out)
}

/// How often each of so many ends of a peer within a frame is told as Short, and the link as closed from then on.
fn short_ends<R: Wait>(rt: &R, alloc: Global, frame: &[u8]) -> Result<u64, Stop> {
    let mut told = 0u64;
    let mut said = Vec::new(alloc);
    for count in 1..frame.len() {
        let (front, _) = frame.split_at(count);
        said.clear();
        read_behind(rt, alloc, front, 99, &mut said)?;
        let owed = b"got 0, Frame(Short); then get, Closed, put, Closed\n".as_slice();
        told = told.saturating_add((said.as_slice() == owed) as u64);
    }
    Ok(told)
}

/// A stranger who announces a gibibyte and sends ten bytes.
const ANNOUNCED: &[u8] = b"GCDS\x01\x40\x00\x00\x00\x01";

/// Tells what links do whose readers and writers fail at each call, whose peer stops within a frame, and to whom a stranger talks.
pub fn tell_all<R: Wait>(rt: &R, alloc: Global, out: &mut Vec<u8>) -> Result<(), Stop> {
    out.extend_from_slice(b"devices\n")?;
    let frames = two_frames(alloc)?;
    for calls in 0..12usize {
        word(out, b"reads ", calls as u64)?;
        out.extend_from_slice(b": ")?;
        read_behind(rt, alloc, frames.as_slice(), calls, out)?;
    }
    for calls in 0..11usize {
        word(out, b"writes ", calls as u64)?;
        out.extend_from_slice(b": ")?;
        write_behind(rt, alloc, frames.as_slice(), calls, out)?;
    }
    let (first, _) = frames.split_at(frames.len().wrapping_div(2));
    word(out, b"ends within a frame ", short_ends(rt, alloc, first)?)?;
    out.extend_from_slice(b"\na stranger: ")?;
    read_behind(rt, alloc, ANNOUNCED, 99, out)
}
