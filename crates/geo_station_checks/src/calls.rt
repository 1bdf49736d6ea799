//! Calls at a site with its history, and what they answer as text.
ghost use Rattle.std.specs.Prelude.{◌≤◌, ◌^◌};

use geo_delta::Parcel;
use geo_grammar::{Item, Reader, push_reply};
use geo_history::Kept;
use geo_requests::{Request, ValueBytes, Verb};
use geo_versions::Key;
use std::alloc::Global;
use std::test::Fail;

/// A call, by a seat where it is not the first.
#[derive(Clone, Copy)]
pub enum Call {
    /// A request in the text of the protocol, at the moment 100.
    Act(&'static [u8]),
    /// One at the moment 110.
    Late(&'static [u8]),
    /// One by another seat, at the moment 100.
    By(u8, &'static [u8]),
    /// A set of a mebibyte at a key.
    StoreLarge(&'static [u8]),
    Evict(&'static [u8]),
    RemoveBy(u8),
    /// At the moment 110.
    Tick,
    /// By seat 9 at a moment from 200 to 300.
    Reap(u8, &'static [u8]),
    Juggle,
    /// A send to a site, whose parcel is let go.
    Send(u8),
    /// A send to a site, whose parcel comes back to its sender.
    SendBack(u8),
}

fn key(alloc: Global, bytes: &[u8]) -> Result<Key, Fail> {
    Ok(Key::new(alloc, bytes)?.ok_or("no key")?)
}

/// The request that a text asks.
pub fn request(alloc: Global, text: &[u8]) -> Option<Request> {
    let mut items = Reader::new(alloc).feed(text).ok()?;
    match items.pop() {
        Some(Item::Request(request)) => Some(request),
        _ => None,
    }
}

fn large(alloc: Global, name: &[u8]) -> Result<Request, Fail> {
    Ok(Request::Store {
        verb: Verb::Set,
        key: key(alloc, name)?,
        flags: 0,
        exptime: 0,
        unique: None,
        bytes: ValueBytes::of(vec![in alloc; 7u8; 1_048_576]?),
        noreply: false,
    })
}

/// Answers a request by the reply's text.
fn act(
    alloc: Global,
    kept: &mut Kept,
    seat: u8,
    now: u64,
    request: Request,
    out: &mut Vec<u8>,
) -> Result<(), Fail>
    requires { now ≤ 2 ^ 40 }
{
    if kept.left(seat) < 2 {
        return Err("spent".into());
    }
    let (reply, _copy) = kept.act_for(alloc, seat, now, request)?;
    Ok(push_reply(out, &reply)?)
}

fn evict(alloc: Global, kept: &mut Kept, name: &[u8]) -> Result<bool, Fail> {
    let name = key(alloc, name)?;
    if kept.left(0) < 2 {
        return Err("spent".into());
    }
    Ok(kept.evict_for(alloc, 0, &name)?)
}

fn remove(kept: &mut Kept, seat: u8) -> Result<usize, Fail> {
    if kept.left(seat) < 2 {
        return Err("spent".into());
    }
    Ok(kept.remove_for(seat)?)
}

fn tick(kept: &mut Kept) -> Result<bool, Fail> {
    if kept.left(0) < 2 {
        return Err("spent".into());
    }
    Ok(kept.tick_for(0, 110)?)
}

fn reap(alloc: Global, kept: &mut Kept, now: u64, name: &[u8]) -> Result<bool, Fail>
    requires { now ≤ 2 ^ 40 }
{
    let name = key(alloc, name)?;
    if kept.left(9) < 2 {
        return Err("spent".into());
    }
    Ok(kept.reap_for(alloc, 9, now, &name).ok().ok_or("refused")?)
}

/// The parcel for a site, if it isn't refused.
pub fn send(
    alloc: Global,
    kept: &mut Kept,
    to: u8,
    out: &mut Vec<u8>,
) -> Result<Option<Parcel>, Fail> {
    if kept.left(0) < 2 {
        return Err("spent".into());
    }
    match kept.send_for(alloc, 0, to) {
        Ok((parcel, _copy)) => Ok(Some(parcel)),
        Err(why) => {
            out.extend_from_slice(format!(in alloc; "{why:?}")?.as_bytes())?;
            Ok(None)
        }
    }
}

pub fn take(alloc: Global, kept: &mut Kept, parcel: Parcel, out: &mut Vec<u8>) -> Result<(), Fail> {
    if kept.left(0) < 2 {
        return Err("spent".into());
    }
    let text = match kept.take_for(alloc, 0, parcel) {
        Ok(taken) => format!(in alloc; "{taken:?}")?,
        Err(refused) => format!(in alloc; "{:?}", refused.why)?,
    };
    Ok(out.extend_from_slice(text.as_bytes())?)
}

/// Sends a site a parcel, and takes it for its own.
fn send_back(alloc: Global, kept: &mut Kept, to: u8, out: &mut Vec<u8>) -> Result<(), Fail> {
    match send(alloc, kept, to, out)? {
        Some(parcel) => take(alloc, kept, parcel, out),
        None => Ok(()),
    }
}

fn say(alloc: Global, out: &mut Vec<u8>, told: bool) -> Result<(), Fail> {
    Ok(out.extend_from_slice(format!(in alloc; "{told}")?.as_bytes())?)
}

/// Carries out a call that is no request.
fn maintain(alloc: Global, kept: &mut Kept, call: Call, out: &mut Vec<u8>) -> Result<(), Fail> {
    match call {
        Call::Evict(name) => {
            let held = evict(alloc, kept, name)?;
            say(alloc, out, held)
        }
        Call::RemoveBy(seat) => {
            let count = remove(kept, seat)?;
            Ok(out.extend_from_slice(format!(in alloc; "{count}")?.as_bytes())?)
        }
        Call::Tick => {
            let flushed = tick(kept)?;
            say(alloc, out, flushed)
        }
        Call::Reap(behind, name) => {
            let deleted = reap(alloc, kept, 200 + behind as u64, name)?;
            say(alloc, out, deleted)
        }
        Call::Juggle => {
            let moved = kept.juggle(14)?;
            say(alloc, out, moved)
        }
        Call::Send(to) => {
            let _parcel = send(alloc, kept, to, out)?;
            Ok(())
        }
        Call::SendBack(to) => send_back(alloc, kept, to, out),
        _ => Err("another call".into()),
    }
}

/// Carries out a call, and writes what it answers.
fn answer(alloc: Global, kept: &mut Kept, call: Call, out: &mut Vec<u8>) -> Result<(), Fail> {
    match call {
        Call::Act(text) => act(
            alloc,
            kept,
            0,
            100,
            request(alloc, text).ok_or("no request")?,
            out,
        ),
        Call::Late(text) => act(
            alloc,
            kept,
            0,
            110,
            request(alloc, text).ok_or("no request")?,
            out,
        ),
        Call::By(seat, text) => act(
            alloc,
            kept,
            seat,
            100,
            request(alloc, text).ok_or("no request")?,
            out,
        ),
        Call::StoreLarge(name) => act(alloc, kept, 0, 100, large(alloc, name)?, out),
        call => maintain(alloc, kept, call, out),
    }
}

/// Carries out calls, and writes what each answers, on a line of its own.
pub fn answer_all(
    alloc: Global,
    kept: &mut Kept,
    calls: &[Call],
    out: &mut Vec<u8>,
) -> Result<(), Fail> {
    for call in calls {
        answer(alloc, kept, *call, out)?;
        out.extend_from_slice(b"\n")?;
    }
    Ok(())
}
