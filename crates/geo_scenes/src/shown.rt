//! What sites are and keep, as bytes that differ where it does. Writing them takes no memory where there is room.
use geo_chunks::Chunks;
use geo_delta::Parcel;
use geo_grammar::push_reply;
use geo_history::Step;
use geo_lattice::Lww;
use geo_site::{Answer, Event, Filled, ReapError, RetireError, SendError, SiteState, TakeError};
use geo_stamp::{Acks, Retired, Stamp, Vector};
use geo_versions::{Body, Digest, Key, Rec, Version};
use std::alloc::AllocError;

/// A number, in as many bytes as any other.
pub fn push_number(out: &mut Vec<u8>, number: u64) -> Result<(), AllocError> {
    out.extend_from_slice(number.to_be_bytes().as_slice())
}

/// A key behind its length.
pub fn push_key(out: &mut Vec<u8>, key: &Key) -> Result<(), AllocError> {
    push_number(out, key.bytes().len() as u64)?;
    out.extend_from_slice(key.bytes())
}

fn push_stamp(out: &mut Vec<u8>, stamp: &Stamp) -> Result<(), AllocError> {
    push_number(out, stamp.cas())
}

/// A floor, or that there is none.
pub fn push_floor(out: &mut Vec<u8>, floor: &Option<Stamp>) -> Result<(), AllocError> {
    match floor {
        Some(stamp) => push_stamp(out, stamp),
        None => push_number(out, 0),
    }
}

fn push_digest(out: &mut Vec<u8>, digest: &Digest) -> Result<(), AllocError> {
    out.extend_from_slice(digest.bytes().as_slice())
}

/// A vector, with the number of its sites.
pub fn push_vector(out: &mut Vec<u8>, vector: &Vector) -> Result<(), AllocError> {
    push_number(out, vector.sites() as u64)?;
    for site in 1..17u8 {
        push_number(out, vector.entry(site))?;
    }
    Ok(())
}

/// A set of sites, a bit for each.
fn push_retired(out: &mut Vec<u8>, retired: &Retired) -> Result<(), AllocError> {
    let mut bits = 0u64;
    for site in 1..17u8 {
        if retired.has(site) {
            bits |= 1u64 << (site as u64);
        }
    }
    push_number(out, bits)
}

/// What was heard of each site, which sites are held for retired, and the horizon that was kept.
fn push_rows(out: &mut Vec<u8>, rows: &Acks) -> Result<(), AllocError> {
    for site in 1..17u8 {
        push_vector(out, rows.row(site))?;
        push_retired(out, &rows.told(site))?;
    }
    push_retired(out, rows.retired())?;
    push_number(out, rows.reached())
}

fn push_body(out: &mut Vec<u8>, body: &Body) -> Result<(), AllocError> {
    match body {
        Body::Gone => push_number(out, 1),
        Body::Value {
            digest,
            flags,
            length,
        } => {
            push_number(out, 2)?;
            push_digest(out, digest)?;
            push_number(out, *flags as u64)?;
            push_number(out, length.get() as u64)
        }
    }
}

/// A register of what a key holds.
pub fn push_body_register(
    out: &mut Vec<u8>,
    register: &Lww<Stamp, Body>,
) -> Result<(), AllocError> {
    match register.get() {
        None => push_number(out, 0),
        Some((stamp, body)) => {
            push_stamp(out, stamp)?;
            push_body(out, body)
        }
    }
}

/// A register of when it ends.
pub fn push_expiry_register(
    out: &mut Vec<u8>,
    register: &Lww<Stamp, u64>,
) -> Result<(), AllocError> {
    match register.get() {
        None => push_number(out, 0),
        Some((stamp, expiry)) => {
            push_stamp(out, stamp)?;
            push_number(out, *expiry)
        }
    }
}

fn push_records(out: &mut Vec<u8>, records: &[(Key, Rec)]) -> Result<(), AllocError> {
    push_number(out, records.len() as u64)?;
    for (key, rec) in records {
        push_key(out, key)?;
        push_body_register(out, &rec.left)?;
        push_expiry_register(out, &rec.right)?;
    }
    Ok(())
}

fn push_held(out: &mut Vec<u8>, held: &[(Key, Digest, u32)]) -> Result<(), AllocError> {
    push_number(out, held.len() as u64)?;
    for (key, digest, length) in held {
        push_key(out, key)?;
        push_digest(out, digest)?;
        push_number(out, *length as u64)?;
    }
    Ok(())
}

/// All that a site knows, holds and counts.
pub fn push_state(out: &mut Vec<u8>, state: &SiteState) -> Result<(), AllocError> {
    push_floor(out, &state.floor)?;
    push_records(out, state.records.as_slice())?;
    push_vector(out, &state.vector)?;
    push_rows(out, &state.rows)?;
    push_held(out, state.held.as_slice())?;
    push_number(out, state.waiting.unwrap_or(0))?;
    push_number(out, state.hits)?;
    push_number(out, state.misses)?;
    push_number(out, state.evictions)
}

/// Versions with their keys.
pub fn push_versions(out: &mut Vec<u8>, versions: &[(Key, Version)]) -> Result<(), AllocError> {
    push_number(out, versions.len() as u64)?;
    for (key, version) in versions {
        push_key(out, key)?;
        push_stamp(out, &version.stamp)?;
        push_digest(out, &version.digest)?;
        push_number(out, version.flags as u64)?;
        push_number(out, version.length as u64)?;
        push_stamp(out, &version.expiry_stamp)?;
        push_number(out, version.expiry)?;
    }
    Ok(())
}

/// All that a parcel tells.
pub fn push_parcel(out: &mut Vec<u8>, parcel: &Parcel) -> Result<(), AllocError> {
    push_number(out, parcel.from as u64)?;
    push_number(out, parcel.to as u64)?;
    push_vector(out, &parcel.base)?;
    push_vector(out, &parcel.upto)?;
    push_retired(out, &parcel.retired)?;
    push_floor(out, &parcel.floor)?;
    push_records(out, parcel.records.as_slice())
}

/// What was asked. A request is left out but for its moment: its answer tells of it.
pub fn push_event(out: &mut Vec<u8>, event: &Event) -> Result<(), AllocError> {
    match event {
        Event::Command { now, .. } => {
            push_number(out, 1)?;
            push_number(out, *now)
        }
        Event::Evict { key } => {
            push_number(out, 2)?;
            push_key(out, key)
        }
        Event::Send { to } => {
            push_number(out, 3)?;
            push_number(out, *to as u64)
        }
        Event::Take { parcel } => {
            push_number(out, 4)?;
            push_parcel(out, parcel.parcel())
        }
        Event::Remove => push_number(out, 5),
        Event::Tick { now } => {
            push_number(out, 6)?;
            push_number(out, *now)
        }
        Event::Reap { now, key } => {
            push_number(out, 7)?;
            push_number(out, *now)?;
            push_key(out, key)
        }
        Event::Fill { key, bytes } => {
            push_number(out, 8)?;
            push_key(out, key)?;
            push_number(out, bytes.len() as u64)
        }
        Event::Retire { other } => {
            push_number(out, 9)?;
            push_number(out, *other as u64)
        }
    }
}

fn name_of_send(why: SendError) -> &'static [u8] {
    match why {
        SendError::NoSuchSite => b"no such site",
        SendError::Retired => b"retired",
        SendError::Memory => b"memory",
    }
}

/// Why a parcel was not taken, in words.
pub fn name_of_take(why: TakeError) -> &'static [u8] {
    match why {
        TakeError::NotForMe => b"not for me",
        TakeError::UnknownSite => b"unknown site",
        TakeError::Retired => b"retired",
        TakeError::Gap => b"gap",
        TakeError::Memory => b"memory",
    }
}

fn name_of_reap(why: ReapError) -> &'static [u8] {
    match why {
        ReapError::ClockEnded => b"clock ended",
        ReapError::Memory => b"memory",
    }
}

/// Why no site was retired, in words.
pub fn name_of_retire(why: RetireError) -> &'static [u8] {
    match why {
        RetireError::NoSuchSite => b"no such site",
        RetireError::Memory => b"memory",
    }
}

/// The word for what came of offered bytes.
pub fn name_of_fill(filled: Filled) -> &'static [u8] {
    match filled {
        Filled::NotNamed => b"unnamed",
        Filled::Held => b"held",
        Filled::Full => b"full",
        Filled::Done => b"filled",
    }
}

/// What was answered.
pub fn push_answer(out: &mut Vec<u8>, answer: &Answer) -> Result<(), AllocError> {
    match answer {
        Answer::Replied(reply) => push_reply(out, reply),
        Answer::Sent(parcel) => push_parcel(out, parcel.parcel()),
        Answer::SendRefused(why) => out.extend_from_slice(name_of_send(*why)),
        Answer::Taken(taken) => {
            push_number(out, taken.rose as u64)?;
            push_number(out, taken.dropped as u64)
        }
        Answer::TakeRefused(why) => out.extend_from_slice(name_of_take(*why)),
        Answer::Removed(count) => push_number(out, *count as u64),
        Answer::Evicted(told)
        | Answer::Ticked(told)
        | Answer::Reaped(told)
        | Answer::Retired(told) => push_number(out, *told as u64),
        Answer::ReapRefused(why) => out.extend_from_slice(name_of_reap(*why)),
        Answer::Filled(filled) => out.extend_from_slice(name_of_fill(*filled)),
        Answer::RetireRefused(why) => out.extend_from_slice(name_of_retire(*why)),
    }
}

fn push_beside(out: &mut Vec<u8>, step: &Step) -> Result<(), AllocError> {
    if let Some(key) = &step.victim {
        push_key(out, key)?;
    }
    if let Some((digest, length)) = &step.made {
        push_digest(out, digest)?;
        push_number(out, *length as u64)?;
    }
    Ok(())
}

/// The steps of a history, with their answers, and how many they are.
pub fn push_steps(out: &mut Vec<u8>, steps: &Chunks<Step>) -> Result<(), AllocError> {
    push_number(out, steps.len() as u64)?;
    push_each_step(out, steps)
}

/// The steps of a history, with their answers.
pub fn push_each_step(out: &mut Vec<u8>, steps: &Chunks<Step>) -> Result<(), AllocError> {
    for place in 0..steps.len() {
        if let Some(step) = steps.get(place) {
            push_number(out, step.seat as u64)?;
            push_number(out, step.number)?;
            push_event(out, &step.event)?;
            push_answer(out, &step.answer)?;
            push_beside(out, step)?;
        }
    }
    Ok(())
}
