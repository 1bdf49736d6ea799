//! Steps and answers as text, a line each.
use geo_chunks::Chunks;
use geo_grammar::push_reply;
use geo_history::Step;
use geo_site::{Answer, Event};
use std::alloc::{AllocError, Global};

/// A word and a number.
fn word(out: &mut Vec<u8>, name: &str, number: u64) -> Result<(), AllocError> {
    let alloc = *out.allocator();
    out.extend_from_slice(format!(in alloc; "{name} {number}")?.as_bytes())
}

/// What was asked, without keys and values.
fn show_event(out: &mut Vec<u8>, event: &Event) -> Result<(), AllocError> {
    match event {
        Event::Command { now, .. } => word(out, "act at", *now),
        Event::Evict { .. } => out.extend_from_slice(b"evict"),
        Event::Send { to } => word(out, "send to", *to as u64),
        Event::Take { parcel } => word(out, "take from", parcel.parcel().from as u64),
        Event::Remove => out.extend_from_slice(b"remove"),
        Event::Tick { now } => word(out, "tick at", *now),
        Event::Reap { now, .. } => word(out, "reap at", *now),
        Event::Fill { bytes, .. } => word(out, "fill of", bytes.len() as u64),
        Event::Retire { other } => word(out, "retire", *other as u64),
    }
}

/// A reply in the text of the protocol, and any other answer in words.
fn show_answer(out: &mut Vec<u8>, answer: &Answer) -> Result<(), AllocError> {
    let alloc: Global = *out.allocator();
    let text = match answer {
        Answer::Replied(reply) => return push_reply(out, reply),
        Answer::Sent(parcel) => return word(out, "sent to", parcel.parcel().to as u64),
        Answer::Evicted(held) => format!(in alloc; "evicted {held}"),
        Answer::SendRefused(why) => format!(in alloc; "{why:?}"),
        Answer::Taken(taken) => format!(in alloc; "{taken:?}"),
        Answer::TakeRefused(why) => format!(in alloc; "{why:?}"),
        Answer::Removed(count) => format!(in alloc; "removed {count}"),
        Answer::Ticked(flushed) => format!(in alloc; "ticked {flushed}"),
        Answer::Reaped(deleted) => format!(in alloc; "reaped {deleted}"),
        Answer::ReapRefused(_) => format!(in alloc; "reap refused"),
        Answer::Filled(filled) => format!(in alloc; "{filled:?}"),
        Answer::Retired(is_new) => format!(in alloc; "retired {is_new}"),
        Answer::RetireRefused(why) => format!(in alloc; "{why:?}"),
    };
    out.extend_from_slice(text?.as_bytes())
}

/// The victim's key, and how many bytes were made of older ones, where there are any.
fn show_beside(out: &mut Vec<u8>, step: &Step) -> Result<(), AllocError> {
    if let Some(key) = &step.victim {
        out.extend_from_slice(b"evicts ")?;
        out.extend_from_slice(key.bytes())?;
        out.extend_from_slice(b"; ")?;
    }
    if let Some((_digest, length)) = step.made {
        word(out, "makes", length as u64)?;
        out.extend_from_slice(b"; ")?;
    }
    Ok(())
}

fn show_step(out: &mut Vec<u8>, step: &Step) -> Result<(), AllocError> {
    word(out, "seat", step.seat as u64)?;
    word(out, " step", step.number)?;
    out.extend_from_slice(b": ")?;
    show_event(out, &step.event)?;
    out.extend_from_slice(b"; ")?;
    show_beside(out, step)?;
    show_answer(out, &step.answer)?;
    out.extend_from_slice(b"\n")
}

/// The steps of a history, as `seat 0 step 1: act at 100; STORED`.
pub fn show_steps(out: &mut Vec<u8>, steps: &Chunks<Step>) -> Result<(), AllocError> {
    for place in 0..steps.len() {
        if let Some(step) = steps.get(place) {
            show_step(out, step)?;
        }
    }
    Ok(())
}
