//! What the lines of a script print.
ghost use Rattle.std.specs.Prelude.{◌≡◌, Some, IfOk};
ghost use Rattle.geo_cluster.specs.Prints.{client_text, number_text, done_text, filled_text, refused_text, unsent_text, trace_text};

use crate::script::escape::push_all_escaped;
use geo_site::{Filled, ReapError, SendError, TakeError};
use geo_world::Trace;
use itoa::Buffer;
use std::alloc::{AllocError, Global};

/// How many bytes more than the answer its line is given at first: for what stands before and behind it, and for some escapes.
const ROOM: usize = 64;

/// `S> ` and what a site answered to its client's bytes, escaped.
pub fn answer_line(alloc: Global, site: u8, answer: &[u8]) -> Result<Vec<u8>, AllocError>
    ensures { IfOk result (λ text. text.items ≡ client_text site answer.now) }
{
    let mut buffer = Buffer::new();
    let mut text = Vec::with_capacity(alloc, answer.len() + ROOM)?;
    text.extend_from_slice(buffer.format(site).as_bytes())?;
    text.extend_from_slice(b"> ")?;
    push_all_escaped(&mut text, answer)?;
    text.extend_from_slice(b"\n")?;
    Ok(text)
}

/// A word with a number behind it.
fn number_line(alloc: Global, word: &[u8], number: usize) -> Result<Vec<u8>, AllocError>
    ensures { IfOk result (λ text. text.items ≡ number_text word.now number) }
{
    let mut buffer = Buffer::new();
    let mut text = Vec::from_slice(alloc, word)?;
    text.extend_from_slice(buffer.format(number).as_bytes())?;
    text.extend_from_slice(b"\n")?;
    Ok(text)
}

/// A word where something was done, else `nothing`.
fn done_line(alloc: Global, word: &[u8], done: bool) -> Result<Vec<u8>, AllocError>
    ensures { IfOk result (λ text. text.items ≡ done_text word.now done) }
{
    if done {
        return Vec::from_slice(alloc, word);
    }
    Vec::from_slice(alloc, b"nothing\n")
}

/// `refused N`, for a parcel that was refused, with the cause's number.
fn refused_line(alloc: Global, why: TakeError) -> Result<Vec<u8>, AllocError>
    ensures { IfOk result (λ text. refused_text why ≡ Some text.items) }
{
    match why {
        TakeError::NotForMe => number_line(alloc, b"refused ", 1),
        TakeError::UnknownSite => number_line(alloc, b"refused ", 2),
        TakeError::Gap => number_line(alloc, b"refused ", 3),
        TakeError::Retired => number_line(alloc, b"refused ", 5),
        TakeError::Memory => Err(AllocError),
    }
}

/// `refused 4`, for a parcel that was not made as its addressee is retired. No line sends to its own site.
fn unsent_line(alloc: Global, why: SendError) -> Result<Vec<u8>, AllocError>
    ensures { IfOk result (λ text. unsent_text why ≡ Some text.items) }
{
    match why {
        SendError::Retired => number_line(alloc, b"refused ", 4),
        SendError::NoSuchSite | SendError::Memory => Err(AllocError),
    }
}

/// What came of bytes that were offered.
fn filled_line(alloc: Global, filled: Filled) -> Result<Vec<u8>, AllocError>
    ensures { IfOk result (λ text. text.items ≡ filled_text filled) }
{
    match filled {
        Filled::NotNamed => Vec::from_slice(alloc, b"unnamed\n"),
        Filled::Held => Vec::from_slice(alloc, b"held\n"),
        Filled::Full => Vec::from_slice(alloc, b"full\n"),
        Filled::Done => Vec::from_slice(alloc, b"filled\n"),
    }
}

/// What a line prints of its event, where so many parcels were sent before. Of what was refused for want of memory nothing is
/// printed, and a reply is printed with its request.
pub fn trace_line(alloc: Global, parcels: usize, trace: &Trace) -> Result<Vec<u8>, AllocError>
    ensures { IfOk result (λ text. trace_text parcels trace.now ≡ Some text.items) }
{
    match trace {
        Trace::Evicted(done) => done_line(alloc, b"evicted\n", *done),
        Trace::Sent => number_line(alloc, b"parcel ", parcels),
        Trace::SendRefused(why) => unsent_line(alloc, *why),
        Trace::Taken => Vec::from_slice(alloc, b"taken\n"),
        Trace::TakeRefused(why) => refused_line(alloc, *why),
        Trace::Removed { count, .. } => number_line(alloc, b"removed ", *count),
        Trace::Ticked(done) => done_line(alloc, b"flushed\n", *done),
        Trace::Reaped(done) => done_line(alloc, b"reaped\n", *done),
        Trace::ReapRefused(ReapError::ClockEnded) => Vec::from_slice(alloc, b"clock ended\n"),
        Trace::Filled(filled) => filled_line(alloc, *filled),
        Trace::Retired(fresh) => done_line(alloc, b"retired\n", *fresh),
        Trace::Replied(..)
        | Trace::ReapRefused(ReapError::Memory)
        | Trace::FillRefused
        | Trace::RetireRefused(_) => Err(AllocError),
    }
}
