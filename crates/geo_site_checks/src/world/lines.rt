//! Events as lines: a site's number, a word, and what the word wants. What comes of them is shown as text.
use geo_grammar::{Item, Reader, push_reply};
use geo_requests::Request;
use geo_site::{RetireError, SendError, Site, TakeError};
use geo_versions::Key;
use geo_world::{Event, Outcome, Trace, WorldError};
use std::alloc::{AllocError, Global};

/// The first word of a text, and what stands behind the space after it.
fn cut(text: &str) -> (&str, &str) {
    text.split_once(' ').unwrap_or((text, ""))
}

/// What a word of digits says, 0 where it is none.
fn number(word: &str) -> u64 {
    geo_requests::number(word.as_bytes(), u64::MAX).unwrap_or(0)
}

/// A site's number.
fn small(word: &str) -> u8 {
    number(word).min(255) as u8
}

/// The request that a text spells.
fn request(alloc: Global, text: &str) -> Result<Option<Request>, AllocError> {
    let mut items = Reader::new(alloc).feed(text.as_bytes())?;
    match items.pop() {
        Some(Item::Request(request)) => Ok(Some(request)),
        _ => Ok(None),
    }
}

/// `say TEXT`: a client's request, at the moment 100.
fn command(alloc: Global, site: u8, text: &str) -> Result<Option<Event>, AllocError> {
    match request(alloc, text)? {
        Some(request) => Ok(Some(Event::Command {
            site,
            now: 100,
            request,
        })),
        None => Ok(None),
    }
}

/// `evict KEY`.
fn evict(alloc: Global, site: u8, name: &str) -> Result<Option<Event>, AllocError> {
    match Key::new(alloc, name.as_bytes())? {
        Some(key) => Ok(Some(Event::Evict { site, key })),
        None => Ok(None),
    }
}

/// `reap NOW KEY`.
fn reap(alloc: Global, site: u8, rest: &str) -> Result<Option<Event>, AllocError> {
    let (now, name) = cut(rest);
    let now = number(now);
    match Key::new(alloc, name.as_bytes())? {
        Some(key) => Ok(Some(Event::Reap { site, now, key })),
        None => Ok(None),
    }
}

/// The event that a line says, None where it says none.
fn event(alloc: Global, line: &str) -> Result<Option<Event>, AllocError> {
    let (name, rest) = cut(line);
    let (word, rest) = cut(rest);
    let site = small(name);
    match word {
        "say" => command(alloc, site, rest),
        "evict" => evict(alloc, site, rest),
        "reap" => reap(alloc, site, rest),
        "send" => Ok(Some(Event::Send {
            site,
            to: small(rest),
        })),
        "take" => Ok(Some(Event::Take {
            site,
            parcel: number(rest) as usize,
        })),
        "tick" => Ok(Some(Event::Tick {
            site,
            now: number(rest),
        })),
        "remove" => Ok(Some(Event::Remove { site })),
        "retire" => Ok(Some(Event::Retire {
            site,
            other: small(rest),
        })),
        _ => Ok(None),
    }
}

/// Adds the event that a line says.
pub fn add_event(alloc: Global, events: &mut Vec<Event>, line: &str) -> Result<(), AllocError> {
    if let Some(event) = event(alloc, line)? {
        events.push(event)?;
    }
    Ok(())
}

pub fn push(out: &mut Vec<u8>, text: &str) -> Result<(), AllocError> {
    out.extend_from_slice(text.as_bytes())
}

/// A space and a number.
pub fn push_count(alloc: Global, out: &mut Vec<u8>, count: u64) -> Result<(), AllocError> {
    let text = format!(in alloc; " {count}")?;
    push(out, text.as_str())
}

/// A reply's text, and the victim behind it.
fn push_victim(out: &mut Vec<u8>, victim: Option<&Key>) -> Result<(), AllocError> {
    let Some(key) = victim else {
        return Ok(());
    };
    push(out, "victim ")?;
    out.extend_from_slice(key.bytes())
}

/// The word for a trace that shows no number and no text.
fn word(trace: &Trace) -> &'static str {
    match trace {
        Trace::Evicted(true) => "evicted",
        Trace::Ticked(true) => "flushed",
        Trace::Reaped(true) => "reaped",
        Trace::Retired(true) => "retired",
        Trace::Evicted(false)
        | Trace::Ticked(false)
        | Trace::Reaped(false)
        | Trace::Retired(false) => "nothing",
        Trace::Sent => "sent",
        Trace::SendRefused(SendError::NoSuchSite) | Trace::RetireRefused(RetireError::NoSuchSite) =>
            "no such site",
        Trace::SendRefused(SendError::Retired) => "not to a retired site",
        Trace::Taken => "taken",
        Trace::TakeRefused(TakeError::NotForMe) => "not for me",
        Trace::TakeRefused(TakeError::Retired) => "not from a retired site",
        _ => "another trace",
    }
}

/// What a trace tells.
fn push_trace(alloc: Global, out: &mut Vec<u8>, trace: &Trace) -> Result<(), AllocError> {
    match trace {
        Trace::Replied(reply, victim) => {
            push_reply(out, reply)?;
            push_victim(out, victim.as_ref())
        }
        Trace::Removed { horizon, count } => {
            push(out, "removed")?;
            push_count(alloc, out, *count as u64)?;
            push_count(alloc, out, *horizon)
        }
        _ => push(out, word(trace)),
    }
}

/// Behind a bar the number of a site's records, and each key of which it has a version, with the version's stamp.
fn push_site(alloc: Global, out: &mut Vec<u8>, site: &Site) -> Result<(), AllocError> {
    push(out, " |")?;
    push_count(alloc, out, site.records() as u64)?;
    let versions = site.versions(alloc)?;
    for (key, version) in &versions {
        push(out, " ")?;
        out.extend_from_slice(key.bytes())?;
        push_count(alloc, out, version.stamp.time())?;
        push_count(alloc, out, version.stamp.site() as u64)?;
    }
    Ok(())
}

/// A line for each trace, and then the addressees of all parcels, and what each site has.
pub fn push_outcome(alloc: Global, out: &mut Vec<u8>, outcome: &Outcome) -> Result<(), AllocError> {
    for trace in &outcome.traces {
        push_trace(alloc, out, trace)?;
        push(out, "\n")?;
    }
    push(out, "to")?;
    for parcel in &outcome.parcels {
        push_count(alloc, out, parcel.to as u64)?;
    }
    for site in &outcome.sites {
        push_site(alloc, out, site)?;
    }
    Ok(())
}

/// Why there is no outcome.
pub fn push_fault(alloc: Global, out: &mut Vec<u8>, fault: WorldError) -> Result<(), AllocError> {
    match fault {
        WorldError::Setups => push(out, "setups"),
        WorldError::Memory => push(out, "memory"),
        WorldError::BadEvent(index) => {
            push(out, "bad event")?;
            push_count(alloc, out, index as u64)
        }
    }
}
