//! Lines: a site's number, a word, and what the word wants.
use crate::site::shown::{
    push, push_acted, push_count, push_parcel, push_refused, push_site, push_taken, push_version,
};
use crate::site::told::told;
use geo_delta::Parcel;
use geo_grammar::{Item, Reader, fault_text, push_answer};
use geo_requests::{Request, ValueBytes, Verb};
use geo_site::{ReapError, RetireError, SendError, Site};
use geo_versions::Key;
use std::alloc::{AllocError, Global};

/// The moment of every request that has no other.
const NOW: u64 = 100;

/// The greatest moment that a site takes.
const LAST_MOMENT: u64 = 1 << 40;

/// The class of half a mebibyte, of which a page has two chunks.
const HALVES: usize = 13;

/// The first word of a text, and what stands behind the space after it.
pub fn cut(text: &str) -> (&str, &str) {
    text.split_once(' ').unwrap_or((text, ""))
}

/// What a word of digits says, 0 where it is none.
pub fn number(word: &str) -> u64 {
    geo_requests::number(word.as_bytes(), u64::MAX).unwrap_or(0)
}

/// A site's number, or a number of sites.
pub fn small(word: &str) -> u8 {
    number(word).min(255) as u8
}

/// Carries out a line.
pub fn step(
    alloc: Global,
    sites: &mut Vec<Site>,
    parcels: &mut Vec<Parcel>,
    line: &str,
    out: &mut Vec<u8>,
) -> Result<(), AllocError> {
    let (name, rest) = cut(line);
    let (word, rest) = cut(rest);
    let Some(site) = sites.get_mut((number(name) as usize).wrapping_sub(1)) else {
        return push(out, "no such site");
    };
    match word {
        "send" => send(alloc, site, parcels, small(rest), out),
        "take" => take_kept(alloc, site, parcels, number(rest) as usize, out),
        "told" => take_told(alloc, site, rest, out),
        "lost" => take_lost(alloc, site, rest, out),
        "say" => say(alloc, site, NOW, rest, out),
        "at" => say_at(alloc, site, rest, out),
        "begin" => begin(alloc, site, rest, out),
        "full" => full(alloc, site, rest, out),
        "store" => store(alloc, site, rest, out),
        "fill" => fill(alloc, site, rest, out),
        "many" => write_many(alloc, site, number(rest), out),
        _ => ask(alloc, site, word, rest, out),
    }
}

/// Carries out a line about a moment, a key, or nothing.
fn ask(
    alloc: Global,
    site: &mut Site,
    word: &str,
    rest: &str,
    out: &mut Vec<u8>,
) -> Result<(), AllocError> {
    match word {
        "reap" => reap(alloc, site, rest, out),
        "due" => push_due(site, number(rest), out),
        "missing" => push_missing(alloc, site, rest, out),
        "first" => push_first_missing(alloc, site, rest, out),
        "retire" => retire(site, small(rest), out),
        "horizon" => push_count(alloc, out, site.horizon()),
        "remove" => push_count(alloc, out, site.remove() as u64),
        "tick" => push(
            out,
            if site.tick(number(rest)) {
                "flushed"
            } else {
                "nothing"
            },
        ),
        "juggle" => push(
            out,
            if site.juggle(HALVES)? {
                "moved"
            } else {
                "nothing"
            },
        ),
        "holds" => push_held(alloc, site, rest, out),
        "version" => push_version_of(alloc, site, rest, out),
        "shows" => push_site(alloc, site, out),
        _ => push(out, "no such word"),
    }
}

/// What a site answers to one item of a text.
fn answer(
    alloc: Global,
    site: &mut Site,
    now: u64,
    item: &Item,
    out: &mut Vec<u8>,
) -> Result<(), AllocError> {
    match item {
        Item::Request(request) => act(alloc, site, now, request, out),
        Item::Fault(fault) => out.extend_from_slice(fault_text(*fault)),
    }
}

fn act(
    alloc: Global,
    site: &mut Site,
    now: u64,
    request: &Request,
    out: &mut Vec<u8>,
) -> Result<(), AllocError> {
    let reply = site.act(alloc, now.min(LAST_MOMENT), request);
    push_answer(out, request, &reply)
}

/// `say TEXT`: what a client reads that says this.
fn say(
    alloc: Global,
    site: &mut Site,
    now: u64,
    text: &str,
    out: &mut Vec<u8>,
) -> Result<(), AllocError> {
    let items = Reader::new(alloc).feed(text.as_bytes())?;
    for item in &items {
        answer(alloc, site, now, item, out)?;
    }
    Ok(())
}

/// `at NOW TEXT`: the same, at a moment.
fn say_at(alloc: Global, site: &mut Site, rest: &str, out: &mut Vec<u8>) -> Result<(), AllocError> {
    let (now, text) = cut(rest);
    say(alloc, site, number(now), text, out)
}

/// `begin TEXT`: the first line of what a client reads.
fn begin(alloc: Global, site: &mut Site, text: &str, out: &mut Vec<u8>) -> Result<(), AllocError> {
    let mut all = Vec::new(alloc);
    say(alloc, site, NOW, text, &mut all)?;
    let first = all.split(|byte| *byte == b'\n').next().unwrap_or(b"");
    out.extend_from_slice(first)
}

/// A request, and its reply twice more where there are to be copies.
fn act_full(
    alloc: Global,
    site: &mut Site,
    copies: &str,
    request: &Request,
    out: &mut Vec<u8>,
) -> Result<(), AllocError> {
    let acted = site.act_full(alloc, NOW, request, copies == "twice")?;
    push_acted(alloc, out, request, &acted)
}

/// `full once TEXT`, `full twice TEXT`: the reply, its copies where it is to be told twice more, and what is told beside them.
fn full(alloc: Global, site: &mut Site, rest: &str, out: &mut Vec<u8>) -> Result<(), AllocError> {
    let (copies, text) = cut(rest);
    let items = Reader::new(alloc).feed(text.as_bytes())?;
    for item in &items {
        if let Item::Request(request) = item {
            act_full(alloc, site, copies, request, out)?;
        }
    }
    Ok(())
}

/// A storage command of so many zeros, which no reader would read where they are too many.
fn zeros(alloc: Global, verb: Verb, key: Key, count: usize) -> Result<Request, AllocError> {
    Ok(Request::Store {
        verb,
        key,
        flags: 0,
        exptime: 0,
        unique: None,
        bytes: ValueBytes::of(vec![in alloc; 0u8; count]?),
        noreply: false,
    })
}

/// The command that `VERB KEY COUNT` says, None where it has no key.
fn command(alloc: Global, rest: &str) -> Result<Option<Request>, AllocError> {
    let (verb, rest) = cut(rest);
    let (name, count) = cut(rest);
    let verb = match verb {
        "append" => Verb::Append,
        "prepend" => Verb::Prepend,
        _ => Verb::Set,
    };
    let Some(key) = Key::new(alloc, name.as_bytes())? else {
        return Ok(None);
    };
    Ok(Some(zeros(alloc, verb, key, number(count) as usize)?))
}

/// `store VERB KEY COUNT`: what a site answers to a command of so many zeros.
fn store(alloc: Global, site: &mut Site, rest: &str, out: &mut Vec<u8>) -> Result<(), AllocError> {
    match command(alloc, rest)? {
        Some(request) => act(alloc, site, NOW, &request, out),
        None => push(out, "no key"),
    }
}

/// `fill once VERB KEY COUNT`, `fill twice ..`: its reply to it, with copies, and what is told beside them.
fn fill(alloc: Global, site: &mut Site, rest: &str, out: &mut Vec<u8>) -> Result<(), AllocError> {
    let (copies, rest) = cut(rest);
    match command(alloc, rest)? {
        Some(request) => act_full(alloc, site, copies, &request, out),
        None => push(out, "no key"),
    }
}

/// `many COUNT`: a site writes so many keys, and says in the end how many it has answered.
fn write_many(
    alloc: Global,
    site: &mut Site,
    count: u64,
    out: &mut Vec<u8>,
) -> Result<(), AllocError> {
    let mut answers = Vec::new(alloc);
    for number in 0..count {
        let text = format!(in alloc; "set k{number} 0 0 1\r\nx\r\n")?;
        say(alloc, site, NOW, text.as_str(), &mut answers)?;
    }
    let stored = answers
        .split(|byte| *byte == b'\n')
        .filter(|line| *line == b"STORED\r".as_slice())
        .count();
    push_count(alloc, out, stored as u64)
}

/// `reap NOW KEY`: what comes of a reap.
fn reap(alloc: Global, site: &mut Site, rest: &str, out: &mut Vec<u8>) -> Result<(), AllocError> {
    let (now, name) = cut(rest);
    let Some(key) = Key::new(alloc, name.as_bytes())? else {
        return push(out, "no key");
    };
    push(
        out,
        match site.reap(alloc, number(now), &key) {
            Ok(true) => "reaped",
            Ok(false) => "nothing",
            Err(ReapError::ClockEnded) => "clock ended",
            Err(ReapError::Memory) => "no memory",
        },
    )
}

/// `due NOW`: the key that is to be reaped at a moment.
fn push_due(site: &Site, now: u64, out: &mut Vec<u8>) -> Result<(), AllocError> {
    match site.due(now) {
        Some(key) => out.extend_from_slice(key.bytes()),
        None => push(out, "none"),
    }
}

/// `missing NOW`, `missing NOW AFTER`: the least key, or the least above another, whose bytes are missing at a moment.
fn push_missing(
    alloc: Global,
    site: &Site,
    rest: &str,
    out: &mut Vec<u8>,
) -> Result<(), AllocError> {
    let (now, after) = cut(rest);
    let after = Key::new(alloc, after.as_bytes())?;
    match site.missing(number(now), after.as_ref()) {
        Some(key) => out.extend_from_slice(key.bytes()),
        None => push(out, "none"),
    }
}

/// `first COUNT NOW`, `first COUNT NOW AFTER`: so many of these keys at most, with a comma behind each.
fn push_first_missing(
    alloc: Global,
    site: &Site,
    rest: &str,
    out: &mut Vec<u8>,
) -> Result<(), AllocError> {
    let (most, rest) = cut(rest);
    let (now, after) = cut(rest);
    let after = Key::new(alloc, after.as_bytes())?;
    let most = number(most) as usize;
    let keys = site.first_missing(alloc, number(now), after.as_ref(), most)?;
    for key in &keys {
        out.extend_from_slice(key.bytes())?;
        push(out, ",")?;
    }
    Ok(())
}

/// `holds KEY`: whether a site has its bytes.
fn push_held(alloc: Global, site: &Site, name: &str, out: &mut Vec<u8>) -> Result<(), AllocError> {
    let Some(key) = Key::new(alloc, name.as_bytes())? else {
        return push(out, "no key");
    };
    push(out, if site.holds(&key) { "held" } else { "missing" })
}

/// `version KEY`: what a site knows of a key's value.
fn push_version_of(
    alloc: Global,
    site: &Site,
    name: &str,
    out: &mut Vec<u8>,
) -> Result<(), AllocError> {
    let Some(key) = Key::new(alloc, name.as_bytes())? else {
        return push(out, "no key");
    };
    push_version(alloc, out, site.version_of(&key))
}

/// `send TO`: shows the parcel for another site, and keeps it behind those that are kept.
fn send(
    alloc: Global,
    site: &Site,
    parcels: &mut Vec<Parcel>,
    to: u8,
    out: &mut Vec<u8>,
) -> Result<(), AllocError> {
    match site.send(alloc, to) {
        Ok(parcel) => {
            push_parcel(alloc, out, &parcel)?;
            parcels.push(parcel)?;
            Ok(())
        }
        Err(SendError::NoSuchSite) => push(out, "no such site"),
        Err(SendError::Retired) => push(out, "retired"),
        Err(SendError::Memory) => push(out, "no memory"),
    }
}

/// What comes of a parcel.
fn take(
    alloc: Global,
    site: &mut Site,
    parcel: Parcel,
    out: &mut Vec<u8>,
) -> Result<(), AllocError> {
    match site.take(alloc, parcel) {
        Ok(taken) => push_taken(alloc, out, &taken),
        Err(refused) => push_refused(alloc, out, &refused),
    }
}

/// `take PLACE`: takes the parcel at a place out of those that are kept.
fn take_kept(
    alloc: Global,
    site: &mut Site,
    parcels: &mut Vec<Parcel>,
    place: usize,
    out: &mut Vec<u8>,
) -> Result<(), AllocError> {
    if place >= parcels.len() {
        return push(out, "no such parcel");
    }
    take(alloc, site, parcels.remove(place), out)
}

/// `told PARCEL`: takes a parcel that is made by hand.
fn take_told(
    alloc: Global,
    site: &mut Site,
    rest: &str,
    out: &mut Vec<u8>,
) -> Result<(), AllocError> {
    let parcel = told(alloc, rest)?;
    take(alloc, site, parcel, out)
}

/// `lost SITE PARCEL`: the same, of a sender that holds a site, 1 to 16, for retired.
fn take_lost(
    alloc: Global,
    site: &mut Site,
    rest: &str,
    out: &mut Vec<u8>,
) -> Result<(), AllocError> {
    let (lost, rest) = cut(rest);
    let mut parcel = told(alloc, rest)?;
    parcel.retired.add(small(lost).clamp(1, 16));
    take(alloc, site, parcel, out)
}

/// `retire OTHER`: whether another site was not held for retired before.
fn retire(site: &mut Site, other: u8, out: &mut Vec<u8>) -> Result<(), AllocError> {
    push(
        out,
        match site.retire(other) {
            Ok(true) => "retired",
            Ok(false) => "nothing",
            Err(RetireError::NoSuchSite) => "no such site",
            Err(RetireError::Memory) => "no memory",
        },
    )
}
