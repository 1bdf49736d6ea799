//! What is decided of one entry, worked out by hand from memcached's protocol.txt.
use super::show::{items_of, push_bytes, push_number};
use geo_grammar::{Item, push_reply};
use geo_memcache::{Answer, Ask, Effect, Entry, ask_of, decide, expiry_of, live};
use geo_requests::{Request, ValueBytes, Verb};
use std::alloc::{AllocError, Global};
use std::process::Abort;
use std::test::Fail;

mod table;

/// The moment of every ask.
const NOW: u64 = 100;

/// A value of one byte so many times.
fn repeated(alloc: Global, byte: u8, count: usize) -> Result<ValueBytes, AllocError> {
    Ok(ValueBytes::of(vec![in alloc; byte; count]?))
}

fn push_answer(out: &mut Vec<u8>, answer: &Answer) -> Result<(), AllocError> {
    match answer {
        Answer::Reply(reply) => push_reply(out, reply),
        Answer::Hit => out.extend_from_slice(b"hit"),
        Answer::Miss => out.extend_from_slice(b"miss"),
    }
}

/// A word, flags and an expiry.
fn push_kept(out: &mut Vec<u8>, word: &[u8], flags: u32, expiry: u64) -> Result<(), AllocError> {
    out.extend_from_slice(word)?;
    push_number(out, flags as u64)?;
    out.extend_from_slice(b" ")?;
    push_number(out, expiry)
}

fn push_effect(out: &mut Vec<u8>, effect: &Effect) -> Result<(), AllocError> {
    match effect {
        Effect::Nothing => Ok(()),
        Effect::Keep { flags, expiry } => push_kept(out, b" keep ", *flags, *expiry),
        Effect::Made {
            bytes,
            flags,
            expiry,
        } => {
            push_kept(out, b" made ", *flags, *expiry)?;
            out.extend_from_slice(b" ")?;
            push_bytes(out, bytes.as_slice())
        }
        Effect::Renew { expiry } => {
            out.extend_from_slice(b" renew ")?;
            push_number(out, *expiry)
        }
        Effect::Tomb => out.extend_from_slice(b" tomb"),
    }
}

/// What is decided where the key has no entry, or this one: what is answered, and what becomes of the entry.
fn push_decided(
    out: &mut Vec<u8>,
    present: Option<&Entry<'_>>,
    ask: &Ask<'_>,
) -> Result<(), AllocError> {
    let decision = decide(*out.allocator(), present, NOW, ask)?;
    push_answer(out, &decision.answer)?;
    push_effect(out, &decision.effect)
}

/// What is decided where the key has an entry of these bytes, with flags 7, expiry 150 and number 257.
fn push_with(out: &mut Vec<u8>, bytes: &[u8], ask: &Ask<'_>) -> Result<(), AllocError> {
    let entry = Entry {
        bytes,
        flags: 7,
        expiry: 150,
        unique: 257,
    };
    push_decided(out, Some(&entry), ask)
}

/// What is decided without an entry, and behind a bar with one of these bytes.
fn decided(alloc: Global, held: &[u8], ask: &Ask<'_>) -> Result<Vec<u8>, AllocError> {
    let mut out = Vec::new(alloc);
    push_decided(&mut out, None, ask)?;
    out.extend_from_slice(b"|")?;
    push_with(&mut out, held, ask)?;
    Ok(out)
}

/// It is decided so where there is no entry, and where there is one of these bytes.
fn decides(
    rt: &impl Abort,
    alloc: Global,
    held: &[u8],
    ask: &Ask<'_>,
    told: &[u8],
) -> Result<(), Fail> {
    assert_eq!(rt; decided(alloc, held, ask)?.as_slice(), told);
    Ok(())
}

/// A store of these bytes, with flags 9 and for twenty seconds.
fn store(verb: Verb, unique: Option<u64>, bytes: &ValueBytes) -> Ask<'_> {
    Ask::Store {
        verb,
        flags: 9,
        exptime: 20,
        unique,
        bytes,
    }
}

#[test]
fn stores_by_what_is_there(rt: HostRuntime) -> Result<(), Fail> {
    for (held, byte, count, rows) in table::STORES {
        let held = repeated(rt.alloc(), b'x', *held)?;
        let bytes = repeated(rt.alloc(), *byte, *count)?;
        for (verb, unique, told) in *rows {
            let ask = store(*verb, *unique, &bytes);
            decides(&rt, rt.alloc(), held.as_slice(), &ask, told)?;
        }
    }
    Ok(())
}

#[test]
fn counts_numbers_alone(rt: HostRuntime) -> Result<(), Fail> {
    for (held, up, by, told) in table::COUNTS {
        let ask = Ask::Arith { up: *up, by: *by };
        decides(&rt, rt.alloc(), held, &ask, told)?;
    }
    for held in table::NO_NUMBERS {
        for up in [true, false] {
            let ask = Ask::Arith { up, by: 1 };
            decides(&rt, rt.alloc(), held, &ask, table::NO_NUMBER)?;
        }
    }
    Ok(())
}

#[test]
fn touches_fetches_and_deletes_what_is_there(rt: HostRuntime) -> Result<(), Fail> {
    let (rt, alloc) = (&rt, rt.alloc());
    for (exptime, touched, fetched) in table::TOUCHES {
        let exptime = *exptime;
        decides(rt, alloc, b"x", &Ask::Touch { exptime }, touched)?;
        for numbers in [false, true] {
            let fetch = Ask::FetchTouch { exptime, numbers };
            decides(rt, alloc, b"x", &fetch, fetched)?;
        }
    }
    for numbers in [false, true] {
        decides(rt, alloc, b"5", &Ask::Fetch { numbers }, b"miss|hit")?;
    }
    let deleted = b"NOT_FOUND\r\n tomb|DELETED\r\n tomb";
    decides(rt, alloc, b"5", &Ask::Delete, deleted)
}

/// What is decided of the entry `5` of a key, where a request is about that key alone.
fn asked(alloc: Global, request: &Request) -> Result<Vec<u8>, AllocError> {
    match ask_of(request) {
        Some((key, ask)) if key.bytes() == b"a".as_slice() => decided(alloc, b"5", &ask),
        Some(_) => Vec::from_slice(alloc, b"another key"),
        None => Vec::from_slice(alloc, b"none"),
    }
}

/// What is decided for the request of a text.
fn asked_by(alloc: Global, text: &[u8]) -> Result<Vec<u8>, AllocError> {
    let items = items_of(alloc, text)?;
    let Some(Item::Request(request)) = items.first() else {
        return Vec::from_slice(alloc, b"no request");
    };
    asked(alloc, request)
}

#[test]
fn asks_what_a_request_about_one_key_asks(rt: HostRuntime) -> Result<(), Fail> {
    for (text, told) in table::REQUESTS {
        assert_eq!(rt; asked_by(rt.alloc(), text)?.as_slice(), *told);
    }
    Ok(())
}

#[test]
fn ends_at_the_moment_that_is_asked_for(rt: HostRuntime) {
    for (exptime, expiry) in table::EXPIRIES {
        assert_eq!(rt; expiry_of(*exptime, NOW), *expiry, "at {exptime}");
    }
    for (expiry, now, is_live) in table::LIVES {
        assert_eq!(rt; live(*expiry, *now), *is_live, "{expiry} at {now}");
    }
}
