//! The texts of answers and of faults, from memcached's protocol.txt.
use super::show::{items_of, push_bytes, push_number, value};
use geo_grammar::{Item, fault_text, push_answer, push_reply, render};
use geo_lattice::Twin;
use geo_requests::{Found, Reply, Request, Shared, Shown, ValueBytes};
use geo_versions::Key;
use std::alloc::{AllocError, Global};
use std::process::Abort;
use std::test::Fail;

mod table;

/// A value of the key `a` that was found.
fn found(alloc: Global, flags: u32, unique: Option<u64>, bytes: &[u8]) -> Result<Found, Fail> {
    Ok(Found {
        key: Key::new(alloc, b"a")?.ok_or("no key")?,
        flags,
        unique,
        bytes: Shown::of(Vec::from_slice(alloc, bytes)?),
    })
}

/// A reply of so many of the values of the table.
fn values(alloc: Global, count: usize) -> Result<Reply, Fail> {
    let mut all = Vec::new(alloc);
    for (flags, unique, bytes) in table::FOUND.iter().take(count) {
        all.push(found(alloc, *flags, *unique, bytes)?)?;
    }
    Ok(Reply::Values(Shared::of(alloc, all)?))
}

/// What answers a request by the twin of a reply.
fn rendered(alloc: Global, request: &Request, reply: &Reply) -> Result<Vec<u8>, AllocError> {
    let twin = reply.twin(alloc)?;
    render(alloc, request, &twin)
}

/// What answers the twin of a request by the twin of a reply.
fn answer(alloc: Global, request: &Request, reply: &Reply) -> Result<Vec<u8>, AllocError> {
    let twin = request.twin(alloc)?;
    rendered(alloc, &twin, reply)
}

/// Appends what answers the request of a text.
fn push_to(out: &mut Vec<u8>, text: &[u8], reply: &Reply) -> Result<(), AllocError> {
    let items = items_of(*out.allocator(), text)?;
    for item in items.as_slice() {
        match item {
            Item::Request(request) => push_answer(out, request, reply)?,
            Item::Fault(_) => out.extend_from_slice(b"no request")?,
        }
    }
    Ok(())
}

/// What answers the requests of a text.
fn answer_to(alloc: Global, text: &[u8], reply: &Reply) -> Result<Vec<u8>, AllocError> {
    let items = items_of(alloc, text)?;
    let Some(Item::Request(request)) = items.first() else {
        return Vec::from_slice(alloc, b"no request");
    };
    answer(alloc, request, reply)
}

/// Requests are answered by a reply's text, and by nothing where they want no answer.
fn answers(rt: &impl Abort, alloc: Global, reply: &Reply, text: &[u8]) -> Result<(), Fail> {
    for (words, quiet) in table::REQUESTS {
        let text = if *quiet { b"" } else { text };
        assert_eq!(rt;
            answer_to(alloc, words, reply)?.as_slice(),
            text,
            "{words:?}"
        );
    }
    Ok(())
}

#[test]
fn answers_in_the_texts_of_the_protocol(rt: HostRuntime) -> Result<(), Fail> {
    for (place, text) in table::REPLIES.iter().enumerate() {
        answers(&rt, rt.alloc(), &table::reply_at(place), text)?;
    }
    for (count, text) in table::VALUES {
        answers(&rt, rt.alloc(), &values(rt.alloc(), *count)?, text)?;
    }
    for (fault, text) in table::FAULTS {
        assert_eq!(rt; fault_text(*fault), *text);
    }
    Ok(())
}

/// A value's length, its twin and its bytes.
fn push_value(out: &mut Vec<u8>, value: ValueBytes) -> Result<(), AllocError> {
    let alloc = *out.allocator();
    push_number(out, value.len() as u64)?;
    push_bytes(out, value.twin(alloc)?.as_slice())?;
    push_bytes(out, value.as_slice())
}

#[test]
fn appends_one_behind_the_other(rt: HostRuntime) -> Result<(), Fail> {
    let mut out = Vec::new(rt.alloc());
    push_to(&mut out, b"stats\r\n", &Reply::Stored)?;
    push_to(&mut out, b"cas a 0 0 2 7 noreply\r\nhi\r\n", &Reply::Exists)?;
    push_to(&mut out, b"quit\r\n", &Reply::Number(10))?;
    push_reply(&mut out, &Reply::Done)?;
    push_value(&mut out, value(rt.alloc(), b"hi")?)?;
    assert_eq!(rt; out.as_slice(), b"STORED\r\n10\r\nOK\r\n2hihi".as_slice());
    Ok(())
}
