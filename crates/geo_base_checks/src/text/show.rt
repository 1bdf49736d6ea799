//! Values as texts, so that one comparison of texts compares all of them.
use geo_grammar::{Fault, Item, Reader};
use geo_lattice::Items;
use geo_requests::{Request, ValueBytes, Verb};
use geo_versions::Key;
use std::alloc::{AllocError, Global};

/// More bytes than this are shown by their number.
const MOST_SHOWN: usize = 64;

pub fn push_number(out: &mut Vec<u8>, number: u64) -> Result<(), AllocError> {
    let alloc = *out.allocator();
    out.extend_from_slice(format!(in alloc; "{number}")?.as_bytes())
}

pub fn push_signed(out: &mut Vec<u8>, number: i64) -> Result<(), AllocError> {
    if number < 0 {
        out.extend_from_slice(b"-")?;
    }
    push_number(out, number.unsigned_abs())
}

/// The bytes, or a `#` and how many there are.
pub fn push_bytes(out: &mut Vec<u8>, bytes: &[u8]) -> Result<(), AllocError> {
    if bytes.len() <= MOST_SHOWN {
        return out.extend_from_slice(bytes);
    }
    out.extend_from_slice(b"#")?;
    push_number(out, bytes.len() as u64)
}

fn verb_name(verb: Verb) -> &'static [u8] {
    match verb {
        Verb::Set => b"set",
        Verb::Add => b"add",
        Verb::Replace => b"replace",
        Verb::Append => b"append",
        Verb::Prepend => b"prepend",
        Verb::Cas => b"cas",
    }
}

fn fault_name(fault: Fault) -> &'static [u8] {
    match fault {
        Fault::Unknown => b"Unknown",
        Fault::BadLine => b"BadLine",
        Fault::BadData => b"BadData",
        Fault::LineTooLong => b"LineTooLong",
        Fault::TooLarge => b"TooLarge",
        Fault::BadNumber => b"BadNumber",
    }
}

fn push_keyed(out: &mut Vec<u8>, name: &[u8], key: &Key) -> Result<(), AllocError> {
    out.extend_from_slice(name)?;
    out.extend_from_slice(b" ")?;
    push_bytes(out, key.bytes())
}

fn push_named(out: &mut Vec<u8>, name: &[u8], number: i64) -> Result<(), AllocError> {
    out.extend_from_slice(name)?;
    out.extend_from_slice(b" ")?;
    push_signed(out, number)
}

fn push_keys(out: &mut Vec<u8>, keys: &Items<Key>) -> Result<(), AllocError> {
    for key in keys.as_slice() {
        push_keyed(out, b"", key)?;
    }
    Ok(())
}

/// The flags of a store, its exptime where it has one, and the number of cas.
fn push_numbers(
    out: &mut Vec<u8>,
    flags: u32,
    exptime: i64,
    unique: Option<u64>,
) -> Result<(), AllocError> {
    out.extend_from_slice(b" ")?;
    push_number(out, flags as u64)?;
    out.extend_from_slice(b" ")?;
    if exptime != 0 {
        out.extend_from_slice(b"@")?;
        push_signed(out, exptime)?;
        out.extend_from_slice(b" ")?;
    }
    if let Some(number) = unique {
        push_number(out, number)?;
        out.extend_from_slice(b" ")?;
    }
    Ok(())
}

fn push_keyless(out: &mut Vec<u8>, request: &Request) -> Result<(), AllocError> {
    match request {
        Request::Fetch { keys, numbers } => {
            out.extend_from_slice(if *numbers { b"gets" } else { b"get" })?;
            push_keys(out, keys)
        }
        Request::FetchTouch {
            exptime,
            keys,
            numbers,
        } => {
            push_named(out, if *numbers { b"gats" } else { b"gat" }, *exptime)?;
            push_keys(out, keys)
        }
        Request::FlushAll { delay, .. } => push_named(out, b"flush_all", *delay),
        Request::ShowVersion => out.extend_from_slice(b"version"),
        Request::Verbosity { .. } => out.extend_from_slice(b"verbosity"),
        Request::Stats => out.extend_from_slice(b"stats"),
        Request::Quit => out.extend_from_slice(b"quit"),
        _ => out.extend_from_slice(b"another request"),
    }
}

fn push_request(out: &mut Vec<u8>, request: &Request) -> Result<(), AllocError> {
    match request {
        Request::Store {
            verb,
            key,
            flags,
            exptime,
            unique,
            bytes,
            ..
        } => {
            push_keyed(out, verb_name(*verb), key)?;
            push_numbers(out, *flags, *exptime, *unique)?;
            push_bytes(out, bytes.as_slice())
        }
        Request::Delete { key, .. } => push_keyed(out, b"delete", key),
        Request::Touch { key, exptime, .. } => {
            push_keyed(out, b"touch", key)?;
            push_named(out, b"", *exptime)
        }
        Request::Arith { up, key, by, .. } => {
            push_keyed(out, if *up { b"incr" } else { b"decr" }, key)?;
            out.extend_from_slice(b" ")?;
            push_number(out, *by)
        }
        _ => push_keyless(out, request),
    }
}

fn push_item(out: &mut Vec<u8>, item: &Item) -> Result<(), AllocError> {
    match item {
        Item::Request(request) => {
            push_request(out, request)?;
            if request.is_noreply() {
                out.extend_from_slice(b" quiet")?;
            }
        }
        Item::Fault(fault) => out.extend_from_slice(fault_name(*fault))?,
    }
    out.extend_from_slice(b";")
}

/// The items as the tables of texts write them.
pub fn push_items(out: &mut Vec<u8>, items: &[Item]) -> Result<(), AllocError> {
    for item in items {
        push_item(out, item)?;
    }
    Ok(())
}

pub fn value(alloc: Global, bytes: &[u8]) -> Result<ValueBytes, AllocError> {
    Ok(ValueBytes::of(Vec::from_slice(alloc, bytes)?))
}

/// The items of a text.
pub fn items_of(alloc: Global, text: &[u8]) -> Result<Vec<Item>, AllocError> {
    let mut reader = Reader::new(alloc);
    reader.feed(text)
}
