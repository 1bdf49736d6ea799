//! Requests, keys and numbers out of texts and into them.
use crate::scene::Stop;
use geo_grammar::{Item, Reader};
use geo_requests::Request;
use geo_versions::Key;
use std::alloc::{AllocError, Global};

/// The request that a text of the protocol asks, and nothing else.
pub fn request(alloc: Global, text: &[u8]) -> Result<Request, Stop> {
    let mut items = Reader::new(alloc).feed(text)?;
    match items.pop() {
        Some(Item::Request(request)) => Ok(request),
        _ => Err(Stop::Wrong("no request")),
    }
}

/// A key of these bytes.
pub fn key(alloc: Global, bytes: &[u8]) -> Result<Key, Stop> {
    match Key::new(alloc, bytes)? {
        Some(key) => Ok(key),
        None => Err(Stop::Wrong("no key")),
    }
}

/// Writes a word and a number.
pub fn word(out: &mut Vec<u8>, name: &[u8], number: u64) -> Result<(), AllocError> {
    out.extend_from_slice(name)?;
    let mut digits = itoa::Buffer::new();
    out.extend_from_slice(digits.format(number).as_bytes())
}
