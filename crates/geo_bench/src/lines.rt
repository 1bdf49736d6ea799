//! The text of requests.
use itoa::Buffer;
use std::alloc::AllocError;

/// Writes a number.
pub fn push_number(out: &mut Vec<u8>, number: u64) -> Result<(), AllocError> {
    out.extend_from_slice(Buffer::new().format(number).as_bytes())
}

/// Writes a word behind a space.
pub fn push_word(out: &mut Vec<u8>, word: &[u8]) -> Result<(), AllocError> {
    out.push(b' ')?;
    out.extend_from_slice(word)
}

/// Writes a number behind a space.
pub fn push_figure(out: &mut Vec<u8>, number: u64) -> Result<(), AllocError> {
    out.push(b' ')?;
    push_number(out, number)
}

/// Ends a line.
pub fn push_end(out: &mut Vec<u8>) -> Result<(), AllocError> {
    out.extend_from_slice(b"\r\n")
}

/// A request by which a value is stored.
#[derive(Clone, Copy)]
pub struct Store<'a> {
    pub verb: &'a [u8],
    pub key: &'a [u8],
    pub flags: u64,
    pub exptime: u64,
    pub bytes: &'a [u8],
    /// The number that is to be replaced.
    pub unique: Option<u64>,
    pub noreply: bool,
}

/// A set that never ends.
pub fn set<'a>(key: &'a [u8], bytes: &'a [u8]) -> Store<'a> {
    Store {
        verb: b"set",
        key,
        flags: 0,
        exptime: 0,
        bytes,
        unique: None,
        noreply: false,
    }
}

/// Writes it.
pub fn push_store(out: &mut Vec<u8>, store: &Store<'_>) -> Result<(), AllocError> {
    out.extend_from_slice(store.verb)?;
    push_word(out, store.key)?;
    push_figure(out, store.flags)?;
    push_figure(out, store.exptime)?;
    push_figure(out, store.bytes.len() as u64)?;
    if let Some(number) = store.unique {
        push_figure(out, number)?;
    }
    if store.noreply {
        push_word(out, b"noreply")?;
    }
    push_end(out)?;
    out.extend_from_slice(store.bytes)?;
    push_end(out)
}

/// Writes a command of a key.
pub fn push_of_key(out: &mut Vec<u8>, verb: &[u8], key: &[u8]) -> Result<(), AllocError> {
    out.extend_from_slice(verb)?;
    push_word(out, key)?;
    push_end(out)
}

/// Writes a command of a key and a number.
pub fn push_with_figure(
    out: &mut Vec<u8>,
    verb: &[u8],
    key: &[u8],
    number: u64,
) -> Result<(), AllocError> {
    out.extend_from_slice(verb)?;
    push_word(out, key)?;
    push_figure(out, number)?;
    push_end(out)
}
