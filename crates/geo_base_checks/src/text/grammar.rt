//! What a reader gives of texts, in pieces of any size.
ghost use Rattle.std.specs.Prelude.{◌≤◌};

use super::show::push_items;
use geo_grammar::{Item, Reader, read_all};
use geo_requests::Request;
use geo_versions::Digest;
use std::alloc::{AllocError, Global};
use std::process::Abort;
use std::test::Fail;

mod long;
mod table;

fn feed(reader: &mut Reader, piece: &[u8], out: &mut Vec<u8>) -> Result<(), AllocError> {
    let items = reader.feed(piece)?;
    push_items(out, items.as_slice())
}

/// The first part, and then the second in pieces of so many bytes.
fn feed_both(
    reader: &mut Reader,
    front: &[u8],
    rest: &[u8],
    size: usize,
    out: &mut Vec<u8>,
) -> Result<(), AllocError> {
    feed(reader, front, out)?;
    for piece in rest.chunks(size.max(1)) {
        feed(reader, piece, out)?;
    }
    Ok(())
}

/// The items of a text that comes in these two parts, the second in pieces of so many bytes.
fn fed(alloc: Global, front: &[u8], rest: &[u8], size: usize) -> Result<Vec<u8>, AllocError> {
    let mut reader = Reader::new(alloc);
    let mut out = Vec::new(alloc);
    feed_both(&mut reader, front, rest, size, &mut out)?;
    Ok(out)
}

/// The items of a text, cut at each place and byte by byte, where these are they each time; else the first that are not.
fn read(alloc: Global, text: &[u8], items: &[u8]) -> Result<Vec<u8>, AllocError> {
    for at in 0..=text.len() {
        let (front, rest) = text.split_at(at);
        let read = fed(alloc, front, rest, usize::MAX)?;
        if read.as_slice() != items {
            return Ok(read);
        }
    }
    fed(alloc, b"", text, 1)
}

/// What stands before and behind the bar of a row.
fn halves(row: &[u8]) -> (&[u8], &[u8]) {
    let mut halves = row.split(|byte| *byte == b'|');
    let text = halves.next().unwrap_or(b"");
    (text, halves.next().unwrap_or(b""))
}

/// Each text gives its items.
fn reads(rt: &impl Abort, alloc: Global, rows: &[&[u8]]) -> Result<(), Fail> {
    for row in rows {
        let (text, items) = halves(row);
        assert_eq!(rt; read(alloc, text, items)?.as_slice(), items, "{text:?}");
    }
    Ok(())
}

#[test]
fn reads_each_text_wherever_it_is_cut(rt: HostRuntime) -> Result<(), Fail> {
    let alloc = rt.alloc();
    reads(&rt, alloc, table::lines())?;
    reads(&rt, alloc, table::words())?;
    reads(&rt, alloc, table::keys())?;
    reads(&rt, alloc, table::numbers())?;
    reads(&rt, alloc, table::data())?;
    reads(&rt, alloc, table::names())?;
    reads(&rt, alloc, table::lone())?;
    reads(&rt, alloc, table::fetches())?;
    reads(&rt, alloc, table::stores())?;
    reads(&rt, alloc, table::noreply())?;
    reads(&rt, alloc, table::deletions())?;
    reads(&rt, alloc, table::arithmetic())?;
    reads(&rt, alloc, table::verbosity())?;
    reads(&rt, alloc, table::sizes())?;
    reads(&rt, alloc, table::times())?;
    reads(&rt, alloc, table::touches())?;
    reads(&rt, alloc, table::flushes())
}

/// The text in pieces of so many bytes.
fn pieces_of(alloc: Global, text: &[u8], size: usize) -> Result<Vec<Vec<u8>>, AllocError> {
    let mut pieces = Vec::new(alloc);
    for piece in text.chunks(size.max(1)) {
        pieces.push(Vec::from_slice(alloc, piece)?)?;
    }
    Ok(pieces)
}

/// The items of a text that comes in pieces of so many bytes.
fn by_pieces(alloc: Global, text: &[u8], size: usize) -> Result<Vec<u8>, AllocError> {
    let pieces = pieces_of(alloc, text, size)?;
    let items = read_all(alloc, pieces.as_slice())?;
    let mut out = Vec::new(alloc);
    push_items(&mut out, items.as_slice())?;
    Ok(out)
}

/// A text with one byte so many times in its midst.
fn long_text(
    alloc: Global,
    front: &[u8],
    byte: u8,
    count: usize,
    rest: &[u8],
) -> Result<Vec<u8>, AllocError> {
    let many = vec![in alloc; byte; count]?;
    let mut text = Vec::from_slice(alloc, front)?;
    text.extend_from_slice(many.as_slice())?;
    text.extend_from_slice(rest)?;
    Ok(text)
}

/// The items of a text in pieces of each of these sizes, where these are they each time; else the first that are not.
fn read_long(
    alloc: Global,
    text: &[u8],
    sizes: &[usize],
    items: &[u8],
) -> Result<Vec<u8>, AllocError> {
    let mut read = Vec::new(alloc);
    for size in sizes {
        read = by_pieces(alloc, text, *size)?;
        if read.as_slice() != items {
            return Ok(read);
        }
    }
    Ok(read)
}

#[test]
fn reads_long_texts_in_pieces_of_any_size(rt: HostRuntime) -> Result<(), Fail> {
    for (sizes, rows) in long::TEXTS {
        for (front, byte, count, rest, items) in *rows {
            let text = long_text(rt.alloc(), front, *byte, *count, rest)?;
            let read = read_long(rt.alloc(), text.as_slice(), sizes, items)?;
            assert_eq!(rt; read.as_slice(), *items, "{count}");
        }
    }
    Ok(())
}

/// What a piece gives, ended by a bar, and whether the reader has ended then.
fn push_piece(out: &mut Vec<u8>, reader: &mut Reader, piece: &[u8]) -> Result<(), AllocError> {
    feed(reader, piece, out)?;
    out.extend_from_slice(if reader.ended() { b"ended|" } else { b"|" })
}

/// What each piece gives.
fn piece_by_piece(alloc: Global, pieces: &[&[u8]]) -> Result<Vec<u8>, AllocError> {
    let mut reader = Reader::new(alloc);
    let mut out = Vec::new(alloc);
    for piece in pieces {
        push_piece(&mut out, &mut reader, piece)?;
    }
    Ok(out)
}

#[test]
fn gives_an_item_with_the_piece_of_its_last_byte(rt: HostRuntime) -> Result<(), Fail> {
    let pieces: [&[u8]; 4] = [b"se", b"t a 0 0 2\r", b"\nh", b"i\r\nget a\r\n"];
    let told = piece_by_piece(rt.alloc(), &pieces)?;
    assert_eq!(rt; told.as_slice(), b"|||set a 0 hi;get a;|".as_slice());
    Ok(())
}

#[test]
fn gives_a_long_line_with_its_first_byte_too_many(rt: HostRuntime) -> Result<(), Fail> {
    let line = vec![in rt.alloc(); b'x'; 65536]?;
    let told = piece_by_piece(rt.alloc(), &[line.as_slice(), b"x", b"\nversion\r\n"])?;
    assert_eq!(rt; told.as_slice(), b"|LineTooLong;ended|ended|".as_slice());
    Ok(())
}

/// The SHA-256 of a million times the letter a (from the examples beside FIPS 180-4).
const MILLION: [u8; 32] = [
    0xcd, 0xc7, 0x6e, 0x5c, 0x99, 0x14, 0xfb, 0x92, 0x81, 0xa1, 0xc7, 0xe2, 0x84, 0xd7, 0x3e, 0x67,
    0xf1, 0x80, 0x9a, 0x48, 0xa4, 0x97, 0x20, 0x0e, 0x04, 0x6d, 0x39, 0xcc, 0xc7, 0x11, 0x2c, 0xd0,
];

/// The SHA-256 of the data of a lone store.
fn digest_in(items: &[Item]) -> Option<Digest> {
    match items {
        [Item::Request(Request::Store { bytes, .. })] => Some(bytes.digest()),
        _ => None,
    }
}

#[test]
fn data_has_its_sha_256_however_it_comes(rt: HostRuntime) -> Result<(), Fail> {
    let alloc = rt.alloc();
    let text = long_text(alloc, b"set k 0 0 1000000\r\n", b'a', 1_000_000, b"\r\n")?;
    for size in [7, 16_384, 2_000_000] {
        let pieces = pieces_of(alloc, text.as_slice(), size)?;
        let items = read_all(alloc, pieces.as_slice())?;
        let digest = digest_in(items.as_slice()).ok_or("no store")?;
        assert_eq!(rt; digest.bytes().as_slice(), MILLION.as_slice());
    }
    Ok(())
}
