//! The lists of a slab class, seen by which items move and in which order they are evicted.
use crate::held::check;
use geo_lru::Segments;
use std::alloc::AllocError;
use std::process::Abort;
use std::test::Fail;

mod table;

use table::ROWS;

/// An item comes. One that is there leaves first, since it may be there once.
fn enter(segments: &mut Segments, item: usize) -> Result<(), AllocError> {
    // Its clause says that no item is there twice.
    let _next = segments.victim();
    segments.leave(item);
    segments.enter(item)
}

/// Does to an item what a letter says.
fn act(segments: &mut Segments, letter: u8, item: usize) -> Result<(), AllocError> {
    match letter {
        b'e' => enter(segments, item),
        b'r' => segments.renew(item),
        b'h' => {
            segments.hit(item);
            Ok(())
        }
        b'l' => {
            segments.leave(item);
            Ok(())
        }
        _ => Ok(()),
    }
}

fn show_victim(out: &mut String, segments: &Segments) -> Result<(), AllocError> {
    match segments.victim() {
        None => out.push_str("-"),
        Some(item) => write!(out, "{item}"),
    }
}

/// Evicts all items, and shows them in the order in which they go.
fn drain(out: &mut String, segments: &mut Segments) -> Result<(), AllocError> {
    for _ in 0..9 {
        show_victim(out, segments)?;
        let Some(item) = segments.victim() else {
            return Ok(());
        };
        segments.leave(item);
    }
    Ok(())
}

fn juggle(out: &mut String, segments: &mut Segments) -> Result<(), AllocError> {
    let has_moved = segments.juggle()?;
    out.push_str(if has_moved { "+" } else { "." })
}

/// Does what a text says, one letter or digit after another.
fn play(out: &mut String, segments: &mut Segments, text: &str) -> Result<(), AllocError> {
    let mut letter = b' ';
    for byte in text.as_bytes() {
        match *byte {
            b'j' => juggle(out, segments)?,
            b'v' => show_victim(out, segments)?,
            b'd' => drain(out, segments)?,
            digit @ b'0'..=b'9' => act(segments, letter, usize::from(digit & 15))?,
            other => letter = other,
        }
    }
    Ok(())
}

/// Plays each row with new lists.
fn play_rows(rt: &impl Abort, out: &mut String) -> Result<(), AllocError> {
    for (text, want) in ROWS {
        let mut segments = Segments::new(*out.allocator())?;
        out.clear();
        play(out, &mut segments, text)?;
        check(rt, out.as_str(), want);
    }
    Ok(())
}

#[test]
fn items_move_and_go_by_their_hits(rt: HostRuntime) -> Result<(), Fail> {
    let mut out = String::new(rt.alloc());
    play_rows(&rt, &mut out)?;
    Ok(())
}
