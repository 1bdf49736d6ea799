//! The lines that come whole, straight from a piece.
ghost use Rattle.std.specs.Prelude.{◌≡◌, ◌++◌, ◌≤◌, [], length, IfOk, IsTrue};
ghost use Rattle.geo_grammar.specs.Places.{InData, IsPlace, start_place, items_from, place_after, line_transition};
ghost use Rattle.geo_grammar.specs.States.{place_of};

use crate::block::{BlockSplit, split_block};
use crate::fault::BlockFault;
use crate::head::Head;
use crate::item::Item;
use crate::line::{Line, read_line};
use crate::split::{LineSplit, split_seen};
use crate::state::State;
use geo_requests::{DataBlock, ValueBytes};
use std::alloc::{AllocError, Global};

/// Whether a state is the front of a line.
pub fn is_start(state: &State) -> bool
    ensures { IsTrue result → place_of state.now ≡ start_place }
{
    match state {
        State::Line(seen) => seen.is_empty(),
        State::Data { .. } | State::Skip { .. } | State::Ended => false,
    }
}

/// Reads the data block of a storage line where a piece brings it whole, and gives what follows it. Else the state is that block.
fn read_block<'a>(
    alloc: Global,
    state: &mut State,
    head: Head,
    piece: &'a [u8],
    out: &mut Vec<Item>,
) -> Result<&'a [u8], AllocError>
    requires { place_of state.old ≡ start_place }
    ensures items { IfOk result
        (λ rest. out.new.items ++ items_from (place_of state.new) rest.now ≡ out.old.items ++ items_from (InData head []) piece.now) }
    ensures next { IfOk result (λ rest. place_after (place_of state.new) rest.now ≡ place_after (InData head []) piece.now) }
    ensures place { IfOk result (λ rest. IsPlace (place_of state.new)) }
    ensures bound { IfOk result (λ rest. length rest.now ≤ length piece.now) }
{
    match split_block(&head, &[], false, piece) {
        BlockSplit::Good { front, rest } => {
            let bytes = ValueBytes::of(Vec::from_slice(alloc, front)?);
            out.push(Item::Request(head.request(bytes)))?;
            Ok(rest)
        }
        BlockSplit::Open { .. } | BlockSplit::Bad { .. } => {
            let got = DataBlock::with_room(alloc, head.size)?;
            *state = State::Data {
                head,
                got,
                returned: false,
            };
            Ok(piece)
        }
    }
}

/// Does what a line says, of which the piece is what follows it: gives what is left of that. The state is where the line leads, unless
/// that is the front of a line, at which it stands already.
#[inline(always)]
fn read_said<'a>(
    alloc: Global,
    state: &mut State,
    line: &[u8],
    piece: &'a [u8],
    out: &mut Vec<Item>,
) -> Result<&'a [u8], AllocError>
    requires { place_of state.old ≡ start_place }
    ensures items { IfOk result (λ rest. out.new.items ++ items_from (place_of state.new) rest.now
        ≡ out.old.items ++ ((line_transition line.now).gives ++ items_from (line_transition line.now).next piece.now)) }
    ensures next { IfOk result (λ rest. place_after (place_of state.new) rest.now ≡ place_after (line_transition line.now).next piece.now) }
    ensures place { IfOk result (λ rest. IsPlace (place_of state.new)) }
    ensures bound { IfOk result (λ rest. length rest.now ≤ length piece.now) }
{
    match read_line(alloc, line)? {
        Line::Whole(request) => {
            out.push(Item::Request(request))?;
            Ok(piece)
        }
        Line::Bad(fault) => {
            out.push(Item::Fault(fault.fault()))?;
            Ok(piece)
        }
        Line::Storage(head) => read_block(alloc, state, head, piece, out),
        Line::Huge(left) => {
            *state = State::skip(left, BlockFault::TooLarge);
            Ok(piece)
        }
    }
}

/// Does what a line says, and reads the piece behind it on, line by line and each with its data, up to a line or data that it doesn't
/// bring whole: appends the items, and gives what is left of the piece.
pub fn read_on<'a>(
    alloc: Global,
    state: &mut State,
    line: &[u8],
    piece: &'a [u8],
    out: &mut Vec<Item>,
) -> Result<&'a [u8], AllocError>
    requires { place_of state.old ≡ start_place }
    ensures items { IfOk result (λ rest. out.new.items ++ items_from (place_of state.new) rest.now
        ≡ out.old.items ++ ((line_transition line.now).gives ++ items_from (line_transition line.now).next piece.now)) }
    ensures next { IfOk result (λ rest. place_after (place_of state.new) rest.now ≡ place_after (line_transition line.now).next piece.now) }
    ensures place { IfOk result (λ rest. IsPlace (place_of state.new)) }
    ensures bound { IfOk result (λ rest. length rest.now ≤ length piece.now) }
{
    let mut line = line;
    let mut rest = piece;
    'each: loop {
        let left = read_said(alloc, state, line, rest, out)?;
        if !is_start(state) {
            return Ok(left);
        }
        let LineSplit::Ends { front, rest: after } = split_seen(&[], left) else {
            return Ok(left);
        };
        line = front;
        rest = after;
    }
}

/// Reads a piece from a state on, where that is the front of a line: the lines that it brings whole. Gives what is left of it.
pub fn read_lines<'a>(
    alloc: Global,
    state: &mut State,
    piece: &'a [u8],
    out: &mut Vec<Item>,
) -> Result<&'a [u8], AllocError>
    requires { IsPlace (place_of state.old) }
    ensures items { IfOk result
        (λ rest. out.new.items ++ items_from (place_of state.new) rest.now ≡ out.old.items ++ items_from (place_of state.old) piece.now) }
    ensures next { IfOk result (λ rest. place_after (place_of state.new) rest.now ≡ place_after (place_of state.old) piece.now) }
    ensures place { IfOk result (λ rest. IsPlace (place_of state.new)) }
    ensures bound { IfOk result (λ rest. length rest.now ≤ length piece.now) }
{
    if !is_start(state) {
        return Ok(piece);
    }
    let LineSplit::Ends { front, rest } = split_seen(&[], piece) else {
        return Ok(piece);
    };
    read_on(alloc, state, front, rest, out)
}
