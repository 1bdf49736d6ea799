//! A piece taken from where a reader stands. What an `Err` leaves is what was there: all that can fail comes first.
ghost use Rattle.std.specs.Prelude.{◌≡◌, ◌++◌, [], true, IfOk, IsOk, OnOk, OnErr};
ghost use Rattle.std.specs.Option.{option_to_list};
ghost use Rattle.geo_grammar.specs.Places.{IsPlace, start_place, line_transition, items_from, place_after, is_ended};
ghost use Rattle.geo_grammar.specs.States.{IsLine, seen_of, IsBlock, place_of, finished};

use crate::block::{BlockSplit, split_block};
use crate::fault::{BlockFault, Fault};
use crate::item::Item;
use crate::lines::{is_start, read_on};
use crate::split::{LineSplit, split_seen};
use crate::state::State;
use crate::step::{Transition, line_end, run, run_steps};
use std::alloc::{AllocError, Global};
use std::mem;

/// Gives a first item, if there is one, reads the piece from another state on, and goes there.
fn feed_from(
    alloc: Global,
    state: &mut State,
    first: Option<Item>,
    from: State,
    piece: &[u8],
) -> Result<Vec<Item>, AllocError>
    requires from { IsPlace (place_of from) }
    requires old { IsPlace (place_of state.old) }
    ensures items { IfOk result (λ out. out.items ≡ option_to_list first ++ items_from (place_of from) piece.now) }
    ensures next { OnOk result (place_of state.new ≡ place_after (place_of from) piece.now) }
    ensures place { IsPlace (place_of state.new) }
    ensures err { OnErr result (place_of state.new ≡ place_of state.old) }
{
    let mut out = Vec::new(alloc);
    if let Some(item) = first {
        out.push(item)?;
    }
    let next = run(alloc, from, piece, &mut out)?;
    *state = next;
    Ok(out)
}

/// Takes a piece that ends a line of which some came before, with what follows it. It stands apart so that other pieces don't
/// pay for its locals.
#[inline(never)]
fn feed_cut(
    alloc: Global,
    state: &mut State,
    front: &[u8],
    rest: &[u8],
) -> Result<Vec<Item>, AllocError>
    requires line { IsLine state.old }
    requires old { IsPlace (place_of state.old) }
    ensures items { IfOk result (λ out. out.items ≡ (line_transition (seen_of state.old ++ front.now)).gives
        ++ items_from (line_transition (seen_of state.old ++ front.now)).next rest.now) }
    ensures next { OnOk result (place_of state.new ≡ place_after (line_transition (seen_of state.old ++ front.now)).next rest.now) }
    ensures place { IsPlace (place_of state.new) }
    ensures err { OnErr result (place_of state.new ≡ place_of state.old) }
{
    let State::Line(seen) = state else {
        unreachable!()
    };
    let Transition {
        item,
        state: from,
        rest,
    } = line_end(alloc, seen.as_slice(), front, rest)?;
    feed_from(alloc, state, item, from, rest)
}

/// Takes a piece that comes at the front of a line and brings it whole, with what follows it. Where the piece ends with a line or
/// with its data, the state stays as it is.
fn feed_lines(
    alloc: Global,
    state: &mut State,
    line: &[u8],
    rest: &[u8],
) -> Result<Vec<Item>, AllocError>
    requires { place_of state.old ≡ start_place }
    ensures items { IfOk result
        (λ out. out.items ≡ (line_transition line.now).gives ++ items_from (line_transition line.now).next rest.now) }
    ensures next { OnOk result (place_of state.new ≡ place_after (line_transition line.now).next rest.now) }
    ensures place { IsPlace (place_of state.new) }
    ensures err { OnErr result (place_of state.new ≡ place_of state.old) }
{
    let mut out = Vec::new(alloc);
    let mut from = State::Line(Vec::new(alloc));
    let rest = read_on(alloc, &mut from, line, rest, &mut out)?;
    if rest.is_empty() && is_start(&from) {
        return Ok(out);
    }
    let next = run_steps(alloc, from, rest, &mut out)?;
    *state = next;
    Ok(out)
}

/// Ends a data block with its last bytes, and reads what follows its line end.
fn feed_last(
    alloc: Global,
    state: &mut State,
    front: &[u8],
    rest: &[u8],
) -> Result<Vec<Item>, AllocError>
    requires block { IsBlock state.old }
    requires old { IsPlace (place_of state.old) }
    ensures items { IfOk result (λ out. out.items ≡ finished state.old front.now ++ items_from start_place rest.now) }
    ensures next { OnOk result (place_of state.new ≡ place_after start_place rest.now) }
    ensures place { IsPlace (place_of state.new) }
    ensures err { OnErr result (place_of state.new ≡ place_of state.old) }
{
    let mut out = Vec::new(alloc);
    // Keeps the place of the block's request, which takes its data only when nothing can fail any more.
    out.push(Item::Fault(Fault::BadData))?;
    let next = run(alloc, State::Line(Vec::new(alloc)), rest, &mut out)?;
    let State::Data { got, .. } = state else {
        unreachable!()
    };
    got.extend(front)?;
    let State::Data { head, got, .. } = mem::replace(state, next) else {
        unreachable!()
    };
    out[0] = Item::Request(head.request(got.into_value(alloc)));
    Ok(out)
}

/// Takes a piece that comes within a data block or behind it.
fn feed_block(alloc: Global, state: &mut State, piece: &[u8]) -> Result<Vec<Item>, AllocError>
    requires block { IsBlock state.old }
    requires old { IsPlace (place_of state.old) }
    ensures items { IfOk result (λ out. out.items ≡ items_from (place_of state.old) piece.now) }
    ensures next { OnOk result (place_of state.new ≡ place_after (place_of state.old) piece.now) }
    ensures place { IsPlace (place_of state.new) }
    ensures err { OnErr result (place_of state.new ≡ place_of state.old) }
{
    let State::Data {
        head,
        got,
        returned,
    } = state
    else {
        unreachable!()
    };
    match split_block(head, got.as_slice(), *returned, piece) {
        BlockSplit::Open {
            front,
            returned: now,
        } => {
            got.extend(front)?;
            *returned = now;
            Ok(Vec::new(alloc))
        }
        BlockSplit::Good { front, rest } => feed_last(alloc, state, front, rest),
        BlockSplit::Bad { rest } => {
            let skip = State::skip(0, BlockFault::BadData);
            feed_from(alloc, state, None, skip, rest)
        }
    }
}

/// Takes the next piece, and gives the items that end in it.
pub fn feed_state(alloc: Global, state: &mut State, piece: &[u8]) -> Result<Vec<Item>, AllocError>
    requires { IsPlace (place_of state.old) }
    ensures items { IfOk result (λ out. out.items ≡ items_from (place_of state.old) piece.now) }
    ensures next { OnOk result (place_of state.new ≡ place_after (place_of state.old) piece.now) }
    ensures place { IsPlace (place_of state.new) }
    ensures err { OnErr result (place_of state.new ≡ place_of state.old) }
    ensures empty { piece.now ≡ [] → IsOk result }
    ensures silent { is_ended (place_of state.old) ≡ true → IsOk result }
{
    if piece.is_empty() {
        return Ok(Vec::new(alloc));
    }
    match state {
        State::Line(seen) => match split_seen(seen.as_slice(), piece) {
            LineSplit::Open => {
                seen.extend_from_slice(piece)?;
                Ok(Vec::new(alloc))
            }
            LineSplit::Ends { front, rest } => {
                if seen.is_empty() {
                    feed_lines(alloc, state, front, rest)
                } else {
                    feed_cut(alloc, state, front, rest)
                }
            }
            LineSplit::TooLong => {
                let fault = Some(Item::Fault(Fault::LineTooLong));
                feed_from(alloc, state, fault, State::Ended, &[])
            }
        },
        State::Data { .. } => feed_block(alloc, state, piece),
        State::Skip { left, fault } => {
            let from = State::skip(*left, *fault);
            feed_from(alloc, state, None, from, piece)
        }
        State::Ended => Ok(Vec::new(alloc)),
    }
}
