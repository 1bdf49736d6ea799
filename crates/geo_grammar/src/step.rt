//! One step of a reader: what a part of a piece does.
ghost use Rattle.std.specs.Prelude.{◌≡◌, ◌++◌, ◌+◌, ◌<◌, ◌≤◌, ◌∷◌, [], length, MatchOption, IfSome, IfOk, OnOk};
ghost use Rattle.std.specs.Option.{option_to_list};
ghost use Rattle.geo_grammar.specs.Places.{InLine, Skips, Leads, IsPlace, line_transition, items_from, place_after};
ghost use Rattle.geo_grammar.specs.Blocks.{block_place};
ghost use Rattle.geo_grammar.specs.States.{place_of};

use crate::block::{BlockSplit, split_block};
use crate::fault::{BlockFault, Fault};
use crate::head::Head;
use crate::item::Item;
use crate::line::{Line, read_line};
use crate::lines::read_lines;
use crate::split::{LineSplit, split_line, split_seen};
use crate::state::State;
use geo_requests::DataBlock;
use std::alloc::{AllocError, Global};

/// What a part of a piece does: an item or none, the state behind it, and the rest of the piece.
#[derive(Drop)]
pub struct Transition<'a> {
    pub item: Option<Item>,
    pub state: State,
    pub rest: &'a [u8],
}

/// What a line does.
fn line_transition<'a>(
    alloc: Global,
    line: &[u8],
    rest: &'a [u8],
) -> Result<Transition<'a>, AllocError>
    ensures gives { IfOk result (λ t. option_to_list t.item ≡ (line_transition line.now).gives) }
    ensures next { IfOk result (λ t. place_of t.state ≡ (line_transition line.now).next) }
    ensures place { IfOk result (λ t. IsPlace (place_of t.state)) }
    ensures rest { IfOk result (λ t. t.rest.now ≡ rest.now) }
{
    let (item, state) = match read_line(alloc, line)? {
        Line::Whole(request) => (Some(Item::Request(request)), State::Line(Vec::new(alloc))),
        Line::Bad(fault) => (
            Some(Item::Fault(fault.fault())),
            State::Line(Vec::new(alloc)),
        ),
        Line::Storage(head) => {
            let got = DataBlock::with_room(alloc, head.size)?;
            (
                None,
                State::Data {
                    head,
                    got,
                    returned: false,
                },
            )
        }
        Line::Huge(left) => (
            None,
            State::Skip {
                left,
                fault: BlockFault::TooLarge,
            },
        ),
    };
    Ok(Transition { item, state, rest })
}

/// What a line does of which `seen` came before.
pub fn line_end<'a>(
    alloc: Global,
    seen: &[u8],
    front: &[u8],
    rest: &'a [u8],
) -> Result<Transition<'a>, AllocError>
    ensures gives { IfOk result (λ t. option_to_list t.item ≡ (line_transition (seen.now ++ front.now)).gives) }
    ensures next { IfOk result (λ t. place_of t.state ≡ (line_transition (seen.now ++ front.now)).next) }
    ensures place { IfOk result (λ t. IsPlace (place_of t.state)) }
    ensures rest { IfOk result (λ t. t.rest.now ≡ rest.now) }
{
    if seen.is_empty() {
        return line_transition(alloc, front, rest);
    }
    let mut line = Vec::from_slice(alloc, seen)?;
    line.extend_from_slice(front)?;
    line_transition(alloc, line.as_slice(), rest)
}

fn line_step<'a>(
    alloc: Global,
    mut seen: Vec<u8>,
    piece: &'a [u8],
) -> Result<Transition<'a>, AllocError>
    requires place { IsPlace (InLine seen.items) }
    requires some { 0 < length piece.now }
    ensures leads { IfOk result (λ t. Leads (InLine seen.items) piece.now (option_to_list t.item) (place_of t.state) t.rest.now) }
    ensures place { IfOk result (λ t. IsPlace (place_of t.state)) }
    ensures shorter { IfOk result (λ t. length t.rest.now < length piece.now) }
{
    match split_seen(seen.as_slice(), piece) {
        LineSplit::Open => {
            seen.extend_from_slice(piece)?;
            Ok(Transition {
                item: None,
                state: State::Line(seen),
                rest: &[],
            })
        }
        LineSplit::Ends { front, rest } => line_end(alloc, seen.as_slice(), front, rest),
        LineSplit::TooLong => Ok(Transition {
            item: Some(Item::Fault(Fault::LineTooLong)),
            state: State::Ended,
            rest: &[],
        }),
    }
}

fn skip_step<'a>(alloc: Global, left: usize, fault: BlockFault, piece: &'a [u8]) -> Transition<'a>
    requires { 0 < length piece.now }
    ensures leads { Leads (Skips left fault) piece.now (option_to_list result.item) (place_of result.state) result.rest.now }
    ensures place { IsPlace (place_of result.state) }
    ensures shorter { length result.rest.now < length piece.now }
{
    if piece.len() <= left {
        return Transition {
            item: None,
            state: State::Skip {
                left: left - piece.len(),
                fault,
            },
            rest: &[],
        };
    }
    let (_, tail) = piece.split_at(left);
    let Some((_, rest)) = split_line(tail) else {
        return Transition {
            item: None,
            state: State::Skip { left: 0, fault },
            rest: &[],
        };
    };
    Transition {
        item: Some(Item::Fault(fault.fault())),
        state: State::Line(Vec::new(alloc)),
        rest,
    }
}

fn block_step<'a>(
    alloc: Global,
    head: Head,
    mut got: DataBlock,
    returned: bool,
    piece: &'a [u8],
) -> Result<Transition<'a>, AllocError>
    requires place { IsPlace (block_place head got returned) }
    requires some { 0 < length piece.now }
    ensures leads { IfOk result
        (λ t. Leads (block_place head got returned) piece.now (option_to_list t.item) (place_of t.state) t.rest.now) }
    ensures place { IfOk result (λ t. IsPlace (place_of t.state)) }
    ensures shorter { IfOk result (λ t. length t.rest.now < length piece.now) }
{
    match split_block(&head, got.as_slice(), returned, piece) {
        BlockSplit::Open { front, returned } => {
            got.extend(front)?;
            let state = State::Data {
                head,
                got,
                returned,
            };
            Ok(Transition {
                item: None,
                state,
                rest: &[],
            })
        }
        BlockSplit::Good { front, rest } => {
            got.extend(front)?;
            Ok(Transition {
                item: Some(Item::Request(head.request(got.into_value(alloc)))),
                state: State::Line(Vec::new(alloc)),
                rest,
            })
        }
        BlockSplit::Bad { rest } => Ok(skip_step(alloc, 0, BlockFault::BadData, rest)),
    }
}

fn step<'a>(alloc: Global, state: State, piece: &'a [u8]) -> Result<Transition<'a>, AllocError>
    requires place { IsPlace (place_of state) }
    requires some { 0 < length piece.now }
    ensures leads { IfOk result (λ t. Leads (place_of state) piece.now (option_to_list t.item) (place_of t.state) t.rest.now) }
    ensures place { IfOk result (λ t. IsPlace (place_of t.state)) }
    ensures shorter { IfOk result (λ t. length t.rest.now < length piece.now) }
{
    match state {
        State::Line(seen) => line_step(alloc, seen, piece),
        State::Data {
            head,
            got,
            returned,
        } => block_step(alloc, head, got, returned, piece),
        State::Skip { left, fault } => Ok(skip_step(alloc, left, fault, piece)),
        State::Ended => Ok(Transition {
            item: None,
            state: State::Ended,
            rest: &[],
        }),
    }
}

/// Reads a piece from a state on, of which it brings no whole line where that is the front of one: appends its items, and gives the
/// state behind it.
pub fn run_steps(
    alloc: Global,
    state: State,
    piece: &[u8],
    out: &mut Vec<Item>,
) -> Result<State, AllocError>
    requires { IsPlace (place_of state) }
    ensures items { OnOk result (out.new.items ≡ out.old.items ++ items_from (place_of state) piece.now) }
    ensures next { IfOk result (λ s. place_of s ≡ place_after (place_of state) piece.now) }
    ensures place { IfOk result (λ s. IsPlace (place_of s)) }
{
    let mut state = state;
    let mut rest = piece;
    while !rest.is_empty() {
        let Transition {
            item,
            state: mut next,
            rest: after,
        } = step(alloc, state, rest)?;
        if let Some(item) = item {
            out.push(item)?;
        }
        rest = read_lines(alloc, &mut next, after, out)?;
        state = next;
    }
    Ok(state)
}

/// Reads a piece from a state on: appends its items, and gives the state behind it.
pub fn run(
    alloc: Global,
    state: State,
    piece: &[u8],
    out: &mut Vec<Item>,
) -> Result<State, AllocError>
    requires { IsPlace (place_of state) }
    ensures items { OnOk result (out.new.items ≡ out.old.items ++ items_from (place_of state) piece.now) }
    ensures next { IfOk result (λ s. place_of s ≡ place_after (place_of state) piece.now) }
    ensures place { IfOk result (λ s. IsPlace (place_of s)) }
{
    let mut state = state;
    let rest = read_lines(alloc, &mut state, piece, out)?;
    run_steps(alloc, state, rest, out)
}
