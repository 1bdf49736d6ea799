//! Where a data block ends in a piece.
ghost use Rattle.std.specs.Prelude.{◌≡◌, ◌<◌, ◌≤◌, length};
ghost use Rattle.geo_grammar.specs.Places.{IsPlace, InData, AtReturn};
ghost use Rattle.geo_grammar.specs.Blocks.{BlockLeads, block_place, rest_length};

use crate::head::Head;

/// What a piece brings of a data block and of the `\r\n` behind it.
#[derive(Clone, Copy)]
pub enum BlockSplit<'a> {
    /// It brings data, and not yet the newline behind it. `returned`: the data is whole, and its return was there.
    Open { front: &'a [u8], returned: bool },
    /// It brings the last data and the newline, and then the rest.
    Good { front: &'a [u8], rest: &'a [u8] },
    /// The data is whole, and the rest does not begin with what has to follow it.
    Bad { rest: &'a [u8] },
}

/// Splits a piece of a data block of which `got` came so far.
fn split_data<'a>(head: &Head, got: &[u8], piece: &'a [u8]) -> BlockSplit<'a>
    requires { length got.now ≤ head.now.size }
    ensures leads { BlockLeads (InData head.now got.now) head.now got.now piece.now result }
    ensures shorter { rest_length result ≤ length piece.now }
{
    let room = head.size - got.len();
    if piece.len() <= room {
        return BlockSplit::Open {
            front: piece,
            returned: false,
        };
    }
    let (front, tail) = piece.split_at(room);
    if tail[0] != b'\r' {
        return BlockSplit::Bad { rest: tail };
    }
    if tail.len() == 1 {
        return BlockSplit::Open {
            front,
            returned: true,
        };
    }
    if tail[1] != b'\n' {
        return BlockSplit::Bad { rest: tail };
    }
    let (_, rest) = tail.split_at(2);
    BlockSplit::Good { front, rest }
}

/// Splits a piece behind a whole data block and its return.
fn split_returned<'a>(head: &Head, got: &[u8], piece: &'a [u8]) -> BlockSplit<'a>
    requires { length got.now ≡ head.now.size }
    ensures leads { BlockLeads (AtReturn head.now got.now) head.now got.now piece.now result }
    ensures shorter { rest_length result ≤ length piece.now }
{
    match piece {
        [] => BlockSplit::Open {
            front: &[],
            returned: true,
        },
        [b'\n', rest @ ..] => BlockSplit::Good { front: &[], rest },
        _ => BlockSplit::Bad { rest: piece },
    }
}

/// Splits a piece of a data block of which `got` came so far, and then its return where `returned`.
pub fn split_block<'a>(head: &Head, got: &[u8], returned: bool, piece: &'a [u8]) -> BlockSplit<'a>
    requires { IsPlace (block_place head.now got.now returned) }
    ensures leads { BlockLeads (block_place head.now got.now returned) head.now got.now piece.now result }
    ensures shorter { rest_length result ≤ length piece.now }
{
    if returned {
        split_returned(head, got, piece)
    } else {
        split_data(head, got, piece)
    }
}
