//! Where a line ends in a piece.
ghost use Rattle.std.specs.Prelude.{◌≡◌, ◌++◌, ◌+◌, ◌<◌, ◌≤◌, ◌∷◌, length, MatchOption, IfSome};
ghost use Rattle.geo_grammar.specs.Limits.{longest_line};
ghost use Rattle.geo_grammar.specs.Places.{NoEnd};
ghost use Rattle.geo_grammar.specs.Lines.{LineLeads, line_rest_length};

use crate::limits::LONGEST_LINE;
use memchr::memchr;

/// The bytes before the first line end, and those behind it; None where there is none.
pub fn split_line(piece: &[u8]) -> Option<(&[u8], &[u8])>
    ensures end { MatchOption result (NoEnd piece.now) (λ x. NoEnd x.0.now × (piece.now ≡ x.0.now ++ 10 ∷ x.1.now)) }
    ensures shorter { IfSome result (λ x. length x.0.now + length x.1.now < length piece.now) }
{
    let Some(at) = memchr(b'\n', piece) else {
        return None;
    };
    let (front, _) = piece.split_at(at);
    let (_, rest) = piece.split_at(at + 1);
    Some((front, rest))
}

/// What a piece brings of a line.
#[derive(Clone, Copy)]
pub enum LineSplit<'a> {
    /// It brings bytes of it, and not yet its end.
    Open,
    /// It brings its last bytes and the newline, and then the rest.
    Ends { front: &'a [u8], rest: &'a [u8] },
    /// It brings more bytes than a line may have.
    TooLong,
}

/// Splits a piece at the end of a line of which `seen` came so far. No more is searched than a line may have.
pub fn split_seen<'a>(seen: &[u8], piece: &'a [u8]) -> LineSplit<'a>
    requires { length seen.now ≤ longest_line }
    ensures leads { LineLeads seen.now piece.now result }
    ensures shorter { line_rest_length result ≤ length piece.now }
{
    let room = LONGEST_LINE - seen.len();
    let (near, _) = piece.split_at(piece.len().min(room + 1));
    if let Some((front, _)) = split_line(near) {
        let (_, rest) = piece.split_at(front.len() + 1);
        return LineSplit::Ends { front, rest };
    }
    if near.len() > room {
        LineSplit::TooLong
    } else {
        LineSplit::Open
    }
}
