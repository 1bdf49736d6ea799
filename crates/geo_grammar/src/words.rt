//! The words of a line, and the numbers that they write.
ghost use Rattle.std.specs.Prelude.{◌≡◌, ◌≢◌, ℕ, ◌∷◌, [], ◌<◌, ◌≤◌, length, slice_index, MatchOption, IfSome};
ghost use Rattle.std.specs.List.{list_all, prefix_len};
ghost use Rattle.geo_records.specs.Keys.{is_key_byte};
ghost use Rattle.geo_grammar.specs.Words.{words_of, signed_of, line_text};
ghost use Rattle.geo_grammar.specs.Commands.{noreply_of};

use crate::runs::key_run;
use geo_requests::number;

/// The first word of a line, and what follows it.
#[derive(Clone, Copy)]
pub struct Word<'a> {
    pub bytes: &'a [u8],
    pub rest: &'a [u8],
    /// Whether each of its bytes may stand in a key.
    pub plain: bool,
}

/// A line without the spaces at its front.
#[inline(always)]
fn without_spaces(line: &[u8]) -> &[u8]
    ensures words { words_of result.now ≡ words_of line.now }
    ensures bound { length result.now ≤ length line.now }
    ensures begins { 0 < length result.now → slice_index result.now 0 ≢ 32 }
{
    let mut start = 0;
    while start < line.len() && line[start] == b' ' {
        start += 1;
    }
    let (_, rest) = line.split_at(start);
    rest
}

/// The first word of a line that begins with it, of whose front so many bytes may stand in a key, and the next may not.
fn odd_word(line: &[u8], run: usize) -> Word<'_>
    requires run { run ≡ prefix_len is_key_byte line.now }
    requires odd { (run < length line.now) × (slice_index line.now run ≢ 32) }
    ensures words { words_of line.now ≡ result.bytes.now ∷ words_of result.rest.now }
    ensures shorter { length result.rest.now < length line.now }
    ensures plain { result.plain ≡ list_all is_key_byte result.bytes.now }
    ensures some { 0 < length result.bytes.now }
{
    let mut end = run + 1;
    while end < line.len() && line[end] != b' ' {
        end += 1;
    }
    let (bytes, rest) = line.split_at(end);
    Word {
        bytes,
        rest,
        plain: false,
    }
}

/// The first word of a line; None where there is none. Words stand between spaces.
#[inline]
pub fn first_word(line: &[u8]) -> Option<Word<'_>>
    ensures words { MatchOption result (words_of line.now ≡ []) (λ w. words_of line.now ≡ w.bytes.now ∷ words_of w.rest.now) }
    ensures shorter { IfSome result (λ w. length w.rest.now < length line.now) }
    ensures plain { IfSome result (λ w. w.plain ≡ list_all is_key_byte w.bytes.now) }
    ensures some { IfSome result (λ w. 0 < length w.bytes.now) }
{
    let line = without_spaces(line);
    if line.is_empty() {
        return None;
    }
    let run = key_run(line);
    if run < line.len() && line[run] != b' ' {
        return Some(odd_word(line, run));
    }
    let (bytes, rest) = line.split_at(run);
    Some(Word {
        bytes,
        rest,
        plain: true,
    })
}

/// The first word of a line, and what follows it; None where there is none. Words stand between spaces.
#[inline]
pub fn next_word(line: &[u8]) -> Option<(&[u8], &[u8])>
    ensures words { MatchOption result (words_of line.now ≡ []) (λ x. words_of line.now ≡ x.0.now ∷ words_of x.1.now) }
    ensures shorter { IfSome result (λ x. length x.1.now < length line.now) }
{
    let Some(Word { bytes, rest, .. }) = first_word(line) else {
        return None;
    };
    Some((bytes, rest))
}

/// The number from -2^63 to 2^63 - 1 that a word of decimal digits writes, which may begin with a minus.
pub fn signed(word: &[u8]) -> Option<i64>
    ensures { result ≡ signed_of word.now }
{
    match word {
        [b'-', digits @ ..] => match number(digits, 9223372036854775808) {
            Some(size) if size < 9223372036854775808 => Some(-(size as i64)),
            Some(_) => Some(i64::MIN),
            None => None,
        },
        _ => number(word, 9223372036854775807).map(|size| size as i64),
    }
}

/// Whether `noreply` stands in its place, where nothing else may stand; None where something does.
pub fn noreply(line: &[u8]) -> Option<bool>
    ensures { result ≡ noreply_of (words_of line.now) }
{
    let Some((word, rest)) = next_word(line) else {
        return Some(false);
    };
    if word == b"noreply".as_slice() && next_word(rest).is_none() {
        Some(true)
    } else {
        None
    }
}

/// A line without one `\r` at its end.
pub fn without_return(line: &[u8]) -> &[u8]
    ensures { result.now ≡ line_text line.now }
{
    match line {
        [front @ .., b'\r'] => front,
        _ => line,
    }
}
