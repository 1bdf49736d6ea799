//! Retrieval lines.
ghost use Rattle.std.specs.Prelude.{◌≡◌, ◌∷◌, ◌++◌, [], ◌<◌, ◌≤◌, IfOk, OnOk, IfSome, IfNone, MatchOption, length, true, false};
ghost use Rattle.std.specs.List.{list_all};
ghost use Rattle.geo_records.specs.Keys.{is_key, is_key_byte};
ghost use Rattle.geo_grammar.specs.Words.{words_of};
ghost use Rattle.geo_grammar.specs.Commands.{NoKeys, fetch_line, fetch_touch_line};

use crate::fault::LineFault;
use crate::keys::is_key;
use crate::line::Line;
use crate::words::{first_word, next_word, signed};
use geo_lattice::Items;
use geo_records::Key;
use geo_requests::Request;
use std::alloc::{AllocError, Global};

/// How many words a line has, where all are keys; None where one is none.
fn count_keys(line: &[u8]) -> Option<usize>
    ensures keys { MatchOption result (list_all is_key (words_of line.now) ≡ false)
        (λ n. (list_all is_key (words_of line.now) ≡ true) × (n ≡ length (words_of line.now))) }
    ensures bound { IfSome result (λ n. n ≤ length line.now) }
{
    let mut count = 0;
    let mut rest = line;
    while let Some(word) = first_word(rest) {
        if !is_key(word) {
            return None;
        }
        count += 1;
        rest = word.rest;
    }
    Some(count)
}

/// The keys of a line, one at least: the first, what follows it, and how many there are.
#[derive(Clone, Copy)]
struct KeyWords<'a> {
    first: &'a [u8],
    rest: &'a [u8],
    count: usize,
}

/// The words of a line, where it has one and all are keys.
fn key_words(line: &[u8]) -> Option<KeyWords<'_>>
    ensures none { IfNone result (NoKeys (words_of line.now)) }
    ensures words { IfSome result (λ k. words_of line.now ≡ k.first.now ∷ words_of k.rest.now) }
    ensures keys { IfSome result (λ k. list_all is_key (k.first.now ∷ words_of k.rest.now) ≡ true) }
    ensures count { IfSome result (λ k. k.count ≡ length (words_of line.now)) }
{
    let Some(word) = first_word(line) else {
        return None;
    };
    if !is_key(word) {
        return None;
    }
    match count_keys(word.rest) {
        None => None,
        Some(more) => Some(KeyWords {
            first: word.bytes,
            rest: word.rest,
            count: more + 1,
        }),
    }
}

fn push_key(alloc: Global, keys: &mut Vec<Key>, word: &[u8]) -> Result<(), AllocError>
    requires { is_key word.now ≡ true }
    ensures { OnOk result (keys.new.items ≡ keys.old.items ++ word.now ∷ []) }
{
    let key = Key::of(alloc, word)?;
    keys.push(key)?;
    Ok(())
}

/// The keys of a line.
fn keys_of(alloc: Global, words: KeyWords<'_>) -> Result<Items<Key>, AllocError>
    requires { list_all is_key (words.first.now ∷ words_of words.rest.now) ≡ true }
    ensures { IfOk result (λ keys. keys ≡ words.entry.first.now ∷ words_of words.entry.rest.now) }
{
    let mut keys = Vec::with_capacity(alloc, words.count)?;
    push_key(alloc, &mut keys, words.first)?;
    let mut rest = words.rest;
    while let Some((word, after)) = next_word(rest) {
        push_key(alloc, &mut keys, word)?;
        rest = after;
    }
    Ok(Items::of(keys))
}

/// What a retrieval line says, by the words behind its name. A key that is none costs no copy of those before it.
pub fn fetch_line(alloc: Global, numbers: bool, line: &[u8]) -> Result<Line, AllocError>
    ensures { IfOk result (λ l. l ≡ fetch_line numbers (words_of line.now)) }
{
    let Some(words) = key_words(line) else {
        return Ok(Line::Bad(LineFault::BadLine));
    };
    let keys = keys_of(alloc, words)?;
    Ok(Line::Whole(Request::Fetch { keys, numbers }))
}

/// What a `gat` or `gats` line says, by the words behind its name.
pub fn fetch_touch_line(alloc: Global, numbers: bool, line: &[u8]) -> Result<Line, AllocError>
    ensures { IfOk result (λ l. l ≡ fetch_touch_line numbers (words_of line.now)) }
{
    let Some((exptime, rest)) = next_word(line) else {
        return Ok(Line::Bad(LineFault::BadLine));
    };
    let Some(words) = key_words(rest) else {
        return Ok(Line::Bad(LineFault::BadLine));
    };
    let Some(exptime) = signed(exptime) else {
        return Ok(Line::Bad(LineFault::BadNumber));
    };
    let keys = keys_of(alloc, words)?;
    Ok(Line::Whole(Request::FetchTouch {
        exptime,
        keys,
        numbers,
    }))
}
