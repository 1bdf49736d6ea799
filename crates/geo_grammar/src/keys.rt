//! Words that are keys.
ghost use Rattle.std.specs.Prelude.{◌≡◌, ◌<◌, length, IfOk, MatchOption, false, true};
ghost use Rattle.std.specs.List.{list_all};
ghost use Rattle.geo_records.specs.Keys.{is_key, is_key_byte};

use crate::limits::LONGEST_KEY;
use crate::words::Word;
use geo_records::Key;
use std::alloc::{AllocError, Global};

/// Whether a word is a key, by what was seen of it when its end was looked for.
#[inline]
pub fn is_key(word: Word<'_>) -> bool
    requires plain { word.plain ≡ list_all is_key_byte word.bytes.now }
    requires some { 0 < length word.bytes.now }
    ensures { result ≡ is_key word.entry.bytes.now }
{
    word.plain && word.bytes.len() <= LONGEST_KEY
}

/// The key that a word is, None exactly where it is none.
pub fn key_of(alloc: Global, word: Word<'_>) -> Result<Option<Key>, AllocError>
    requires plain { word.plain ≡ list_all is_key_byte word.bytes.now }
    requires some { 0 < length word.bytes.now }
    ensures { IfOk result (λ key. MatchOption key (is_key word.entry.bytes.now ≡ false)
        (λ k. (is_key word.entry.bytes.now ≡ true) × (k ≡ word.entry.bytes.now))) }
{
    if !is_key(word) {
        return Ok(None);
    }
    Ok(Some(Key::of(alloc, word.bytes)?))
}
