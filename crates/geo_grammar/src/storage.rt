//! Storage lines.
ghost use Rattle.std.specs.Prelude.{◌≡◌, ◌<◌, length, IfOk};
ghost use Rattle.std.specs.List.{list_all};
ghost use Rattle.geo_records.specs.Keys.{is_key_byte};
ghost use Rattle.geo_grammar.specs.Words.{words_of};
ghost use Rattle.geo_grammar.specs.Commands.{ending_of, storage_head, storage_line};

use crate::fault::LineFault;
use crate::head::Head;
use crate::keys::key_of;
use crate::limits::{MOST_BYTES, MOST_FLAGS};
use crate::line::Line;
use crate::words::{Word, first_word, next_word, noreply as read_noreply, signed as read_signed};
use geo_requests::{LONGEST_VALUE, MOST_NUMBER, Verb, number};
use std::alloc::{AllocError, Global};

/// What stands behind the size of the data.
#[derive(Clone, Copy)]
pub struct Ending {
    pub unique: Option<u64>,
    pub noreply: bool,
}

/// What the words behind the size of the data say, None where they are not as they have to be.
fn read_ending(verb: Verb, line: &[u8]) -> Option<Ending>
    ensures { result ≡ ending_of verb (words_of line.now) }
{
    match verb {
        Verb::Set | Verb::Add | Verb::Replace | Verb::Append | Verb::Prepend => {
            let noreply = read_noreply(line)?;
            Some(Ending {
                unique: None,
                noreply,
            })
        }
        Verb::Cas => {
            let (unique, rest) = next_word(line)?;
            let unique = number(unique, MOST_NUMBER)?;
            let noreply = read_noreply(rest)?;
            Some(Ending {
                unique: Some(unique),
                noreply,
            })
        }
    }
}

/// What a storage line announces, None where its key or a number is none.
fn storage_head(
    alloc: Global,
    verb: Verb,
    key: Word<'_>,
    flags: &[u8],
    exptime: &[u8],
    size: &[u8],
    rest: &[u8],
) -> Result<Option<Head>, AllocError>
    requires plain { key.plain ≡ list_all is_key_byte key.bytes.now }
    requires some { 0 < length key.bytes.now }
    ensures { IfOk result (λ h. h ≡ storage_head verb key.entry.bytes.now flags.now exptime.now size.now (words_of rest.now)) }
{
    let Some(key) = key_of(alloc, key)? else {
        return Ok(None);
    };
    let Some(flags) = number(flags, MOST_FLAGS) else {
        return Ok(None);
    };
    let Some(exptime) = read_signed(exptime) else {
        return Ok(None);
    };
    let Some(size) = number(size, MOST_BYTES) else {
        return Ok(None);
    };
    let Some(Ending { unique, noreply }) = read_ending(verb, rest) else {
        return Ok(None);
    };
    Ok(Some(Head {
        verb,
        key,
        flags: flags as u32,
        exptime,
        unique,
        size: size as usize,
        noreply,
    }))
}

/// What a storage line says, by the words behind its name.
pub fn storage_line(alloc: Global, verb: Verb, line: &[u8]) -> Result<Line, AllocError>
    ensures { IfOk result (λ l. l ≡ storage_line verb (words_of line.now)) }
{
    let bad = Line::Bad(LineFault::BadLine);
    let Some(key) = first_word(line) else {
        return Ok(bad);
    };
    let Some((flags, rest)) = next_word(key.rest) else {
        return Ok(bad);
    };
    let Some((exptime, rest)) = next_word(rest) else {
        return Ok(bad);
    };
    let Some((size, rest)) = next_word(rest) else {
        return Ok(bad);
    };
    match storage_head(alloc, verb, key, flags, exptime, size, rest)? {
        Some(head) if head.size > LONGEST_VALUE => Ok(Line::Huge(head.size)),
        Some(head) => Ok(Line::Storage(head)),
        None => Ok(bad),
    }
}
