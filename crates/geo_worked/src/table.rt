//! Tables of short scripts.
//!
//! A row has the number of the bad line that ends the script, or 0; the script; and what it writes, if anything. Behind a bar
//! stands the next. Script and output are spelled with the escapes of a script, so that a line end is `\n` and a backslash `\\`,
//! and `{N*TEXT}` stands for N times TEXT. Empty lines and those that begin with `#` are no rows.
use crate::owed::{Owed, number};
use crate::play::{Difference, compared};
use geo_cluster::unescape;
use std::alloc::{AllocError, Global};
use std::hash::RandomState;

/// Appends the bytes that a text spells. False where it spells none.
fn push_spelled(alloc: Global, out: &mut Vec<u8>, text: &str) -> Result<bool, AllocError> {
    match unescape(alloc, text.as_bytes())? {
        None => Ok(false),
        Some(bytes) => {
            out.extend_from_slice(bytes.as_slice())?;
            Ok(true)
        }
    }
}

/// Appends what stands for itself so often.
fn push_repeated(alloc: Global, out: &mut Vec<u8>, group: &str) -> Result<bool, AllocError> {
    let Some((count, text)) = group.split_once('*') else {
        return Ok(false);
    };
    let Some(count) = number(count.as_bytes()) else {
        return Ok(false);
    };
    let Some(bytes) = unescape(alloc, text.as_bytes())? else {
        return Ok(false);
    };
    for _each in 0..count {
        out.extend_from_slice(bytes.as_slice())?;
    }
    Ok(true)
}

/// The bytes that a field spells, None where it can't be read.
fn spelled(alloc: Global, field: &str) -> Result<Option<Vec<u8>>, AllocError> {
    let mut out = Vec::new(alloc);
    let mut is_first = true;
    for part in field.split('{') {
        let (group, text) = match part.split_once('}') {
            Some((group, text)) if !is_first => (group, text),
            _ => ("0*", part),
        };
        is_first = false;
        if !push_repeated(alloc, &mut out, group)? || !push_spelled(alloc, &mut out, text)? {
            return Ok(None);
        }
    }
    Ok(Some(out))
}

/// A script, and what it owes.
#[derive(Drop)]
struct Row {
    script: Vec<u8>,
    owed: Owed,
}

fn read_row(alloc: Global, line: &str) -> Result<Option<Row>, AllocError> {
    let mut fields = line.split(" | ");
    let (Some(bad_line), Some(script)) = (fields.next(), fields.next()) else {
        return Ok(None);
    };
    let output = fields.next().unwrap_or("");
    let Some(bad_line) = number(bad_line.as_bytes()) else {
        return Ok(None);
    };
    let (Some(script), Some(output)) = (spelled(alloc, script)?, spelled(alloc, output)?) else {
        return Ok(None);
    };
    let bad_line = if bad_line == 0 { None } else { Some(bad_line) };
    Ok(Some(Row {
        script,
        owed: Owed { output, bad_line },
    }))
}

/// That a line is no row.
fn unreadable(alloc: Global, line: &str) -> Result<Difference, AllocError> {
    Ok(Difference {
        place: String::from_str(alloc, "a line that is no row")?,
        owed: String::from_str(alloc, "N | SCRIPT | OUTPUT")?,
        written: String::from_str(alloc, line)?,
    })
}

/// The same difference, with the row where it is.
fn placed(alloc: Global, line: &str, found: Difference) -> Result<Difference, AllocError> {
    let Difference {
        place,
        owed,
        written,
    } = found;
    let place = format!(in alloc; "{} of {line}", place.as_str())?;
    Ok(Difference {
        place,
        owed,
        written,
    })
}

fn difference_at(
    alloc: Global,
    hasher: RandomState,
    line: &str,
) -> Result<Option<Difference>, AllocError> {
    let Some(Row { script, owed }) = read_row(alloc, line)? else {
        return Ok(Some(unreadable(alloc, line)?));
    };
    match compared(alloc, hasher, script.as_slice(), &owed)? {
        None => Ok(None),
        Some(found) => Ok(Some(placed(alloc, line, found)?)),
    }
}

/// Where a row of a table first writes or ends otherwise than it owes.
pub fn first_difference(
    alloc: Global,
    hasher: &RandomState,
    table: &[u8],
) -> Result<Option<Difference>, AllocError> {
    let Ok(text) = str::from_utf8(table) else {
        return Ok(Some(unreadable(alloc, "bytes that are no text")?));
    };
    for line in text.lines() {
        if line.is_empty() || line.starts_with('#') {
            continue;
        }
        let found = difference_at(alloc, hasher.clone()?, line)?;
        if found.is_some() {
            return Ok(found);
        }
    }
    Ok(None)
}
