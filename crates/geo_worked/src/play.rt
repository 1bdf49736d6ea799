//! What a script writes, beside what it owes.
use crate::owed::{Owed, owed_by};
use geo_cluster::{ScriptFault, escape, run_script};
use geo_grammar::Device;
use std::alloc::{AllocError, Global};
use std::hash::RandomState;

/// Where what was written first differs from what was owed, and both there.
#[derive(Drop)]
pub struct Difference {
    pub place: String,
    pub owed: String,
    pub written: String,
}

/// Bytes as a script prints them.
fn shown(alloc: Global, bytes: &[u8]) -> Result<String, AllocError> {
    let text = escape(alloc, bytes)?;
    match str::from_utf8(text.as_slice()) {
        Ok(text) => String::from_str(alloc, text),
        Err(_) => Ok(String::new(alloc)),
    }
}

/// The line of this number, from 1, or nothing where there are fewer.
fn line(text: &[u8], place: usize) -> &[u8] {
    let mut seen = 0;
    for line in text.split(|byte| *byte == b'\n') {
        seen = usize::wrapping_add(seen, 1);
        if seen == place {
            return line;
        }
    }
    b""
}

/// How many lines are equal in both before the first that differs.
fn equal_lines(one: &[u8], other: &[u8]) -> usize {
    let mut equal = 0;
    for (a, b) in one
        .split(|byte| *byte == b'\n')
        .zip(other.split(|byte| *byte == b'\n'))
    {
        if a != b {
            return equal;
        }
        equal = usize::wrapping_add(equal, 1);
    }
    equal
}

/// Where two outputs differ, if they do.
fn of_output(alloc: Global, owed: &[u8], written: &[u8]) -> Result<Option<Difference>, AllocError> {
    if owed == written {
        return Ok(None);
    }
    let place = equal_lines(owed, written).wrapping_add(1);
    Ok(Some(Difference {
        place: format!(in alloc; "line {place} of its output")?,
        owed: shown(alloc, line(owed, place))?,
        written: shown(alloc, line(written, place))?,
    }))
}

fn end(alloc: Global, outcome: Result<(), ScriptFault>) -> Result<String, AllocError> {
    match outcome {
        Ok(()) => String::from_str(alloc, "its end"),
        Err(ScriptFault::BadLine(number)) => format!(in alloc; "bad line {number}"),
        Err(ScriptFault::Memory) => String::from_str(alloc, "no memory"),
        Err(ScriptFault::Read) => String::from_str(alloc, "a failed read"),
        Err(ScriptFault::Write) => String::from_str(alloc, "a failed write"),
    }
}

/// Where what a script writes, and how it ends, first differs from what is owed.
pub fn compared(
    alloc: Global,
    hasher: RandomState,
    script: &[u8],
    owed: &Owed,
) -> Result<Option<Difference>, AllocError> {
    let mut reader = Device::new(script);
    let mut writer = Device::new(Vec::new(alloc));
    let outcome = run_script(alloc, hasher, &mut reader, &mut writer);
    let written = writer.into_inner();
    let due = match owed.bad_line {
        None => Ok(()),
        Some(number) => Err(ScriptFault::BadLine(number)),
    };
    if outcome != due {
        return Ok(Some(Difference {
            place: String::from_str(alloc, "how it ends")?,
            owed: end(alloc, due)?,
            written: end(alloc, outcome)?,
        }));
    }
    of_output(alloc, owed.output.as_slice(), written.as_slice())
}

/// The same, where the script says itself what it owes.
pub fn first_difference(
    alloc: Global,
    hasher: RandomState,
    script: &[u8],
) -> Result<Option<Difference>, AllocError> {
    let owed = owed_by(alloc, script)?;
    compared(alloc, hasher, script, &owed)
}
