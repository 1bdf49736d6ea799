//! What a script says of its own output.
use std::alloc::{AllocError, Global};

/// What a script is to write, and the bad line that ends it, if one does.
#[derive(Drop)]
pub struct Owed {
    pub output: Vec<u8>,
    pub bad_line: Option<u64>,
}

/// A number in decimal digits.
pub fn number(text: &[u8]) -> Option<u64> {
    let text = str::from_utf8(text).ok()?;
    text.parse::<u64>().ok()
}

/// What the comments of a script say that it owes.
pub fn owed_by(alloc: Global, script: &[u8]) -> Result<Owed, AllocError> {
    let mut owed = Owed {
        output: Vec::new(alloc),
        bad_line: None,
    };
    for line in script.split(|byte| *byte == b'\n') {
        if let Some(text) = line.strip_prefix(b"#> ") {
            owed.output.extend_from_slice(text)?;
            owed.output.push(b'\n')?;
        }
        if let Some(text) = line.strip_prefix(b"#! bad line ") {
            owed.bad_line = number(text);
        }
    }
    Ok(owed)
}
