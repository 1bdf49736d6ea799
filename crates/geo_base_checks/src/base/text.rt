//! Rows of text: the numbers that stand in one, and what is shown, appended to one.
ghost use Rattle.std.specs.Prelude.{◌≡◌};

use geo_lattice::Lattice;
use std::alloc::AllocError;
use std::process::Abort;

/// What is done, and what is shown then.
pub type Row = (&'static str, &'static str);

/// The first three numbers of a text, 0 for each that is missing.
pub fn numbers(text: &str) -> [u64; 3] {
    let mut found = [0u64; 3];
    let mut place = 0usize;
    for byte in text.as_bytes() {
        if !byte.is_ascii_digit() {
            place = place.saturating_add(1);
        } else if let Some(number) = found.get_mut(place) {
            *number = number.wrapping_mul(10).wrapping_add(u64::from(*byte & 15));
        }
    }
    found
}

/// Stops a test where what is shown is not what is wanted.
pub fn check(rt: &impl Abort, shown: &str, want: &str) {
    let is_wanted = shown == want;
    assert!(rt; is_wanted, "{shown} and not {want}");
}

pub fn show_number(out: &mut String, number: u64) -> Result<(), AllocError> {
    write!(out, " {number}")
}

pub fn show_numbers(out: &mut String, numbers: &[u64]) -> Result<(), AllocError> {
    for number in numbers {
        show_number(out, *number)?;
    }
    Ok(())
}

/// Shows whether a value would change anything, and joins it as callers do: there is room once it was made.
pub fn join<L: Lattice>(out: &mut String, mine: &mut L, other: L) -> Result<(), AllocError> {
    let alloc = *out.allocator();
    let is_known = mine.covers(&other);
    mine.ready(alloc, &other)?;
    if !mine.has_room(&other) {
        return out.push_str("no room");
    }
    mine.join(other);
    out.push_str(if is_known { "known" } else { "news" })
}
