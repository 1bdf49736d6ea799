//! How far the bytes of a line may stand in a key.
ghost use Rattle.std.specs.Prelude.{◌≡◌, ◌+◌, ◌≤◌, ◌==◌, nat_lt, not, length, drop};
ghost use Rattle.std.specs.List.{prefix_len};
ghost use Rattle.std.specs.Simd.Lanes.{chunk};
ghost use Rattle.geo_records.specs.Keys.{is_key_byte};

use std::simd::prelude::*;

/// How many bytes are looked at in one step.
const LANES: usize = 16;

/// How many of 16 bytes come before the first that is a space or a control character below it.
#[inline(always)]
fn run_above_space(bytes: u8x16) -> usize
    requires { length bytes ≡ 16 }
    ensures { result ≡ prefix_len (λ byte. not (nat_lt byte 33)) bytes }
{
    let found = bytes.simd_lt(u8x16::splat(0x21)).to_bitmask();
    if found == 0 {
        LANES
    } else {
        found.trailing_zeros() as usize
    }
}

/// How many of 16 bytes come before the first that is a delete.
#[inline(always)]
fn run_without_delete(bytes: u8x16) -> usize
    requires { length bytes ≡ 16 }
    ensures { result ≡ prefix_len (λ byte. not (byte == 127)) bytes }
{
    let found = bytes.simd_eq(u8x16::splat(0x7f)).to_bitmask();
    if found == 0 {
        LANES
    } else {
        found.trailing_zeros() as usize
    }
}

/// How many of the 16 bytes from `at` on come before the first that no key has.
#[inline(always)]
fn run_of_lanes(text: &[u8], at: usize) -> usize
    requires { at + 16 ≤ length text.now }
    ensures run { result ≡ prefix_len is_key_byte (chunk at 16 text.now) }
    ensures bound { result ≤ 16 }
{
    let bytes = u8x16::from_slice(&text[at..]);
    run_above_space(bytes).min(run_without_delete(bytes))
}

/// How many bytes at the front of a text come before the first that no key has.
pub fn key_run(text: &[u8]) -> usize
    ensures run { result ≡ prefix_len is_key_byte text.now }
    ensures bound { result ≤ length text.now }
{
    let mut at = 0;
    while text.len() - at >= LANES {
        let run = run_of_lanes(text, at);
        at += run;
        if run < LANES {
            return at;
        }
    }
    while at < text.len() && text[at] >= 0x21 && text[at] != 0x7f {
        at += 1;
    }
    at
}
