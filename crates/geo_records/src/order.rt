//! Bytes compared eight at a time.
ghost use Rattle.std.specs.Prelude.{◌≡◌, ◌==◌, ◌+◌, ◌≤◌, length};
ghost use Rattle.std.specs.Ordering.{nat_cmp};
ghost use Rattle.std.specs.Cmp.Lexicographic.{slice_cmp, pointwise};
ghost use Rattle.std.specs.Simd.Lanes.{chunk};
ghost use Rattle.std.specs.Slice.Scan.{big_endian};

use std::cmp::Ordering;

/// Eight bytes as a number, which compares as they do.
fn word(bytes: &[u8], from: usize) -> u64
    requires { from + 8 ≤ length bytes.now }
    ensures { result ≡ big_endian 0 (chunk from 8 bytes.now) }
{
    u64::from_be_bytes([
        bytes[from],
        bytes[from + 1],
        bytes[from + 2],
        bytes[from + 3],
        bytes[from + 4],
        bytes[from + 5],
        bytes[from + 6],
        bytes[from + 7],
    ])
}

/// The order of bytes: the first that differ decide, and else the lengths do.
fn order(a: &[u8], b: &[u8]) -> Ordering
    ensures { result ≡ slice_cmp nat_cmp a.now b.now }
{
    let both = a.len().min(b.len());
    if both < 8 {
        return a.cmp(&b);
    }
    let last = both - 8;
    let mut from = 0;
    while from < last {
        let (x, y) = (word(a, from), word(b, from));
        if x != y {
            return x.cmp(&y);
        }
        from += 8;
    }
    // The last eight may begin before what was compared, which is the same in both.
    let (x, y) = (word(a, last), word(b, last));
    if x != y {
        return x.cmp(&y);
    }
    a.len().cmp(&b.len())
}

/// Above so many bytes the standard library, which takes 64 at a time, tells sooner whether they are the same.
const LONG: usize = 100;

/// Whether bytes are the same.
pub(crate) fn is_same(a: &[u8], b: &[u8]) -> bool
    ensures { result ≡ pointwise ◌==◌ a.now b.now }
{
    if a.len() < 8 || a.len() > LONG {
        return a == b;
    }
    a.len() == b.len() && order(a, b).is_eq()
}
