//! Keys by reference, with some of their bytes at hand.
ghost use Rattle.std.specs.Prelude.{◌≡◌, ◌==◌, ◌≤◌, length};
ghost use Rattle.std.specs.Ordering.{nat_cmp, on, then_cmp, eq_of_both, as_partial_cmp};
ghost use Rattle.std.specs.Cmp.Lexicographic.{slice_cmp, pointwise};
ghost use Rattle.std.specs.Cmp.{partial_equiv_from_equiv, partial_order_from_own_ties};
ghost use Rattle.std.specs.Cmp.Rules.{comparing};
ghost use Rattle.std.proofs.Common.{rules};
ghost use Rattle.geo_delta.specs.Heads.{AreBytes, IsBehind, head_behind, head_of, padded};

use geo_versions::Key;
use std::cmp::Ordering;

const HEAD_BYTES: usize = 16;

/// A key by reference, and beside it sixteen of its bytes as a number, with zeros behind fewer. The number goes first: most keys that
/// differ do so there, so that a comparison follows no reference.
#[derive(Drop)]
pub(crate) struct Headed<'a> {
    head: u128,
    key: &'a Key,
}

impl<'a> PartialEq for Headed<'a> {
    ghost eq = { eq_of_both (on (λ h. h.head) ◌==◌) (on (λ h. h.key.now) (pointwise ◌==◌)) };

    ghost laws = { partial_equiv_from_equiv (Prim.search (comparing, rules)) };

    fn eq(&self, other: &Headed<'a>) -> bool {
        self.head == other.head && self.key == other.key
    }
}

impl<'a> Eq for Headed<'a> {
    ghost laws = { Prim.search (comparing, rules) };
}

impl<'a> Ord for Headed<'a> {
    ghost cmp = { then_cmp (on (λ h. h.head) nat_cmp) (on (λ h. h.key.now) (slice_cmp nat_cmp)) };

    ghost total = { Prim.search (comparing, rules) };

    ghost matches_partial_cmp = { Prim.search (comparing, rules) };

    ghost matches_eq = { Prim.search (comparing, rules) };

    fn cmp(&self, other: &Headed<'a>) -> Ordering {
        if self.head != other.head {
            return self.head.cmp(&other.head);
        }
        self.key.cmp(other.key)
    }
}

impl<'a> PartialOrd for Headed<'a> {
    ghost partial_cmp = { as_partial_cmp (then_cmp (on (λ h. h.head) nat_cmp) (on (λ h. h.key.now) (slice_cmp nat_cmp))) };

    ghost laws = { partial_order_from_own_ties (Prim.search (comparing, rules)) (Prim.search (comparing, rules)) };

    fn partial_cmp(&self, other: &Headed<'a>) -> Option<Ordering> {
        Some(self.cmp(other))
    }
}

fn first_bytes(bytes: &[u8]) -> [u8; HEAD_BYTES]
    ensures { result ≡ padded 16 bytes.now }
{
    let mut first = [0; HEAD_BYTES];
    let there = bytes.len().min(HEAD_BYTES);
    first[..there].copy_from_slice(&bytes[..there]);
    first
}

fn head(bytes: &[u8]) -> u128
    ensures { result ≡ head_of bytes.now }
{
    u128::from_be_bytes(first_bytes(bytes))
}

/// The head of what follows these first bytes. Bytes that begin otherwise stand below or above all that begin so.
fn head_behind(begin: &[u8], bytes: &[u8]) -> u128
    ensures head { result ≡ head_behind begin.now bytes.now }
    ensures bytes { AreBytes bytes.now }
{
    // Where nothing is left out nothing has to be compared.
    if begin.is_empty() {
        return head(bytes);
    }
    match bytes.strip_prefix(begin) {
        Some(rest) => head(rest),
        None if bytes.cmp(begin).is_lt() => 0,
        None => u128::MAX,
    }
}

/// With how many bytes both begin.
pub(crate) fn shared(one: &[u8], other: &[u8]) -> usize
    ensures { result ≤ length one.now }
{
    // Most often all of it, which is told many bytes at a time.
    if other.starts_with(one) {
        return one.len();
    }
    for (place, byte) in one.iter().enumerate() {
        if other.get(place) != Some(byte) {
            return place;
        }
    }
    one.len()
}

impl<'a> Headed<'a> {
    /// A key whose number is taken behind these first bytes.
    pub(crate) fn new(begin: &[u8], key: &'a Key) -> Headed<'a>
        ensures key { result.key.now ≡ key.now }
        ensures head { IsBehind begin.now result }
    {
        Headed {
            head: head_behind(begin, key.bytes()),
            key,
        }
    }

    /// The key.
    pub(crate) fn key(&self) -> &'a Key
        ensures { result.now ≡ self.now.key.now }
    {
        self.key
    }
}
