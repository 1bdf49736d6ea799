//! Keys.
ghost use Rattle.std.specs.Prelude.{◌≡◌, ◌==◌, ◌∷◌, [], ℕ, List, IfOk, IsOk, MatchOption, false, true};
ghost use Rattle.std.specs.Ordering.{nat_cmp, as_partial_cmp};
ghost use Rattle.std.specs.Cmp.Lexicographic.{slice_cmp, pointwise};
ghost use Rattle.std.specs.Cmp.{partial_equiv_from_equiv, partial_order_from_own_ties};
ghost use Rattle.std.proofs.lemmas.Cmp.{nat_list_cmp_total};
ghost use Rattle.std.specs.Cmp.Lexicographic.{nat_list_eq_equiv};
ghost use Rattle.std.specs.Cmp.Rules.{comparing, hashing};
ghost use Rattle.std.proofs.Common.{rules};
ghost use Rattle.geo_records.specs.Keys.{IsShortKey, is_key, is_key_byte};
ghost use Rattle.std.specs.List.{list_all};

use crate::order::is_same;
use geo_lattice::Twin;
use smallvec::SmallVec;
use std::alloc::{AllocError, Global};
use std::cmp::Ordering;
use std::hash::{Hash, Hasher};
use std::marker::Model;

/// The most bytes that a key has.
pub const LONGEST_KEY: usize = 250;

// A key up to this length stands where its record stands: to compare it follows no pointer, and a copy takes no memory.
const INLINE_BYTES: usize = 24;

/// A key: 1 to 250 bytes, each 0x21 to 0x7E or 0x80 to 0xFF (memcached's protocol.txt: no control characters, no space).
#[derive(Drop)]
pub struct Key {
    bytes: SmallVec<u8, INLINE_BYTES>,
}

impl Model for Key {
    ghost use Rattle.std.specs.Prelude.{◌≡◌, ℕ, List, true};
    ghost use Rattle.geo_records.specs.Keys.{is_key};

    ghost Value = { List ℕ };

    ghost view = { λ k. k.bytes.items };

    ghost invariant = { λ k. is_key k.bytes.items ≡ true };
}

impl PartialEq for Key {
    ghost eq = { pointwise ◌==◌ };

    ghost laws = { partial_equiv_from_equiv nat_list_eq_equiv };

    fn eq(&self, other: &Key) -> bool {
        is_same(self.bytes.as_slice(), other.bytes.as_slice())
    }
}

impl Eq for Key {
    ghost laws = { nat_list_eq_equiv };
}

impl Ord for Key {
    ghost cmp = { slice_cmp nat_cmp };

    ghost total = { nat_list_cmp_total };

    ghost matches_partial_cmp = { Prim.search (comparing, rules) };

    ghost matches_eq = { Prim.search (comparing, rules) };

    fn cmp(&self, other: &Key) -> Ordering {
        self.bytes.as_slice().cmp(other.bytes.as_slice())
    }
}

impl PartialOrd for Key {
    ghost partial_cmp = { as_partial_cmp (slice_cmp nat_cmp) };

    ghost laws = { partial_order_from_own_ties (Prim.search (comparing, rules)) (Prim.search (comparing, rules)) };

    fn partial_cmp(&self, other: &Key) -> Option<Ordering> {
        Some(self.cmp(other))
    }
}

impl Hash for Key {
    ghost hash_input = { λ s. s ∷ [] };

    ghost respects_eq = { Prim.search (hashing, rules) };

    fn hash<H: Hasher>(&self, state: &mut H) {
        // A slice would feed its bytes one by one.
        state.write(self.bytes.as_slice())
    }
}

impl Twin for Key {
    fn twin(&self, alloc: Global) -> Result<Self, AllocError> {
        self.copied(alloc)
    }
}

fn allows(byte: u8) -> bool
    ensures { result ≡ is_key_byte byte }
{
    byte >= 0x21 && byte != 0x7f
}

fn allows_all(bytes: &[u8]) -> bool
    ensures { result ≡ list_all is_key_byte bytes.now }
{
    bytes.iter().all(|byte| allows(*byte))
}

impl Key {
    /// Whether these bytes are a key.
    pub fn is_valid(bytes: &[u8]) -> bool
        ensures { result ≡ is_key bytes.now }
    {
        !bytes.is_empty() && bytes.len() <= LONGEST_KEY && allows_all(bytes)
    }

    /// The key of these bytes, None exactly where they are none.
    pub fn new(alloc: Global, bytes: &[u8]) -> Result<Option<Self>, AllocError>
        ensures { IfOk result (λ key. MatchOption key (is_key bytes.now ≡ false) (λ k. (is_key bytes.now ≡ true) × (k ≡ bytes.now))) }
    {
        if !Key::is_valid(bytes) {
            return Ok(None);
        }
        Ok(Some(Key {
            bytes: SmallVec::from_slice(alloc, bytes)?,
        }))
    }

    /// The key of bytes that are one, which are not looked at again.
    pub fn of(alloc: Global, bytes: &[u8]) -> Result<Self, AllocError>
        requires { is_key bytes.now ≡ true }
        ensures { IfOk result (λ key. key ≡ bytes.now) }
    {
        Ok(Key {
            bytes: SmallVec::from_slice(alloc, bytes)?,
        })
    }

    /// An equal key. Of a short one it takes no memory.
    pub fn copied(&self, alloc: Global) -> Result<Key, AllocError>
        ensures same { IfOk result (λ other. other ≡ self.now) }
        ensures succeeds { IsShortKey self.now → IsOk result }
    {
        Ok(Key {
            bytes: SmallVec::from_slice(alloc, self.bytes.as_slice())?,
        })
    }

    /// Its bytes.
    pub fn bytes(&self) -> &[u8]
        ensures bytes { result.now ≡ self.now }
        ensures key { is_key result.now ≡ true }
    {
        self.bytes.as_slice()
    }
}
