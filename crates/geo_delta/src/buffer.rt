//! A site's newest changes.
ghost use Rattle.std.specs.Prelude.{◌≡◌, ◌↔◌, ◌≤◌, ℕ, List, length, map, drop, true, false, cond, None, IsSome, IfSome, IfOk};
ghost use Rattle.std.specs.List.{All, list_any};
ghost use Rattle.std.specs.List.Sorted.{IsStrictlySortedBy};
ghost use Rattle.std.specs.Ordering.{nat_cmp};
ghost use Rattle.std.specs.Cmp.Lexicographic.{slice_cmp};
ghost use Rattle.geo_maps.specs.Maps.{meaning_or};
ghost use Rattle.geo_stamp.specs.Vectors.{vector_joined};
ghost use Rattle.geo_records.specs.Keys.{IsShortKey, same_key};
ghost use Rattle.geo_versions.specs.Maps.{Rising, is_unknown, listed_at, rec_means, since};
ghost use Rattle.geo_records.specs.Operations.{Record, Register};
ghost use Rattle.geo_delta.specs.Changes.{Noted, Traced, KnowsBut, emptied, first_ring, has_change, known_after, noted, nothing_pending};
ghost use Rattle.geo_delta.specs.Heads.{IsBehind, keys_under};

use crate::begin::{Changed, begin_from};
use crate::headed::Headed;
use crate::lookup::Lookup;
use circular_buffer::HeapCircularBuffer;
use geo_lattice::{Exact, Lattice, Lww, Pair};
use geo_stamp::{Stamp, Vector};
use geo_versions::{Key, Rec};
use std::alloc::{AllocError, Global};
use std::marker::Model;

/// The most changes that are kept.
pub const MOST_CHANGES: usize = 4096;

/// The newest changes of a site, its own or taken in a parcel: of each the key, and what the site knew after it. The oldest of
/// more than 4,096 falls out; [`Buffer::reach`] is what was known after it. What a vector lacks that covers the reach is found
/// by the changes alone, without passing over all records.
#[derive(Drop)]
pub struct Buffer {
    ring: HeapCircularBuffer<(Key, Vector)>,
    reach: Vector,
}

impl Model for Buffer {
    ghost use Rattle.std.specs.Prelude.{◌≡◌};
    ghost use Rattle.geo_delta.specs.Changes.{Ring, ring_code, most_changes};

    ghost Value = { Ring };

    ghost coded = { ring_code };

    ghost view = { λ c. record { changes = c.ring.items; reach = c.reach } };

    ghost invariant = { λ c. c.ring.capacity ≡ most_changes };
}

impl Changed for Buffer {
    fn count(&self) -> usize {
        self.ring.len()
    }

    fn bytes_at(&self, place: usize) -> &[u8] {
        match self.ring.get(place) {
            Some(change) => change.0.bytes(),
            None => &[],
        }
    }
}

impl Buffer {
    /// No changes, of this many sites, 0 to 16. All memory that the ring wants is taken here.
    pub fn new(alloc: Global, sites: usize) -> Result<Buffer, AllocError>
        requires { sites ≤ 16 }
        ensures { IfOk result (λ changes. changes ≡ first_ring sites) }
    {
        Ok(Buffer {
            ring: HeapCircularBuffer::with_capacity(alloc, MOST_CHANGES)?,
            reach: Vector::new(sites),
        })
    }

    /// Notes that a key was changed, and what is known after that. Where the copy of the key found no memory no change is kept,
    /// as after [`Buffer::lose`], and the answer is false; the copy of a short key takes none.
    pub fn note(&mut self, key: &Key, after: &Vector) -> bool
        ensures kept { result ≡ true → self.new ≡ noted key.now after.now self.old }
        ensures lost { result ≡ false → self.new ≡ emptied after.now }
        ensures short { IsShortKey key.now → result ≡ true }
    {
        let alloc = *self.ring.allocator();
        match key.copied(alloc) {
            Ok(key) => {
                self.push(key, after.copied());
                true
            }
            Err(_) => {
                self.lose(after);
                false
            }
        }
    }

    fn push(&mut self, key: Key, after: Vector)
        ensures { self.new ≡ noted key after self.old }
    {
        // That the ring is no longer than its capacity is known of what `len` answers.
        let _length = self.ring.len();
        let out = self.ring.push_back((key, after));
        if let Some(oldest) = &out {
            self.reach = oldest.1.copied();
        }
    }

    /// Keeps no change: what is known now is the reach. It takes no memory.
    pub fn lose(&mut self, after: &Vector)
        ensures { self.new ≡ emptied after.now }
    {
        self.ring.clear();
        self.reach = after.copied();
    }

    /// What was known after the newest change that isn't kept, or that nothing was, before the first.
    pub fn reach(&self) -> &Vector
        ensures { result.now ≡ self.now.reach }
    {
        &self.reach
    }

    /// Copies of the records of which the vector does not know some register, by rising key. None exactly where the vector does
    /// not cover the reach, so that older changes count too. It looks up the keys of those changes alone that came after the newest
    /// one that the vector covers.
    pub fn recent<T: Lookup>(
        &self,
        alloc: Global,
        versions: &T,
        base: &Vector,
    ) -> Result<Option<Vec<(Key, Rec)>>, AllocError>
        requires traced { Traced nothing_pending (T.record_of versions.now) self.now }
        ensures reaches { IfOk result (λ found. IsSome found ↔ (vector_joined base.now self.now.reach ≡ base.now)) }
        ensures rising { IfOk result (λ found. IfSome found (λ all. Rising all.items)) }
        ensures records { IfOk result (λ found. IfSome found (λ all. (q : List ℕ)
            → listed_at all.items q ≡ since base.now (T.record_of versions.now q))) }
        ensures filled { IfOk result (λ found. IfSome found (λ all. All (λ e. rec_means e.1 ≡ (None, None) → ⊥) all.items)) }
    {
        match self.first_news(base) {
            None => Ok(None),
            Some(first) => {
                let keys = sorted(self.keys_from(alloc, first)?);
                Ok(Some(looked_up(alloc, versions, base, keys)?))
            }
        }
    }

    /// The place behind the newest change that the vector covers, or 0 where it covers the reach alone.
    fn first_news(&self, base: &Vector) -> Option<usize>
        ensures reaches { IsSome result ↔ (vector_joined base.now self.now.reach ≡ base.now) }
        ensures within { IfSome result (λ first. first ≤ length self.now.changes) }
        ensures covered { IfSome result (λ first. vector_joined base.now (known_after first self.now.reach self.now.changes) ≡ base.now) }
    {
        if !base.covers(&self.reach) {
            return None;
        }
        let kept = self.ring.len();
        for passed in 0..kept {
            let first = kept - passed;
            if let Some(change) = self.ring.get(first - 1) {
                if base.covers(&change.1) {
                    return Some(first);
                }
            }
        }
        Some(0)
    }

    /// The keys of the changes from this one on, by reference: a key may have changed often, and a copy of a long one takes memory.
    fn keys_from<'a>(&'a self, alloc: Global, first: usize) -> Result<Vec<Headed<'a>>, AllocError>
        requires { first ≤ length self.now.changes }
        ensures keys { IfOk result (λ keys. keys_under keys.items ≡ map (λ (c : Noted). c.0) (drop first self.now.changes)) }
        ensures heads { IfOk result (λ keys. (begin : List ℕ) × All (IsBehind begin) keys.items) }
    {
        let mut keys = Vec::with_capacity(alloc, self.ring.len() - first)?;
        let begin = begin_from(self, first);
        for i in first..self.ring.len() {
            if let Some(change) = self.ring.get(i) {
                keys.push(Headed::new(begin, &change.0))?;
            }
        }
        Ok(keys)
    }
}

/// The keys by their order, each once.
pub(crate) fn sorted(mut keys: Vec<Headed>) -> Vec<Headed>
    requires { (begin : List ℕ) × All (IsBehind begin) keys.items }
    ensures rising { IsStrictlySortedBy (slice_cmp nat_cmp) (keys_under result.items) }
    ensures same { (q : List ℕ) → list_any (same_key q) (keys_under result.items) ≡ list_any (same_key q) (keys_under keys.entry.items) }
{
    keys.sort_unstable();
    keys.dedup();
    keys
}

fn is_news<V: Exact + Drop>(base: &Vector, register: &Lww<Stamp, V>) -> bool
    ensures { result ≡ is_unknown base.now register.now.register }
{
    match register.get() {
        None => false,
        Some((stamp, _)) => !base.knows(stamp),
    }
}

/// The record of a key, where the vector does not know all of it.
fn news_of<T: Lookup>(versions: &T, base: &Vector, key: &Key) -> Option<Rec>
    ensures record { meaning_or (None, None) rec_means result ≡ since base.now (T.record_of versions.now key.now) }
    ensures filled { IfSome result (λ r. rec_means r ≡ (None, None) → ⊥) }
{
    match versions.record(key) {
        Some(rec) if is_news(base, &rec.left) || is_news(base, &rec.right) => Some(Pair {
            left: rec.left.copied(),
            right: rec.right.copied(),
        }),
        _ => None,
    }
}

/// The records of these keys of which the vector does not know all, each with a copy of its key. No other key is copied.
pub(crate) fn looked_up<T: Lookup>(
    alloc: Global,
    versions: &T,
    base: &Vector,
    keys: Vec<Headed>,
) -> Result<Vec<(Key, Rec)>, AllocError>
    requires { IsStrictlySortedBy (slice_cmp nat_cmp) (keys_under keys.items) }
    ensures rising { IfOk result (λ all. Rising all.items) }
    ensures records { IfOk result (λ all. (q : List ℕ)
        → listed_at all.items q
        ≡ cond {A = Record} (list_any (same_key q) (keys_under keys.entry.items)) (since base.now (T.record_of versions.now q))
        (None, None)) }
    ensures filled { IfOk result (λ all. All (λ e. rec_means e.1 ≡ (None, None) → ⊥) all.items) }
{
    let mut all = Vec::new(alloc);
    for headed in keys {
        let key = headed.key();
        if let Some(rec) = news_of(versions, base, key) {
            all.push((key.copied(alloc)?, rec))?;
        }
    }
    Ok(all)
}
