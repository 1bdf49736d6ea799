//! The keys that changed at a site, further back than its newest changes.
ghost use Rattle.std.specs.Prelude.{◌≡◌, ◌≤◌, ◌+◌, ◌++◌, ◌∷◌, ◌||◌, [], ℕ, Bool, List, length, map, drop, true, false, IsSome, IfSome, IfOk, IfErr, None};
ghost use Rattle.std.specs.List.{All};
ghost use Rattle.circular_buffer.specs.Buffer.{keep_last};
ghost use Rattle.geo_records.specs.Keys.{IsShortKey, same_key};
ghost use Rattle.geo_records.specs.Operations.{Record};
ghost use Rattle.geo_versions.specs.Maps.{Rising, listed_at, rec_means, since};
ghost use Rattle.geo_delta.specs.Changes.{KnowsBut, nothing_pending};
ghost use Rattle.geo_delta.specs.Heads.{IsBehind, keys_under};
ghost use Rattle.geo_delta.specs.Trails.{IsCovered, Passed, Trailed, keys_in, passed_key};

use crate::begin::{Changed, begin_from};
use crate::buffer::{looked_up, sorted};
use crate::headed::Headed;
use crate::lookup::Lookup;
use circular_buffer::HeapCircularBuffer;
use geo_lattice::Lattice;
use geo_stamp::Vector;
use geo_versions::{Key, Rec};
use std::alloc::{AllocError, Global};
use std::marker::Model;

/// After one in so many changes it is noted what is known.
const STRIDE: usize = 64;

/// The keys that changed at a site, of its own writes or in parcels that it took, and what was known after one in 64 of the changes, where
/// there was memory for that. It goes further back than [`crate::Buffer`], in a third of the memory a change: what a vector lacks that
/// covers what was known at such a place is found by the changes behind it. Contracts see the changes that are kept, and how many these
/// may be; which have a note of what was known costs time alone.
#[derive(Drop)]
pub struct Trail {
    ring: HeapCircularBuffer<(Key, Option<Box<Vector>>)>,
    /// How many changes came since it was noted last what was known.
    since: usize,
}

impl Model for Trail {
    ghost use Rattle.geo_delta.specs.Trails.{Path};

    ghost Value = { Path };

    ghost view = { λ t. record { changes = t.ring.items; most = t.ring.capacity } };
}

impl Changed for Trail {
    fn count(&self) -> usize {
        self.ring.len()
    }

    fn bytes_at(&self, place: usize) -> &[u8] {
        match self.ring.get(place) {
            Some(change) => change.0.bytes(),
            None => &[],
        }
    }
}

impl Trail {
    /// No changes, with room for so many. All memory that the keys want is taken here, but for what long keys take.
    pub fn new(alloc: Global, most: usize) -> Result<Trail, AllocError>
        ensures changes { IfOk result (λ trail. trail.changes ≡ []) }
        ensures most { IfOk result (λ trail. trail.most ≡ most) }
    {
        Ok(Trail {
            ring: HeapCircularBuffer::with_capacity(alloc, most)?,
            since: STRIDE,
        })
    }

    /// Notes that a key was changed, and what is known after that. Where the copy of the key found no memory no change is kept, and the
    /// answer is false; the copy of a short key takes none.
    pub fn note(&mut self, key: &Key, after: &Vector) -> bool
        ensures kept { result ≡ true → keys_in self.new ≡ keep_last self.old.most (keys_in self.old ++ key.now ∷ []) }
        ensures lost { result ≡ false → self.new.changes ≡ [] }
        ensures most { self.new.most ≡ self.old.most }
        ensures short { IsShortKey key.now → result ≡ true }
        ensures trailed { (pending : List ℕ → Bool) (map : List ℕ → Record) → KnowsBut nothing_pending after.now map
            → Trailed (λ q. same_key q key.now || pending q) map self.old → Trailed pending map self.new }
    {
        let alloc = *self.ring.allocator();
        match key.copied(alloc) {
            Ok(key) => {
                self.push(alloc, key, after);
                true
            }
            Err(_) => {
                self.lose();
                false
            }
        }
    }

    /// What is known after a change, where that is due and there is memory for it.
    fn known(&mut self, alloc: Global, after: &Vector) -> Option<Box<Vector>>
        ensures known { IfSome result (λ known. known.value ≡ after.now) }
        ensures stays { self.new ≡ self.old }
    {
        self.since = self.since.saturating_add(1);
        if self.since < STRIDE {
            return None;
        }
        self.since = 0;
        Box::new(alloc, after.copied()).ok()
    }

    fn push(&mut self, alloc: Global, key: Key, after: &Vector)
        ensures kept { keys_in self.new ≡ keep_last self.old.most (keys_in self.old ++ key ∷ []) }
        ensures most { self.new.most ≡ self.old.most }
        ensures trailed { (pending : List ℕ → Bool) (map : List ℕ → Record) → KnowsBut nothing_pending after.now map
            → Trailed (λ q. same_key q key || pending q) map self.old → Trailed pending map self.new }
    {
        let known = self.known(alloc, after);
        let _oldest = self.ring.push_back((key, known));
    }

    /// Keeps no change.
    pub fn lose(&mut self)
        ensures changes { self.new.changes ≡ [] }
        ensures most { self.new.most ≡ self.old.most }
    {
        self.ring.clear();
        self.since = STRIDE;
    }

    /// How many changes are kept at most.
    pub fn most(&self) -> usize
        ensures { result ≡ self.now.most }
    {
        self.ring.capacity()
    }

    /// Copies of the records of which the vector does not know some register, by rising key, where it covers what is noted after some
    /// change. It looks up the keys of those changes alone that came after the newest such one.
    pub fn recent<T: Lookup>(
        &self,
        alloc: Global,
        versions: &T,
        base: &Vector,
    ) -> Result<Option<Vec<(Key, Rec)>>, AllocError>
        requires trailed { Trailed nothing_pending (T.record_of versions.now) self.now }
        ensures rising { IfOk result (λ found. IfSome found (λ all. Rising all.items)) }
        ensures records { IfOk result (λ found. IfSome found (λ all. (q : List ℕ)
            → listed_at all.items q ≡ since base.now (T.record_of versions.now q))) }
        ensures filled { IfOk result (λ found. IfSome found (λ all. All (λ e. rec_means e.1 ≡ (None, None) → ⊥) all.items)) }
    {
        match self.first_news(base) {
            None => Ok(None),
            Some(first) => {
                let keys = sorted(self.keys_from(alloc, first)?);
                Ok(Some(looked_up(alloc, versions, base, keys)?))
            }
        }
    }

    /// Whether what was known after the change at a place is noted, and the vector covers it.
    fn is_covered(&self, base: &Vector, place: usize) -> bool
        ensures { result ≡ true → IsCovered base.now (place + 1) self.now.changes }
    {
        let Some(change) = self.ring.get(place) else {
            return false;
        };
        match &change.1 {
            Some(known) => base.covers(known),
            None => false,
        }
    }

    /// The place behind the newest change after which what was known is noted and covered by the vector.
    fn first_news(&self, base: &Vector) -> Option<usize>
        ensures within { IfSome result (λ first. first ≤ length self.now.changes) }
        ensures covered { IfSome result (λ first. IsCovered base.now first self.now.changes) }
    {
        let kept = self.ring.len();
        for passed in 0..kept {
            let first = kept - passed;
            if self.is_covered(base, first - 1) {
                return Some(first);
            }
        }
        None
    }

    /// The keys of the changes from this one on, by reference.
    fn keys_from<'a>(&'a self, alloc: Global, first: usize) -> Result<Vec<Headed<'a>>, AllocError>
        requires { first ≤ length self.now.changes }
        ensures keys { IfOk result (λ keys. keys_under keys.items ≡ map passed_key (drop first self.now.changes)) }
        ensures heads { IfOk result (λ keys. (begin : List ℕ) × All (IsBehind begin) keys.items) }
    {
        let mut keys = Vec::with_capacity(alloc, self.ring.len() - first)?;
        let begin = begin_from(self, first);
        for i in first..self.ring.len() {
            if let Some(change) = self.ring.get(i) {
                keys.push(Headed::new(begin, &change.0))?;
            }
        }
        Ok(keys)
    }
}
