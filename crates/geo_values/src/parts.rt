//! What values are made of. A call may leave these parts for a while without the links that a whole `Values` has.
ghost use Rattle.std.specs.Prelude.{◌≡◌, ◌+◌, ◌<◌, ◌≤◌, ℕ, cond, List, Option, Some, None, IsTrue, IsSome, is_some, IfSome, IfOk, OnOk, OnErr, length, slice_get, slice_index_or, slice_set, swap_remove, option_map};
ghost use Rattle.indexmap.specs.IndexMap.{get, spare};
ghost use Rattle.geo_records.specs.Keys.{same_key};
ghost use Rattle.geo_slabs.specs.Storage.{class_count, chunk_bytes, held_in, with_held};
ghost use Rattle.geo_lru.specs.Lists.{left, places, juggled, leaves_list, victim_of};
ghost use Rattle.geo_values.specs.Stock.{no_items};
ghost use Rattle.geo_values.specs.Steps.{rewritten};

use crate::blob::Blob;
use geo_lattice::Twin;
use geo_lru::Segments;
use geo_slabs::{Chunk, Slabs};
use geo_versions::{Digest, Key};
use indexmap::IndexMap;
use slab::Slab;
use std::alloc::{AllocError, Global};
use std::hash::RandomState;

/// What is kept of a key's bytes: the number that the lists know it by, their SHA-256, their class and chunk.
#[derive(Drop)]
pub struct Item {
    pub(crate) number: usize,
    pub(crate) digest: Digest,
    pub(crate) class: usize,
    pub(crate) chunk: Chunk,
}

/// The parts.
#[derive(Drop)]
pub struct Parts {
    /// The item of each key.
    pub(crate) items: IndexMap<Key, Item, RandomState>,
    /// The key of each number.
    pub(crate) keys: Slab<Key>,
    pub(crate) slabs: Slabs,
    /// The lists of each class.
    pub(crate) classes: Vec<Segments>,
}

/// Frees an item's chunk, and takes its number out of the lists.
fn release(slabs: &mut Slabs, classes: &mut Vec<Segments>, item: Item)
    requires held { IsSome (held_in slabs.old item.chunk) }
    requires class { item.class < length classes.old.items }
    ensures freed { slabs.new ≡ with_held slabs.old item.chunk.class item.chunk.number None }
    ensures left { classes.new.items ≡ slice_set classes.old.items item.class
        (left item.number (slice_index_or classes.old.items item.class no_items)) }
{
    classes[item.class].leave(item.number);
    slabs.free(item.chunk);
}

impl Parts {
    ghost use Rattle.geo_versions.specs.Maps.{Rising};
    ghost use Rattle.geo_slabs.specs.Storage.{IsFull, IsClassOf};
    ghost use Rattle.geo_values.specs.Held.{digest_of, by_key, digest_at};
    ghost use Rattle.geo_values.specs.Stock.{TestAnswers, IsRetained};
    ghost use Rattle.geo_values.specs.Links.{IsLinked, links_in, stock_of};
    ghost use Rattle.geo_values.specs.Steps.{SameLinks, MayAnswer, Hits, RenewsIf, IsNotHot, moved_in, taken_out, CanGo, CanGoIfAny, CanEvictIfAny, HasVictim, Evicts, TakesOut, admitted, with_item, IsPutIn, PutsWithRoom};

    /// Takes a key's item out, and tells whether there was one.
    pub(crate) fn take_out(&mut self, key: &Key) -> bool
        requires classes { length self.old.classes.items ≡ class_count }
        requires goes { CanGoIfAny (links_in self.old) ((links_in self.old).item key.now) }
        ensures was { result ≡ is_some ((links_in self.old).item key.now) }
        ensures counts { length self.new.items.entries + cond result 1 0 ≡ length self.old.items.entries }
        ensures out { TakesOut (links_in self.old) (links_in self.new) key.now ((links_in self.old).item key.now) }
        ensures classes { length self.new.classes.items ≡ class_count }
        ensures room { spare self.old.items ≤ spare self.new.items }
    {
        let Some(item) = self.items.swap_remove(key) else {
            return false;
        };
        let _own = self.keys.remove(item.number);
        release(&mut self.slabs, &mut self.classes, item);
        true
    }

    /// Takes the item at a position out, where the last comes to stand.
    fn take_out_at(&mut self, index: usize)
        requires classes { length self.old.classes.items ≡ class_count }
        requires goes { IfSome (slice_get self.old.items.entries index) (λ e. CanGo (links_in self.old) e.1) }
        ensures out { IfSome (slice_get self.old.items.entries index)
            (λ e. SameLinks (taken_out e.0 e.1 (links_in self.old)) (links_in self.new)) }
        ensures moved { IfSome (slice_get self.old.items.entries index)
            (λ e. self.new.items.entries ≡ swap_remove self.old.items.entries index e) }
        ensures no_more { length self.new.items.entries ≤ length self.old.items.entries }
        ensures classes { length self.new.classes.items ≡ class_count }
    {
        if let Some((_key, item)) = self.items.swap_remove_index(index) {
            let _own = self.keys.remove(item.number);
            release(&mut self.slabs, &mut self.classes, item);
        }
    }

    /// Whether a test passes the item at a position.
    fn passes<F: Fn(&Key, &Digest, usize) -> bool>(&self, keep: &F, index: usize) -> bool
        requires callable { F.IsAlwaysCallable keep.now }
        requires linked { IsLinked (links_in self.now) }
        requires within { index < length self.now.items.entries }
        ensures found { IfSome (slice_get self.now.items.entries index) (λ e. (links_in self.now).item e.0 ≡ Some e.1) }
        ensures told { IfSome (slice_get self.now.items.entries index)
            (λ e. MayAnswer (TestAnswers F.Fn keep.now) (links_in self.now) e.0 result) }
    {
        let Some((key, item)) = self.items.get_index(index) else {
            unreachable!();
        };
        let length = self.slabs.bytes(&item.chunk).len();
        keep(key, &item.digest, length)
    }

    /// The SHA-256 and the length of each item's bytes, by rising key.
    pub(crate) fn held(&self, alloc: Global) -> Result<Vec<(Key, Digest, u32)>, AllocError>
        requires linked { IsLinked (links_in self.now) }
        ensures rising { IfOk result (λ all. Rising (by_key all.items)) }
        ensures held { IfOk result (λ all. (q : List ℕ)
            → digest_at all.items q ≡ option_map digest_of ((stock_of (links_in self.now)).held q)) }
    {
        let mut all = Vec::with_capacity(alloc, self.items.len())?;
        for index in 0..self.items.len() {
            if let Some((key, item)) = self.items.get_index(index) {
                let length = self.slabs.bytes(&item.chunk).len() as u32;
                all.push((key.twin(alloc)?, item.digest, length))?;
            }
        }
        all.sort_by(|one, other| one.0.cmp(&other.0))?;
        Ok(all)
    }

    /// Takes out each item that a test does not pass.
    pub(crate) fn retain<F: Fn(&Key, &Digest, usize) -> bool>(&mut self, keep: F)
        requires callable { F.IsAlwaysCallable keep }
        requires linked { IsLinked (links_in self.old) }
        requires classes { length self.old.classes.items ≡ class_count }
        ensures retained { IsRetained (TestAnswers F.Fn keep) (stock_of (links_in self.old)) (stock_of (links_in self.new)) }
        ensures no_more { length self.new.items.entries ≤ length self.old.items.entries }
        ensures linked { IsLinked (links_in self.new) }
        ensures classes { length self.new.classes.items ≡ class_count }
    {
        // From the last on, so that the one which takes a place has been tested.
        for index in (0..self.items.len()).rev() {
            if !self.passes(&keep, index) {
                self.take_out_at(index);
            }
        }
    }

    /// Notes a hit on a key's item, if there is one.
    pub(crate) fn hit(&mut self, key: &Key)
        requires classes { length self.old.classes.items ≡ class_count }
        requires there { CanGoIfAny (links_in self.old) ((links_in self.old).item key.now) }
        ensures hits { Hits (links_in self.old) (links_in self.new) ((links_in self.old).item key.now) }
        ensures classes { length self.new.classes.items ≡ class_count }
    {
        if let Some(item) = self.items.get(key) {
            self.classes[item.class].hit(item.number);
        }
    }

    /// Notes a hit on a key's item, if there is one. Where the item stands at this place it is not looked for.
    pub(crate) fn hit_at(&mut self, place: usize, key: &Key)
        requires classes { length self.old.classes.items ≡ class_count }
        requires there { CanGoIfAny (links_in self.old) ((links_in self.old).item key.now) }
        ensures hits { Hits (links_in self.old) (links_in self.new) ((links_in self.old).item key.now) }
        ensures classes { length self.new.classes.items ≡ class_count }
    {
        if let Some((there, item)) = self.items.get_index(place) {
            if there == key {
                self.classes[item.class].hit(item.number);
                return;
            }
        }
        self.hit(key);
    }

    /// Makes the move that is due in a class.
    pub(crate) fn juggle(&mut self, class: usize) -> Result<bool, AllocError>
        requires class { class < class_count }
        requires classes { length self.old.classes.items ≡ class_count }
        ensures told { IfOk result (λ moved. moved ≡ is_some (juggled ((links_in self.old).lists class))) }
        ensures moved { OnOk result (SameLinks (moved_in class (links_in self.old)) (links_in self.new)) }
        ensures unchanged { OnErr result (SameLinks (links_in self.old) (links_in self.new)) }
        ensures due { OnErr result (IsSome (juggled ((links_in self.old).lists class))) }
        ensures elsewhere { OnErr result (IsTrue (leaves_list ((links_in self.old).lists class))) }
        ensures classes { length self.new.classes.items ≡ class_count }
    {
        self.classes[class].juggle()
    }

    /// Takes the next victim of a class out, and gives its key.
    pub(crate) fn evict(&mut self, class: usize) -> Option<Key>
        requires class { class < class_count }
        requires classes { length self.old.classes.items ≡ class_count }
        requires goes { CanEvictIfAny (links_in self.old) (victim_of ((links_in self.old).lists class)) }
        ensures evicts { Evicts (links_in self.old) (links_in self.new) class result }
        ensures classes { length self.new.classes.items ≡ class_count }
        ensures room { spare self.old.items ≤ spare self.new.items }
    {
        let number = self.classes[class].victim()?;
        let key = self.keys.remove(number);
        let Some(item) = self.items.swap_remove(&key) else {
            unreachable!();
        };
        release(&mut self.slabs, &mut self.classes, item);
        Some(key)
    }

    /// Gives a key a number in the lists of a class, and makes room for its item. All growths are here.
    pub(crate) fn admit(&mut self, key: Key, class: usize) -> Result<usize, AllocError>
        requires class { class < class_count }
        requires classes { length self.old.classes.items ≡ class_count }
        requires free { (number : ℕ) → (links_in self.old).key number ≡ None → places number ((links_in self.old).lists class) ≡ 0 }
        ensures fresh { IfOk result (λ number. (links_in self.old).key number ≡ None) }
        ensures admitted { IfOk result (λ number. SameLinks (admitted number key class (links_in self.old)) (links_in self.new)) }
        ensures room { OnOk result (0 < spare self.new.items) }
        ensures unchanged { OnErr result (SameLinks (links_in self.old) (links_in self.new)) }
        ensures classes { length self.new.classes.items ≡ class_count }
    {
        self.items.reserve(1)?;
        let number = self.keys.insert(key)?;
        if let Err(refused) = self.classes[class].enter(number) {
            let _own = self.keys.remove(number);
            return Err(refused);
        }
        Ok(number)
    }

    /// Where a key has an item of this class, its bytes become these, and its number comes anew in the lists. Tells whether it has one.
    /// Only an item that is not in HOT asks for memory.
    pub(crate) fn renew(
        &mut self,
        key: &Key,
        class: usize,
        blob: &Blob<'_>,
    ) -> Result<bool, AllocError>
        requires classes { length self.old.classes.items ≡ class_count }
        requires linked { IsLinked (links_in self.old) }
        requires class { IsClassOf (length blob.now) class }
        ensures renews { IfOk result (λ done. RenewsIf done (links_in self.old) (links_in self.new) key.now class blob.now) }
        ensures unchanged { OnErr result (SameLinks (links_in self.old) (links_in self.new)) }
        ensures not_hot { OnErr result (IsNotHot (links_in self.old) key.now class) }
        ensures classes { length self.new.classes.items ≡ class_count }
    {
        let Some(item) = self.items.get_mut(key) else {
            return Ok(false);
        };
        if item.class != class {
            return Ok(false);
        }
        self.classes[item.class].renew(item.number)?;
        self.slabs.replace(&mut item.chunk, blob.bytes());
        item.digest = blob.digest();
        Ok(true)
    }

    /// Puts bytes into a chunk of a class. Where it is full its next victim goes first, whose key is told.
    pub(crate) fn put(&mut self, class: usize, bytes: &[u8]) -> (Chunk, Option<Key>)
        requires class { class < class_count }
        requires classes { length self.old.classes.items ≡ class_count }
        requires fits { length bytes.now ≤ chunk_bytes class }
        requires victim { IsFull self.old.slabs class → HasVictim (links_in self.old) class }
        ensures puts { PutsWithRoom (links_in self.old) (links_in self.new) class bytes.now result.0 result.1 }
        ensures classes { length self.new.classes.items ≡ class_count }
        ensures room { spare self.old.items ≤ spare self.new.items }
    {
        if let Some(chunk) = self.slabs.put(class, bytes) {
            return (chunk, None);
        }
        let evicted = self.evict(class);
        match self.slabs.put(class, bytes) {
            Some(chunk) => (chunk, evicted),
            None => unreachable!(),
        }
    }

    /// Puts bytes into a chunk of a class that is not full.
    pub(crate) fn put_within(&mut self, class: usize, bytes: &[u8]) -> Chunk
        requires class { class < class_count }
        requires classes { length self.old.classes.items ≡ class_count }
        requires fits { length bytes.now ≤ chunk_bytes class }
        requires not_full { IsFull self.old.slabs class → ⊥ }
        ensures put { IsPutIn (links_in self.old) (links_in self.new) class bytes.now result }
        ensures classes { length self.new.classes.items ≡ class_count }
        ensures room { spare self.old.items ≤ spare self.new.items }
    {
        match self.slabs.put(class, bytes) {
            Some(chunk) => chunk,
            None => unreachable!(),
        }
    }

    /// Gives a key its item, for which there is room.
    pub(crate) fn place(&mut self, key: Key, item: Item)
        requires { 0 < spare self.old.items }
        ensures placed { SameLinks (with_item key item (links_in self.old)) (links_in self.new) }
        ensures classes { self.new.classes ≡ self.old.classes }
    {
        let placed = self.items.insert(key, item).is_ok();
        prove!(placed);
    }
}
