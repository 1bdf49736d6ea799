//! Values under keys.
ghost use Rattle.std.specs.Prelude.{◌≡◌, ◌+◌, ◌<◌, ◌≤◌, ℕ, cond, List, Option, Some, None, false, IsTrue, IsSome, is_some, IfSome, IfOk, OnOk, OnErr, length, replicate, option_copied, option_map};
ghost use Rattle.geo_values.specs.Stock.{no_items};
ghost use Rattle.geo_slabs.specs.Storage.{class_count};

use crate::blob::Blob;
use crate::parts::{Item, Parts};
use geo_lattice::Twin;
use geo_lru::Segments;
use geo_slabs::{CLASSES, Slabs, class_of};
use geo_versions::{Digest, Key};
use indexmap::IndexMap;
use slab::Slab;
use std::alloc::{AllocError, Global};
use std::hash::RandomState;
use std::marker::Model;

/// A finite map from keys to bytes with their SHA-256, which holds at most as much as its pages have room for: to store more, it
/// evicts (memcached's doc/new_lru.txt). Each key's bytes are an item of the slab class of their length.
#[derive(Drop)]
pub struct Values {
    pub(crate) parts: Parts,
}

impl Model for Values {
    ghost use Rattle.std.specs.Prelude.{◌≡◌, length};
    ghost use Rattle.geo_slabs.specs.Storage.{class_count};
    ghost use Rattle.geo_values.specs.Links.{Kept, kept_in, links_in, IsLinked};

    ghost Value = { Kept };

    ghost view = { λ v. kept_in v.parts };

    ghost invariant = { λ v. (length v.parts.classes.items ≡ class_count) × IsLinked (links_in v.parts) };
}

/// The empty lists of all classes.
fn empty_classes(alloc: Global) -> Result<Vec<Segments>, AllocError>
    ensures { IfOk result (λ all. all.items ≡ replicate class_count no_items) }
{
    let mut all = Vec::with_capacity(alloc, CLASSES)?;
    for _ in 0..CLASSES {
        all.push(Segments::new(alloc)?)?;
    }
    Ok(all)
}

impl Values {
    ghost use Rattle.std.specs.List.{IsDistinct, list_any};
    ghost use Rattle.std.specs.Option.{unwrap_or};
    ghost use Rattle.geo_records.specs.Keys.{same_key};
    ghost use Rattle.geo_versions.specs.Maps.{Rising};
    ghost use Rattle.geo_lru.specs.Rules.{victim_of, juggled_by, leaves_list};
    ghost use Rattle.geo_slabs.specs.Chunks.{page_bytes};
    ghost use Rattle.geo_values.specs.Stock.{first_stock, Same, IsHeldIn, IsListed, IsNotInHot, IsStored, IsAdmitted, TellsFull, is_full, with_chunk, arrived, IsRetained, TestAnswers, dropped, hit_at, evicted_from, juggled_in, with_digest};
    ghost use Rattle.geo_slabs.specs.Storage.{IsUnused, IsClassOf};
    ghost use Rattle.geo_values.specs.Held.{stock_in, keys_in, count_in, digest_of, by_key, digest_at};

    /// Empty values, which take all pages of slabs that nothing was put into.
    pub fn new(alloc: Global, hasher: RandomState, slabs: Slabs) -> Result<Values, AllocError>
        requires unused { IsUnused slabs }
        ensures { IfOk result (λ values. Same (first_stock (slabs.spare + class_count)) (stock_in values)) }
    {
        let classes = empty_classes(alloc)?;
        let parts = Parts {
            items: IndexMap::with_hasher(alloc, hasher),
            keys: Slab::new(alloc),
            slabs,
            classes,
        };
        Ok(Values { parts })
    }

    /// How many keys are held.
    pub fn len(&self) -> usize
        ensures len { result ≡ count_in self.now }
        ensures apart { IsDistinct same_key (keys_in self.now) }
        ensures held { (q : List ℕ) → list_any (same_key q) (keys_in self.now) ≡ is_some ((stock_in self.now).held q) }
        ensures listed { IsListed (stock_in self.now) }
    {
        self.parts.items.len()
    }

    /// Whether a key is held.
    pub fn holds(&self, key: &Key) -> bool
        ensures { result ≡ is_some ((stock_in self.now).held key.now) }
    {
        self.parts.items.contains_key(key)
    }

    /// A key's bytes, at most a mebibyte, where they have this SHA-256. Nothing is hashed.
    pub fn get(&self, key: &Key, digest: &Digest) -> Option<&[u8]>
        ensures got { option_copied result ≡ with_digest digest.now ((stock_in self.now).held key.now) }
        ensures fits { IfSome result (λ bytes. length bytes.now ≤ page_bytes) }
    {
        let (_, bytes) = self.find(key, digest)?;
        Some(bytes)
    }

    /// A key's bytes as [`Values::get`] gives them, and their place, by which [`Values::hit_at`] need not look for the key.
    pub fn find(&self, key: &Key, digest: &Digest) -> Option<(usize, &[u8])>
        ensures found { option_map (λ f. f.1.now) result ≡ with_digest digest.now ((stock_in self.now).held key.now) }
        ensures fits { IfSome result (λ f. length f.1.now ≤ page_bytes) }
    {
        let (place, _, item) = self.parts.items.get_full(key)?;
        if item.digest != *digest {
            return None;
        }
        Some((place, self.parts.slabs.bytes(&item.chunk)))
    }

    /// The SHA-256 and the length in bytes of what is held of each key, by rising key. Nothing is hashed.
    pub fn held(&self, alloc: Global) -> Result<Vec<(Key, Digest, u32)>, AllocError>
        ensures rising { IfOk result (λ all. Rising (by_key all.items)) }
        ensures held { IfOk result (λ all. (q : List ℕ) → digest_at all.items q ≡ option_map digest_of ((stock_in self.now).held q)) }
    {
        self.parts.held(alloc)
    }

    /// Notes a hit on a key. Where it is not held, nothing changes. What notes that an item of COLD is active may ask for memory, the
    /// want of which fails nothing.
    pub fn hit(&mut self, key: &Key)
        ensures hit { Same (hit_at key.now (stock_in self.old)) (stock_in self.new) }
        ensures absent { (stock_in self.old).held key.now ≡ None → Same (stock_in self.old) (stock_in self.new) }
    {
        self.parts.hit(key)
    }

    /// Notes a hit as [`Values::hit`] does, on a key that [`Values::find`] found at this place. At another place it is looked for.
    pub fn hit_at(&mut self, place: usize, key: &Key)
        ensures hit { Same (hit_at key.now (stock_in self.old)) (stock_in self.new) }
        ensures absent { (stock_in self.old).held key.now ≡ None → Same (stock_in self.old) (stock_in self.new) }
    {
        self.parts.hit_at(place, key)
    }

    /// Drops a key, and tells whether it was held. Where it is not, nothing changes. It takes no memory.
    pub fn drop_key(&mut self, key: &Key) -> bool
        ensures was { result ≡ is_some ((stock_in self.old).held key.now) }
        ensures dropped { Same (dropped key.now (stock_in self.old)) (stock_in self.new) }
        ensures absent { (stock_in self.old).held key.now ≡ None → Same (stock_in self.old) (stock_in self.new) }
        ensures counts { count_in self.new + cond result 1 0 ≡ count_in self.old }
    {
        self.parts.take_out(key)
    }

    /// Drops each key that a test does not pass, and keeps the others where they stand. The test sees a key, the SHA-256 of its bytes
    /// and their length. It takes no memory.
    pub fn retain<F: Fn(&Key, &Digest, usize) -> bool>(&mut self, keep: F)
        requires { F.IsAlwaysCallable keep }
        ensures retained { IsRetained (TestAnswers F.Fn keep) (stock_in self.old) (stock_in self.new) }
        ensures no_more { count_in self.new ≤ count_in self.old }
    {
        self.parts.retain(keep)
    }

    /// Evicts the next victim of a class, and gives its key: None exactly where the class has no item. It takes no memory.
    pub fn evict_tail(&mut self, class: usize) -> Option<Key>
        requires { class < class_count }
        ensures key { result ≡ victim_of ((stock_in self.old).lists class) }
        ensures held { IfSome result (λ key. IsHeldIn (stock_in self.old) key class) }
        ensures evicted { Same (evicted_from class (stock_in self.old)) (stock_in self.new) }
    {
        self.parts.evict(class)
    }

    /// Moves the one item of a class that is due to move, and tells whether there was one. Only a move to another list asks for
    /// memory.
    pub fn juggle(&mut self, class: usize) -> Result<bool, AllocError>
        requires { class < class_count }
        ensures told { IfOk result (λ moved. moved ≡ is_some (juggled_by same_key ((stock_in self.old).lists class))) }
        ensures moved { OnOk result (Same (juggled_in class (stock_in self.old)) (stock_in self.new)) }
        ensures unchanged { OnErr result (Same (stock_in self.old) (stock_in self.new)) }
        ensures due { OnErr result (IsSome (juggled_by same_key ((stock_in self.old).lists class))) }
        ensures elsewhere { OnErr result (IsTrue (leaves_list ((stock_in self.old).lists class))) }
    {
        self.parts.juggle(class)
    }

    /// Stores a key's bytes, at most a mebibyte, and gives the key that was evicted for them, if any. What the key had before is let
    /// go first. Err only where a growth was refused: then nothing has changed. A key that is in HOT of the class of these bytes needs
    /// none; to come to HOT from elsewhere takes memory each time.
    pub fn store(
        &mut self,
        alloc: Global,
        key: &Key,
        blob: &Blob<'_>,
    ) -> Result<Option<Key>, AllocError>
        requires { length blob.now ≤ 1048576 }
        ensures stored { IfOk result (λ evicted. IsStored (stock_in self.old) (stock_in self.new) key.now blob.now evicted) }
        ensures unchanged { OnErr result (Same (stock_in self.old) (stock_in self.new)) }
        ensures not_hot { OnErr result (IsNotInHot (stock_in self.old) key.now (length blob.now)) }
    {
        let class = class_of(blob.bytes().len());
        let renewed = self.parts.renew(key, class, blob)?;
        if renewed {
            return Ok(None);
        }
        self.store_anew(alloc, key, class, blob)
    }

    /// Whether the class of values of so many bytes, at most a mebibyte, is full.
    pub fn is_full(&self, length: usize) -> bool
        requires { length ≤ 1048576 }
        ensures { TellsFull (stock_in self.now) length result }
    {
        self.parts.slabs.is_full(class_of(length))
    }

    /// Adds a key that is not held, with its bytes, at most a mebibyte. False exactly where the class of these bytes is full: then nothing
    /// has changed, for nothing is evicted. Err only where a growth was refused: that too leaves all as it was.
    pub fn admit(&mut self, alloc: Global, key: &Key, blob: &Blob<'_>) -> Result<bool, AllocError>
        requires small { length blob.now ≤ 1048576 }
        requires not_held { (stock_in self.old).held key.now ≡ None }
        ensures admitted { IfOk result (λ done. IsAdmitted (stock_in self.old) (stock_in self.new) key.now blob.now done) }
        ensures unchanged { OnErr result (Same (stock_in self.old) (stock_in self.new)) }
        ensures room { OnErr result (TellsFull (stock_in self.old) (length blob.now) false) }
    {
        let its_class = class_of(blob.bytes().len());
        if self.parts.slabs.is_full(its_class) {
            return Ok(false);
        }
        self.admit_in(alloc, key, its_class, blob)?;
        Ok(true)
    }

    /// Adds a key that is not held, with its bytes, in a chunk of a class that is not full.
    fn admit_in(
        &mut self,
        alloc: Global,
        key: &Key,
        class: usize,
        blob: &Blob<'_>,
    ) -> Result<(), AllocError>
        requires class { IsClassOf (length blob.now) class }
        requires not_held { (stock_in self.old).held key.now ≡ None }
        requires not_full { is_full (stock_in self.old) class ≡ false }
        ensures admitted { OnOk result (Same (arrived key.now blob.now class (with_chunk class (stock_in self.old))) (stock_in self.new)) }
        ensures unchanged { OnErr result (Same (stock_in self.old) (stock_in self.new)) }
    {
        let copy = key.twin(alloc)?;
        let number = self.parts.admit(key.twin(alloc)?, class)?;
        let chunk = self.parts.put_within(class, blob.bytes());
        let admitted = Item {
            number,
            digest: blob.digest(),
            class,
            chunk,
        };
        self.parts.place(copy, admitted);
        Ok(())
    }

    /// Stores a key's bytes in a chunk and under a number of their own.
    fn store_anew(
        &mut self,
        alloc: Global,
        key: &Key,
        class: usize,
        blob: &Blob<'_>,
    ) -> Result<Option<Key>, AllocError>
        requires class { IsClassOf (length blob.now) class }
        ensures stored { IfOk result (λ evicted. IsStored (stock_in self.old) (stock_in self.new) key.now blob.now evicted) }
        ensures unchanged { OnErr result (Same (stock_in self.old) (stock_in self.new)) }
    {
        let own = key.twin(alloc)?;
        let number = self.parts.admit(key.twin(alloc)?, class)?;
        let _was = self.parts.take_out(key);
        let (chunk, evicted) = self.parts.put(class, blob.bytes());
        let item = Item {
            number,
            digest: blob.digest(),
            class,
            chunk,
        };
        self.parts.place(own, item);
        Ok(evicted)
    }
}
