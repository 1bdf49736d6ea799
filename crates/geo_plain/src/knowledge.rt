//! What one site knows and holds.
ghost use Rattle.std.specs.Prelude.{◌≡◌, ◌≤◌, ◌^◌, ℕ, Bool, List, [], ◌∷◌, ◌++◌, length, IfOk, None, Some, cond};
ghost use Rattle.std.specs.List.{list_any};
ghost use Rattle.std.specs.Option.{option_map};
ghost use Rattle.geo_memcache.specs.Entries.{entry_of};
ghost use Rattle.geo_memcache.specs.Decisions.{decided};
ghost use Rattle.geo_records.specs.Keys.{same_key};
ghost use Rattle.geo_records.specs.Operations.{Operation as Issued, Act as ActOf, latest as latest_of, floor_of, version_of as version_named};
ghost use Rattle.geo_records.specs.Operations.Act.{Touch};
ghost use Rattle.geo_site.specs.Entries.{Held, found_of, found_after, touched_after, touches_of, evicted_on, is_due, flushes_due, is_reapable};
ghost use Rattle.geo_site.specs.Machine.{act_held, without, held_with};
ghost use Rattle.geo_world.specs.Schedule.{still_held};
ghost use Rattle.geo_plain.specs.Plain.{act_of, acts_of, operations_of, stamped, Knows, KeepsCounts, counts_of, held_after, lent, shown};

use crate::meaning::{floor, is_named, latest, version_of};
use crate::operation::{Act, Operation};
use geo_lattice::{Items, Twin};
use geo_memcache::{Ask, Decision, Entry, decide, live};
use geo_requests::ValueBytes;
use geo_stamp::{LAST_TIME, Retired, Stamp};
use geo_versions::{Key, Version};
use std::alloc::{AllocError, Global};

/// What happened to what a site holds.
#[derive(Drop)]
pub enum Change {
    /// It wrote a value, or was offered it.
    Wrote(Key, ValueBytes),
    /// The bytes of a key were evicted.
    Dropped(Key),
    /// It knew these operations, and dropped what their versions do not name.
    Settled(Items<Operation>),
}

/// The operations that a site knows, and what happened to what it holds.
#[derive(Drop)]
pub struct Knowledge {
    pub ops: Vec<Operation>,
    pub changes: Vec<Change>,
    /// How many keys it found.
    pub hits: u64,
    /// How many keys it did not find.
    pub misses: u64,
    /// How many values it evicted.
    pub evictions: u64,
    /// The moment of the flush that waits, in seconds.
    pub waiting: Option<u64>,
    /// How many seconds after its end a write of its own is kept.
    pub reap_after: u32,
    /// The sites that it holds for gone for good.
    pub retired: Retired,
}

/// Whether a key is one of these.
fn is_among(keys: &[Key], key: &Key) -> bool
    ensures { result ≡ list_any (same_key key.now) keys.now }
{
    keys.iter().any(|other| key == other)
}

fn add_copies(to: &mut Vec<Operation>, alloc: Global, ops: &[Operation]) -> Result<(), AllocError>
    ensures { IfOk result (λ _. to.new.items ≡ to.old.items ++ ops.now) }
{
    for op in ops {
        to.push(op.twin(alloc)?)?;
    }
    Ok(())
}

/// A copy of operations.
pub fn copies(alloc: Global, ops: &[Operation]) -> Result<Items<Operation>, AllocError>
    ensures { IfOk result (λ copy. copy ≡ ops.now) }
{
    let mut all = Vec::new(alloc);
    add_copies(&mut all, alloc, ops)?;
    Ok(Items::of(all))
}

impl Knowledge {
    fn settle(&mut self, alloc: Global) -> Result<(), AllocError>
        ensures operations { self.new.ops ≡ self.old.ops }
        ensures rests { KeepsCounts self.old self.new }
        ensures settles { IfOk result (λ _. (ops : List Issued) (held : Held) → Knows self.old ops held
            → Knows self.new ops (still_held ops held)) }
    {
        let known = copies(alloc, self.ops.as_slice())?;
        self.changes.push(Change::Settled(known))?;
        Ok(())
    }

    /// It puts the bytes of its own write into what it holds.
    fn hold(&mut self, alloc: Global, act: &Act) -> Result<(), AllocError>
        ensures operations { self.new.ops ≡ self.old.ops }
        ensures rests { KeepsCounts self.old self.new }
        ensures held { IfOk result (λ _. (ops : List Issued) (held : Held) → Knows self.old ops held
            → Knows self.new ops (act_held (act_of act.now) held)) }
    {
        if let Act::Write(written) = act {
            let key = written.key.twin(alloc)?;
            let bytes = written.bytes.twin(alloc)?;
            self.changes.push(Change::Wrote(key, bytes))?;
        }
        Ok(())
    }

    /// It issues an operation.
    pub fn issue(&mut self, alloc: Global, stamp: Stamp, act: Act) -> Result<(), AllocError>
        ensures rests { KeepsCounts self.old self.new }
        ensures issued { IfOk result (λ _. (ops : List Issued) (held : Held) → Knows self.old ops held → Knows self.new (ops
            ++ stamped stamp (act_of act) ∷ []) (still_held (ops ++ stamped stamp (act_of act) ∷ []) (act_held (act_of act) held))) }
    {
        self.hold(alloc, &act)?;
        self.ops.push(Operation { stamp, act })?;
        self.settle(alloc)?;
        Ok(())
    }

    /// It learns operations.
    pub fn learn(&mut self, alloc: Global, known: &[Operation]) -> Result<(), AllocError>
        ensures rests { KeepsCounts self.old self.new }
        ensures learned { IfOk result (λ _. (ops : List Issued) (held : Held) → Knows self.old ops held → Knows self.new (ops
            ++ operations_of known.now) (still_held (ops ++ operations_of known.now) held)) }
    {
        add_copies(&mut self.ops, alloc, known)?;
        self.settle(alloc)?;
        Ok(())
    }

    /// Bytes that were offered are held of a key.
    pub fn fill(&mut self, alloc: Global, key: &Key, bytes: &ValueBytes) -> Result<(), AllocError>
        ensures held { IfOk result (λ _. (ops : List Issued) (held : Held) → Knows self.old ops held
            → Knows self.new ops (held_with key.now bytes.now held)) }
        ensures rests { KeepsCounts self.old self.new }
    {
        let key = key.twin(alloc)?;
        let bytes = bytes.twin(alloc)?;
        self.changes.push(Change::Wrote(key, bytes))?;
        Ok(())
    }

    /// The bytes of a key are evicted.
    pub fn evict(&mut self, alloc: Global, key: &Key) -> Result<(), AllocError>
        ensures left { IfOk result (λ _. (ops : List Issued) (held : Held) → Knows self.old ops held
            → Knows self.new ops (without (Some key.now) held)) }
        ensures counts { IfOk result (λ _. counts_of self.new ≡ evicted_on (Some key.now) (counts_of self.old)) }
        ensures waiting { self.new.waiting ≡ self.old.waiting }
        ensures reap_after { self.new.reap_after ≡ self.old.reap_after }
        ensures retired { self.new.retired ≡ self.old.retired }
    {
        let key = key.twin(alloc)?;
        self.changes.push(Change::Dropped(key))?;
        self.evictions = self.evictions.saturating_add(1);
        Ok(())
    }
}

/// What is held of a key after the changes, where so much was held before them.
fn held_after_all<'a>(
    key: &Key,
    held: Option<&'a ValueBytes>,
    changes: &'a [Change],
) -> Option<&'a ValueBytes>
    ensures { lent result ≡ held_after key.now (lent held.entry) changes.now }
{
    match changes {
        [] => held,
        [Change::Wrote(own, bytes), rest @ ..] => {
            let held = if key == own { Some(bytes) } else { held };
            held_after_all(key, held, rest)
        }
        [Change::Dropped(own), rest @ ..] => {
            let held = if key == own { None } else { held };
            held_after_all(key, held, rest)
        }
        [Change::Settled(ops), rest @ ..] => {
            let version = version_of(key, ops.as_slice());
            let held = match held {
                Some(bytes) if is_named(version, bytes.as_slice()) => Some(bytes),
                _ => None,
            };
            held_after_all(key, held, rest)
        }
    }
}

impl Knowledge {
    /// The bytes that it holds of a key.
    pub fn held(&self, key: &Key) -> Option<&ValueBytes>
        ensures { lent result ≡ held_after key.now None self.now.changes.items }
    {
        held_after_all(key, None, self.changes.as_slice())
    }

    /// The version of a key that its operations name.
    pub fn version_of(&self, key: &Key) -> Option<Version>
        ensures { result ≡ version_named (operations_of self.now.ops.items) key.now }
    {
        version_of(key, self.ops.as_slice())
    }

    /// Its floor: the greatest stamp of a flush.
    pub fn floor(&self) -> Option<Stamp>
        ensures { result ≡ floor_of (operations_of self.now.ops.items) }
    {
        floor(self.ops.as_slice())
    }

    /// What is visible of a key at a moment: the bytes that are held, and what the version says of them.
    pub fn visible(&self, now: u64, key: &Key) -> Option<Entry<'_>>
        ensures { option_map entry_of result ≡ shown self.now now key.now }
    {
        let bytes = self.held(key)?.as_slice();
        let version = self.version_of(key)?;
        if !live(version.expiry, now) {
            return None;
        }
        Some(Entry {
            bytes,
            flags: version.flags,
            expiry: version.expiry,
            unique: version.stamp.cas(),
        })
    }

    /// What plain memcached decides of a key at a moment of at most 2^40.
    pub fn decision(
        &self,
        alloc: Global,
        now: u64,
        key: &Key,
        ask: &Ask<'_>,
    ) -> Result<Decision, AllocError>
        requires moment { now ≤ 2 ^ 40 }
        ensures { IfOk result (λ d. d ≡ decided (shown self.now now key.now) now ask.now) }
    {
        let entry = self.visible(now, key);
        Ok(decide(alloc, entry.as_ref(), now, ask)?)
    }

    /// Whether a touch with this expiry finds a key, after those of the keys before it: one that ended it leaves nothing to find.
    fn is_touched(&self, now: u64, expiry: u64, before: &[Key], key: &Key) -> bool
        ensures { (numbers : Bool) → touches_of expiry (found_after now expiry numbers (shown self.now now) before.now key.now)
            ≡ cond {A = List ActOf} result (Touch key.now expiry ∷ []) [] }
    {
        self.visible(now, key).is_some() && (live(expiry, now) || !is_among(before, key))
    }

    /// Adds the touches of each key that a fetch with touches finds: one key after the other, each after the touches of those
    /// before it.
    pub fn add_touches(
        &self,
        alloc: Global,
        now: u64,
        expiry: u64,
        before: &mut Vec<Key>,
        keys: &[Key],
        acts: &mut Vec<Act>,
    ) -> Result<(), AllocError>
        ensures { IfOk result (λ _. (numbers : Bool) → acts_of acts.new.items ≡ acts_of acts.old.items
            ++ touches_of expiry (touched_after now expiry numbers (shown self.now now) before.old.items keys.now)) }
    {
        match keys {
            [] => Ok(()),
            [key, rest @ ..] => {
                if self.is_touched(now, expiry, before.as_slice(), key) {
                    let key = key.twin(alloc)?;
                    acts.push(Act::Touch { key, expiry })?;
                }
                before.push(key.twin(alloc)?)?;
                self.add_touches(alloc, now, expiry, before, rest, acts)
            }
        }
    }

    /// Whether the moment of a flush that waits has come.
    fn has_due_flush(&self, now: u64) -> bool
        ensures { result ≡ is_due self.now.waiting now }
    {
        match self.waiting {
            None => false,
            Some(at) => at <= now,
        }
    }

    /// Whether a flush that waits is due and has a stamp.
    pub fn flushes_due(&self, now: u64) -> bool
        ensures { result ≡ flushes_due self.now.waiting (latest_of (operations_of self.now.ops.items)) now }
    {
        self.has_due_flush(now) && latest(self.ops.as_slice()) < LAST_TIME
    }

    /// Whether the version of a key is a write of this site that ended longer ago than it is kept for.
    pub fn is_to_reap(&self, site: u8, now: u64, key: &Key) -> bool
        ensures { result ≡ is_reapable site self.now.reap_after now (version_named (operations_of self.now.ops.items) key.now) }
    {
        match self.version_of(key) {
            None => false,
            Some(version) => {
                version.stamp.site() == site
                    && version.expiry != 0
                    && version.expiry < now
                    && now - version.expiry > self.reap_after as u64
            }
        }
    }

    /// How many of the keys are visible at a moment.
    pub fn found(&self, now: u64, keys: &[Key]) -> usize
        ensures count { (numbers : Bool) → result ≡ length (found_of numbers (shown self.now now) keys.now) }
        ensures few { result ≤ length keys.now }
    {
        match keys {
            [] => 0,
            [key, rest @ ..] => match self.visible(now, key) {
                None => self.found(now, rest),
                Some(_) => 1 + self.found(now, rest),
            },
        }
    }
}
