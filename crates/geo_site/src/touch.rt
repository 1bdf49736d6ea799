//! Touches: they give a key another expiry and leave all else as it is.
ghost use Rattle.std.specs.Prelude.{◌≡◌, ◌≤◌, ◌+◌, ℕ, Bool, List, [], ◌∷◌, ◌++◌, nat_le, cond, false, length, IfOk, take, slice_index};
ghost use Rattle.std.specs.List.{All};
ghost use Rattle.geo_stamp.specs.Stamps.{last_time};
ghost use Rattle.geo_memcache.specs.Entries.{is_live};
ghost use Rattle.geo_requests.specs.declared.reply.Found.{Found as FoundOf};
ghost use Rattle.geo_records.specs.Operations.Act.{Touch};
ghost use Rattle.geo_site.specs.Entries.{touches_of, found_after};
ghost use Rattle.geo_site.specs.Passing.{HasPassed};
ghost use Rattle.geo_site.specs.Machine.{clock_of, visible_in};
ghost use Rattle.geo_site.specs.Sites.{state_in, touched_in, HasIssued, Rests, Stays, FetchTouchDoes, TellsPlain, reply_in};
ghost use Rattle.geo_site.specs.Changes.{next_stamp_of, HasRecord, HasBody};

use crate::acted::{Acted, twice_values};
use crate::notes::note;
use crate::passed::Passed;
use crate::places::Places;
use crate::reap::earlier;
use crate::repeats::Findings;
use crate::site::Site;
use geo_memcache::live;
use geo_requests::{Found, Reply, Shared};
use geo_stamp::{LAST_TIME, Stamp};
use geo_versions::Key;
use std::alloc::{AllocError, Global};

impl Site {
    /// Gives a key another expiry. It takes no memory but what notes measures, the want of which fails nothing.
    pub(crate) fn renew(&mut self, stamp: Stamp, key: &Key, expiry: u64)
        requires next { stamp ≡ next_stamp_of self.old }
        requires there { HasRecord self.old key.now }
        ensures issued { HasIssued self.old self.new (Touch key.now expiry ∷ []) }
        ensures bodies { (q : List ℕ) → ((state_in self.new).map q).0 ≡ ((state_in self.old).map q).0 }
        ensures rests { Rests self.old self.new }
        ensures stays { Stays self.old self.new }
    {
        self.versions.touch(key, stamp, expiry);
        self.vector.raise(self.number, stamp.time());
        note(&mut self.changes, key, &self.vector);
        self.earliest = earlier(self.earliest, expiry);
    }

    /// Whether a touch with this expiry finds a key, after those of the keys before it: one that ended it leaves nothing to find.
    /// Only a touch that ends what it finds asks what was passed: it passes the keys that are there.
    fn is_found<'a>(
        &self,
        alloc: Global,
        now: u64,
        expiry: u64,
        passed: &mut Passed<'a>,
        before: &'a [Key],
        key: &'a Key,
    ) -> bool
        requires { is_live expiry now ≡ false → HasPassed (visible_in (state_in self.now) now) passed.old before.now }
        ensures found { (numbers : Bool) → length (found_after now expiry numbers (visible_in (state_in self.now) now) before.now key.now)
            ≡ cond result 1 0 }
        ensures passed { is_live expiry now ≡ false
            → HasPassed (visible_in (state_in self.now) now) passed.new (before.now ++ key.now ∷ []) }
    {
        self.entry(now, key).is_some() && (live(expiry, now) || !passed.pass(alloc, before, key))
    }

    /// How many touches a fetch of these keys makes.
    fn touch_count(&self, alloc: Global, now: u64, expiry: u64, keys: &[Key]) -> usize
        ensures { (numbers : Bool) → result ≡ length (touched_in self.now now expiry keys.now numbers) }
    {
        let mut passed = Passed::none(self.hasher, keys.len());
        let mut count = 0;
        for (index, key) in keys.iter().enumerate() {
            if self.is_found(alloc, now, expiry, &mut passed, &keys[..index], key) {
                count += 1;
            }
        }
        count
    }

    /// What a fetch of these keys shows that touches them, and where it stands.
    fn found_to_touch(
        &self,
        alloc: Global,
        now: u64,
        expiry: u64,
        keys: &[Key],
        numbers: bool,
    ) -> Result<(Vec<Found>, Places), AllocError>
        ensures { IfOk result (λ found. found.0.items ≡ touched_in self.now now expiry keys.now numbers) }
    {
        let mut findings = Findings::none(alloc, self.hasher);
        let mut passed = Passed::none(self.hasher, keys.len());
        for (index, key) in keys.iter().enumerate() {
            if self.is_found(alloc, now, expiry, &mut passed, &keys[..index], key) {
                self.look(alloc, now, key, numbers, &mut findings)?;
            }
        }
        Ok(findings.parts())
    }

    /// Whether stamps are left for so many operations.
    fn has_stamps(&self, count: usize) -> bool
        ensures left { result ≡ nat_le (clock_of (state_in self.now) + count) last_time }
        ensures some { result ≡ false → 1 ≤ count }
    {
        count as u64 <= LAST_TIME - self.vector.greatest()
    }

    /// Whether stamps are left for the touches that a fetch of these keys makes.
    fn can_touch(&self, alloc: Global, now: u64, expiry: u64, keys: &[Key]) -> bool
        ensures left { (numbers : Bool) → result
            ≡ nat_le (clock_of (state_in self.now) + length (touched_in self.now now expiry keys.now numbers)) last_time }
        ensures some { (numbers : Bool) → result ≡ false → 1 ≤ length (touched_in self.now now expiry keys.now numbers) }
    {
        if self.has_stamps(keys.len()) {
            return true;
        }
        self.has_stamps(self.touch_count(alloc, now, expiry, keys))
    }

    /// Touches what was found, one after the other.
    fn renew_all(&mut self, expiry: u64, found: &[Found])
        requires stamps { clock_of (state_in self.old) + length found.now ≤ last_time }
        requires there { All (λ (f : FoundOf). HasBody self.old f.key) found.now }
        ensures issued { HasIssued self.old self.new (touches_of expiry found.now) }
        ensures rests { Rests self.old self.new }
        ensures stays { Stays self.old self.new }
    {
        for entry in found {
            if let Some(stamp) = self.stamp() {
                self.renew(stamp, &entry.key, expiry);
            }
        }
    }

    /// Shows what is found of keys, one after the other, and touches each of it. ClockEnded where a stamp is wanting, then want
    /// of memory; neither touches anything. It counts nothing.
    pub(crate) fn fetch_touch(
        &mut self,
        alloc: Global,
        now: u64,
        expiry: u64,
        keys: &[Key],
        numbers: bool,
        with_copies: bool,
    ) -> Result<Acted, AllocError>
        ensures does { FetchTouchDoes self.old self.new now expiry keys.now numbers (reply_in result) }
        ensures told { IfOk result (TellsPlain with_copies) }
        ensures rests { Rests self.old self.new }
        ensures stays { Stays self.old self.new }
    {
        if !self.can_touch(alloc, now, expiry, keys) {
            return Ok(Acted::plain(Reply::ClockEnded, with_copies));
        }
        let (all, places) = self.found_to_touch(alloc, now, expiry, keys, numbers)?;
        let found = Shared::of(alloc, all)?;
        let copies = twice_values(alloc, with_copies, &found)?;
        self.note_hits(found.as_slice(), &places);
        self.renew_all(expiry, found.as_slice());
        Ok(Acted::values(found, copies))
    }
}
