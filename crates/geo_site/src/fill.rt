//! Bytes that a site's versions name and that it does not hold: which it misses, and what others offer it.
ghost use Rattle.std.specs.Prelude.{◌≡◌, ◌≤◌, ◌&&◌, not, ℕ, List, true, length, slice_get, option_copied, None, IfOk, IfSome, OnOk};
ghost use Rattle.geo_records.specs.Operations.{version_in};
ghost use Rattle.geo_slabs.specs.Chunks.{page_bytes};
ghost use Rattle.geo_values.specs.Held.{stock_in};
ghost use Rattle.geo_values.specs.Stock.{is_full, with_digest};
ghost use Rattle.geo_versions.specs.Maps.{rec_means, keys_in};
ghost use Rattle.geo_site.specs.Entries.{names};
ghost use Rattle.geo_site.specs.Machine.{class_for};
ghost use Rattle.geo_site.specs.Sites.{state_in};
ghost use Rattle.geo_site.specs.Steps.{FillSteps};
ghost use Rattle.geo_site.specs.Fills.{FillDoes, FillShows, IsFirstMissing, AreFirstMissing, Rises, noted_at, is_filled, expiry_shown, lacks_by, is_after, is_sought, precedes, earlier};

use crate::gather::{is_beyond, place};
use crate::site::Site;
use geo_memcache::live;
use geo_values::{Blob, Values};
use geo_versions::{Body, Digest, Key, Length, Rec};
use std::alloc::{AllocError, Global};

/// What came of bytes that were offered, tested in this order.
#[derive(Clone, Copy, Debug, PartialEq, Eq)]
pub enum Filled {
    /// The site has no version of the key, or one with another SHA-256 or length.
    NotNamed,
    /// Bytes of the key are held.
    Held,
    /// The class of the bytes is full: nothing is evicted for them.
    Full,
    /// The bytes are held.
    Done,
}

impl Filled {
    /// Whether the bytes are held by this fill.
    pub fn is_done(&self) -> bool
        ensures { result ≡ is_filled self.now }
    {
        matches!(self, Filled::Done)
    }
}

/// Whether the version that a record shows names these bytes.
fn names_blob(rec: &Rec, blob: &Blob<'_>) -> bool
    ensures told { result ≡ names (version_in (rec_means rec.now)) blob.now }
    ensures short { result ≡ true → length blob.now ≤ 1048576 }
{
    match rec.left.get() {
        Some((_, Body::Value { digest, length, .. })) => {
            *digest == blob.digest() && length.get() as usize == blob.bytes().len()
        }
        None | Some((_, Body::Gone)) => false,
    }
}

/// The expiry that a record shows for its value.
fn expiry_of(rec: &Rec) -> u64
    ensures { result ≡ expiry_shown (rec_means rec.now).1 }
{
    match rec.right.get() {
        None => 0,
        Some((_, expiry)) => *expiry,
    }
}

/// Whether the class of values of this length has room.
fn has_room(values: &Values, length: Length) -> bool
    ensures { result ≡ not (is_full (stock_in values.now) (class_for length)) }
{
    !values.is_full(length.get() as usize)
}

/// Whether bytes of a key with this record are missing at a moment.
fn are_missing(values: &Values, now: u64, key: &Key, rec: &Rec) -> bool
    ensures { result ≡ lacks_by now (version_in (rec_means rec.now)) ((stock_in values.now).held key.now) (stock_in values.now) }
{
    match rec.left.get() {
        Some((_, Body::Value { length, .. })) => {
            live(expiry_of(rec), now) && !values.holds(key) && has_room(values, *length)
        }
        None | Some((_, Body::Gone)) => false,
    }
}

/// Whether a key is greater than one, where one is told, and less than another, where one is told.
fn is_between(after: Option<&Key>, before: Option<&Key>, key: &Key) -> bool
    ensures { result ≡ is_after (option_copied after.entry) key.now && precedes (option_copied before.entry) key.now }
{
    let above = match after {
        None => true,
        Some(other) => other < key,
    };
    let below = match before {
        None => true,
        Some(other) => key < other,
    };
    above && below
}

impl Site {
    /// Whether the version of a key names these bytes.
    fn names_offered(&self, key: &Key, blob: &Blob<'_>) -> bool
        ensures told { result ≡ names (version_in ((state_in self.now).map key.now)) blob.now }
        ensures short { result ≡ true → length blob.now ≤ 1048576 }
    {
        match self.versions.record(key) {
            None => false,
            Some(rec) => names_blob(rec, blob),
        }
    }

    /// Holds bytes of a key that another site offers, where its version names them, and nothing of it is held, and their class has room
    /// for them. No version changes, nothing is evicted, and nothing is counted. Err only where it would be done and a growth was
    /// refused: then nothing has changed.
    pub fn fill(&mut self, alloc: Global, key: &Key, blob: &Blob<'_>) -> Result<Filled, AllocError>
        ensures does { FillDoes self.old self.new key.now blob.now result }
        ensures shows { IfOk result (FillShows self.new key.now blob.now) }
        ensures step { FillSteps self.old self.new key.now blob.now result }
    {
        self.admit(alloc, key, blob)
    }

    /// The same, by what becomes of the order in which bytes go, too.
    fn admit(&mut self, alloc: Global, key: &Key, blob: &Blob<'_>) -> Result<Filled, AllocError>
        ensures does { FillDoes self.old self.new key.now blob.now result }
        ensures shows { IfOk result (FillShows self.new key.now blob.now) }
    {
        if !self.names_offered(key, blob) {
            return Ok(Filled::NotNamed);
        }
        if self.values.holds(key) {
            return Ok(Filled::Held);
        }
        if self.values.admit(alloc, key, blob)? {
            Ok(Filled::Done)
        } else {
            Ok(Filled::Full)
        }
    }

    /// The least key above another, where one is told, with a version that is live at a moment in seconds, of which nothing is held and
    /// whose class has room: None exactly where there is none. It passes over all records, and takes no memory.
    pub fn missing(&self, now: u64, after: Option<&Key>) -> Option<&Key>
        ensures { IsFirstMissing (state_in self.now) now (option_copied after.entry) (option_copied result) }
    {
        let mut first = None;
        for place in 0..self.versions.len() {
            first = self.earlier_missing(now, after, first, place);
        }
        first
    }

    /// The least of the missing keys that were found so far, and the one at a place, if that is one.
    fn earlier_missing<'a>(
        &'a self,
        now: u64,
        after: Option<&Key>,
        first: Option<&'a Key>,
        place: usize,
    ) -> Option<&'a Key>
        ensures { option_copied result ≡ earlier (is_sought (state_in self.now) now (option_copied after.entry)) (option_copied first.entry)
            (slice_get (keys_in self.now.versions) place) }
    {
        match self.versions.entry(place) {
            None => first,
            Some((key, rec)) => {
                if is_between(after, first, key) && are_missing(&self.values, now, key, rec) {
                    Some(key)
                } else {
                    first
                }
            }
        }
    }

    /// Notes the key at a place among the least missing ones that were found so far, if that is one.
    fn note_missing(
        &self,
        alloc: Global,
        now: u64,
        after: Option<&Key>,
        most: usize,
        found: &mut Vec<Key>,
        at: usize,
    ) -> Result<(), AllocError>
        requires few { length found.old.items ≤ most }
        requires rises { Rises None found.old.items }
        ensures { OnOk result (found.new.items ≡ noted_at (is_sought (state_in self.now) now (option_copied after.entry)) most
            found.old.items (slice_get (keys_in self.now.versions) at)) }
    {
        let Some((key, rec)) = self.versions.entry(at) else {
            return Ok(());
        };
        let is_one = is_between(after, None, key) && !is_beyond(found.as_slice(), most, key);
        if !is_one || !are_missing(&self.values, now, key, rec) {
            return Ok(());
        }
        place(alloc, found, most, key)
    }

    /// The keys that [`Site::missing`] would give one after the other, so many at most. It passes over all records, once, and is refused
    /// where memory for copies of keys is.
    pub fn first_missing(
        &self,
        alloc: Global,
        now: u64,
        after: Option<&Key>,
        most: usize,
    ) -> Result<Vec<Key>, AllocError>
        ensures { IfOk result (λ keys. AreFirstMissing (state_in self.now) now (option_copied after.entry) most keys.items) }
    {
        let mut found = Vec::new(alloc);
        for at in 0..self.versions.len() {
            self.note_missing(alloc, now, after, most, &mut found, at)?;
        }
        Ok(found)
    }

    /// The bytes that are held of a key, at most a mebibyte, where they have this SHA-256. No access is counted, and nothing is hashed or
    /// copied.
    pub fn offer(&self, key: &Key, digest: &Digest) -> Option<&[u8]>
        ensures got { option_copied result ≡ with_digest digest.now ((state_in self.now).stock.held key.now) }
        ensures fits { IfSome result (λ bytes. length bytes.now ≤ page_bytes) }
    {
        self.values.get(key, digest)
    }
}
