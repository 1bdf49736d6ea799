//! What a site tells another, and what it is told.
ghost use Rattle.std.specs.Prelude.{IsTrue, ◌↔◌, ◌≡◌, ◌≢◌, ◌≤◌, ◌<◌, ◌+◌, ℕ, List, Option, Some, None, Bool, true, false, IfOk, MatchOption, MatchResult, length as count, length, cond, option_copied};
ghost use Rattle.sha2.specs.Sha256.{sha256};
ghost use Rattle.geo_values.specs.Stock as stocks;
ghost use Rattle.geo_values.specs.Held.{stock_in, count_in};
ghost use Rattle.geo_records.specs.Operations.{version_in, above_both, record_joined, floor_joined};
ghost use Rattle.geo_versions.specs.Maps.{rec_means, listed_at, floor_in, record_in, HasRoomFor, Rising};
ghost use Rattle.geo_site.specs.Entries.{names};
ghost use Rattle.geo_site.specs.Machine.{Same, Settled, settled, stays_by, take, knows_record, knows_floor};
ghost use Rattle.geo_stamp.specs.Acks.{row_of};
ghost use Rattle.geo_stamp.specs.Vectors.{vector_joined};
ghost use Rattle.geo_site.specs.Sites.{state_in, heard_in, held_count, IsOther, IsSent, Rests, Stays, is_sound, knows_all, Takes, RefusesFor, Remains, SendDoes, TakeDoes};
ghost use Rattle.geo_site.specs.Steps.{SendSteps, TakeSteps};

use crate::notes::note_each;
use crate::reap::earliest_in;
use crate::refusal::{SendError, TakeError};
use crate::site::Site;
use geo_delta::{Parcel, cut, stays_in_range};
use geo_lattice::{Items, Lattice};
use geo_stamp::{Stamp, Vector};
use geo_values::Values;
use geo_versions::{Digest, Key, Rec, Version, Versions, are_rising};
use std::alloc::Global;

/// What a take did.
#[derive(Clone, Copy, Debug, PartialEq, Eq)]
pub struct Taken {
    /// Whether the parcel's vector knew more than the site's.
    pub rose: bool,
    /// How many held values the site's versions no longer name, and so were dropped.
    pub dropped: usize,
}

/// A parcel that was not taken, handed back whole.
#[derive(Drop)]
pub struct Refused {
    pub why: TakeError,
    pub parcel: Parcel,
}

/// Whether a vector knows the stamp of a floor.
fn knows_stamp(vector: &Vector, floor: Option<Stamp>) -> bool
    ensures { result ≡ knows_floor vector.now floor }
{
    match floor {
        None => true,
        Some(stamp) => vector.knows(&stamp),
    }
}

/// Whether a vector knows both stamps of a record.
fn knows_both(vector: &Vector, rec: &Rec) -> bool
    ensures { result ≡ knows_record vector.now (rec_means rec.now) }
{
    let body = match rec.left.get() {
        None => true,
        Some((stamp, _)) => vector.knows(stamp),
    };
    let expiry = match rec.right.get() {
        None => true,
        Some((stamp, _)) => vector.knows(stamp),
    };
    body && expiry
}

/// Whether a vector knows all stamps of records.
fn knows_each(vector: &Vector, records: &[(Key, Rec)]) -> bool
    ensures { result ≡ knows_all vector.now records.now }
{
    records.iter().all(|(_, rec)| knows_both(vector, rec))
}

/// Whether a version names bytes with this SHA-256 and length.
fn names_such(version: Option<Version>, digest: &Digest, length: usize) -> bool
    ensures { (bytes : List ℕ) → digest.now ≡ sha256 bytes → length ≡ count bytes → result ≡ names version bytes }
{
    match version {
        None => false,
        Some(version) => version.digest == *digest && version.length as usize == length,
    }
}

/// Drops what the versions no longer name.
pub(crate) fn keep_named(values: &mut Values, versions: &Versions)
    ensures kept { stocks.Same (settled (record_in versions.now) (stock_in values.old)) (stock_in values.new) }
    ensures no_more { count_in values.new ≤ count_in values.old }
{
    values.retain(|key, digest, length| names_such(versions.version_of(key), digest, length));
}

/// Whether the greater of two floors is above the first.
fn rises(mine: Option<Stamp>, theirs: Option<Stamp>) -> bool
    ensures { IsTrue result ↔ (floor_joined mine theirs ≢ mine) }
{
    match (mine, theirs) {
        (_, None) => false,
        (None, Some(_)) => true,
        (Some(mine), Some(theirs)) => mine < theirs,
    }
}

/// Whether the bytes that are held of a key, if any, are those that its version names once a record is joined. Of a key that isn't held
/// no version is looked up.
fn is_current(values: &Values, versions: &Versions, key: &Key, rec: &Rec) -> bool
    ensures { result ≡ stays_by (version_in (above_both (floor_in versions.now) (record_joined (record_in versions.now key.now)
        (rec_means rec.now)))) ((stock_in values.now).held key.now) }
{
    if !values.holds(key) {
        return true;
    }
    match versions.version_with(key, rec) {
        None => false,
        Some(version) => match values.get(key, &version.digest) {
            None => false,
            Some(bytes) => bytes.len() == version.length as usize,
        },
    }
}

/// Drops what records outdate that come by rising key and are about to be joined: only their keys are looked at.
fn drop_outdated(values: &mut Values, versions: &Versions, records: &[(Key, Rec)])
    requires rising { Rising records.now }
    requires settled { Settled (record_in versions.now) (stock_in values.old).held }
    ensures kept { stocks.Same (settled (λ q. above_both (floor_in versions.now) (record_joined (record_in versions.now q)
        (listed_at records.now q))) (stock_in values.old)) (stock_in values.new) }
    ensures no_more { count_in values.new ≤ count_in values.old }
{
    for (key, rec) in records {
        if !is_current(values, versions, key, rec) {
            values.drop_key(key);
        }
    }
}

/// Whether records are fewer than the values that are held, come by rising key and raise no floor: then a look at their keys
/// finds all that they outdate.
fn are_few(held: usize, versions: &Versions, floor: &Option<Stamp>, records: &[(Key, Rec)]) -> bool
    ensures rising { IsTrue result → Rising records.now }
    ensures still { IsTrue result → floor_joined (floor_in versions.now) floor.now ≡ floor_in versions.now }
{
    let raised = rises(versions.floor(), *floor);
    !raised && records.len() < held && are_rising(records)
}

/// Joins records to the versions, and drops what these no longer name: of few records only their keys are looked at, unless the
/// floor rises.
fn join_both(
    values: &mut Values,
    versions: &mut Versions,
    floor: Option<Stamp>,
    records: Items<(Key, Rec)>,
)
    requires room { HasRoomFor versions.old records }
    requires settled { Settled (record_in versions.old) (stock_in values.old).held }
    ensures floor { floor_in versions.new ≡ floor_joined (floor_in versions.old) floor }
    ensures records { (q : List ℕ) → record_in versions.new q
        ≡ above_both (floor_in versions.new) (record_joined (record_in versions.old q) (listed_at records q)) }
    ensures kept { stocks.Same (settled (record_in versions.new) (stock_in values.old)) (stock_in values.new) }
    ensures no_more { count_in values.new ≤ count_in values.old }
{
    let few = are_few(values.len(), versions, &floor, records.as_slice());
    if few {
        drop_outdated(values, versions, records.as_slice());
    }
    versions.join_records(floor, records.into_vec());
    if !few {
        keep_named(values, versions);
    }
}

impl Site {
    /// Makes a parcel for another site: what it knows of all keys and has not heard that the other knows. NoSuchSite exactly for
    /// its own number and for one that is not configured, Retired then for one that it holds for gone.
    pub fn send(&self, alloc: Global, to: u8) -> Result<Parcel, SendError>
        ensures does { SendDoes self.now to result }
        ensures step { SendSteps self.now to result }
    {
        self.parcel_for(alloc, to)
    }

    /// The same, with what a frame wants of the parcel.
    fn parcel_for(&self, alloc: Global, to: u8) -> Result<Parcel, SendError>
        ensures { SendDoes self.now to result }
    {
        let sites = self.vector.sites();
        if to == 0 || to as usize > sites || to == self.number {
            return Err(SendError::NoSuchSite);
        }
        if self.heard.retired().has(to) {
            return Err(SendError::Retired);
        }
        let base = self.heard.row(to);
        if base.covers(&self.vector) {
            return Ok(self.nothing_new(alloc, to, base));
        }
        match cut(
            alloc,
            &self.versions,
            &self.changes,
            self.number,
            to,
            base,
            &self.vector,
            self.heard.retired(),
        ) {
            Ok(parcel) => {
                stays_in_range(&parcel);
                Ok(parcel)
            }
            Err(_) => Err(SendError::Memory),
        }
    }

    /// A parcel for a site that was heard to know all that is known here. No record is looked at.
    fn nothing_new(&self, alloc: Global, to: u8, base: &Vector) -> Parcel
        requires other { IsOther self.now to }
        requires row { base.now ≡ row_of (heard_in self.now).rows to }
        requires known { vector_joined base.now self.now.vector ≡ base.now }
        ensures { IsSent self.now to result }
    {
        let parcel = Parcel {
            from: self.number,
            to,
            base: base.copied(),
            upto: self.vector.copied(),
            retired: *self.heard.retired(),
            floor: self.versions.floor(),
            records: Items::of(Vec::new(alloc)),
        };
        stays_in_range(&parcel);
        parcel
    }

    /// Whether a parcel is one that another site of as many can have made.
    fn is_sound_parcel(&self, parcel: &Parcel) -> bool
        ensures { result ≡ is_sound (length (state_in self.now).vector) self.now.number parcel.now }
    {
        let sites = self.vector.sites();
        parcel.from >= 1
            && parcel.from as usize <= sites
            && parcel.from != self.number
            && parcel.base.sites() == sites
            && parcel.upto.sites() == sites
            && parcel.retired.fits(sites)
            && knows_stamp(&parcel.upto, parcel.floor)
            && knows_each(&parcel.upto, parcel.records.as_slice())
    }

    /// Why a parcel can't be taken, where memory is no matter.
    fn refusal(&self, parcel: &Parcel) -> Option<TakeError>
        ensures { MatchOption result (Takes self.now parcel.now) (RefusesFor self.now parcel.now) }
    {
        if parcel.to != self.number {
            return Some(TakeError::NotForMe);
        }
        if !self.is_sound_parcel(parcel) {
            return Some(TakeError::UnknownSite);
        }
        if self.heard.retired().has(parcel.from) {
            return Some(TakeError::Retired);
        }
        if !self.vector.covers(&parcel.base) {
            return Some(TakeError::Gap);
        }
        None
    }

    /// Joins what a parcel brings, for which there is room: first the versions, then the clocks, and what is held last, so that
    /// bytes stay where a newer record names them too.
    fn join(&mut self, upto: Vector, floor: Option<Stamp>, records: Items<(Key, Rec)>) -> Taken
        requires room { HasRoomFor self.old.versions records }
        requires many { length upto ≡ length self.old.vector }
        requires floor_known { knows_floor upto floor ≡ true }
        requires records_known { knows_all upto records ≡ true }
        ensures joined { Same (take self.old.number (record { upto = upto; floor = floor; map = listed_at records })
            (state_in self.old)) (state_in self.new) }
        ensures rose { IsTrue result.rose ↔ (vector_joined self.old.vector upto ≢ self.old.vector) }
        ensures dropped { held_count self.new + result.dropped ≡ held_count self.old }
        ensures rests { Rests self.old self.new }
        ensures stays { Stays self.old self.new }
    {
        let rose = !self.vector.covers(&upto);
        self.earliest = earliest_in(self.earliest, records.as_slice());
        self.vector.join(upto);
        let top = self.vector.greatest();
        self.vector.raise(self.number, top);
        note_each(&mut self.changes, records.as_slice(), &self.vector);
        let before = self.values.len();
        join_both(&mut self.values, &mut self.versions, floor, records);
        let dropped = before - self.values.len();
        Taken { rose, dropped }
    }

    /// Of records that come, those that change something here: most come again from each site that passes them on.
    fn news(&self, records: Items<(Key, Rec)>) -> Items<(Key, Rec)>
        ensures fewer { HasRoomFor self.now.versions records → HasRoomFor self.now.versions result }
        ensures known { (v : List ℕ) → knows_all v records ≡ true → knows_all v result ≡ true }
        ensures same { (q : List ℕ) → record_joined (record_in self.now.versions q) (listed_at result q)
            ≡ record_joined (record_in self.now.versions q) (listed_at records q) }
    {
        let mut all = records.into_vec();
        self.versions.leave_news(&mut all);
        Items::of(all)
    }

    /// Joins what a parcel tells. A refusal hands the parcel back whole and changes nothing. Memory is wanted only where the parcel brings
    /// a record of a key that has none.
    pub fn take(&mut self, alloc: Global, parcel: Parcel) -> Result<Taken, Refused>
        ensures does { TakeDoes self.old self.new parcel result }
        ensures rests { Rests self.old self.new }
        ensures remains { Remains self.old self.new }
        ensures step { TakeSteps self.old self.new parcel result }
    {
        // The step tells of what is held before and after, which is counted as it comes and goes.
        let _before = self.items();
        let result = self.take_in(alloc, parcel);
        let _after = self.items();
        result
    }

    /// The same, by what becomes of the order in which bytes go, too.
    fn take_in(&mut self, alloc: Global, parcel: Parcel) -> Result<Taken, Refused>
        ensures does { TakeDoes self.old self.new parcel result }
        ensures rests { Rests self.old self.new }
        ensures remains { Remains self.old self.new }
    {
        if let Some(why) = self.refusal(&parcel) {
            return Err(Refused { why, parcel });
        }
        match self
            .versions
            .ready_records(alloc, parcel.records.as_slice())
        {
            Ok(()) => {}
            Err(_) => {
                let why = TakeError::Memory;
                return Err(Refused { why, parcel });
            }
        }
        let Parcel {
            from,
            to: _,
            base: _,
            upto,
            retired,
            floor,
            records,
        } = parcel;
        // What is old by the horizon that stood before this parcel was heard was known before it.
        let records = self.sifted(records);
        let records = self.news(records);
        self.heard.look(self.number, &self.vector);
        self.heard.heard(from, &upto, &retired);
        let taken = self.join(upto, floor, records);
        self.heard.look(self.number, &self.vector);
        Ok(taken)
    }
}
