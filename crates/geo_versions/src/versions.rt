//! The floor, and what is kept of each key.
ghost use Rattle.std.specs.Prelude.{◌≡◌, List, ℕ};
ghost use Rattle.geo_maps.specs.Maps.{IsColumn};
ghost use Rattle.geo_versions.specs.Records.{Rec, record_at, LastsTo, mark_in, lasting_of, rec_means};
ghost use Rattle.geo_records.specs.Normal.{IsNormal};
ghost use Rattle.geo_records.proofs.Normal.{normal_prop};

use crate::floor::{AboveFloor, counts, later};
use crate::removal::{Lasting, Over};
use crate::shown::{EndOf, Ended, Shown, UnknownTo, Whole, copied};
use geo_lattice::{Bottom, Change, Lattice, Lww, Measure, Pair};
use geo_maps::{Column, MapOf};
use geo_records::{Body, Key, Rec, Version, shown_version};
use geo_stamp::{Stamp, Vector};
use std::alloc::{AllocError, Global};
use std::hash::RandomState;

/// What a site knows of its keys: the floor, and of each key the registers above it. A key without a register has no record.
#[derive(Drop)]
pub struct Versions {
    floor: Option<Stamp>,
    records: MapOf<Key, Rec>,
    /// No removal at a horizon below this time drops a record.
    lasting: u64,
    /// The end of each record, and the time up to which no removal drops it, beside the records.
    ends: Column<EndOf, Lasting>,
    ghost column: { IsColumn (λ (r : Rec). mark_in r) records.entries ends.measures.items },
    ghost lasting_column: { IsColumn (λ (r : Rec). lasting_of floor (rec_means r)) records.entries ends.others.items },
    ghost cut: { ends.other.floor ≡ floor },
    ghost lasts: { (q : List ℕ) → LastsTo lasting (record_at records q) },
    ghost above: { IsNormal (floor, record_at records) } by { normal_prop (floor, record_at records) },
}

impl Versions {
    ghost use Rattle.std.specs.Prelude.{◌≡◌, ◌+◌, ◌↔◌, List, ℕ, None, Some, IsSome, IfSome, IsOk, OnOk, OnErr, IfOk, MatchOption, slice_get, option_map, true, false, cond, option_copied, length, Bool};
    ghost use Rattle.std.specs.List.{All, IsDistinct, list_any};
    ghost use Rattle.std.specs.Map.{lookup};
    ghost use Rattle.geo_maps.specs.Maps.{meaning_or};
    ghost use Rattle.geo_records.specs.Keys.{same_key};
    ghost use Rattle.geo_records.specs.Operations.{above_both, record_joined, floor_joined, version_in};
    ghost use Rattle.geo_versions.specs.Maps.{floor_in, record_in, keys_in, count_in, has_register, HasRoomFor, rec_means, listed_at, since, has_ended, remaining, Rising};

    /// Nothing known. It takes no memory.
    pub fn new(alloc: Global, hasher: RandomState) -> Versions
        ensures floor { floor_in result ≡ None }
        ensures records { (q : List ℕ) → record_in result q ≡ (None, None) }
    {
        Versions {
            floor: None,
            records: MapOf::with_hasher(alloc, hasher),
            lasting: u64::MAX,
            ends: Column::new(alloc, EndOf, Lasting { floor: None }),
        }
    }

    /// The greatest stamp of a known flush.
    pub fn floor(&self) -> Option<Stamp>
        ensures { result ≡ floor_in self.now }
    {
        self.floor
    }

    /// What is kept of a key.
    pub fn record(&self, key: &Key) -> Option<&Rec>
        ensures value { meaning_or (None, None) rec_means (option_copied result) ≡ record_in self.now key.now }
        ensures there { IsSome result ↔ (record_in self.now key.now ≡ (None, None) → ⊥) }
    {
        self.records.get(key)
    }

    /// What is kept of a key, and the place before the one where it stands. It is found without a look-up where it stands at the place
    /// that is told.
    pub(crate) fn record_near(&self, place: usize, key: &Key) -> (Option<&Rec>, usize)
        ensures value { meaning_or (None, None) rec_means (option_copied result.0) ≡ record_in self.now key.now }
        ensures there { IsSome result.0 ↔ (record_in self.now key.now ≡ (None, None) → ⊥) }
    {
        self.records.get_near(place, key)
    }

    /// How many keys have a record.
    pub fn len(&self) -> usize
        ensures len { result ≡ count_in self.now }
        ensures apart { IsDistinct same_key (keys_in self.now) }
        ensures kept { (q : List ℕ) → list_any (same_key q) (keys_in self.now) ≡ has_register (record_in self.now q) }
    {
        self.records.len()
    }

    /// A key that has a record, and what is kept of it, for each place from 0 up to `len`. Which key stands where, no clause says.
    pub fn entry(&self, place: usize) -> Option<(&Key, &Rec)>
        ensures key { option_map (λ e. e.0.now) result ≡ slice_get (keys_in self.now) place }
        ensures record { IfSome result (λ e. record_in self.now e.0.now ≡ rec_means e.1.now) }
    {
        self.records.entry(place)
    }

    /// The version of a key: None where the greatest operation on it is no write, or nothing is known of it.
    pub fn version_of(&self, key: &Key) -> Option<Version>
        ensures { result ≡ version_in (record_in self.now key.now) }
    {
        match self.records.get(key) {
            None => None,
            Some(record) => shown_version(record),
        }
    }

    /// The version that a key would have with this record joined to its own.
    pub fn version_with(&self, key: &Key, rec: &Rec) -> Option<Version>
        ensures { result ≡ version_in (above_both (floor_in self.now) (record_joined (record_in self.now key.now) (rec_means rec.now))) }
    {
        let mut joined = match self.records.get(key) {
            None => Pair::bottom(),
            Some(own) => copied(own),
        };
        joined.join(copied(rec));
        AboveFloor { floor: self.floor }.change(&mut joined);
        shown_version(&joined)
    }

    /// A key whose version is a write of this site that ended before a moment, in seconds: its expiry isn't 0, and is below
    /// `before`. None exactly where there is no such key. A site finds so its own writes whose time to live is over, and deletes
    /// them for all sites. It passes over the ends of records, and looks at those that have ended up to the one that it gives. It takes no
    /// memory.
    pub fn ended(&self, site: u8, before: u64) -> Option<&Key>
        ensures { MatchOption result ((q : List ℕ)
            → has_ended site before (version_in (record_in self.now q)) ≡ false)
            (λ key. has_ended site before (version_in (record_in self.now key.now)) ≡ true) }
    {
        let ended = Ended { site, before };
        self.records.found_below(&self.ends, ended.bound(), &ended)
    }

    /// Joins a write or a delete: a delete has the body Gone and the expiry 0. Where a growth was refused, nothing is joined. A key
    /// that has a record needs none.
    pub fn write(
        &mut self,
        alloc: Global,
        key: &Key,
        stamp: Stamp,
        body: Body,
        expiry: u64,
    ) -> Result<(), AllocError>
        ensures ok { OnOk result ((q : List ℕ) → record_in self.new q
            ≡ cond (same_key q key.now)
            (above_both (floor_in self.old) (record_joined (record_in self.old q) (Some (stamp, body), Some (stamp, expiry))))
            (record_in self.old q)) }
        ensures err { OnErr result ((q : List ℕ) → record_in self.new q ≡ record_in self.old q) }
        ensures succeeds { (record_in self.old key.now ≡ (None, None) → ⊥) → IsOk result }
        ensures floor { floor_in self.new ≡ floor_in self.old }
    {
        if !counts(self.floor, stamp) {
            return Ok(());
        }
        let record = Pair {
            left: Lww::of(stamp, body),
            right: Lww::of(stamp, expiry),
        };
        let lasting = Lasting { floor: self.floor }.measure(&record);
        self.records.put_beside(alloc, &mut self.ends, key, record)?;
        self.lasting = self.lasting.min(lasting);
        Ok(())
    }

    /// Joins a touch of a key that has a record. It takes no memory but what notes its measures, the want of which fails nothing.
    pub fn touch(&mut self, key: &Key, stamp: Stamp, expiry: u64)
        requires { record_in self.old key.now ≡ (None, None) → ⊥ }
        ensures records { (q : List ℕ) → record_in self.new q
            ≡ cond (same_key q key.now) (above_both (floor_in self.old) (record_joined (record_in self.old q) (None, Some (stamp, expiry))))
            (record_in self.old q) }
        ensures floor { floor_in self.new ≡ floor_in self.old }
    {
        if counts(self.floor, stamp) {
            let expiry = Lww::of(stamp, expiry);
            let left = Lww::none();
            self.records.join_at_beside(
                &mut self.ends,
                key,
                Pair {
                    left,
                    right: expiry,
                },
            );
        }
    }

    /// Joins a flush: what is not above it is dropped. It takes no memory but what notes measures, the want of which fails nothing.
    pub fn raise_floor(&mut self, stamp: Stamp)
        ensures floor { floor_in self.new ≡ floor_joined (floor_in self.old) (Some stamp) }
        ensures records { (q : List ℕ) → record_in self.new q ≡ above_both (floor_in self.new) (record_in self.old q) }
    {
        let above = AboveFloor {
            floor: later(self.floor, Some(stamp)),
        };
        if self.floor != above.floor {
            self.floor = above.floor;
            self.ends.leave_out(&self.records, u64::MAX, &above);
            self.records.change_all(&above);
            self.lasting = self
                .ends
                .note_all(&self.records, Lasting { floor: self.floor });
        }
    }

    /// Makes room to join these records, of which each key that is not there wants a place. It changes no record, and takes no
    /// memory where there was room.
    pub fn ready_records(
        &mut self,
        _alloc: Global,
        records: &[(Key, Rec)],
    ) -> Result<(), AllocError>
        ensures records { (q : List ℕ) → record_in self.new q ≡ record_in self.old q }
        ensures floor { floor_in self.new ≡ floor_in self.old }
        ensures room { OnOk result (HasRoomFor self.new records.now) }
        ensures succeeds { HasRoomFor self.old records.now → IsOk result }
    {
        self.records.ready_list(records)
    }

    /// Joins a floor and records, for which there is room. It takes no memory but what notes measures, the want of which fails nothing,
    /// and looks at the other records only where the floor rises.
    pub fn join_records(&mut self, floor: Option<Stamp>, records: Vec<(Key, Rec)>)
        requires { HasRoomFor self.old records.items }
        ensures floor { floor_in self.new ≡ floor_joined (floor_in self.old) floor }
        ensures records { (q : List ℕ) → record_in self.new q
            ≡ above_both (floor_in self.new) (record_joined (record_in self.old q) (listed_at records.items q)) }
    {
        let above = AboveFloor {
            floor: later(self.floor, floor),
        };
        let lasting = Lasting { floor: above.floor }.least(self.lasting, records.as_slice());
        self.records
            .join_list_beside(&mut self.ends, records, &above);
        self.lasting = lasting;
        if self.floor != above.floor {
            self.floor = above.floor;
            self.ends.leave_out(&self.records, u64::MAX, &above);
            self.records.change_all(&above);
            self.lasting = self
                .ends
                .note_all(&self.records, Lasting { floor: self.floor });
        }
    }

    /// Drops the records that have no version and no operation with a time above the horizon, up to which every site knows all, and
    /// tells how many it dropped (stable operations: Almeida et al. 2018). Where it knows that there is none, it tells so at once; else it
    /// passes over the times up to which no removal drops a record, and looks at the records with a low one. Where there was no memory
    /// for these, or so many go that the table would lose many places, it passes over all records. It takes no memory but what notes
    /// measures and the order in which records came, the want of which fails nothing.
    pub fn remove_below(&mut self, horizon: u64) -> usize
        ensures records { (q : List ℕ) → record_in self.new q ≡ remaining horizon (record_in self.old q) }
        ensures floor { floor_in self.new ≡ floor_in self.old }
        ensures counts { count_in self.new + result ≡ count_in self.old }
    {
        if horizon < self.lasting {
            return 0;
        }
        let before = self.records.len();
        let over = Over { horizon };
        if self.ends.may_drop(&self.records, horizon) {
            self.lasting = self.records.drop_low(&mut self.ends, horizon, &over);
        } else {
            self.ends.leave_out(&self.records, horizon, &over);
            self.records.change_all(&over);
            self.lasting = self
                .ends
                .note_all(&self.records, Lasting { floor: self.floor });
        }
        before - self.records.len()
    }

    /// Copies of the records of which the vector does not know some register, by rising key (deltas: Almeida, Shoker and
    /// Baquero 2018).
    pub fn since(&self, alloc: Global, base: &Vector) -> Result<Vec<(Key, Rec)>, AllocError>
        ensures rising { IfOk result (λ all. Rising all.items) }
        ensures records { IfOk result (λ all. (q : List ℕ) → listed_at all.items q ≡ since base.now (record_in self.now q)) }
        ensures filled { IfOk result (λ all. All (λ e. rec_means e.1 ≡ (None, None) → ⊥) all.items) }
    {
        let unknown = UnknownTo {
            base: base.copied(),
        };
        let all = self.records.listed_beside(alloc, &self.ends, &unknown)?;
        Ok(all)
    }

    /// Copies of all records, by rising key.
    pub fn copies(&self, alloc: Global) -> Result<Vec<(Key, Rec)>, AllocError>
        ensures rising { IfOk result (λ all. Rising all.items) }
        ensures records { IfOk result (λ all. (q : List ℕ) → listed_at all.items q ≡ record_in self.now q) }
    {
        let all = self.records.listed_beside(alloc, &self.ends, &Whole)?;
        Ok(all)
    }

    /// The versions, by rising key.
    pub fn all(&self, alloc: Global) -> Result<Vec<(Key, Version)>, AllocError>
        ensures rising { IfOk result (λ all. Rising all.items) }
        ensures versions { IfOk result (λ all. (q : List ℕ) → lookup (same_key q) all.items ≡ version_in (record_in self.now q)) }
    {
        let all = self.records.listed_beside(alloc, &self.ends, &Shown)?;
        Ok(all)
    }
}

impl Lattice for Versions {
    ghost use Rattle.geo_maps.specs.Maps.{missing};
    ghost use Rattle.geo_records.specs.Keys.{same_key};
    ghost use Rattle.geo_versions.specs.Maps.{state_in};
    ghost use Rattle.geo_records.specs.Normal.{Normal};
    ghost use Rattle.geo_records.proofs.Normal.{same_normal, states_assoc, states_comm, states_same, nothing_adds};
    ghost use Rattle.geo_versions.specs.Normal.{normal_joined, nothing_known};

    ghost Meaning = { Normal };

    ghost meaning = { λ v. (state_in v, v.above) };

    ghost joined = { normal_joined };

    ghost least = { nothing_known };

    ghost HasRoom = { λ v w. ⟦<MapOf<Key, Rec> as Lattice>⟧.HasRoom v.records w.records };

    ghost associative = { λ a b c. same_normal (normal_joined a (normal_joined b c)) (normal_joined (normal_joined a b) c)
        (states_assoc a.0 b.0 c.0) };

    ghost commutative = { λ a b. same_normal (normal_joined a b) (normal_joined b a) (states_comm a.0 b.0) };

    ghost idempotent = { λ a. same_normal (normal_joined a a) a (states_same a) };

    ghost least_joined = { λ a. same_normal (normal_joined nothing_known a) a (nothing_adds a) };

    fn ready(&mut self, alloc: Global, other: &Self) -> Result<(), AllocError> {
        // Making room may move what stands where, as far as it tells.
        self.ends.forget();
        self.records.ready(alloc, &other.records)
    }

    fn has_room(&self, other: &Self) -> bool {
        self.records.has_room(&other.records)
    }

    fn join(&mut self, other: Self) {
        let Versions {
            floor: theirs,
            mut records,
            mut ends,
            ..
        } = other;
        // They are joined from the last that came to the first.
        records.settle(&mut ends);
        // What stands where is not told, so that the next pass over all records takes all measures anew.
        self.ends.forget();
        let above = AboveFloor {
            floor: later(self.floor, theirs),
        };
        self.records.join_changed(records, &above);
        self.lasting = 0;
        if self.floor != above.floor {
            self.floor = above.floor;
            self.ends.leave_out(&self.records, u64::MAX, &above);
            self.records.change_all(&above);
            let _least = self
                .ends
                .note_all(&self.records, Lasting { floor: self.floor });
        }
    }

    fn covers(&self, other: &Self) -> bool {
        let above = AboveFloor { floor: self.floor };
        later(self.floor, other.floor) == self.floor
            && self.records.covers_shown(&other.records, &above)
    }
}
