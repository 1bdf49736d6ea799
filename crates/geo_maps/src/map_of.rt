//! A map, joined key by key.
ghost use Rattle.std.specs.Prelude.{◌≡◌, ◌+◌, ◌≤◌, ◌<◌, IsTrue, IsOk, IfOk, IfSome, OnOk, OnErr, Option, IsSome, option_map, option_copied, None, Some, MatchOption, false, true, cond, is_some, length, slice_get, ◌↔◌};
ghost use Rattle.std.specs.Map.{keys_of, lookup};
ghost use Rattle.std.specs.List.Sorted.{IsStrictlySortedBy};
ghost use Rattle.std.specs.Option.{option_and_then};
ghost use Rattle.std.specs.List.{IsDistinct};
ghost use Rattle.geo_maps.specs.Maps.{get, meaning_or, meaning_at, RoomFor, HasRoomFor, HasRoomForList, missing, EachFound, all_joined, HasAll};

use crate::column::Column;
use crate::coming::Coming;
use geo_lattice::{Bottom, Change, Flat, Lattice, Measure, Show, Test, Twin};
use indexmap::IndexMap;
use std::alloc::{AllocError, Global};
use std::hash::{Hash, RandomState};
use std::marker::Model;

/// A finite map, joined key by key. No key has an empty value: one that is missing means the empty value. In what order keys came
/// shows in no answer, and room that was made shows in none but `has_room`.
#[derive(Drop)]
pub struct MapOf<K: Twin + Eq + Hash, L: Bottom> {
    pub(crate) entries: IndexMap<K, L, RandomState>,
}

impl<K: Twin + Eq + Hash, L: Bottom> Model for MapOf<K, L> {
    ghost use Rattle.std.specs.Prelude.{◌≡◌};
    ghost use Rattle.std.specs.HashMap.{spare};
    ghost use Rattle.geo_maps.specs.Maps.{Entries, entries_code, EachFound};

    ghost Value = { Entries K L };

    ghost coded = { entries_code K.code L.code };

    ghost view = { λ m. record { entries = m.entries.entries; spare = spare m.entries } };

    ghost invariant = { λ m. EachFound (λ v. L.meaning v ≡ L.least → ⊥) K.eq m.entries.entries };
}

impl<K: Twin + Eq + Hash, L: Bottom> Lattice for MapOf<K, L> {
    ghost Meaning = { K → L.Meaning };

    ghost meaning = { meaning_at L.least L.meaning K.eq };

    ghost joined = { λ m n k. L.joined (m k) (n k) };

    ghost HasRoom = { HasRoomFor L.HasRoom K.eq };

    ghost associative = { λ a b c. λ i k. L.associative (a k) (b k) (c k) i };

    ghost commutative = { λ a b. λ i k. L.commutative (a k) (b k) i };

    ghost idempotent = { λ a. λ i k. L.idempotent (a k) i };

    ghost least = { λ k. L.least };

    ghost least_joined = { λ a. λ i k. L.least_joined (a k) i };

    fn ready(&mut self, alloc: Global, other: &Self) -> Result<(), AllocError> {
        for i in 0..other.entries.len() {
            if let Some((key, value)) = other.entries.get_index(i) {
                self.ready_at(alloc, key, value)?;
            }
        }
        let missing = self.count_missing(other);
        self.entries.reserve(missing)
    }

    fn has_room(&self, other: &Self) -> bool {
        for i in 0..other.entries.len() {
            if let Some((key, value)) = other.entries.get_index(i) {
                if !self.has_room_at(key, value) {
                    return false;
                }
            }
        }
        self.count_missing(other) <= self.entries.capacity() - self.entries.len()
    }

    fn join(&mut self, other: Self) {
        let MapOf { mut entries } = other;
        while let Some((key, value)) = entries.pop() {
            self.join_one(key, value);
        }
    }

    fn covers(&self, other: &Self) -> bool {
        for i in 0..other.entries.len() {
            if let Some((key, value)) = other.entries.get_index(i) {
                if !self.covers_one(key, value) {
                    return false;
                }
            }
        }
        true
    }
}

impl<K: Twin + Eq + Hash, L: Bottom> MapOf<K, L> {
    /// An empty map.
    pub fn with_hasher(alloc: Global, hasher: RandomState) -> Self
        ensures { (q : K) → get K.eq result q ≡ None }
    {
        MapOf {
            entries: IndexMap::with_hasher(alloc, hasher),
        }
    }

    /// How many keys have a value, which is never an empty one.
    pub fn len(&self) -> usize
        ensures len { result ≡ length self.now.entries }
        ensures unique { IsDistinct K.eq (keys_of self.now.entries) }
        ensures filled { EachFound (λ v. L.meaning v ≡ L.least → ⊥) K.eq self.now.entries }
    {
        self.entries.len()
    }

    /// What is at a key.
    pub fn get(&self, key: &K) -> Option<&L>
        ensures value { option_copied result ≡ get K.eq self.now key.now }
        ensures filled { EachFound (λ v. L.meaning v ≡ L.least → ⊥) K.eq self.now.entries }
    {
        self.entries.get(key)
    }

    /// What is at a key, as [`MapOf::get`] tells it, and the place before the one where it stands, where it stands. It is found without a
    /// look-up where it stands at the place that is told.
    pub fn get_near(&self, place: usize, key: &K) -> (Option<&L>, usize)
        ensures value { option_copied result.0 ≡ get K.eq self.now key.now }
        ensures filled { EachFound (λ v. L.meaning v ≡ L.least → ⊥) K.eq self.now.entries }
    {
        match self.entries.get_index(place) {
            Some((other, value)) if other == key => (Some(value), place.saturating_sub(1)),
            _ => match self.entries.get_full(key) {
                Some((found, _, value)) => (Some(value), found.saturating_sub(1)),
                None => (None, place),
            },
        }
    }

    /// The key and the value at a place, of which there are as many as `len` tells, from 0 on. Which of them stands where, no clause says.
    pub fn entry(&self, place: usize) -> Option<(&K, &L)>
        ensures entry { option_map (λ e. (e.0.now, e.1.now)) result ≡ slice_get self.now.entries place }
        ensures value { IfSome result (λ e. get K.eq self.now e.0.now ≡ Some e.1.now) }
    {
        self.entries.get_index(place)
    }

    /// The key of some value that passes a test, None exactly where no value does. It looks at one value after another, and takes no
    /// memory.
    pub fn found<T: Test<L>>(&self, test: &T) -> Option<&K>
        ensures { MatchOption result ((q : K) → meaning_at false (T.passing test.now) K.eq self.now q ≡ false)
            (λ key. meaning_at false (T.passing test.now) K.eq self.now key.now ≡ true) }
    {
        for i in 0..self.entries.len() {
            if let Some((key, value)) = self.entries.get_index(i) {
                if test.passes(value) {
                    return Some(key);
                }
            }
        }
        None
    }

    /// The least measure of a value, 2^64 - 1 where there is none. It looks at one value after another, and takes no memory.
    pub fn least<M: Measure<L>>(&self, measure: &M) -> u64
        ensures { (q : K) → IfSome (get K.eq self.now q) (λ v. result ≤ M.measured measure.now v) }
    {
        let mut least = u64::MAX;
        for i in 0..self.entries.len() {
            if let Some((_, value)) = self.entries.get_index(i) {
                least = least.min(measure.measure(value));
            }
        }
        least
    }

    /// Joins one value. Where a growth was refused, nothing is joined. None is needed where there is a value with room for it.
    pub fn put(&mut self, alloc: Global, key: &K, value: L) -> Result<(), AllocError>
        ensures ok { OnOk result ((q : K) → meaning_at L.least L.meaning K.eq self.new q
            ≡ cond (K.eq key.now q) (L.joined (meaning_at L.least L.meaning K.eq self.old q) (L.meaning value))
            (meaning_at L.least L.meaning K.eq self.old q)) }
        ensures err { OnErr result ((q : K) → meaning_at L.least L.meaning K.eq self.new q ≡ meaning_at L.least L.meaning K.eq self.old q) }
        ensures succeeds { IsSome (get K.eq self.old key.now) → RoomFor L.HasRoom (get K.eq self.old key.now) (Some value) → IsOk result }
    {
        if value.is_bottom() {
            return Ok(());
        }
        match self.entries.get_mut(key) {
            Some(mine) => {
                mine.ready(alloc, &value)?;
                mine.join(value);
            }
            None => {
                let key = key.twin(alloc)?;
                self.entries.insert(key, value)?;
            }
        }
        Ok(())
    }

    /// Changes each value, and drops those that are empty then. It takes no memory.
    pub fn change_all<C: Change<L>>(&mut self, by: &C)
        ensures changed { (q : K) → meaning_at L.least L.meaning K.eq self.new q
            ≡ meaning_at L.least (λ v. L.meaning (C.changed by.now v)) K.eq self.old q }
        ensures no_more { length self.new.entries ≤ length self.old.entries }
    {
        // Its contract has that no two keys are equal.
        let _count = self.entries.len();
        self.entries.retain(|_, value| {
            by.change(value);
            !value.is_bottom()
        });
    }

    fn join_one(&mut self, key: K, value: L)
        requires value { RoomFor L.HasRoom (get K.eq self.old key) (Some value) }
        requires place { is_some (get K.eq self.old key) ≡ false → 0 < self.old.spare }
        ensures joined { (q : K) → meaning_at L.least L.meaning K.eq self.new q
            ≡ cond (K.eq key q) (L.joined (meaning_at L.least L.meaning K.eq self.old q) (L.meaning value))
            (meaning_at L.least L.meaning K.eq self.old q) }
        ensures others { (q : K) → K.eq key q ≡ false → get K.eq self.new q ≡ get K.eq self.old q }
        ensures kept { (q : K) → is_some (get K.eq self.old q) ≡ true → is_some (get K.eq self.new q) ≡ true }
        ensures room { self.old.spare ≤ self.new.spare + cond (is_some (get K.eq self.old key)) 0 1 }
    {
        if value.is_bottom() {
            return;
        }
        match self.entries.get_mut(&key) {
            Some(mine) => mine.join(value),
            None => {
                let _ = self.entries.insert(key, value);
            }
        }
    }

    fn ready_at(&mut self, alloc: Global, key: &K, value: &L) -> Result<(), AllocError>
        ensures kept { (q : K) → meaning_at L.least L.meaning K.eq self.new q ≡ meaning_at L.least L.meaning K.eq self.old q }
        ensures room { OnOk result (RoomFor L.HasRoom (get K.eq self.new key.now) (Some value.now)) }
        ensures others { (q : K) → K.eq key.now q ≡ false → get K.eq self.new q ≡ get K.eq self.old q }
        ensures keys { (q : K) → is_some (get K.eq self.old q) ≡ true → is_some (get K.eq self.new q) ≡ true }
        ensures places { self.old.spare ≤ self.new.spare }
        ensures succeeds { RoomFor L.HasRoom (get K.eq self.old key.now) (Some value.now) → IsOk result }
    {
        match self.entries.get_mut(key) {
            Some(mine) => mine.ready(alloc, value),
            None => Ok(()),
        }
    }

    fn has_room_at(&self, key: &K, value: &L) -> bool
        ensures { IsTrue result ↔ RoomFor L.HasRoom (get K.eq self.now key.now) (Some value.now) }
    {
        match self.entries.get(key) {
            Some(mine) => mine.has_room(value),
            None => true,
        }
    }

    fn count_missing(&self, other: &Self) -> usize
        ensures { result ≡ missing K.eq self.now.entries other.now.entries }
    {
        other
            .entries
            .iter()
            .filter(|(key, _)| !self.entries.contains_key(*key))
            .count()
    }

    /// Whether joining what the values of the other map show would change nothing.
    pub fn covers_shown<S: Show<L, Item = L>>(&self, other: &Self, show: &S) -> bool
        ensures { IsTrue result
            ↔ ((q : K) → L.joined (meaning_at L.least L.meaning K.eq self.now q)
            (meaning_or L.least L.meaning (option_and_then (S.shown show.now) (get K.eq other.now q)))
            ≡ meaning_at L.least L.meaning K.eq self.now q) }
    {
        for i in 0..other.entries.len() {
            if let Some((key, value)) = other.entries.get_index(i) {
                if let Some(value) = show.show(value) {
                    if !self.covers_one(key, &value) {
                        return false;
                    }
                }
            }
        }
        true
    }

    fn covers_one(&self, key: &K, value: &L) -> bool
        ensures { IsTrue result
            ↔ (L.joined (meaning_at L.least L.meaning K.eq self.now key.now) (L.meaning value.now)
            ≡ meaning_at L.least L.meaning K.eq self.now key.now) }
    {
        match self.entries.get(key) {
            Some(mine) => mine.covers(value),
            None => value.is_bottom(),
        }
    }
}

impl<K: Twin + Eq + Hash, L: Bottom + Flat> MapOf<K, L> {
    /// Where one of several keys stands, from which the others may be found without a look-up.
    pub(crate) fn place_of(&self, values: &[(K, L)], index: usize) -> usize {
        match values.get(index) {
            Some((key, _)) if values.len() > 1 => self.entries.get_index_of(key).unwrap_or(0),
            _ => 0,
        }
    }

    /// Whether a key is there, and the place before it where it was found at this place.
    fn finds(&self, place: usize, key: &K) -> (bool, usize)
        ensures { result.0 ≡ is_some (get K.eq self.now key.now) }
    {
        match self.entries.get_index(place) {
            Some((other, _)) if other == key => (true, place.saturating_sub(1)),
            _ => (self.entries.contains_key(key), place),
        }
    }

    /// For how many of these values a place may be wanted: no more than there are places for exactly where places for all are there.
    fn wanted(&self, values: &[(K, L)], places: usize) -> usize
        ensures enough { missing K.eq self.now.entries values.now ≤ result }
        ensures exact { missing K.eq self.now.entries values.now ≤ places → result ≤ places }
    {
        if values.len() <= places {
            return values.len();
        }
        // What came together once stands together, the greatest key first.
        let mut place = self.place_of(values, 0);
        let mut lacking = 0;
        for (index, (key, _)) in values.iter().enumerate() {
            let most = lacking + (values.len() - index);
            // The others need no look-up where all of them fit, and where places have to be made in any case.
            if most <= places || lacking > places {
                return most;
            }
            let (is_there, before) = self.finds(place, key);
            place = before;
            if !is_there {
                lacking += 1;
            }
        }
        lacking
    }

    /// Makes room to join these values: for each that has a key which is not there. It changes no value, and takes no memory where
    /// there was room.
    pub fn ready_list(&mut self, values: &[(K, L)]) -> Result<(), AllocError>
        ensures kept { self.new.entries ≡ self.old.entries }
        ensures room { OnOk result (HasRoomForList K.eq self.new values.now) }
        ensures succeeds { HasRoomForList K.eq self.old values.now → IsOk result }
    {
        let places = self.entries.capacity() - self.entries.len();
        let wanted = self.wanted(values, places);
        self.entries.reserve(wanted)
    }

    /// Whether joining a value changes nothing, which is found only where its key stands at this place, and the place behind it.
    fn look_at(&self, place: usize, key: &K, value: &L) -> (bool, usize)
        ensures { result.0 ≡ true → (q : K) → meaning_at L.least L.meaning K.eq self.now q
            ≡ cond (K.eq key.now q) (L.joined (meaning_at L.least L.meaning K.eq self.now q) (L.meaning value.now))
            (meaning_at L.least L.meaning K.eq self.now q) }
    {
        match self.entries.get_index(place) {
            Some((other, mine)) if other == key => (mine.covers(value), place.saturating_add(1)),
            _ => (false, place),
        }
    }

    /// Changes each of these values and joins it. A key may be named more than once. It takes no memory.
    pub fn join_list<C: Change<L>>(&mut self, values: Vec<(K, L)>, by: &C)
        requires { HasRoomForList K.eq self.old values.items }
        ensures { (q : K) → meaning_at L.least L.meaning K.eq self.new q
            ≡ L.joined (meaning_at L.least L.meaning K.eq self.old q)
            (all_joined L.least (λ v. L.meaning (C.changed by.now v)) L.joined K.eq values.items q) }
    {
        let mut values = values;
        // A value that is there already is found without a look-up where it stands behind the one before it.
        let mut place = self.place_of(values.as_slice(), values.len().saturating_sub(1));
        while let Some((key, mut value)) = values.pop() {
            by.change(&mut value);
            let (is_covered, next) = self.look_at(place, &key, &value);
            place = next;
            if !is_covered {
                self.join_one(key, value);
            }
        }
    }

    /// Changes each value of the other map and joins it. It takes no memory.
    pub fn join_changed<C: Change<L>>(&mut self, other: Self, by: &C)
        requires { missing K.eq self.old.entries other.entries ≤ self.old.spare }
        ensures { (q : K) → meaning_at L.least L.meaning K.eq self.new q
            ≡ L.joined (meaning_at L.least L.meaning K.eq self.old q)
            (meaning_at L.least (λ v. L.meaning (C.changed by.now v)) K.eq other q) }
    {
        let MapOf { mut entries } = other;
        while let Some((key, mut value)) = entries.pop() {
            by.change(&mut value);
            self.join_one(key, value);
        }
    }

    /// Joins one value at a key that has one. It takes no memory.
    pub fn join_at(&mut self, key: &K, value: L)
        requires { IsSome (get K.eq self.old key.now) }
        ensures { (q : K) → meaning_at L.least L.meaning K.eq self.new q
            ≡ cond (K.eq key.now q) (L.joined (meaning_at L.least L.meaning K.eq self.old q) (L.meaning value))
            (meaning_at L.least L.meaning K.eq self.old q) }
    {
        if let Some(mine) = self.entries.get_mut(key) {
            mine.join(value);
        }
    }
}

impl<K: Twin + Ord + Hash, L: Bottom> MapOf<K, L> {
    /// The values that show something, each with a copy of its key, in the order in which they stand.
    fn standing<'a, S: Show<L>>(
        &'a self,
        alloc: Global,
        show: &S,
    ) -> Result<Vec<(K, &'a L)>, AllocError>
        ensures unique { IfOk result (λ all. IsDistinct K.eq (keys_of all.items)) }
        ensures shown { IfOk result (λ all. (q : K)
            → option_and_then (λ v. S.shown show.now v.now) (lookup (K.eq q) all.items)
            ≡ option_and_then (S.shown show.now) (get K.eq self.now q)) }
    {
        let mut all = Vec::new(alloc);
        for i in 0..self.entries.len() {
            if let Some((key, value)) = self.entries.get_index(i) {
                if show.show(value).is_some() {
                    all.push((key.twin(alloc)?, value))?;
                }
            }
        }
        Ok(all)
    }

    /// The same in the order in which they came.
    fn as_they_came<'a, S: Show<L>>(
        &'a self,
        alloc: Global,
        coming: &Coming,
        show: &S,
    ) -> Result<Vec<(K, &'a L)>, AllocError>
        requires all { HasAll coming.now.order.items coming.now.came.items (length self.now.entries) }
        ensures unique { IfOk result (λ all. IsDistinct K.eq (keys_of all.items)) }
        ensures shown { IfOk result (λ all. (q : K)
            → option_and_then (λ v. S.shown show.now v.now) (lookup (K.eq q) all.items)
            ≡ option_and_then (S.shown show.now) (get K.eq self.now q)) }
    {
        // Its clauses say that no two keys are equal.
        let _count = self.entries.len();
        let mut all = Vec::new(alloc);
        for index in 0..coming.len() {
            if let Some(place) = coming.standing(index) {
                if let Some((key, value)) = self.entries.get_index(place) {
                    if show.show(value).is_some() {
                        all.push((key.twin(alloc)?, value))?;
                    }
                }
            }
        }
        Ok(all)
    }

    /// The same in the order in which they came, where that is known of all, else in the order in which they stand.
    fn gathered<'a, S: Show<L>>(
        &'a self,
        alloc: Global,
        coming: &Coming,
        show: &S,
    ) -> Result<Vec<(K, &'a L)>, AllocError>
        ensures unique { IfOk result (λ all. IsDistinct K.eq (keys_of all.items)) }
        ensures shown { IfOk result (λ all. (q : K)
            → option_and_then (λ v. S.shown show.now v.now) (lookup (K.eq q) all.items)
            ≡ option_and_then (S.shown show.now) (get K.eq self.now q)) }
    {
        if coming.has_all(self.entries.len()) {
            return self.as_they_came(alloc, coming, show);
        }
        self.standing(alloc, show)
    }

    /// The values that show something, each with a copy of its key, by rising key. To sort is to move what is sorted again and again:
    /// a key and a reference take less than half of what a key and a record take.
    fn showing<'a, S: Show<L>>(
        &'a self,
        alloc: Global,
        coming: &Coming,
        show: &S,
    ) -> Result<Vec<(K, &'a L)>, AllocError>
        ensures rising { IfOk result (λ all. IsStrictlySortedBy K.cmp (keys_of all.items)) }
        ensures unique { IfOk result (λ all. IsDistinct K.eq (keys_of all.items)) }
        ensures shown { IfOk result (λ all. (q : K)
            → option_and_then (λ v. S.shown show.now v.now) (lookup (K.eq q) all.items)
            ≡ option_and_then (S.shown show.now) (get K.eq self.now q)) }
    {
        let mut all = self.gathered(alloc, coming, show)?;
        // Records come in runs by falling key, one of each parcel that was taken: this sort makes use of that, and moves one run without
        // memory of its own.
        all.sort_by(|a, b| a.0.cmp(&b.0))?;
        Ok(all)
    }

    fn listed_by<S: Show<L>>(
        &self,
        alloc: Global,
        coming: &Coming,
        show: &S,
    ) -> Result<Vec<(K, S::Item)>, AllocError>
        ensures rising { IfOk result (λ all. IsStrictlySortedBy K.cmp (keys_of all.items)) }
        ensures unique { IfOk result (λ all. IsDistinct K.eq (keys_of all.items)) }
        ensures shown { IfOk result (λ all. (q : K)
            → lookup (K.eq q) all.items ≡ option_and_then (S.shown show.now) (get K.eq self.now q)) }
    {
        let showing = self.showing(alloc, coming, show)?;
        let mut all = Vec::with_capacity(alloc, showing.len())?;
        for (key, value) in showing {
            if let Some(item) = show.show(value) {
                all.push((key, item))?;
            }
        }
        Ok(all)
    }

    /// What the values show, each with its key, by rising key.
    pub fn listed<S: Show<L>>(
        &self,
        alloc: Global,
        show: &S,
    ) -> Result<Vec<(K, S::Item)>, AllocError>
        ensures rising { IfOk result (λ all. IsStrictlySortedBy K.cmp (keys_of all.items)) }
        ensures unique { IfOk result (λ all. IsDistinct K.eq (keys_of all.items)) }
        ensures shown { IfOk result (λ all. (q : K)
            → lookup (K.eq q) all.items ≡ option_and_then (S.shown show.now) (get K.eq self.now q)) }
    {
        self.listed_by(alloc, &Coming::new(alloc), show)
    }

    /// The same, where a column beside the map tells in what order the values came. They are gathered in that order, so that values that
    /// came by falling or by rising key are sorted in one pass and without memory for it, also where a removal moved some.
    pub fn listed_beside<S: Show<L>, M, N>(
        &self,
        alloc: Global,
        column: &Column<M, N>,
        show: &S,
    ) -> Result<Vec<(K, S::Item)>, AllocError>
        ensures rising { IfOk result (λ all. IsStrictlySortedBy K.cmp (keys_of all.items)) }
        ensures unique { IfOk result (λ all. IsDistinct K.eq (keys_of all.items)) }
        ensures shown { IfOk result (λ all. (q : K)
            → lookup (K.eq q) all.items ≡ option_and_then (S.shown show.now) (get K.eq self.now q)) }
    {
        self.listed_by(alloc, &column.coming, show)
    }
}
