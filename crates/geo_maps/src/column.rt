//! A column of measures beside a map, by which the values with a low measure are found without a look at the others.
ghost use Rattle.std.specs.Prelude.{[], ◌≡◌, ◌+◌, ◌≤◌, ◌<◌, ℕ, IfSome, IsOk, IsSome, OnOk, OnErr, MatchOption, Some, false, true, cond, is_some, nat_lt, ◌&&◌, slice_get, IsSomeAnd, length};
ghost use Rattle.geo_maps.specs.Maps.{get, meaning_at, all_joined, HasRoomForList, StandsAt, OthersStand, IsColumn, Counts};

use crate::coming::Coming;
use crate::map_of::MapOf;
use geo_lattice::{Bottom, Change, Flat, Glance, Measure, Test, Twin};
use std::alloc::{AllocError, Global};
use std::hash::Hash;

/// Two measures of a map's values, by their places, of as many from the first on as there was memory for, and the order in which the
/// values came. To want memory for them fails no call: values without a measure here are looked at one by one. Whoever drops values in
/// another way than [`MapOf::drop_low`] calls [`Column::leave_out`] before and [`Column::note_all`] behind it.
#[derive(Drop)]
pub struct Column<M, N> {
    pub(crate) measure: M,
    pub(crate) measures: Vec<u64>,
    pub(crate) other: N,
    pub(crate) others: Vec<u64>,
    pub(crate) coming: Coming,
    /// The most places that the map's table ever had.
    pub(crate) room: usize,
    /// The most values that the map ever had where they were counted.
    pub(crate) held: usize,
}

impl<M, N> Column<M, N> {
    /// No measures. It takes no memory.
    pub fn new(alloc: Global, measure: M, other: N) -> Column<M, N>
        ensures none { result.measures.items ≡ [] }
        ensures none_other { result.others.items ≡ [] }
        ensures measure { result.measure ≡ measure }
        ensures other { result.other ≡ other }
    {
        Column {
            measure,
            measures: Vec::new(alloc),
            other,
            others: Vec::new(alloc),
            coming: Coming::new(alloc),
            room: 0,
            held: 0,
        }
    }
}

/// Notes the measure of what stands at a place, where those before it have theirs.
fn set(measures: &mut Vec<u64>, place: usize, measured: u64)
    ensures others { OthersStand measures.old.items measures.new.items place }
    ensures set { IfSome (slice_get measures.new.items place) (λ m. m ≡ measured) }
{
    if place < measures.len() {
        measures[place] = measured;
    } else if place == measures.len() {
        let _ = measures.push(measured);
    }
}

impl<K: Twin + Eq + Hash, L: Bottom + Flat> MapOf<K, L> {
    /// Joins a value at a place where its key stands.
    fn join_in<M: Measure<L>, N: Measure<L>>(
        &mut self,
        column: &mut Column<M, N>,
        place: usize,
        key: &K,
        value: L,
    )
        requires stands { StandsAt K.eq self.old.entries place key.now }
        requires column { IsColumn (M.measured column.old.measure) self.old.entries column.old.measures.items }
        requires other { IsColumn (N.measured column.old.other) self.old.entries column.old.others.items }
        ensures joined { (q : K) → meaning_at L.least L.meaning K.eq self.new q
            ≡ cond (K.eq key.now q) (L.joined (meaning_at L.least L.meaning K.eq self.old q) (L.meaning value))
            (meaning_at L.least L.meaning K.eq self.old q) }
        ensures kept { (q : K) → is_some (get K.eq self.new q) ≡ is_some (get K.eq self.old q) }
        ensures room { self.new.spare ≡ self.old.spare }
        ensures column { IsColumn (M.measured column.new.measure) self.new.entries column.new.measures.items }
        ensures other { IsColumn (N.measured column.new.other) self.new.entries column.new.others.items }
        ensures measures { (column.new.measure ≡ column.old.measure) × (column.new.other ≡ column.old.other) }
    {
        // Its clauses say that no two keys are equal.
        let _count = self.entries.len();
        let Some(mine) = self.entries.get_index_mut(place) else {
            unreachable!();
        };
        mine.join(value);
        let measured = column.measure.measure(mine);
        let beside = column.other.measure(mine);
        let before = column.measures.get(place).copied().unwrap_or(0);
        set(&mut column.measures, place, measured);
        set(&mut column.others, place, beside);
        column
            .coming
            .change(place, before, column.measures.as_slice());
    }
}

impl<K: Twin + Eq + Hash, L: Bottom + Flat> MapOf<K, L> {
    /// Puts a key that isn't there behind the others, with its measures, where there is room for it.
    fn push_in<M: Measure<L>, N: Measure<L>>(&mut self, column: &mut Column<M, N>, key: K, value: L)
        requires absent { is_some (get K.eq self.old key) ≡ false }
        requires room { 0 < self.old.spare }
        requires filled { L.meaning value ≡ L.least → ⊥ }
        requires column { IsColumn (M.measured column.old.measure) self.old.entries column.old.measures.items }
        requires other { IsColumn (N.measured column.old.other) self.old.entries column.old.others.items }
        ensures joined { (q : K) → meaning_at L.least L.meaning K.eq self.new q
            ≡ cond (K.eq key q) (L.joined (meaning_at L.least L.meaning K.eq self.old q) (L.meaning value))
            (meaning_at L.least L.meaning K.eq self.old q) }
        ensures kept { (q : K) → is_some (get K.eq self.old q) ≡ true → is_some (get K.eq self.new q) ≡ true }
        ensures room { self.old.spare ≤ self.new.spare + 1 }
        ensures column { IsColumn (M.measured column.new.measure) self.new.entries column.new.measures.items }
        ensures other { IsColumn (N.measured column.new.other) self.new.entries column.new.others.items }
        ensures measures { (column.new.measure ≡ column.old.measure) × (column.new.other ≡ column.old.other) }
        ensures counted { Counts column.old.held column.new.held (length self.new.entries) }
        ensures counted_places { Counts column.old.room column.new.room (length self.new.entries + self.new.spare) }
    {
        let place = self.entries.len();
        let measured = column.measure.measure(&value);
        let beside = column.other.measure(&value);
        let Ok(_) = self.entries.insert(key, value) else {
            unreachable!();
        };
        set(&mut column.measures, place, measured);
        set(&mut column.others, place, beside);
        column.coming.push(place, measured);
        column.room = column.room.max(self.entries.capacity());
        column.held = column.held.max(self.entries.len());
    }

    /// Joins a value, with its measures. A key that is there is found without a look-up where it stands at the place that is told, and
    /// the place behind it is given.
    fn join_one_beside<M: Measure<L>, N: Measure<L>>(
        &mut self,
        column: &mut Column<M, N>,
        place: usize,
        key: K,
        value: L,
    ) -> usize
        requires room { is_some (get K.eq self.old key) ≡ false → 0 < self.old.spare }
        requires column { IsColumn (M.measured column.old.measure) self.old.entries column.old.measures.items }
        requires other { IsColumn (N.measured column.old.other) self.old.entries column.old.others.items }
        ensures joined { (q : K) → meaning_at L.least L.meaning K.eq self.new q
            ≡ cond (K.eq key q) (L.joined (meaning_at L.least L.meaning K.eq self.old q) (L.meaning value))
            (meaning_at L.least L.meaning K.eq self.old q) }
        ensures kept { (q : K) → is_some (get K.eq self.old q) ≡ true → is_some (get K.eq self.new q) ≡ true }
        ensures room { self.old.spare ≤ self.new.spare + cond (is_some (get K.eq self.old key)) 0 1 }
        ensures column { IsColumn (M.measured column.new.measure) self.new.entries column.new.measures.items }
        ensures other { IsColumn (N.measured column.new.other) self.new.entries column.new.others.items }
        ensures measures { (column.new.measure ≡ column.old.measure) × (column.new.other ≡ column.old.other) }
    {
        if value.is_bottom() {
            return place;
        }
        match self.place_near(place, &key) {
            Some(found) => {
                self.join_in(column, found, &key, value);
                found.saturating_add(1)
            }
            None => {
                self.push_in(column, key, value);
                place
            }
        }
    }

    /// Where a key stands, None exactly where it isn't there. It is found without a look-up where it stands at the place that is told.
    fn place_near(&self, place: usize, key: &K) -> Option<usize>
        ensures { MatchOption result (is_some (get K.eq self.now key.now) ≡ false)
            (λ found. StandsAt K.eq self.now.entries found key.now × (is_some (get K.eq self.now key.now) ≡ true)) }
    {
        match self.entries.get_index(place) {
            Some((other, _)) if other == key => Some(place),
            _ => self.entries.get_index_of(key),
        }
    }
}

impl<K: Twin + Eq + Hash, L: Bottom + Flat> MapOf<K, L> {
    /// Joins one value, as [`MapOf::put`] does, and notes its measures.
    pub fn put_beside<M: Measure<L>, N: Measure<L>>(
        &mut self,
        alloc: Global,
        column: &mut Column<M, N>,
        key: &K,
        value: L,
    ) -> Result<(), AllocError>
        requires column { IsColumn (M.measured column.old.measure) self.old.entries column.old.measures.items }
        requires other { IsColumn (N.measured column.old.other) self.old.entries column.old.others.items }
        ensures ok { OnOk result ((q : K) → meaning_at L.least L.meaning K.eq self.new q
            ≡ cond (K.eq key.now q) (L.joined (meaning_at L.least L.meaning K.eq self.old q) (L.meaning value))
            (meaning_at L.least L.meaning K.eq self.old q)) }
        ensures err { OnErr result ((q : K) → meaning_at L.least L.meaning K.eq self.new q ≡ meaning_at L.least L.meaning K.eq self.old q) }
        ensures succeeds { IsSome (get K.eq self.old key.now) → IsOk result }
        ensures column { IsColumn (M.measured column.new.measure) self.new.entries column.new.measures.items }
        ensures other { IsColumn (N.measured column.new.other) self.new.entries column.new.others.items }
        ensures measures { (column.new.measure ≡ column.old.measure) × (column.new.other ≡ column.old.other) }
    {
        if value.is_bottom() {
            return Ok(());
        }
        match self.place_near(usize::MAX, key) {
            Some(found) => self.join_in(column, found, key, value),
            None => {
                let own = key.twin(alloc)?;
                self.entries.reserve(1)?;
                self.push_in(column, own, value);
            }
        }
        Ok(())
    }

    /// Joins one value at a key that has one, and notes its measures. It takes no memory but for those.
    pub fn join_at_beside<M: Measure<L>, N: Measure<L>>(
        &mut self,
        column: &mut Column<M, N>,
        key: &K,
        value: L,
    )
        requires there { IsSome (get K.eq self.old key.now) }
        requires column { IsColumn (M.measured column.old.measure) self.old.entries column.old.measures.items }
        requires other { IsColumn (N.measured column.old.other) self.old.entries column.old.others.items }
        ensures joined { (q : K) → meaning_at L.least L.meaning K.eq self.new q
            ≡ cond (K.eq key.now q) (L.joined (meaning_at L.least L.meaning K.eq self.old q) (L.meaning value))
            (meaning_at L.least L.meaning K.eq self.old q) }
        ensures column { IsColumn (M.measured column.new.measure) self.new.entries column.new.measures.items }
        ensures other { IsColumn (N.measured column.new.other) self.new.entries column.new.others.items }
        ensures measures { (column.new.measure ≡ column.old.measure) × (column.new.other ≡ column.old.other) }
    {
        if let Some(found) = self.place_near(usize::MAX, key) {
            self.join_in(column, found, key, value);
        }
    }

    /// Changes each of these values and joins it, as [`MapOf::join_list`] does, and notes their measures. It takes no memory but for those.
    pub fn join_list_beside<C: Change<L>, M: Measure<L>, N: Measure<L>>(
        &mut self,
        column: &mut Column<M, N>,
        values: Vec<(K, L)>,
        by: &C,
    )
        requires room { HasRoomForList K.eq self.old values.items }
        requires column { IsColumn (M.measured column.old.measure) self.old.entries column.old.measures.items }
        requires other { IsColumn (N.measured column.old.other) self.old.entries column.old.others.items }
        ensures joined { (q : K) → meaning_at L.least L.meaning K.eq self.new q
            ≡ L.joined (meaning_at L.least L.meaning K.eq self.old q)
            (all_joined L.least (λ v. L.meaning (C.changed by.now v)) L.joined K.eq values.items q) }
        ensures column { IsColumn (M.measured column.new.measure) self.new.entries column.new.measures.items }
        ensures other { IsColumn (N.measured column.new.other) self.new.entries column.new.others.items }
        ensures measures { (column.new.measure ≡ column.old.measure) × (column.new.other ≡ column.old.other) }
    {
        let mut values = values;
        // What came together once stands together, the last first.
        let mut place = self.place_of(values.as_slice(), values.len().saturating_sub(1));
        while let Some((key, mut value)) = values.pop() {
            by.change(&mut value);
            place = self.join_one_beside(column, place, key, value);
        }
    }
}

impl<M, N> Column<M, N> {
    /// Forgets all measures: each value is looked at then. In what order they came is known still. It takes no memory.
    pub fn forget(&mut self)
        ensures none { self.new.measures.items ≡ [] }
        ensures none_other { self.new.others.items ≡ [] }
        ensures measures { (self.new.measure ≡ self.old.measure) × (self.new.other ≡ self.old.other) }
        ensures counted { (self.new.held ≡ self.old.held) × (self.new.room ≡ self.old.room) }
    {
        self.measures.clear();
        self.others.clear();
        self.coming.forget();
    }

    /// Takes the measures of all values of a map, the second by another one than before, and gives the least of the second, 2^64 - 1
    /// where there is none.
    pub fn note_all<K: Twin + Eq + Hash, L: Bottom>(&mut self, map: &MapOf<K, L>, other: N) -> u64
    where
        M: Measure<L>,
        N: Measure<L> + Drop,
        ensures column { IsColumn (M.measured self.new.measure) map.now.entries self.new.measures.items }
        ensures other { IsColumn (N.measured self.new.other) map.now.entries self.new.others.items }
        ensures least { (q : K) → IfSome (get K.eq map.now q) (λ v. result ≤ N.measured self.new.other v) }
        ensures measures { (self.new.measure ≡ self.old.measure) × (self.new.other ≡ other) }
        ensures counted { Counts self.old.held self.new.held (length map.now.entries) }
        ensures counted_places { Counts self.old.room self.new.room (length map.now.entries + map.now.spare) }
    {
        self.forget();
        self.other = other;
        let mut least = u64::MAX;
        for place in 0..map.entries.len() {
            if let Some((_, value)) = map.entries.get_index(place) {
                let beside = self.other.measure(value);
                least = least.min(beside);
                let measured = self.measure.measure(value);
                set(&mut self.measures, place, measured);
                set(&mut self.others, place, beside);
            }
        }
        self.coming.change_all(self.measures.as_slice());
        self.count(map);
        least
    }

    /// Counts the values, and the places of the table.
    fn count<K: Twin + Eq + Hash, L: Bottom>(&mut self, map: &MapOf<K, L>)
        ensures column { self.new.measures.items ≡ self.old.measures.items }
        ensures other { self.new.others.items ≡ self.old.others.items }
        ensures measures { (self.new.measure ≡ self.old.measure) × (self.new.other ≡ self.old.other) }
        ensures counted { Counts self.old.held self.new.held (length map.now.entries) }
        ensures counted_places { Counts self.old.room self.new.room (length map.now.entries + map.now.spare) }
    {
        self.room = self.room.max(map.entries.capacity());
        self.held = self.held.max(map.entries.len());
    }

    /// Whether a value has a measure below a bound, and passes a test, which is asked first.
    fn is_sought<L, T: Test<L>>(&self, value: &L, bound: u64, test: &T) -> bool
    where
        M: Measure<L>,
        ensures { result ≡ nat_lt (M.measured self.now.measure value.now) bound && T.passing test.now value.now }
    {
        test.passes(value) && self.measure.measure(value) < bound
    }

    /// The first place from one on that has a measure below a bound, or none at all.
    fn next_below(&self, from: usize, bound: u64) -> usize
        ensures on { from ≤ result }
        ensures above { (j : ℕ) → from ≤ j → j < result → IsSomeAnd (slice_get self.now.measures.items j) (λ m. bound ≤ m) }
    {
        let mut place = from;
        while place < self.measures.len()
            && self.measures.len() - place >= 4
            && self.measures[place] >= bound
            && self.measures[place + 1] >= bound
            && self.measures[place + 2] >= bound
            && self.measures[place + 3] >= bound
        {
            place += 4;
        }
        while place < self.measures.len() && self.measures[place] >= bound {
            place += 1;
        }
        place
    }
}

impl<K: Twin + Eq + Hash, L: Bottom> MapOf<K, L> {
    /// The key of the value that came first of those sought, as far as it is noted in what order they came.
    fn first_come<T: Test<L> + Glance, M: Measure<L>, N>(
        &self,
        column: &Column<M, N>,
        bound: u64,
        test: &T,
    ) -> Option<&K>
        ensures { IfSome result (λ key. meaning_at false
            (λ v. nat_lt (M.measured column.now.measure v) bound && T.passing test.now v) K.eq self.now key.now ≡ true) }
    {
        let measures = column.measures.as_slice();
        let mut index = column
            .coming
            .first_below(bound, test.remainders(), measures);
        while index < column.coming.len() {
            if let Some((key, value)) = self.entries.get_index(column.coming.place(index)) {
                if column.is_sought(value, bound, test) {
                    return Some(key);
                }
            }
            index = column
                .coming
                .next_below(index + 1, bound, test.remainders(), measures);
        }
        None
    }

    /// The key of the value that came first of those with a measure below a bound that pass a test, None exactly where there is no such
    /// value. It looks at the column, and at the values up to that one that have no measure there or a low one; where there is none, and it
    /// is noted in what order they came, twice. It takes no memory.
    pub fn found_below<T: Test<L> + Glance, M: Measure<L>, N>(
        &self,
        column: &Column<M, N>,
        bound: u64,
        test: &T,
    ) -> Option<&K>
        requires column { IsColumn (M.measured column.now.measure) self.now.entries column.now.measures.items }
        ensures { MatchOption result
            ((q : K) → meaning_at false (λ v. nat_lt (M.measured column.now.measure v) bound && T.passing test.now v) K.eq self.now q
            ≡ false)
            (λ key. meaning_at false (λ v. nat_lt (M.measured column.now.measure v) bound && T.passing test.now v) K.eq self.now key.now
            ≡ true) }
    {
        if let Some(key) = self.first_come(column, bound, test) {
            return Some(key);
        }
        // That there is none is told by the places: what the order tells no proof goes by. What has no note there came after all that has
        // one, in the order in which it stands.
        let mut place = 0;
        while place < self.entries.len() {
            place = column.next_below(place, bound);
            let Some((key, value)) = self.entries.get_index(place) else {
                return None;
            };
            if column.is_sought(value, bound, test) {
                return Some(key);
            }
            place += 1;
        }
        None
    }
}
