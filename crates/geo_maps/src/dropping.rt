//! What drops values from a map with a column beside it, each by the last value in its place.
ghost use Rattle.std.specs.Prelude.{[], ◌≡◌, ◌+◌, ◌-◌, ◌≤◌, ◌<◌, ℕ, List, IfSome, IsSomeAnd, None, true, cond, length, slice_get};
ghost use Rattle.std.specs.Map.{lookup};
ghost use Rattle.geo_maps.specs.Maps.{get, meaning_at, missing, low_count, IsColumn, SwappedOut, MayLose};

use crate::column::Column;
use crate::map_of::MapOf;
use geo_lattice::{Bottom, Measure, Test, Twin};
use indexmap::IndexMap;
use std::hash::{Hash, RandomState};

/// Takes out what stands at a place, where what stands last takes its place.
fn swap_out(measures: &mut Vec<u64>, place: usize, last: usize)
    ensures { SwappedOut measures.old.items measures.new.items place last }
{
    if place >= measures.len() {
        return;
    }
    if last >= measures.len() {
        // The last has no measure here, and so has none from this place on.
        measures.truncate(place);
        return;
    }
    measures[place] = measures[last];
    measures.truncate(last);
}

impl<M, N> Column<M, N> {
    /// Takes out what stands at a place, where what stands last takes its place.
    fn swap_out(&mut self, place: usize, last: usize)
        ensures column { SwappedOut self.old.measures.items self.new.measures.items place last }
        ensures other { SwappedOut self.old.others.items self.new.others.items place last }
        ensures measures { (self.new.measure ≡ self.old.measure) × (self.new.other ≡ self.old.other) }
    {
        let went = self.measures.get(place).copied().unwrap_or(0);
        swap_out(&mut self.measures, place, last);
        swap_out(&mut self.others, place, last);
        self.coming.swap_out(place, went, self.measures.as_slice());
    }

    /// The first place from one on without a second measure above a bound, and the least of a number and the measures before that place.
    fn next_low(&self, from: usize, most: u64, least: u64) -> (usize, u64)
        ensures on { from ≤ result.0 }
        ensures least { result.1 ≤ least }
        ensures above { (j : ℕ) → from ≤ j → j < result.0
            → IsSomeAnd (slice_get self.now.others.items j) (λ m. (most < m) × (result.1 ≤ m)) }
    {
        let mut place = from;
        let mut lowest = least;
        while place < self.others.len() && self.others[place] > most {
            lowest = lowest.min(self.others[place]);
            place += 1;
        }
        (place, lowest)
    }

    /// Whether the values with a second measure at a bound or below may be dropped one by one: where each value has its measures, there
    /// is memory to note in what order they came, and since they were last made anew no more than a sixteenth of the table's places would
    /// be lost by it, and none of those that the map ever used. A value that is dropped so may leave its place lost.
    pub fn may_drop<K: Twin + Eq + Hash, L: Bottom>(&mut self, map: &MapOf<K, L>, most: u64) -> bool
        ensures column { self.new.measures.items ≡ self.old.measures.items }
        ensures other { self.new.others.items ≡ self.old.others.items }
        ensures measures { (self.new.measure ≡ self.old.measure) × (self.new.other ≡ self.old.other) }
        ensures kept { result ≡ true → MayLose (low_count most self.old.others.items) (length map.now.entries + map.now.spare)
            self.old.held self.old.room }
    {
        let count = map.entries.len();
        if self.measures.len() != count || self.others.len() != count {
            return false;
        }
        let low = self.others.iter().filter(|other| **other <= most).count();
        let places = map.entries.capacity();
        // A call that made room and brought nothing counted no places.
        let room = self.room.max(places);
        let wanted = self.held.max(room - room / 16);
        low <= places
            && wanted <= places - low
            && (low == 0 || self.coming.begin(self.measures.as_slice()))
    }

    /// Leaves out of the order in which values came those that pass a test, before a pass drops them that keeps the others as they stand.
    /// Of those with a second measure above a bound it is known that they don't pass: they are not looked at.
    pub fn leave_out<K: Twin + Eq + Hash, L: Bottom, T: Test<L>>(
        &mut self,
        map: &MapOf<K, L>,
        most: u64,
        test: &T,
    )
        ensures column { self.new.measures.items ≡ self.old.measures.items }
        ensures other { self.new.others.items ≡ self.old.others.items }
        ensures measures { (self.new.measure ≡ self.old.measure) × (self.new.other ≡ self.old.other) }
    {
        self.coming
            .leave_out(map, self.others.as_slice(), most, test);
    }
}

impl<K: Twin + Eq + Hash, L: Bottom> MapOf<K, L> {
    /// Whether a value stands at a place that passes a test.
    pub(crate) fn passes_at<T: Test<L>>(&self, place: usize, test: &T) -> bool {
        match self.entries.get_index(place) {
            None => false,
            Some((_, value)) => test.passes(value),
        }
    }

    /// Drops what stands at a place. The last takes its place.
    fn drop_at<M: Measure<L>, N: Measure<L>>(&mut self, column: &mut Column<M, N>, place: usize)
        requires place { place < length self.old.entries }
        requires column { IsColumn (M.measured column.old.measure) self.old.entries column.old.measures.items }
        requires other { IsColumn (N.measured column.old.other) self.old.entries column.old.others.items }
        ensures dropped { IfSome (slice_get self.old.entries place) (λ e.
            (q : K) → get K.eq self.new q ≡ cond (K.eq e.0 q) None (get K.eq self.old q)) }
        ensures swapped { SwappedOut self.old.entries self.new.entries place (length self.old.entries - 1) }
        ensures fewer { length self.new.entries + 1 ≡ length self.old.entries }
        ensures room { self.old.spare ≤ self.new.spare }
        ensures column { IsColumn (M.measured column.new.measure) self.new.entries column.new.measures.items }
        ensures other { IsColumn (N.measured column.new.other) self.new.entries column.new.others.items }
        ensures measures { (column.new.measure ≡ column.old.measure) × (column.new.other ≡ column.old.other) }
    {
        let last = self.entries.len() - 1;
        let _ = self.entries.swap_remove_index(place);
        column.swap_out(place, last);
    }

    /// Drops the values that pass a test, which have their second measure at a bound or below, and gives the least second measure of the
    /// others, 2^64 - 1 where there is none. It passes over the column, and looks at the values that have no measure there or a low
    /// one; the last value of all takes the place of each that is dropped. It takes no memory. [`Column::may_drop`] is asked first: else
    /// it is lost which value came first.
    pub fn drop_low<T: Test<L>, M: Measure<L>, N: Measure<L>>(
        &mut self,
        column: &mut Column<M, N>,
        most: u64,
        test: &T,
    ) -> u64
        requires low { (v : L) → T.passing test.now v ≡ true → N.measured column.old.other v ≤ most }
        requires column { IsColumn (M.measured column.old.measure) self.old.entries column.old.measures.items }
        requires other { IsColumn (N.measured column.old.other) self.old.entries column.old.others.items }
        ensures dropped { (q : K) → meaning_at L.least L.meaning K.eq self.new q
            ≡ meaning_at L.least (λ v. cond (T.passing test.now v) L.least (L.meaning v)) K.eq self.old q }
        ensures least { (q : K) → IfSome (get K.eq self.new q) (λ v. result ≤ N.measured column.new.other v) }
        ensures column { IsColumn (M.measured column.new.measure) self.new.entries column.new.measures.items }
        ensures other { IsColumn (N.measured column.new.other) self.new.entries column.new.others.items }
        ensures measures { (column.new.measure ≡ column.old.measure) × (column.new.other ≡ column.old.other) }
        ensures no_more { length self.new.entries ≤ length self.old.entries }
        ensures room { self.old.spare ≤ self.new.spare }
    {
        let mut least = u64::MAX;
        let mut place = 0;
        while place < self.entries.len() {
            let (next, lowest) = column.next_low(place, most, least);
            least = lowest;
            place = next;
            let Some((_, value)) = self.entries.get_index(place) else {
                return least;
            };
            let beside = column.other.measure(value);
            if test.passes(value) {
                self.drop_at(column, place);
            } else {
                least = least.min(beside);
                place += 1;
            }
        }
        least
    }
}

/// Exchanges what stands at two places.
fn swap_places<K: Twin + Eq + Hash, L: Bottom>(
    entries: &mut IndexMap<K, L, RandomState>,
    one: usize,
    other: usize,
)
    ensures same { (q : K) → lookup (K.eq q) entries.new.entries ≡ lookup (K.eq q) entries.old.entries }
    ensures as_many { (mine : List (K × L)) → missing K.eq mine entries.new.entries ≡ missing K.eq mine entries.old.entries }
    ensures count { length entries.new.entries ≡ length entries.old.entries }
{
    if one != other && one < entries.len() && other < entries.len() {
        entries.swap_indices(one, other);
    }
}

impl<K: Twin + Eq + Hash, L: Bottom> MapOf<K, L> {
    /// Puts the values in the order in which they came, the first first, and forgets their measures. It takes no memory.
    pub fn settle<M, N>(&mut self, column: &mut Column<M, N>)
        ensures same { (q : K) → get K.eq self.new q ≡ get K.eq self.old q }
        ensures as_many { (mine : List (K × L)) → missing K.eq mine self.new.entries ≡ missing K.eq mine self.old.entries }
        ensures none { column.new.measures.items ≡ [] }
        ensures none_other { column.new.others.items ≡ [] }
        ensures measures { (column.new.measure ≡ column.old.measure) × (column.new.other ≡ column.old.other) }
    {
        column.forget();
        column.coming.close_up();
        for place in 0..self.entries.len() {
            let from = column.coming.swap_in(place);
            swap_places(&mut self.entries, place, from);
        }
        column.coming.end();
    }
}
