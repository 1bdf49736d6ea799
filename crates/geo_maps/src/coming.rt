//! In what order values came.
ghost use Rattle.std.specs.Prelude.{◌≡◌, ◌≤◌, ℕ, Some, MatchOption, true, length, slice_get};
ghost use Rattle.geo_maps.specs.Maps.{HasAll};

use crate::map_of::MapOf;
use geo_lattice::{Bottom, Test, Twin};
use std::alloc::Global;
use std::hash::Hash;

/// Of so many values that came one after another, one bound is kept below all their measures.
const BLOCK: usize = 32;

/// Stands in the order for a value that went.
const GONE: usize = usize::MAX;

/// In what order the values came, by their places, of as many from the first on as there was memory for. It is noted from the time on
/// at which a value is moved first: until then they came in the order in which they stand, and so did those without a note. It decides
/// which of several values that would do is given, of which no contract speaks; a list of all goes by it only where it is seen to have
/// each of them.
#[derive(Drop)]
pub(crate) struct Coming {
    /// The places of the values in the order in which they came.
    order: Vec<usize>,
    /// Where in that order the value at a place stands.
    came: Vec<usize>,
    /// So many from the first on went.
    gone: usize,
    /// What is known of each block of the order, of as many from the first on as there was memory for.
    blocks: Vec<Block>,
}

/// What no measure of a block is below, and no remainder by 16 of one is but for these, each a bit.
#[derive(Clone, Copy)]
struct Block {
    lowest: u64,
    remainders: u16,
}

impl Block {
    /// No measures.
    fn none() -> Block {
        Block {
            lowest: u64::MAX,
            remainders: 0,
        }
    }

    /// With one measure more.
    fn with(self, measured: u64) -> Block {
        Block {
            lowest: self.lowest.min(measured),
            remainders: self.remainders | remainder_of(measured),
        }
    }

    /// With a value of which nothing is known.
    fn with_unknown() -> Block {
        Block {
            lowest: 0,
            remainders: u16::MAX,
        }
    }

    /// Whether no measure is below a bound and has one of these remainders.
    fn is_high(&self, bound: u64, remainders: u16) -> bool {
        self.lowest >= bound || self.remainders & remainders == 0
    }
}

/// The remainder by 16 of a measure as a bit. The greatest number is below no bound.
fn remainder_of(measured: u64) -> u16 {
    if measured == u64::MAX {
        return 0;
    }
    1 << (measured % 16)
}

/// Whether something stands at a place whose measure is below a bound and may pass, or isn't known.
fn is_worth(place: usize, bound: u64, remainders: u16, measures: &[u64]) -> bool {
    match measures.get(place) {
        None => place != GONE,
        Some(measured) => *measured < bound && remainder_of(*measured) & remainders != 0,
    }
}

/// The measure at a place, 0 where there is none.
fn measure_at(measures: &[u64], place: usize) -> u64 {
    measures.get(place).copied().unwrap_or(0)
}

impl Coming {
    pub(crate) fn new(alloc: Global) -> Coming {
        Coming {
            order: Vec::new(alloc),
            came: Vec::new(alloc),
            gone: 0,
            blocks: Vec::new(alloc),
        }
    }

    /// Notes the order of all values, which have these measures, and tells whether there was memory for it.
    pub(crate) fn begin(&mut self, measures: &[u64]) -> bool {
        if self.came.is_empty() {
            let count = measures.len();
            if self.order.reserve(count).is_err() || self.came.reserve(count).is_err() {
                return false;
            }
            for place in 0..count {
                self.append(place);
            }
            self.change_all(measures);
        }
        self.came.len() == measures.len()
    }

    /// The value at this place has come, where those before it are noted.
    fn append(&mut self, place: usize) {
        if place != self.came.len()
            || self.order.reserve(1).is_err()
            || self.came.reserve(1).is_err()
        {
            return;
        }
        let index = self.order.len();
        let _ = self.order.push(place);
        let _ = self.came.push(index);
    }

    /// The value at this place has come with this measure, where those before it are noted.
    pub(crate) fn push(&mut self, place: usize, measured: u64) {
        if self.came.is_empty() {
            return;
        }
        let index = self.order.len();
        self.append(place);
        if let Some(block) = self.blocks.get_mut(index / BLOCK) {
            *block = block.with(measured);
        } else if index % BLOCK == 0 && self.blocks.len() == index / BLOCK {
            let _ = self.blocks.push(Block::none().with(measured));
        }
    }

    /// The measure of the value at a place is another than before.
    pub(crate) fn change(&mut self, place: usize, before: u64, measures: &[u64]) {
        let Some(index) = self.came.get(place) else {
            return;
        };
        let number = *index / BLOCK;
        let Some(block) = self.blocks.get_mut(number) else {
            return;
        };
        let measured = measure_at(measures, place);
        // One that has no bound any more may have been the only one with its remainder.
        let was_first = before <= block.lowest || measured == u64::MAX;
        if was_first && before < measured {
            self.take_block(number, measures);
        } else {
            *block = block.with(measured);
        }
    }

    /// What is to be known of a block.
    fn block_of(&self, number: usize, measures: &[u64]) -> Block {
        let mut block = Block::none();
        let first = number.saturating_mul(BLOCK);
        for index in first..first.saturating_add(BLOCK).min(self.order.len()) {
            let place = self.place(index);
            match measures.get(place) {
                Some(measured) => block = block.with(*measured),
                None if place == GONE => (),
                None => return Block::with_unknown(),
            }
        }
        block
    }

    /// Looks anew at a block.
    fn take_block(&mut self, number: usize, measures: &[u64]) {
        let taken = self.block_of(number, measures);
        if let Some(block) = self.blocks.get_mut(number) {
            *block = taken;
        }
    }

    /// All measures may be others than before. The values without a note came last, as they stand.
    pub(crate) fn change_all(&mut self, measures: &[u64]) {
        if self.came.is_empty() {
            return;
        }
        for place in self.came.len()..measures.len() {
            self.append(place);
        }
        self.blocks.clear();
        for number in 0..self.order.len().div_ceil(BLOCK) {
            let block = self.block_of(number, measures);
            if self.blocks.push(block).is_err() {
                return;
            }
        }
    }

    /// No measures are known any more, but the order stays.
    pub(crate) fn forget(&mut self) {
        self.blocks.clear();
    }

    /// How far the order goes.
    pub(crate) fn len(&self) -> usize
        ensures { result ≡ length self.now.order.items }
    {
        self.order.len()
    }

    /// The place of what stands somewhere in the order, [`GONE`] where it went.
    pub(crate) fn place(&self, index: usize) -> usize {
        self.order.get(index).copied().unwrap_or(GONE)
    }

    /// Whether each of so many values stands where the order says that it came.
    pub(crate) fn has_all(&self, count: usize) -> bool
        ensures { result ≡ true → HasAll self.now.order.items self.now.came.items count }
    {
        for place in 0..count {
            let Some(index) = self.came.get(place) else {
                return false;
            };
            let Some(stands) = self.standing(*index) else {
                return false;
            };
            if stands != place {
                return false;
            }
        }
        true
    }

    /// The place of the value that came somewhere in the order, if it is there still.
    pub(crate) fn standing(&self, index: usize) -> Option<usize>
        ensures { MatchOption result
            ((p : ℕ) → slice_get self.now.order.items index ≡ Some p → slice_get self.now.came.items p ≡ Some index → ⊥)
            (λ p. (slice_get self.now.order.items index ≡ Some p) × (slice_get self.now.came.items p ≡ Some index)) }
    {
        let place = *self.order.get(index)?;
        let came = *self.came.get(place)?;
        if came == index { Some(place) } else { None }
    }

    /// Where in the order, from somewhere on, what has a measure below a bound and one of these remainders stands next. Blocks without
    /// one are not looked at.
    pub(crate) fn next_below(
        &self,
        from: usize,
        bound: u64,
        remainders: u16,
        measures: &[u64],
    ) -> usize
        ensures on { from ≤ result }
    {
        let mut index = from;
        while index < self.order.len() {
            if index % BLOCK == 0 && self.is_high(index / BLOCK, bound, remainders) {
                index = index.saturating_add(BLOCK);
            } else {
                if is_worth(self.place(index), bound, remainders, measures) {
                    return index;
                }
                index += 1;
            }
        }
        index
    }

    /// Whether no measure of a block is below a bound and has one of these remainders.
    fn is_high(&self, number: usize, bound: u64, remainders: u16) -> bool {
        match self.blocks.get(number) {
            Some(block) => block.is_high(bound, remainders),
            None => false,
        }
    }

    /// Counts those that went before all that are there. One goes but once.
    fn pass_gone(&mut self) {
        for index in self.gone..self.order.len() {
            if self.place(index) != GONE {
                return;
            }
            self.gone = index + 1;
        }
    }

    /// Where in the order, from the first that is there on, what has a measure below a bound stands first.
    pub(crate) fn first_below(&self, bound: u64, remainders: u16, measures: &[u64]) -> usize {
        // From a block's first on, so that what is known of it is asked.
        self.next_below(self.gone / BLOCK * BLOCK, bound, remainders, measures)
    }

    /// The value at a place went, which had this measure, and the last took its place.
    pub(crate) fn swap_out(&mut self, place: usize, went: u64, measures: &[u64]) {
        if place >= self.came.len() {
            return;
        }
        let index = self.came.swap_remove(place);
        if let Some(moved) = self.came.get(place) {
            if let Some(stands) = self.order.get_mut(*moved) {
                *stands = place;
            }
        }
        if let Some(stood) = self.order.get_mut(index) {
            *stood = GONE;
        }
        self.pass_gone();
        let number = index / BLOCK;
        // Where what went had the greatest measure of all, no number is too low without it.
        if went < u64::MAX && self.is_high(number, went, u16::MAX) {
            self.take_block(number, measures);
        }
        if self.order.len() / 2 > self.came.len().saturating_add(BLOCK) {
            self.close_up();
            self.change_all(measures);
        }
    }

    /// Leaves no place in the order to what went, and forgets the measures.
    pub(crate) fn close_up(&mut self) {
        let mut kept = 0;
        for index in 0..self.order.len() {
            let place = self.place(index);
            if let Some(came) = self.came.get_mut(place) {
                *came = kept;
                self.order[kept] = place;
                kept += 1;
            }
        }
        self.order.truncate(kept);
        self.gone = 0;
        self.forget();
    }

    /// What came so many places behind the first is to stand so many places behind the first: gives the place where it stands, where
    /// that is noted, else this one. What stood there changes places with it.
    pub(crate) fn swap_in(&mut self, place: usize) -> usize {
        let (Some(from), Some(stood)) = (self.order.get(place), self.came.get(place)) else {
            return place;
        };
        let (from, stood) = (*from, *stood);
        if let Some(stands) = self.order.get_mut(stood) {
            *stands = from;
        }
        if let Some(came) = self.came.get_mut(from) {
            *came = stood;
        }
        from
    }

    /// The values stand in the order in which they came.
    pub(crate) fn end(&mut self) {
        self.order.clear();
        self.came.clear();
        self.gone = 0;
        self.blocks.clear();
    }

    /// Leaves out the values that pass a test, where the others stay in the order in which they stand.
    /// Those with a measure above a bound are known not to pass.
    pub(crate) fn leave_out<K: Twin + Eq + Hash, L: Bottom, T: Test<L>>(
        &mut self,
        map: &MapOf<K, L>,
        measures: &[u64],
        most: u64,
        test: &T,
    ) {
        let mut kept = 0;
        for place in 0..self.came.len() {
            let index = self.came[place];
            let passes = measure_at(measures, place) <= most && map.passes_at(place, test);
            if let Some(stands) = self.order.get_mut(index) {
                *stands = if passes { GONE } else { kept };
            }
            if !passes {
                self.came[kept] = index;
                kept += 1;
            }
        }
        self.came.truncate(kept);
        self.close_up();
    }
}
