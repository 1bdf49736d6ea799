//! What a removal drops one by one beside a column, and in a pass over all as it was done before there were columns: the same is left,
//! and the same is found first.
ghost use Rattle.std.specs.Prelude.{ℕ, None, cond, nat_le, nat_lt, nat_eq, ◌&&◌, ◌%◌, false};
ghost use Rattle.geo_maps.specs.Maps.{IsColumn, meaning_or};
ghost use Rattle.geo_lattice.specs.declared.lww.Lww.{Lww};

use crate::base::lattice::{After, AsItIs, Map, Name, Register, StampOf, register};
use crate::base::random::Random;
use geo_lattice::{Change, Lww, Measure, Test};
use geo_maps::{Column, MapOf};
use std::alloc::{AllocError, Global};
use std::hash::RandomState;
use std::process::Abort;
use std::test::Fail;

/// Registers with a stamp of at most a bound and an even content, which a removal drops.
#[derive(Clone, Copy)]
struct Spent {
    most: u64,
}

impl Test<Register> for Spent {
    ghost passing = { λ t r. meaning_or false (λ p. nat_le p.0 t.most && nat_eq (p.1 % 2) 0) r.register };

    fn passes(&self, value: &Register) -> bool {
        match value.get() {
            None => false,
            Some((stamp, content)) => *stamp <= self.most && *content % 2 == 0,
        }
    }
}

impl Change<Register> for Spent {
    ghost changed = { λ t r. cond (meaning_or false (λ p. nat_le p.0 t.most && nat_eq (p.1 % 2) 0) r.register)
        (record { register = None }) r };

    fn change(&self, value: &mut Register) {
        if self.passes(value) {
            *value = Lww::none();
        }
    }
}

/// The content of a register, which falls as often as it rises, 0 where there is none.
#[derive(Clone, Copy)]
struct ContentOf;

impl Measure<Register> for ContentOf {
    ghost measured = { λ t r. meaning_or 0 (λ p. p.1) r.register };

    fn measure(&self, value: &Register) -> u64 {
        match value.get() {
            None => 0,
            Some((_, content)) => *content,
        }
    }
}

/// Registers with a content below a bound and a stamp later than one.
#[derive(Clone, Copy)]
struct Below {
    after: After,
    bound: u64,
}

impl Test<Register> for Below {
    ghost passing = { λ t r. nat_lt (meaning_or 0 (λ p. p.1) r.register) t.bound
        && meaning_or false (λ p. nat_lt t.after.stamp p.0) r.register };

    fn passes(&self, value: &Register) -> bool {
        ContentOf.measure(value) < self.bound && self.after.passes(value)
    }
}

/// A map whose values are dropped in passes over all, and one with a column, by which they are dropped one by one where that may be.
#[derive(Drop)]
struct Both {
    walked: Map,
    map: Map,
    column: Column<ContentOf, StampOf>,
    ghost noted: { IsColumn (λ (r : Lww ℕ ℕ). meaning_or 0 (λ p. p.1) r.register) map.entries column.measures.items },
    ghost times: { IsColumn (λ (r : Lww ℕ ℕ). meaning_or 0 (λ p. p.0) r.register) map.entries column.others.items },
}

impl Both {
    fn new(alloc: Global, hasher: RandomState) -> Both {
        Both {
            walked: MapOf::with_hasher(alloc, hasher),
            map: MapOf::with_hasher(alloc, hasher),
            column: Column::new(alloc, ContentOf, StampOf),
        }
    }

    fn put(
        &mut self,
        alloc: Global,
        name: &Name,
        stamp: u64,
        content: u64,
    ) -> Result<(), AllocError> {
        self.walked.put(alloc, name, register(stamp, content))?;
        self.map
            .put_beside(alloc, &mut self.column, name, register(stamp, content))
    }

    /// Forgets the measures: what follows is a pass over all, which takes them anew.
    fn forget(&mut self) {
        self.column.forget();
    }

    /// Puts the values in the order in which they came.
    fn settle(&mut self) {
        self.map.settle(&mut self.column);
    }

    /// Drops what is spent in both, one by one where it may be, and tells whether it was so and whether the least stamp that it tells is
    /// that of what is left.
    fn remove(&mut self, spent: &Spent) -> (bool, bool) {
        self.walked.change_all(spent);
        let may_drop = self.column.may_drop(&self.map, spent.most);
        let least = if may_drop {
            self.map.drop_low(&mut self.column, spent.most, spent)
        } else {
            self.column.leave_out(&self.map, spent.most, spent);
            self.map.change_all(spent);
            self.column.note_all(&self.map, StampOf)
        };
        (may_drop, least == self.walked.least(&StampOf))
    }

    /// Whether the same name is found first with a stamp after one and a content below a bound.
    fn finds_the_same(&self, stamp: u64, bound: u64) -> bool {
        let after = After { stamp };
        let found = self.map.found_below(&self.column, bound, &after);
        found == self.walked.found(&Below { after, bound })
    }

    /// Whether the same is listed of both.
    fn lists_the_same(&self, alloc: Global) -> Result<bool, AllocError> {
        let listed = self.map.listed_beside(alloc, &self.column, &AsItIs)?;
        let walked = self.walked.listed(alloc, &AsItIs)?;
        let pairs = listed.iter().zip(walked.iter());
        Ok(
            listed.len() == walked.len()
                && pairs.fold(true, |same, (one, other)| {
                    same && one.0 == other.0 && one.1.get() == other.1.get()
                }),
        )
    }

    /// Whether a walk finds the same name first in both.
    fn walks_the_same(&self, stamp: u64, bound: u64) -> bool {
        let after = After { stamp };
        self.map.found(&Below { after, bound }) == self.walked.found(&Below { after, bound })
    }
}

/// How many values were dropped one by one, and how many removals passed over all though nothing was forgotten.
#[derive(Clone, Copy)]
struct Counts {
    dropped: u64,
    passes: u64,
}

impl Counts {
    /// Counts a removal, which left so many fewer.
    fn add(&mut self, may_drop: bool, forgot: bool, fewer: u64) {
        if may_drop {
            self.dropped = self.dropped.wrapping_add(fewer);
        } else if !forgot {
            self.passes = self.passes.wrapping_add(1);
        }
    }
}

/// Puts values under some names below a bound, with stamps behind a number.
fn put_some(
    alloc: Global,
    random: &mut Random,
    both: &mut Both,
    names: u64,
    first: u64,
) -> Result<(), AllocError> {
    for _put in 0..random.behind(names / 40, names / 40 + 3) {
        let name = Name(random.below(names));
        let stamp = random.behind(first, 200);
        // What is odd stays, though its stamp is low.
        let odd = u64::from(random.one_in(20));
        let content = random.below(1000).wrapping_mul(2).wrapping_add(odd);
        both.put(alloc, &name, stamp, content)?;
    }
    Ok(())
}

/// Some steps of a map of names below a bound, each compared. Stamps rise with the steps, and what came long ago goes.
fn removals(
    rt: &impl Abort,
    alloc: Global,
    hasher: RandomState,
    seed: u64,
    names: u64,
) -> Result<Counts, AllocError> {
    let mut random = Random { state: seed };
    let mut both = Both::new(alloc, hasher);
    let mut counts = Counts {
        dropped: 0,
        passes: 0,
    };
    for step in 0..600 {
        let first = u64::wrapping_mul(step, 5).wrapping_add(1);
        put_some(alloc, &mut random, &mut both, names, first)?;
        let forgets = step % 40 == 39;
        if step % 80 == 79 {
            both.settle();
            assert!(rt; both.walks_the_same(random.behind(first, 200), random.below(2000)));
        } else if forgets {
            both.forget();
        } else if step % 20 == 19 {
            assert!(rt; both.lists_the_same(alloc)?);
        }
        let reach = if random.one_in(8) { 150 } else { 25 };
        let before = both.map.len();
        let (may_drop, is_least) = both.remove(&Spent {
            most: random.behind(first, reach),
        });
        assert!(rt; is_least);
        assert!(rt; both.map.len() == both.walked.len());
        counts.add(
            may_drop,
            forgets,
            before.saturating_sub(both.map.len()) as u64,
        );
        for _look in 0..8 {
            // Where few are low the first is soon found, and else many are asked before one is late enough.
            let most = if random.one_in(2) { 60 } else { 2000 };
            assert!(rt; both.finds_the_same(random.behind(first, 220), random.below(most)));
        }
    }
    Ok(counts)
}

#[test]
fn dropped_one_by_one_or_in_a_pass_the_same_is_left_and_found(rt: HostRuntime) -> Result<(), Fail> {
    let hasher = RandomState::new(&rt)?;
    for (seed, names) in [(1, 5), (2, 40), (3, 300), (4, 1000)] {
        let counts = removals(&rt, rt.alloc(), hasher, seed, names)?;
        // In a small table each drop would lose too much of it.
        assert!(&rt; counts.passes > 5 && (names < 300 || counts.dropped > 300));
    }
    Ok(())
}

/// Puts a value under each name, with stamps from 1 on.
fn put_all(
    alloc: Global,
    random: &mut Random,
    both: &mut Both,
    names: u64,
) -> Result<(), AllocError> {
    for name in 0..names {
        let content = random.below(1000).wrapping_mul(2);
        both.put(alloc, &Name(name), u64::wrapping_add(name, 1), content)?;
    }
    Ok(())
}

/// Drops what has a stamp up to one: how many values were dropped one by one, None where something else is left in both.
fn dropped_up_to(both: &mut Both, most: u64) -> Option<u64> {
    let before = both.map.len();
    let (may_drop, is_least) = both.remove(&Spent { most });
    if !is_least || both.map.len() != both.walked.len() {
        return None;
    }
    let fewer = before.saturating_sub(both.map.len()) as u64;
    Some(if may_drop { fewer } else { 0 })
}

/// Of many values most go, a few at a time and one by one, so that the order in which they came is closed up, and others come.
fn most_go(
    alloc: Global,
    random: &mut Random,
    both: &mut Both,
    names: u64,
) -> Result<Option<u64>, AllocError> {
    let mut dropped = 0u64;
    for step in 1..66 {
        let Some(fewer) = dropped_up_to(both, u64::wrapping_mul(step, 10)) else {
            return Ok(None);
        };
        dropped = dropped.wrapping_add(fewer);
        put_some(alloc, random, both, 40, u64::wrapping_add(names, step))?;
        if !both.finds_the_same(0, random.below(2000)) || !both.finds_the_same(names, 2000) {
            return Ok(None);
        }
    }
    Ok(if both.lists_the_same(alloc)? {
        Some(dropped)
    } else {
        None
    })
}

#[test]
fn where_most_went_one_by_one_the_others_are_found_in_their_order(
    rt: HostRuntime,
) -> Result<(), Fail> {
    let hasher = RandomState::new(&rt)?;
    for names in [700, 1500] {
        let mut random = Random { state: names };
        let mut both = Both::new(rt.alloc(), hasher);
        put_all(rt.alloc(), &mut random, &mut both, names)?;
        // A pass takes its turn only where the table would lose too many places.
        let dropped = most_go(rt.alloc(), &mut random, &mut both, names)?;
        assert!(&rt; dropped.unwrap_or(0) >= 500);
    }
    Ok(())
}
