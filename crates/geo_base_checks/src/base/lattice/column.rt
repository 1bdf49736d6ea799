//! A column beside a map: the same rows as without one, and what is found by it is what is found without it.
ghost use Rattle.std.specs.Prelude.{ℕ, nat_lt, ◌&&◌, false, None, Some};
ghost use Rattle.geo_maps.specs.Maps.{IsColumn, meaning_or};
ghost use Rattle.geo_lattice.specs.declared.lww.Lww.{Lww};

use crate::base::lattice::table::{MAPS, MapRow, Step};
use crate::base::lattice::{
    After, AsItIs, Map, Name, Register, StampOf, list_of, numbers, register, show_map, step,
};
use crate::base::text::check;
use geo_lattice::Test;
use geo_maps::{Column, MapOf};
use std::alloc::{AllocError, Global};
use std::hash::RandomState;
use std::process::Abort;
use std::test::Fail;

/// A map, and a column of its stamps, which are both of its measures.
#[derive(Drop)]
struct Beside {
    map: Map,
    column: Column<StampOf, StampOf>,
    ghost noted: { IsColumn (λ (r : Lww ℕ ℕ). meaning_or 0 (λ p. p.0) r.register) map.entries column.measures.items },
    ghost times: { IsColumn (λ (r : Lww ℕ ℕ). meaning_or 0 (λ p. p.0) r.register) map.entries column.others.items },
}

/// Registers with a stamp later than one and before another.
#[derive(Clone, Copy)]
pub struct Between {
    pub after: After,
    pub before: u64,
}

impl Test<Register> for Between {
    ghost passing = { λ t r. nat_lt (meaning_or 0 (λ p. p.0) r.register) t.before
        && meaning_or false (λ p. nat_lt t.after.stamp p.0) r.register };

    fn passes(&self, value: &Register) -> bool {
        let stamp = match value.get() {
            None => 0,
            Some((stamp, _)) => *stamp,
        };
        stamp < self.before && self.after.passes(value)
    }
}

impl Beside {
    fn new(alloc: Global, hasher: RandomState) -> Beside {
        Beside {
            map: MapOf::with_hasher(alloc, hasher),
            column: Column::new(alloc, StampOf, StampOf),
        }
    }

    /// Does a step, with what notes the stamps where there is such a call, and else takes them all anew.
    fn step(
        &mut self,
        out: &mut String,
        hasher: RandomState,
        what: Step,
        text: &str,
    ) -> Result<(), AllocError> {
        let alloc = *out.allocator();
        match what {
            Step::Put => {
                for (name, value) in list_of(alloc, text)? {
                    self.map.put_beside(alloc, &mut self.column, &name, value)?;
                }
            }
            Step::JoinList => {
                let list = list_of(alloc, text)?;
                self.map.ready_list(list.as_slice())?;
                self.map.join_list_beside(&mut self.column, list, &AsItIs);
            }
            Step::JoinAt => {
                let [name, stamp, content] = numbers(text);
                if self.map.get(&Name(name)).is_some() {
                    self.map
                        .join_at_beside(&mut self.column, &Name(name), register(stamp, content));
                }
            }
            _ => {
                self.column.forget();
                step(out, &mut self.map, hasher, what, text)?;
                let _least = self.column.note_all(&self.map, StampOf);
            }
        }
        Ok(())
    }

    /// Whether the same name is found by the column as without it, with a stamp after one and before another.
    fn finds_the_same(&self, stamp: u64, before: u64) -> bool {
        let after = After { stamp };
        let found = self.map.found_below(&self.column, before, &after);
        found == self.map.found(&Between { after, before })
    }
}

fn finds_all_the_same(rt: &impl Abort, beside: &Beside) {
    for stamp in 0..10 {
        for before in 0..11 {
            assert!(rt; beside.finds_the_same(stamp, before));
        }
    }
}

fn rows_beside(
    rt: &impl Abort,
    out: &mut String,
    hasher: RandomState,
    rows: &[MapRow],
) -> Result<(), AllocError> {
    let mut beside = Beside::new(*out.allocator(), hasher);
    for (what, text, want) in rows {
        out.clear();
        beside.step(out, hasher, *what, text)?;
        show_map(out, &beside.map)?;
        check(rt, out.as_str(), want);
        finds_all_the_same(rt, &beside);
    }
    // Without measures each value is looked at.
    beside.column.forget();
    finds_all_the_same(rt, &beside);
    Ok(())
}

#[test]
fn a_column_finds_what_a_walk_finds(rt: HostRuntime) -> Result<(), Fail> {
    let hasher = RandomState::new(&rt)?;
    let mut out = String::new(rt.alloc());
    for rows in MAPS {
        rows_beside(&rt, &mut out, hasher, rows)?;
    }
    Ok(())
}
