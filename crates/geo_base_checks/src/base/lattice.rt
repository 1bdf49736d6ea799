//! Values that join, and maps of them.
ghost use Rattle.std.specs.Prelude.{◌≡◌, Option, None, Some, refl, false, nat_lt};
ghost use Rattle.geo_maps.specs.Maps.{meaning_or};
ghost use Rattle.geo_lattice.specs.declared.lww.Lww.{Lww};

use crate::base::text::{Row, check, join, numbers, show_number, show_numbers};
use geo_lattice::{
    Bottom, Change, Glance, Items, Lattice, Lww, Max, Measure, Pair, Show, Test, Twin,
};
use geo_maps::MapOf;
use std::alloc::{AllocError, Global};
use std::hash::RandomState;
use std::process::Abort;
use std::test::Fail;

mod column;
mod dropping;
mod table;

use table::{MAPS, MapRow, NUMBERS, PAIRS, REGISTERS, Step, TWINS};

#[derive(Clone, Copy, Debug, PartialEq, Eq, PartialOrd, Ord, Hash)]
struct Name(u64);

impl Twin for Name {
    fn twin(&self, _alloc: Global) -> Result<Self, AllocError> {
        Ok(*self)
    }
}

type Register = Lww<u64, u64>;

type Map = MapOf<Name, Register>;

/// Empties each register.
struct Emptied;

impl Change<Register> for Emptied {
    ghost changed = { λ _ _. record { register = None } };

    fn change(&self, value: &mut Register) {
        *value = Lww::none();
    }
}

/// Leaves each register as it is.
struct AsItIs;

impl Change<Register> for AsItIs {
    ghost changed = { λ _ r. r };

    fn change(&self, _value: &mut Register) {}
}

impl Show<Register> for AsItIs {
    type Item = Register;

    ghost shown = { λ _ r. Some r };

    fn show(&self, value: &Register) -> Option<Register> {
        Some(value.copied())
    }
}

/// Registers with a later stamp.
#[derive(Clone, Copy)]
struct After {
    stamp: u64,
}

impl Glance for After {
    fn remainders(&self) -> u16 {
        u16::MAX
    }
}

impl Test<Register> for After {
    ghost passing = { λ t r. meaning_or false (λ p. nat_lt t.stamp p.0) r.register };

    fn passes(&self, value: &Register) -> bool {
        match value.get() {
            None => false,
            Some((stamp, _)) => self.stamp < *stamp,
        }
    }
}

/// The stamp of a register, 0 where it is empty.
#[derive(Clone, Copy)]
struct StampOf;

impl Measure<Register> for StampOf {
    ghost measured = { λ _ r. meaning_or 0 (λ p. p.0) r.register };

    fn measure(&self, value: &Register) -> u64 {
        match value.get() {
            None => 0,
            Some((stamp, _)) => *stamp,
        }
    }
}

/// A value that is read from a text and shown as one.
trait Told: Bottom {
    fn read(text: &str) -> Self;

    fn tell(&self, out: &mut String) -> Result<(), AllocError>;
}

impl Told for Max {
    fn read(text: &str) -> Self {
        let [number, ..] = numbers(text);
        Max(number)
    }

    fn tell(&self, out: &mut String) -> Result<(), AllocError> {
        show_number(out, self.0)
    }
}

/// A register with this content, an empty one where the stamp is 0.
fn register(stamp: u64, content: u64) -> Register {
    if stamp == 0 {
        return Lww::none();
    }
    Lww::of(stamp, content)
}

impl Told for Register {
    fn read(text: &str) -> Self {
        let [stamp, content, _] = numbers(text);
        register(stamp, content)
    }

    fn tell(&self, out: &mut String) -> Result<(), AllocError> {
        match self.get() {
            None => out.push_str(" -"),
            Some((stamp, content)) => show_numbers(out, &[*stamp, *content]),
        }
    }
}

impl<A: Told, B: Told> Told for Pair<A, B> {
    fn read(text: &str) -> Self {
        match text.split_once('/') {
            None => Pair::bottom(),
            Some((left, right)) => Pair {
                left: A::read(left),
                right: B::read(right),
            },
        }
    }

    fn tell(&self, out: &mut String) -> Result<(), AllocError> {
        self.left.tell(out)?;
        self.right.tell(out)
    }
}

/// Joins what a text says, and shows whether it was known and what is there then.
fn joined<L: Told>(out: &mut String, mine: &mut L, text: &str) -> Result<(), AllocError> {
    join(out, mine, L::read(text))?;
    mine.tell(out)?;
    if mine.is_bottom() {
        return out.push_str(" empty");
    }
    Ok(())
}

/// Joins one row after another, beginning with the empty value.
fn join_rows<L: Told>(rt: &impl Abort, out: &mut String, rows: &[Row]) -> Result<(), AllocError> {
    let mut mine = L::bottom();
    for (text, want) in rows {
        out.clear();
        joined(out, &mut mine, text)?;
        check(rt, out.as_str(), want);
    }
    Ok(())
}

/// Shows a register, by a copy and by a twin.
fn show_registers(out: &mut String, register: &Register) -> Result<(), AllocError> {
    register.copied().tell(out)?;
    register.twin(*out.allocator())?.tell(out)
}

/// Shows the twin of a pair, and whether it covers the pair.
fn show_pair(out: &mut String, pair: &Pair<Register, Register>) -> Result<(), AllocError> {
    let twin = pair.twin(*out.allocator())?;
    twin.tell(out)?;
    if twin.covers(pair) && !twin.is_bottom() {
        return out.push_str(" covers");
    }
    Ok(())
}

fn show_names(out: &mut String, names: &[Name]) -> Result<(), AllocError> {
    for name in names {
        show_number(out, name.0)?;
    }
    Ok(())
}

/// Shows a list, and what its twin gives back.
fn show_items(out: &mut String, items: &Items<Name>) -> Result<(), AllocError> {
    show_names(out, items.as_slice())?;
    let twin = items.twin(*out.allocator())?;
    show_names(out, twin.into_vec().as_slice())
}

fn show_twins(out: &mut String) -> Result<(), AllocError> {
    let alloc = *out.allocator();
    show_registers(out, &Lww::of(3, 4))?;
    out.push_str(";")?;
    show_pair(out, &Pair::read("1.2/-"))?;
    out.push_str(";")?;
    show_items(out, &Items::of([Name(1), Name(2)].to_vec(alloc)?))?;
    out.push_str(";")?;
    if let Some((first, second)) = Some((Name(1), Name(2))).twin(alloc)? {
        show_names(out, &[first, second])?;
    }
    Ok(())
}

#[test]
fn values_join_and_twins_are_equal(rt: HostRuntime) -> Result<(), Fail> {
    let mut out = String::new(rt.alloc());
    join_rows::<Max>(&rt, &mut out, NUMBERS)?;
    join_rows::<Register>(&rt, &mut out, REGISTERS)?;
    join_rows::<Pair<Max, Register>>(&rt, &mut out, PAIRS)?;
    out.clear();
    show_twins(&mut out)?;
    check(&rt, out.as_str(), TWINS);
    Ok(())
}

/// Puts each value that a text has for a name.
fn put_all(alloc: Global, map: &mut Map, text: &str) -> Result<(), AllocError> {
    for entry in text.split(' ') {
        let [name, stamp, content] = numbers(entry);
        map.put(alloc, &Name(name), register(stamp, content))?;
    }
    Ok(())
}

/// A map of the values that a text has.
fn map_of(alloc: Global, hasher: RandomState, text: &str) -> Result<Map, AllocError> {
    let mut map = MapOf::with_hasher(alloc, hasher);
    put_all(alloc, &mut map, text)?;
    Ok(map)
}

/// A list of the values that a text has.
fn list_of(alloc: Global, text: &str) -> Result<Vec<(Name, Register)>, AllocError> {
    let mut list = Vec::new(alloc);
    for entry in text.split(' ') {
        let [name, stamp, content] = numbers(entry);
        list.push((Name(name), register(stamp, content)))?;
    }
    Ok(list)
}

/// Joins what is shown of another map.
fn join_shown(out: &mut String, map: &mut Map, part: Map) -> Result<(), AllocError> {
    let is_known = map.covers_shown(&part, &AsItIs);
    map.ready(*out.allocator(), &part)?;
    map.join_changed(part, &AsItIs);
    out.push_str(if is_known { "known" } else { "news" })
}

fn join_list(map: &mut Map, list: Vec<(Name, Register)>) -> Result<(), AllocError> {
    map.ready_list(list.as_slice())?;
    map.join_list(list, &AsItIs);
    Ok(())
}

/// Joins one value where there is one already.
fn join_at(out: &mut String, map: &mut Map, text: &str) -> Result<(), AllocError> {
    let [name, stamp, content] = numbers(text);
    let name = Name(name);
    if map.get(&name).is_none() {
        return out.push_str("missing");
    }
    map.join_at(&name, register(stamp, content));
    Ok(())
}

/// A name whose stamp is later.
fn found(map: &Map, stamp: u64) -> Option<u64> {
    let name = map.found(&After { stamp })?;
    Some(name.0)
}

fn show_found(out: &mut String, map: &Map, text: &str) -> Result<(), AllocError> {
    let [stamp, ..] = numbers(text);
    match found(map, stamp) {
        None => out.push_str("none"),
        Some(name) => show_number(out, name),
    }
}

fn show_listed(out: &mut String, map: &Map) -> Result<(), AllocError> {
    let listed = map.listed(*out.allocator(), &AsItIs)?;
    for (name, register) in &listed {
        show_number(out, name.0)?;
        register.tell(out)?;
    }
    Ok(())
}

fn step(
    out: &mut String,
    map: &mut Map,
    hasher: RandomState,
    step: Step,
    text: &str,
) -> Result<(), AllocError> {
    let alloc = *out.allocator();
    match step {
        Step::Put => put_all(alloc, map, text),
        Step::Ready => map.ready(alloc, &map_of(alloc, hasher, text)?),
        Step::Join => join(out, map, map_of(alloc, hasher, text)?),
        Step::JoinShown => join_shown(out, map, map_of(alloc, hasher, text)?),
        Step::ReadyList => map.ready_list(list_of(alloc, text)?.as_slice()),
        Step::JoinList => join_list(map, list_of(alloc, text)?),
        Step::JoinAt => join_at(out, map, text),
        Step::Found => show_found(out, map, text),
        Step::Least => show_number(out, map.least(&StampOf)),
        Step::Listed => show_listed(out, map),
        Step::Empty => {
            map.change_all(&Emptied);
            Ok(())
        }
    }
}

/// Shows how many names have a value, and the value of each name below 10.
fn show_map(out: &mut String, map: &Map) -> Result<(), AllocError> {
    write!(out, ":{}", map.len())?;
    for name in 0..10 {
        if let Some(register) = map.get(&Name(name)) {
            write!(out, ", {name}")?;
            register.tell(out)?;
        }
    }
    Ok(())
}

fn map_rows(
    rt: &impl Abort,
    out: &mut String,
    hasher: RandomState,
    rows: &[MapRow],
) -> Result<(), AllocError> {
    let mut map = MapOf::with_hasher(*out.allocator(), hasher);
    for (what, text, want) in rows {
        out.clear();
        step(out, &mut map, hasher, *what, text)?;
        show_map(out, &map)?;
        check(rt, out.as_str(), want);
    }
    Ok(())
}

#[test]
fn maps_join_name_by_name(rt: HostRuntime) -> Result<(), Fail> {
    let hasher = RandomState::new(&rt)?;
    let mut out = String::new(rt.alloc());
    for rows in MAPS {
        map_rows(&rt, &mut out, hasher, rows)?;
    }
    Ok(())
}
