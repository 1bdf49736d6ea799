//! All steps, and each seat's.
ghost use Rattle.std.specs.Prelude.{◌≡◌, ◌+◌, ◌∷◌, ◌++◌, [], ◌<◌, IfSome, IfNone, IfOk};
ghost use mathlib.Core.List.{IsPrefix};
ghost use Rattle.geo_history.specs.Replays.{steps_of};
ghost use Rattle.geo_journal.specs.Views.{keeper, sitter, holder, Agrees};

use crate::table::{Appends, Checks, Gives, Meets, Parts, Pass, Room, Start, Ties};
use geo_history::Step;
use std::alloc::{AllocError, Global};
use std::marker::{Model, PhantomData};

/// The most seats of a journal.
const MOST_SEATS: u64 = 256;

/// A new table, with the pass that keeps the empty history.
fn ties(alloc: Global, start: Start) -> Result<(Ties, Pass), AllocError>
    ensures table { IfOk result (λ r. (r.0.shared.table_id.words ≡ 1) × (r.1.table_id ≡ r.0.shared.table_id)) }
    ensures keeper { IfOk result (λ r. r.1.me ≡ (keeper start [] 0, [])) }
{
    Ties::of_words(alloc, &[0], &start)
}

/// Puts a step of a seat into the history.
fn append(table: &Ties, kept: &mut Pass, pass: &mut Pass, step: &Step)
    requires table { (0 < table.now.shared.table_id.words) × (kept.old.table_id ≡ table.now.shared.table_id)
        × (pass.old.table_id ≡ table.now.shared.table_id) }
    requires keeper { kept.old.me ≡ (keeper kept.old.me.0.opened kept.old.me.0.all kept.old.me.0.given, []) }
    requires pass { pass.old.me ≡ (sitter pass.old.me.0.start step.now.seat pass.old.me.0.own pass.old.me.0.seen, []) }
    ensures table { (kept.new.table_id ≡ kept.old.table_id) × (pass.new.table_id ≡ pass.old.table_id) }
    ensures keeper { kept.new.me ≡ (keeper kept.old.me.0.opened (kept.old.me.0.all ++ step.now ∷ []) kept.old.me.0.given, []) }
    ensures pass { pass.new.me ≡ (
      sitter pass.old.me.0.start step.now.seat (pass.old.me.0.own ++ step.now ∷ [])
          (kept.old.me.0.all ++ step.now ∷ []),
      [],
    ) }
    ensures agrees { (pass.old.me.0.own ≡ steps_of step.now.seat kept.old.me.0.all) × IsPrefix pass.old.me.0.seen kept.old.me.0.all
        × (pass.old.me.0.start ≡ kept.old.me.0.opened) }
{
    let whole = table.shared.split_seat::<Parts>(kept);
    table.shared.join_seat::<Meets>(pass, whole);
    table
        .shared
        .compare_exchange_with::<Appends>(pass, 0, 0, 0, step);
    *kept = table.shared.split_seat::<Parts>(pass);
}

/// Compares a seat with the history.
fn compare(table: &Ties, kept: &mut Pass, pass: &mut Pass)
    requires table { (0 < table.now.shared.table_id.words) × (kept.old.table_id ≡ table.now.shared.table_id)
        × (pass.old.table_id ≡ table.now.shared.table_id) }
    requires keeper { kept.old.me ≡ (keeper kept.old.me.0.opened kept.old.me.0.all kept.old.me.0.given, []) }
    requires pass { pass.old.me ≡ (sitter pass.old.me.0.start pass.old.me.0.seat pass.old.me.0.own pass.old.me.0.seen, []) }
    ensures table { (kept.new.table_id ≡ kept.old.table_id) × (pass.new.table_id ≡ pass.old.table_id) }
    ensures same { (kept.new.me ≡ kept.old.me) × (pass.new.me ≡ pass.old.me) }
    ensures agrees { (pass.old.me.0.own ≡ steps_of pass.old.me.0.seat kept.old.me.0.all) × IsPrefix pass.old.me.0.seen kept.old.me.0.all
        × (pass.old.me.0.start ≡ kept.old.me.0.opened) }
{
    let whole = table.shared.split_seat::<Parts>(kept);
    table.shared.join_seat::<Meets>(pass, whole);
    table.shared.load::<Checks>(pass, 0);
    *kept = table.shared.split_seat::<Parts>(pass);
}

/// Gives a seat.
fn give_pass(table: &Ties, kept: &mut Pass) -> Pass
    requires table { (0 < table.now.shared.table_id.words) × (kept.old.table_id ≡ table.now.shared.table_id) }
    requires keeper { kept.old.me ≡ (keeper kept.old.me.0.opened kept.old.me.0.all kept.old.me.0.given, []) }
    ensures table { (kept.new.table_id ≡ kept.old.table_id) × (result.table_id ≡ kept.old.table_id) }
    ensures keeper { kept.new.me ≡ (keeper kept.old.me.0.opened kept.old.me.0.all (kept.old.me.0.given + 1), []) }
    ensures pass { result.me ≡ (sitter kept.old.me.0.opened kept.old.me.0.given [] [], []) }
{
    table.shared.split_seat::<Gives>(kept)
}

/// An empty history, which no type stands for yet.
#[derive(Drop)]
pub struct Unnamed {
    table: Ties,
    kept: Pass,
    start: Start,
}

impl Model for Unnamed {
    ghost use Rattle.std.specs.Prelude.{◌≡◌, []};
    ghost use Rattle.geo_journal.specs.Marks.{Fresh};
    ghost use Rattle.geo_journal.specs.Views.{keeper};

    ghost Value = { Fresh };

    ghost view = { λ u. record { table = u.table.shared.table_id; start = u.start } };

    ghost invariant = { λ u. (u.table.shared.table_id.words ≡ 1) × (u.kept.table_id ≡ u.table.shared.table_id)
        × (u.kept.me ≡ (keeper u.start [] 0, [])) };
}

impl Unnamed {
    /// It takes 8 bytes of memory.
    pub fn new(alloc: Global, start: Start) -> Result<Unnamed, AllocError>
        ensures { IfOk result (λ fresh. fresh.start ≡ start) }
    {
        let (table, kept) = ties(alloc, start)?;
        Ok(Unnamed { table, kept, start })
    }

    /// The same, under the name of its table.
    pub fn named<B: Room>(self) -> Journal<B>
        requires { self.table ≡ B.table }
        ensures { result ≡ record { start = self.start; steps = []; given = 0 } }
    {
        let Unnamed { table, kept, start } = self;
        Journal {
            table,
            kept,
            start,
            given: 0,
            room: PhantomData,
        }
    }
}

/// All steps that were noted, to contracts alone, what the site was told at its start, and how many seats were given.
#[derive(Drop)]
pub struct Journal<B: Room> {
    table: Ties,
    kept: Pass,
    start: Start,
    given: u64,
    room: PhantomData<B>,
}

impl<B: Room> Model for Journal<B> {
    ghost use Rattle.std.specs.Prelude.{◌≡◌, ◌≤◌, []};
    ghost use Rattle.geo_journal.specs.Marks.{Noted};
    ghost use Rattle.geo_journal.specs.Views.{keeper};

    ghost Value = { Noted };

    ghost view = { λ j. record { start = j.start; steps = j.kept.me.0.all; given = j.given } };

    ghost invariant = { λ j. (j.table.shared.table_id.words ≡ 1) × (j.table.shared.table_id ≡ B.table) × (j.kept.table_id ≡ B.table)
        × (j.kept.me ≡ (keeper j.start j.kept.me.0.all j.given, [])) × (j.given ≤ 256) };
}

/// What a seat has: its number, and what its site was told at its start. Contracts see its steps, too, and what it has seen of the history.
#[derive(Drop)]
pub struct Mark<B: Room> {
    start: Start,
    number: u64,
    pass: Pass,
    room: PhantomData<B>,
}

impl<B: Room> Model for Mark<B> {
    ghost use Rattle.std.specs.Prelude.{◌≡◌, ◌<◌, []};
    ghost use Rattle.geo_journal.specs.Marks.{Marked};
    ghost use Rattle.geo_journal.specs.Views.{sitter};

    ghost Value = { Marked };

    ghost view = { λ m. record { start = m.start; number = m.number; own = m.pass.me.0.own; seen = m.pass.me.0.seen } };

    ghost invariant = { λ m. (m.pass.table_id ≡ B.table) × (m.pass.me ≡ (sitter m.start m.number m.pass.me.0.own m.pass.me.0.seen, []))
        × (m.number < 256) };
}

impl<B: Room> Mark<B> {
    /// The seat's number, 0 to 255.
    pub fn number(&self) -> u8
        ensures { result ≡ self.now.number }
    {
        self.number as u8
    }
}

impl<B: Room> Journal<B> {
    ghost use Rattle.geo_journal.specs.Marks.{Agree, with_step, marked_with, with_seat, new_mark};

    /// How many seats were given.
    pub fn given(&self) -> u64
        ensures { result ≡ self.now.given }
    {
        self.given
    }

    /// The mark of a seat that was not given yet, by rising number from 0; None where 256 were given.
    pub fn give(&mut self) -> Option<Mark<B>>
        ensures given { IfSome result (λ mark. (mark ≡ new_mark self.old) × (self.new ≡ with_seat self.old)) }
        ensures none { IfNone result ((self.old.given ≡ 256) × (self.new ≡ self.old)) }
    {
        if self.given == MOST_SEATS {
            return None;
        }
        let number = self.given;
        let pass = give_pass(&self.table, &mut self.kept);
        self.given += 1;
        Some(Mark {
            start: self.start,
            number,
            pass,
            room: PhantomData,
        })
    }

    /// Notes a step of the seat that has the mark. It takes no memory.
    pub fn note(&mut self, mark: &mut Mark<B>, step: &Step)
        requires own { step.now.seat ≡ mark.old.number }
        ensures all { self.new ≡ with_step self.old step.now }
        ensures mark { mark.new ≡ marked_with self.old mark.old step.now }
        ensures agree { Agree self.old mark.old }
    {
        append(&self.table, &mut self.kept, &mut mark.pass, step);
    }

    /// Compares a seat with the history, which has just its steps.
    pub fn compare(&mut self, mark: &mut Mark<B>)
        ensures same { (self.new ≡ self.old) × (mark.new ≡ mark.old) }
        ensures agree { Agree self.old mark.old }
    {
        let _number = mark.number;
        compare(&self.table, &mut self.kept, &mut mark.pass);
    }
}
