//! The parcels that were sent so far, and which number each has.
ghost use Rattle.std.specs.Prelude.{◌≡◌, ◌≢◌, [], ◌++◌, map, cond, Some, OnOk, MatchOption, MatchBool, IfOk, option_copied, slice_get};
ghost use Rattle.std.specs.HashMap.{get, IsEmpty};
ghost use Rattle.geo_audit.specs.Runs.{parcel_in, listed};
ghost use Rattle.geo_audit.specs.Merging.{same_mark, mark_of, made_in, made_by, parcel_at, AreLinked, IsSentAs, IsUnsent, AddsPlace, CanGo, Halts};

use geo_delta::Parcel;
use geo_equal::Equal;
use geo_history::History;
use geo_site::{Answer, Event};
use std::alloc::{AllocError, Global};
use std::collections::HashMap;

/// By what a parcel is looked for: its sender, its addressee, and the greatest clock that it tells of.
#[derive(Clone, Copy, PartialEq, Eq, Hash, Drop)]
pub struct Mark {
    from: u8,
    to: u8,
    clock: u64,
}

/// Where the step stands that made a parcel.
#[derive(Drop)]
pub struct Place {
    history: usize,
    step: usize,
    mark: Mark,
    /// The number of the last parcel before it with this mark.
    before: Option<usize>,
}

/// The places of all parcels that were sent, by their numbers.
#[derive(Drop)]
pub struct Sent {
    places: Vec<Place>,
    /// The number of the last parcel with each mark.
    last: HashMap<Mark, usize>,
}

/// The mark of a parcel.
fn mark_of(parcel: &Parcel) -> Mark
    ensures { result ≡ mark_of parcel.now }
{
    Mark {
        from: parcel.from,
        to: parcel.to,
        clock: parcel.upto.greatest(),
    }
}

/// The parcel that was made at a place.
fn made_at<'a>(histories: &'a [History], place: &Place) -> Option<&'a Parcel>
    ensures { option_copied result ≡ parcel_at histories.now place.now }
{
    let history = histories.get(place.history)?;
    let step = history.steps.get(place.step)?;
    match &step.answer {
        Answer::Sent(parcel) => Some(parcel.parcel()),
        _ => None,
    }
}

/// Whether this parcel was made at a place.
fn is_made_at(histories: &[History], place: &Place, parcel: &Parcel) -> bool
    ensures { MatchBool result (parcel_at histories.now place.now ≡ Some parcel.now) (parcel_at histories.now place.now ≢ Some parcel.now) }
{
    match made_at(histories, place) {
        None => false,
        Some(made) => made.equals(parcel),
    }
}

/// The number of the last parcel with a mark.
fn last_with(last: &HashMap<Mark, usize>, mark: &Mark) -> Option<usize>
    ensures { result ≡ get same_mark last.now mark.now }
{
    last.get(mark).copied()
}

/// Notes the number of the last parcel with a mark.
fn note_last(last: &mut HashMap<Mark, usize>, mark: Mark, number: usize) -> Result<(), AllocError>
    ensures { OnOk result ((q : Mark) → get same_mark last.new q ≡ cond (same_mark mark q) (Some number) (get same_mark last.old q)) }
{
    last.insert(mark, number)?;
    Ok(())
}

impl Sent {
    /// No parcels.
    pub(crate) fn new(alloc: Global) -> Sent
        ensures places { result.places.items ≡ [] }
        ensures last { IsEmpty result.last }
    {
        Sent {
            places: Vec::new(alloc),
            last: HashMap::new(alloc),
        }
    }

    /// The number of an equal parcel. Only those with its mark are looked at.
    fn find(&self, histories: &[History], parcel: &Parcel) -> Option<usize>
        requires { AreLinked histories.now self.now }
        ensures { MatchOption result (IsUnsent histories.now self.now.places.items parcel.now)
            (IsSentAs histories.now self.now.places.items parcel.now) }
    {
        let mut next = last_with(&self.last, &mark_of(parcel));
        while let Some(number) = next {
            let place = &self.places[number];
            if is_made_at(histories, place, parcel) {
                return Some(number);
            }
            next = place.before;
        }
        None
    }

    /// Notes where a parcel was made.
    fn add(
        &mut self,
        histories: &[History],
        history: usize,
        step: usize,
        parcel: &Parcel,
    ) -> Result<(), AllocError>
        requires linked { AreLinked histories.now self.old }
        requires made { made_in (slice_get histories.now history) step ≡ Some parcel.now }
        ensures linked { OnOk result (AreLinked histories.now self.new) }
        ensures places { OnOk result (AddsPlace self.old.places.items self.new.places.items history step) }
    {
        let mark = mark_of(parcel);
        let before = last_with(&self.last, &mark);
        let number = self.places.len();
        self.places.push(Place {
            history,
            step,
            mark,
            before,
        })?;
        note_last(&mut self.last, mark, number)
    }

    /// Notes the parcel that a step made, if it did.
    pub(crate) fn note(
        &mut self,
        histories: &[History],
        history: usize,
        step: usize,
        answer: &Answer,
    ) -> Result<(), AllocError>
        requires linked { AreLinked histories.now self.old }
        requires made { made_in (slice_get histories.now history) step ≡ parcel_in answer.now }
        ensures linked { OnOk result (AreLinked histories.now self.new) }
        ensures places { OnOk result (map (parcel_at histories.now) self.new.places.items
            ≡ map (parcel_at histories.now) self.old.places.items ++ map Some (listed (parcel_in answer.now))) }
    {
        match answer {
            Answer::Sent(parcel) => self.add(histories, history, step, parcel.parcel()),
            _ => Ok(()),
        }
    }

    /// Whether a history can go on after so many steps, and with which parcel, where it takes one.
    pub(crate) fn can_go(
        &self,
        histories: &[History],
        history: &History,
        count: usize,
    ) -> Option<usize>
        requires { AreLinked histories.now self.now }
        ensures { MatchOption result (Halts histories.now self.now.places.items history.now count)
            (CanGo histories.now self.now.places.items history.now count) }
    {
        let step = history.steps.get(count)?;
        match &step.event {
            Event::Take { parcel } => self.find(histories, parcel.parcel()),
            _ => Some(0),
        }
    }
}
