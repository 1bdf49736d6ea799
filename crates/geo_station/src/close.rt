//! The end of a station.
ghost use Rattle.std.specs.Prelude.{◌≡◌, ◌≢◌, ◌+◌, true, false, Some, MatchBool, IfNone, sum_by, length, vec_len};
ghost use Rattle.std.specs.List.{All};
ghost use Rattle.geo_history.specs.Stories.{story_in, is_logged};
ghost use Rattle.geo_journal.specs.Marks.{Agree};
ghost use Rattle.geo_station.specs.Seats.{FitsIn, DiffersFrom};
ghost use Rattle.geo_station.specs.declared.close.Why.TheVariants as whys;

use crate::desk::Desk;
use crate::fits::{Ending, ending_of};
use crate::seat::Seat;
use crate::station::Station;
use geo_history::{Kept, MOST_STEPS};
use geo_journal::{Journal, Room};
use std::sync::ledger::Share;
use thiserror::Error;

/// Why a station is not closed, tested in this order.
#[derive(Clone, Copy, Debug, PartialEq, Eq, Error, Drop)]
pub enum Why {
    /// A seat is missing.
    #[error("a seat is missing")]
    Missing,
    /// The history was not logged.
    #[error("the history was not logged")]
    Unlogged,
    /// The history doesn't tell of a seat what the seat keeps.
    #[error("the history differs from what a seat keeps")]
    Differs,
}

/// A station whose lock was taken off: its history stands still.
#[derive(Drop)]
pub struct Unlocked<L: Room> {
    pub(crate) desk: Desk<L>,
    pub(crate) seats: u64,
}

impl<L: Room> Unlocked<L> {
    /// The station, under a lock again.
    pub fn lock(self) -> Station<L>
        requires { self.seats ≡ L.parts }
        ensures { result ≡ self.seats }
    {
        let Unlocked { desk, seats } = self;
        Station::locked(desk, seats)
    }
}

/// A station that was not closed, and the seats that were handed in, as they were.
#[derive(Drop)]
pub struct Unclosed<L: Room> {
    pub why: Why,
    /// The station, with the history that it has.
    pub station: Unlocked<L>,
    pub seats: Vec<Seat<L>>,
}

/// Whether the history, which is logged, tells of a seat what the seat keeps.
fn fits<L: Room>(kept: &Kept, seat: &Seat<L>) -> bool
    requires { is_logged kept.now ≡ true }
    ensures { MatchBool result (FitsIn (story_in kept.now).opening (story_in kept.now).steps seat.now) (FitsIn
        (story_in kept.now).opening (story_in kept.now).steps seat.now → ⊥) }
{
    if MOST_STEPS - kept.left(seat.account.number()) != seat.account.count {
        return false;
    }
    match ending_of(kept.steps(), seat.account.number(), seat.calls.as_slice()) {
        Ending::Whole => true,
        Ending::Tail => seat.forgot,
        Ending::More => kept.era() > 0,
        Ending::Other => false,
    }
}

/// Whether it does of each.
fn all_fit<L: Room>(kept: &Kept, seats: &[Seat<L>]) -> bool
    requires { is_logged kept.now ≡ true }
    ensures { MatchBool result (All (FitsIn (story_in kept.now).opening (story_in kept.now).steps) seats.now) (All
        (FitsIn (story_in kept.now).opening (story_in kept.now).steps) seats.now → ⊥) }
{
    for seat in seats {
        if !fits(kept, seat) {
            return false;
        }
    }
    true
}

/// Why a station of so many seats isn't closed with these, if there is a reason.
pub fn open_for<L: Room>(kept: &Kept, count: u64, seats: &[Seat<L>]) -> Option<Why>
    ensures missing { result ≡ Some whys.Missing → length seats.now ≢ count }
    ensures unlogged { result ≡ Some whys.Unlogged → (length seats.now ≡ count) × (is_logged kept.now ≡ false) }
    ensures differs { result ≡ Some whys.Differs → (length seats.now ≡ count) × DiffersFrom (story_in kept.now) seats.now }
    ensures none { IfNone result ((is_logged kept.now ≡ true) × (length seats.now ≡ count)
        × All (FitsIn (story_in kept.now).opening (story_in kept.now).steps) seats.now) }
{
    if seats.len() as u64 != count {
        return Some(Why::Missing);
    }
    if !kept.is_logged() {
        return Some(Why::Unlogged);
    }
    if !all_fit(kept, seats) {
        return Some(Why::Differs);
    }
    None
}

/// Puts the seats' shares together, and compares the seats with the one history.
pub fn merge_all<L: Room>(all: &mut Share<L>, journal: &mut Journal<L>, seats: Vec<Seat<L>>)
    ensures parts { all.new.parts ≡ all.old.parts + vec_len seats }
    ensures amount { all.new.amount ≡ all.old.amount + sum_by (λ s. s.steps) seats.items }
    ensures journal { journal.new ≡ journal.old }
    ensures agree { All (λ s. Agree journal.old s.mark) seats.items }
{
    for seat in seats {
        let Seat { mut account, .. } = seat;
        account.compare(journal);
        all.merge(account.into_share());
    }
}
