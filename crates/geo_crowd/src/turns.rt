//! One pass.
ghost use Rattle.std.specs.Prelude.{◌≡◌, ◌≢◌, ◌≤◌, ◌+◌, ◌∷◌, [], length, take, drop, vec_capacity, MatchBool, ℕ, cond};
ghost use Rattle.geo_crowd.specs.Crowds.{carried_in, BeginAll, EndAll, GoOnAll, Passes};
ghost use Rattle.geo_crowd.specs.Listing.{AllListed, HasRoomForAll, SameFlags, is_listed_at};
ghost use Rattle.geo_crowd.specs.Standings.{goes_on, next_due};

use crate::passed::Passed;
use crate::roster::Roster;
use crate::standing::Standing;
use geo_dialogue::{Backend, Gate};
use geo_socket::Stream;
use std::rt::Clock;
use std::sync::Wait;

/// Whether a connection has a turn in the next pass too.
fn is_again(standing: Option<Standing>) -> bool
    ensures flag { result ≡ goes_on standing }
    ensures next { (number : ℕ) → next_due standing number [] ≡ cond result (number ∷ []) [] }
{
    matches!(standing, Some(Standing::Again))
}

/// Begins the turn of each connection that is listed.
fn begin_all<S: Stream + Drop>(roster: &mut Roster<S>, listed: &[usize])
    ensures begins { BeginAll listed.now (carried_in roster.old.members) (carried_in roster.new.members) }
    ensures flags { SameFlags roster.old.members roster.new.members }
{
    for at in 0..listed.len() {
        let number = listed[at];
        roster.begin(number);
    }
}

/// Has what waits at each connection that is listed answered.
fn go_on_all<R: Wait + Clock, S: Stream + Drop, B: Backend, G: Gate>(
    rt: &R,
    roster: &mut Roster<S>,
    listed: &[usize],
    backend: &mut B,
    gate: &G,
)
    ensures goes { GoOnAll B.answers B.refuses listed.now (carried_in roster.old.members) (carried_in roster.new.members) backend.old
        backend.new }
    ensures flags { SameFlags roster.old.members roster.new.members }
{
    for at in 0..listed.len() {
        let number = listed[at];
        roster.go_on(rt, backend, gate, number);
    }
}

/// Ends the turn of each connection that is listed behind the first so many, and those that go on stay listed.
fn end_all<S: Stream + Drop>(roster: &mut Roster<S>, listed: &mut Vec<usize>, from: usize) -> Passed
    requires place { from ≤ length listed.old.items }
    requires lists { AllListed (is_listed_at roster.old.members) listed.old.items }
    requires room { HasRoomForAll roster.old.members (length listed.old.items) (vec_capacity listed.old) }
    ensures ends { EndAll (drop from listed.old.items) (record {
      later = drop from listed.new.items;
      ended = result.ended;
      faults = result.faults;
    }) (carried_in roster.old.members) (carried_in roster.new.members) }
    ensures front { take from listed.new.items ≡ take from listed.old.items }
    ensures few_ended { from + result.ended ≤ length listed.old.items }
    ensures few_faults { from + result.faults ≤ length listed.old.items }
    ensures within { length listed.old.items ≤ usize.MAX }
    ensures goes_on { MatchBool result.goes_on (listed.new.items ≢ []) (listed.new.items ≡ []) }
    ensures lists { AllListed (is_listed_at roster.new.members) listed.new.items }
    ensures room { HasRoomForAll roster.new.members (length listed.new.items) (vec_capacity listed.new) }
{
    let mut passed = Passed {
        ended: 0,
        faults: 0,
        goes_on: false,
    };
    // nobody else lists a connection during a pass, so that those that go on are kept where they stand
    let mut kept = from;
    for at in from..listed.len() {
        let number = listed[at];
        let standing = roster.end(number);
        passed.count(standing);
        if is_again(standing) {
            listed[kept] = number;
            kept += 1;
        }
    }
    listed.truncate(kept);
    passed.goes_on = kept > 0;
    passed
}

/// Each connection that is listed behind the first so many has one turn, and those that go on stay listed. All are read before any is
/// answered, and all answered before any is written, so that what is asked of the backend stands together.
pub(crate) fn pass_over<R: Wait + Clock, S: Stream + Drop, B: Backend, G: Gate>(
    rt: &R,
    roster: &mut Roster<S>,
    listed: &mut Vec<usize>,
    from: usize,
    backend: &mut B,
    gate: &G,
) -> Passed
    requires place { from ≤ length listed.old.items }
    requires lists { AllListed (is_listed_at roster.old.members) listed.old.items }
    requires room { HasRoomForAll roster.old.members (length listed.old.items) (vec_capacity listed.old) }
    ensures passes { Passes B.answers B.refuses (drop from listed.old.items) (record {
      later = drop from listed.new.items;
      ended = result.ended;
      faults = result.faults;
    }) (carried_in roster.old.members) (carried_in roster.new.members) backend.old backend.new }
    ensures front { take from listed.new.items ≡ take from listed.old.items }
    ensures few_ended { from + result.ended ≤ length listed.old.items }
    ensures few_faults { from + result.faults ≤ length listed.old.items }
    ensures within { length listed.old.items ≤ usize.MAX }
    ensures goes_on { MatchBool result.goes_on (listed.new.items ≢ []) (listed.new.items ≡ []) }
    ensures lists { AllListed (is_listed_at roster.new.members) listed.new.items }
    ensures room { HasRoomForAll roster.new.members (length listed.new.items) (vec_capacity listed.new) }
{
    let (_, numbers) = listed.as_slice().split_at(from);
    begin_all(roster, numbers);
    go_on_all(rt, roster, numbers, backend, gate);
    // nobody waits while answers are written
    backend.rest();
    end_all(roster, listed, from)
}
