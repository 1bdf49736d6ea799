//! Whether a history tells of a seat what the seat keeps.
ghost use Rattle.std.specs.Prelude.{◌≡◌, ◌≢◌, ◌≤◌, ◌-◌, ◌∷◌, ◌++◌, [], length, take, IfSome, IfNone, MatchBool};
ghost use Rattle.geo_station.specs.Seats.{is_call_of, call_of, calls_of};
ghost use Rattle.geo_station.specs.Endings.{EndsSo};

use crate::call::Call;
use geo_chunks::Chunks;
use geo_equal::Equal;
use geo_history::Step;
use geo_site::Event;

/// Whether a step is one that its seat keeps, and of this seat.
fn is_call_of(step: &Step, seat: u8) -> bool
    ensures { result ≡ is_call_of seat step.now }
{
    step.seat == seat
        && matches!(
            step.event,
            Event::Command { .. } | Event::Send { .. } | Event::Take { .. }
        )
}

/// Whether a step is that of a call.
fn is_step_of(step: &Step, call: &Call) -> bool
    ensures { MatchBool result (call_of step.now.event step.now.answer ≡ call.now) (call_of step.now.event step.now.answer ≢ call.now) }
{
    step.event.equals(&call.event) && step.answer.equals(&call.answer)
}

/// How a seat's calls in a history end.
#[derive(Clone, Copy)]
pub enum Ending {
    /// They are just those that the seat keeps.
    Whole,
    /// They end with those that it keeps, and there are more.
    Tail,
    /// Those that it keeps end with them, and it keeps more.
    More,
    /// They end with others.
    Other,
}

/// The last of so many first steps. None where that is none.
fn last_of(steps: &Chunks<Step>, count: usize) -> Option<&Step>
    requires { count ≤ length steps.now.items }
    ensures some { IfSome result (λ step. (1 ≤ count) × (take count steps.now.items ≡ take (count - 1) steps.now.items ++ step.now ∷ [])) }
    ensures none { IfNone result (count ≡ 0) }
{
    if count == 0 {
        return None;
    }
    steps.get(count - 1)
}

/// How the calls of a seat among steps end. It walks back from the last.
pub fn ending_of(steps: &Chunks<Step>, seat: u8, kept: &[Call]) -> Ending
    ensures { EndsSo result (calls_of seat steps.now.items) kept.now }
{
    let (mut count, mut left) = (steps.len(), kept);
    while let Some(step) = last_of(steps, count) {
        count -= 1;
        if is_call_of(step, seat) {
            let Some((call, others)) = left.split_last() else {
                return Ending::Tail;
            };
            left = others;
            if !is_step_of(step, call) {
                return Ending::Other;
            }
        }
    }
    if left.is_empty() {
        Ending::Whole
    } else {
        Ending::More
    }
}
