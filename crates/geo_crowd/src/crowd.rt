//! The connections of one thread.
ghost use Rattle.std.specs.Prelude.{◌≡◌, ◌≢◌, ◌≤◌, ◌<◌, ◌+◌, ◌++◌, ◌∷◌, ◌⊎◌, [], drop, length, take, vec_capacity, IfOk, OnErr, IsSome, MatchBool, None, Some};
ghost use Rattle.geo_crowd.specs.Listing.{AllListed, HasRoomForAll, StandsIn, is_listed_at};

use crate::carried::Carried;
use crate::passed::Passed;
use crate::polling::{Polling, Ready};
use crate::roster::Roster;
use crate::turns::pass_over;
use geo_dialogue::{Backend, Gate};
use geo_socket::Stream;
use std::alloc::{AllocError, Global};
use std::rt::Clock;
use std::sync::Wait;

/// The connections of one thread, each under a number.
#[derive(Drop)]
pub struct Crowd<S: Stream + Drop> {
    roster: Roster<S>,
    // Those that can go on.
    listed: Vec<usize>,
    ghost lists: { AllListed (is_listed_at roster.members) listed.items },
    ghost room: { HasRoomForAll roster.members (length listed.items) (vec_capacity listed) },
}

impl<S: Stream + Drop> Crowd<S> {
    ghost use Rattle.geo_crowd.specs.Crowds.{at, due, Stand, OthersStand, HasNext, Passes, Rounds, sums_behind, sums_of};

    /// No connections.
    pub fn new(alloc: Global) -> Result<Crowd<S>, AllocError>
        ensures none { IfOk result (λ crowd. Stand (λ _. None) (at crowd)) }
        ensures due { IfOk result (λ crowd. due crowd ≡ []) }
    {
        Ok(Crowd {
            roster: Roster::new(alloc)?,
            listed: Vec::new(alloc),
        })
    }

    /// How many connections there are.
    pub fn len(&self) -> usize {
        self.roster.len()
    }

    /// Whether there is none.
    pub fn is_empty(&self) -> bool {
        self.roster.len() == 0
    }

    /// The number of the connection that is taken in next.
    pub fn next_number(&self) -> usize {
        self.roster.next_number()
    }

    /// Takes a connection in, and says under which number. It is given a turn in the next pass. Where memory is refused the
    /// connection is dropped.
    pub fn add(&mut self, carried: Carried<S>) -> Result<usize, AllocError>
        ensures free { IfOk result (λ number. at self.old number ≡ None) }
        ensures added { IfOk result (λ number. at self.new number ≡ Some carried) }
        ensures others { IfOk result (λ number. OthersStand number (at self.old) (at self.new)) }
        ensures due { IfOk result (λ number. due self.new ≡ due self.old ++ (number ∷ [])) }
        ensures unchanged { OnErr result (Stand (at self.old) (at self.new) × (due self.new ≡ due self.old)) }
    {
        // room for the number of each, however they become ready
        let Some(count) = self.roster.len().checked_add(1) else {
            return Err(AllocError);
        };
        self.listed.reserve(count)?;
        match self.roster.insert(carried) {
            Ok(number) => {
                let Ok(()) = self.listed.push(number) else {
                    unreachable!();
                };
                Ok(number)
            }
            Err(error) => Err(error),
        }
    }

    /// A connection is ready: it is given a turn in the next pass. Nothing is done where none has the number.
    pub fn is_ready(&mut self, ready: Ready)
        ensures stand { Stand (at self.old) (at self.new) }
        ensures listed { IsSome (at self.old ready.number) → StandsIn (due self.new) ready.number }
        ensures due { (due self.new ≡ due self.old)
            ⊎ (IsSome (at self.old ready.number) × (due self.new ≡ due self.old ++ (ready.number ∷ []))) }
    {
        if !self.roster.wake(ready) {
            return;
        }
        let Ok(()) = self.listed.push(ready.number) else {
            unreachable!();
        };
    }

    /// The streams of the connections that were over since it was asked last, for whoever closes them.
    pub fn take_left(&mut self) -> Vec<S>
        ensures stand { Stand (at self.old) (at self.new) }
        ensures due { due self.new ≡ due self.old }
    {
        self.roster.take_left()
    }

    /// One pass: each connection that can go on has one turn.
    pub fn pass<R: Wait + Clock, B: Backend, G: Gate>(
        &mut self,
        rt: &R,
        backend: &mut B,
        gate: &G,
    ) -> Passed
        ensures passes { Passes B.answers B.refuses (due self.old) (sums_of self.new result) (at self.old) (at self.new) backend.old backend.new }
        ensures goes_on { MatchBool result.goes_on (due self.new ≢ []) (due self.new ≡ []) }
    {
        self.pass_behind(rt, 0, backend, gate)
    }

    /// One pass over those that are listed behind the first so many, which wait on.
    fn pass_behind<R: Wait + Clock, B: Backend, G: Gate>(
        &mut self,
        rt: &R,
        from: usize,
        backend: &mut B,
        gate: &G,
    ) -> Passed
        requires place { from ≤ length (due self.old) }
        ensures passes { Passes B.answers B.refuses (drop from (due self.old)) (sums_behind from self.new result) (at self.old)
            (at self.new) backend.old backend.new }
        ensures front { take from (due self.new) ≡ take from (due self.old) }
        ensures few_ended { from + result.ended ≤ length (due self.old) }
        ensures few_faults { from + result.faults ≤ length (due self.old) }
        ensures within { length (due self.old) ≤ usize.MAX }
        ensures goes_on { MatchBool result.goes_on (due self.new ≢ []) (due self.new ≡ []) }
    {
        pass_over(rt, &mut self.roster, &mut self.listed, from, backend, gate)
    }

    /// Those that are listed behind the first so many come first from now on.
    fn put_first(&mut self, count: usize)
        requires { count ≤ length (due self.old) }
        ensures stand { Stand (at self.old) (at self.new) }
        ensures due { due self.new ≡ drop count (due self.old) ++ take count (due self.old) }
    {
        self.listed.rotate_left(count);
    }

    /// The one that waited longest has a turn, behind others that had theirs.
    fn pass_next<R: Wait + Clock, B: Backend, G: Gate>(
        &mut self,
        rt: &R,
        before: Passed,
        backend: &mut B,
        gate: &G,
    ) -> Passed
        requires some { 1 ≤ length (due self.old) }
        requires ended { before.ended < usize.MAX }
        requires faults { before.faults < usize.MAX }
        ensures next { HasNext B.answers B.refuses (due self.old) before (sums_of self.new result) (at self.old) (at self.new)
            backend.old backend.new }
        ensures goes_on { MatchBool result.goes_on (due self.new ≢ []) (due self.new ≡ []) }
    {
        self.put_first(1);
        let last = self.listed.len() - 1;
        let passed = self.pass_behind(rt, last, backend, gate);
        Passed {
            ended: before.ended + passed.ended,
            faults: before.faults + passed.faults,
            goes_on: passed.goes_on,
        }
    }

    /// One round: waits until some connection is ready, or not at all where some can go on. Who asks anew has a turn, and waits for nobody
    /// who has much to be told: of those that can go on the one that waited longest has one behind them, and the others wait for the next
    /// round.
    pub fn round<R: Wait + Clock, P: Polling, B: Backend, G: Gate>(
        &mut self,
        rt: &R,
        polling: &mut P,
        backend: &mut B,
        gate: &G,
    ) -> Passed
        ensures rounds { Rounds B.answers B.refuses (P.told polling.new) (due self.old) (sums_of self.new result) (at self.old) (at self.new)
            backend.old backend.new }
        ensures goes_on { MatchBool result.goes_on (due self.new ≢ []) (due self.new ≡ []) }
    {
        let count = self.listed.len();
        polling.wait(count > 0);
        let told = polling.ready();
        for at in 0..told.len() {
            let ready = told[at];
            self.is_ready(ready);
        }
        let before = self.pass_behind(rt, count, backend, gate);
        if count == 0 {
            return before;
        }
        self.pass_next(rt, before, backend, gate)
    }
}
