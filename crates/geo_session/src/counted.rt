//! A seat at a shared site, whose requests are counted.
ghost use Rattle.std.specs.Prelude.{◌≡◌, ◌≤◌, ◌^◌, IfNone, IfSome};
ghost use Rattle.geo_session.specs.Seats.{AnswersCounted, CountsOne, RefusesCounted, asker};
ghost use Rattle.geo_station.specs.declared.refusal.SeatSpent.{SeatSpent};

use crate::clock::Clock;
use geo_dialogue::Backend;
use geo_requests::{Reply, Request};
use geo_station::{Hold, Room, Seat, Station};
use geo_tally::{Counter, Tally, TallySeat};
use std::alloc::Global;
use std::rt;
use std::sync::Wait;

/// A backend that asks a station by a seat, at the moment that a clock shows for it, and counts the requests by a seat of a tally. Where
/// the clock has gone back the moment is that of the request before. It waits for the station's lock. Sessions of one thread use it one
/// after the other.
#[derive(Drop)]
pub struct Counted<'a, L: Room, C: Clock> {
    station: &'a Station<L>,
    seat: Seat<L>,
    clock: &'a C,
    // The moment of the last request.
    last: u64,
    tally: &'a Tally,
    counts: TallySeat,
    ghost given: { counts.tally ≡ tally.now.tally },
    ghost bound: { last ≤ 2 ^ 40 },
}

impl<'a, L: Room, C: Clock> Counted<'a, L, C> {
    /// A backend of a station's seat and a tally's.
    pub fn new(
        station: &'a Station<L>,
        seat: Seat<L>,
        clock: &'a C,
        tally: &'a Tally,
        counts: TallySeat,
    ) -> Counted<'a, L, C>
        requires { counts.tally ≡ tally.now.tally }
        ensures seat { result.seat ≡ seat }
        ensures counts { result.counts ≡ counts }
    {
        Counted {
            station,
            seat,
            clock,
            last: 1,
            tally,
            counts,
        }
    }

    /// Adds one to a counter, as whoever runs a session does for it. A seat of a tally that has added 2^40 times adds no more.
    pub fn count(&mut self, counter: Counter)
        ensures counts { CountsOne counter self.old.counts self.new.counts }
        ensures seat { self.new.seat ≡ self.old.seat }
        ensures last { self.new.last ≡ self.old.last }
        ensures clock { self.new.clock ≡ self.old.clock }
    {
        let _ = self.tally.add(&mut self.counts, counter);
    }

    /// Answers a request as [`Backend::act`] does, by a thread's hold of the station, which may stay with it until the next.
    pub fn act_by<R: Wait + rt::Clock>(
        &mut self,
        rt: &R,
        alloc: Global,
        hold: &mut Hold<'a, L>,
        request: Request,
    ) -> Option<Reply>
        ensures clock { self.new.clock ≡ self.old.clock }
        ensures some { IfSome result (λ reply. AnswersCounted (C.shows self.old.clock.now)
            (asker self.old.seat self.old.last self.old.counts) (asker self.new.seat self.new.last self.new.counts) request reply) }
        ensures none { IfNone result ((spent : SeatSpent) × RefusesCounted (C.shows self.old.clock.now)
            (asker self.old.seat self.old.last self.old.counts) (asker self.new.seat self.new.last self.new.counts) request spent) }
    {
        self.count(Counter::Requests);
        self.seat.trim();
        let now = self.clock.now(rt).max(self.last);
        self.last = now;
        match hold.act(rt, self.station, alloc, &mut self.seat, now, request) {
            Ok(reply) => Some(reply),
            Err(_) => None,
        }
    }

    /// Both seats, as the sessions have left them.
    pub fn into_seats(self) -> (Seat<L>, TallySeat)
        ensures seat { result.0 ≡ self.entry.seat }
        ensures counts { result.1 ≡ self.entry.counts }
    {
        let Counted { seat, counts, .. } = self;
        (seat, counts)
    }
}

impl<L: Room, C: Clock> Backend for Counted<'_, L, C> {
    ghost use Rattle.geo_station.specs.declared.refusal.SeatSpent.{SeatSpent};
    ghost use Rattle.geo_session.specs.Seats.{AnswersCounted, RefusesCounted};

    ghost answers = { λ old request reply new. (new.clock ≡ old.clock)
        × AnswersCounted (C.shows old.clock.now) (asker old.seat old.last old.counts) (asker new.seat new.last new.counts) request reply };

    ghost refuses = { λ old request new. (new.clock ≡ old.clock) × (spent : SeatSpent)
        × RefusesCounted (C.shows old.clock.now) (asker old.seat old.last old.counts) (asker new.seat new.last new.counts) request spent };

    fn act<R: Wait + rt::Clock>(
        &mut self,
        rt: &R,
        alloc: Global,
        request: Request,
    ) -> Option<Reply> {
        let mut hold = Hold::none();
        self.act_by(rt, alloc, &mut hold, request)
    }
}
