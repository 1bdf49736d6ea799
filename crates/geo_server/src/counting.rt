//! The seats of a site's tally, which all come back to it.
ghost use Rattle.std.specs.Prelude.{◌≡◌, IfSome, IfNone};
ghost use Rattle.atomic_table.specs.Seated.{TableId};
ghost use Rattle.geo_server.specs.Moments.{IsMoment};
ghost use Rattle.geo_session.specs.Seats.{AnswersCounted, RefusesCounted, asker};
ghost use Rattle.geo_station.specs.declared.refusal.SeatSpent.{SeatSpent};

use crate::clock::SystemClock;
use geo_requests::{Reply, Request};
use geo_session::{Backend, Counted};
use geo_station::{Hold, Room, Seat, Station};
use geo_tally::{Counter, Tally, TallySeat};
use std::alloc::Global;
use std::marker::{Brand, PhantomData};
use std::rt;
use std::sync::Wait;

/// Which tally the threads of a site count by. Contracts alone see it: a seat that a thread leaves is known by it to be of the tally
/// that is closed.
pub(crate) trait Named {
    ghost tally: { TableId };
}

impl Named for Brand {
    ghost use Rattle.std.specs.Prelude.{[]};

    ghost tally = { record { words = 5; slots = 0; views_name = 0; atom = 0; block = 0; offset = 0; slot_names = [] } };
}

/// A seat of a tally, with the tally that gave it.
#[derive(Drop)]
pub(crate) struct Counting<'a, N: Named> {
    pub(crate) tally: &'a Tally,
    pub(crate) seat: TallySeat,
    of: PhantomData<N>,
    ghost given: { seat.tally ≡ tally.now.tally },
    ghost named: { seat.tally ≡ N.tally },
}

impl<'a, N: Named> Counting<'a, N> {
    pub(crate) fn new(tally: &'a Tally, seat: TallySeat) -> Counting<'a, N>
        requires given { seat.tally ≡ tally.now.tally }
        requires named { tally.now.tally ≡ N.tally }
    {
        Counting {
            tally,
            seat,
            of: PhantomData,
        }
    }

    /// Adds one to a counter.
    pub(crate) fn count(&mut self, counter: Counter) {
        let _ = self.tally.add(&mut self.seat, counter);
    }

    /// Its seat, beside one of the station.
    pub(crate) fn into_rested<L: Room>(self, seat: Seat<L>) -> Rested<L, N> {
        let Counting { seat: counts, .. } = self;
        Rested::new(seat, counts)
    }
}

/// The seats that a thread of a site leaves: the station's, and the tally's.
#[derive(Drop)]
pub(crate) struct Rested<L: Room, N: Named> {
    pub(crate) seat: Seat<L>,
    pub(crate) counts: TallySeat,
    of: PhantomData<N>,
    ghost named: { counts.tally ≡ N.tally },
}

impl<L: Room, N: Named> Rested<L, N> {
    pub(crate) fn new(seat: Seat<L>, counts: TallySeat) -> Rested<L, N>
        requires { counts.tally ≡ N.tally }
    {
        Rested {
            seat,
            counts,
            of: PhantomData,
        }
    }
}

/// Asks by a seat at a station, which may be held then. Its seat of a tally stays one of that tally.
fn asked<'a, R: Wait + rt::Clock, L: Room>(
    rt: &R,
    alloc: Global,
    counted: &mut Counted<'a, L, SystemClock>,
    hold: &mut Hold<'a, L>,
    request: Request,
) -> Option<Reply>
    ensures some { IfSome result (λ reply. AnswersCounted IsMoment
        (asker counted.old.seat counted.old.last counted.old.counts) (asker counted.new.seat counted.new.last counted.new.counts) request reply) }
    ensures none { IfNone result ((spent : SeatSpent) × RefusesCounted IsMoment
        (asker counted.old.seat counted.old.last counted.old.counts) (asker counted.new.seat counted.new.last counted.new.counts) request spent) }
    ensures tally { counted.new.counts.tally ≡ counted.old.counts.tally }
{
    counted.act_by(rt, alloc, hold, request)
}

/// Adds one to a counter. The seat of a tally stays one of that tally.
fn add_one<L: Room>(counted: &mut Counted<'_, L, SystemClock>, counter: Counter)
    ensures { counted.new.counts.tally ≡ counted.old.counts.tally }
{
    counted.count(counter);
}

/// Who asks for a worker, and whose seat of a tally stays one of the site's.
#[derive(Drop)]
pub(crate) struct Clerk<'a, L: Room, N: Named> {
    counted: Counted<'a, L, SystemClock>,
    of: PhantomData<N>,
    ghost named: { counted.counts.tally ≡ N.tally },
}

impl<'a, L: Room, N: Named> Clerk<'a, L, N> {
    pub(crate) fn new(
        station: &'a Station<L>,
        seat: Seat<L>,
        counting: Counting<'a, N>,
    ) -> Clerk<'a, L, N> {
        let Counting {
            tally,
            seat: counts,
            ..
        } = counting;
        Clerk {
            counted: Counted::new(station, seat, &SystemClock, tally, counts),
            of: PhantomData,
        }
    }

    /// Adds one to a counter.
    pub(crate) fn count(&mut self, counter: Counter) {
        add_one(&mut self.counted, counter);
    }

    /// Both seats, as the sessions have left them.
    pub(crate) fn into_rested(self) -> Rested<L, N> {
        let Clerk { counted, .. } = self;
        let (seat, counts) = counted.into_seats();
        Rested::new(seat, counts)
    }
}

/// A worker's backend: its clerk, and how it holds the station. A hold stays in its thread.
#[derive(Drop)]
pub(crate) struct Holder<'a, L: Room, N: Named> {
    clerk: Clerk<'a, L, N>,
    hold: Hold<'a, L>,
}

impl<'a, L: Room, N: Named> Holder<'a, L, N> {
    pub(crate) fn new(clerk: Clerk<'a, L, N>) -> Holder<'a, L, N> {
        Holder {
            clerk,
            hold: Hold::none(),
        }
    }

    /// Adds one to a counter.
    pub(crate) fn count(&mut self, counter: Counter) {
        self.clerk.count(counter);
    }

    /// Both seats, as the sessions have left them.
    pub(crate) fn into_rested(self) -> Rested<L, N> {
        let Holder { clerk, .. } = self;
        clerk.into_rested()
    }
}

impl<L: Room, N: Named> Backend for Holder<'_, L, N> {
    ghost use Rattle.geo_station.specs.declared.refusal.SeatSpent.{SeatSpent};
    ghost use Rattle.geo_session.specs.Seats.{AnswersCounted, RefusesCounted, asker};
    ghost use Rattle.geo_server.specs.Moments.{IsMoment};

    ghost answers = { λ old request reply new. AnswersCounted IsMoment
        (asker old.clerk.counted.seat old.clerk.counted.last old.clerk.counted.counts)
        (asker new.clerk.counted.seat new.clerk.counted.last new.clerk.counted.counts) request reply };

    ghost refuses = { λ old request new. (spent : SeatSpent) × RefusesCounted IsMoment
        (asker old.clerk.counted.seat old.clerk.counted.last old.clerk.counted.counts)
        (asker new.clerk.counted.seat new.clerk.counted.last new.clerk.counted.counts) request spent };

    fn act<R: Wait + rt::Clock>(
        &mut self,
        rt: &R,
        alloc: Global,
        request: Request,
    ) -> Option<Reply> {
        let reply = self.act_on(rt, alloc, request);
        self.rest();
        reply
    }

    fn act_on<R: Wait + rt::Clock>(
        &mut self,
        rt: &R,
        alloc: Global,
        request: Request,
    ) -> Option<Reply> {
        let Holder { clerk, hold } = self;
        asked(rt, alloc, &mut clerk.counted, hold, request)
    }

    fn rest(&mut self) {
        self.hold.rest();
    }
}
