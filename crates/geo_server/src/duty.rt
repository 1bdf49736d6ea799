//! What each thread of a site does.
ghost use Rattle.std.specs.Prelude.{◌≡◌};

use crate::clock::SystemClock;
use crate::counting::{Clerk, Counting, Holder, Named, Rested};
use crate::site::Course;
use crate::worker::Worker;
use geo_crowd::Passed;
use geo_gossip::{Peer, fetch, receive, round};
use geo_link::{Link, Tallied};
use geo_session::Gate;
use geo_session::clock::Clock;
use geo_station::{Room, Seat, Station};
use geo_tally::{Counter, TallySeat};
use geo_wires::{Answering, Lead};
use std::alloc::Global;
use std::rt;
use std::sync::Wait;
use std::time::Duration;

/// What a thread of a site does until the cluster is told to stop.
#[derive(Drop)]
pub(crate) enum Duty<'a, L: Room, N: Named, P: Lead + Drop, Q: Link + Drop> {
    /// Carries clients' connections.
    Serve(Clerk<'a, L, N>, Worker<'a>),
    /// Tells the other sites what was written here.
    Gossip(Seat<L>, Counting<'a, N>, Vec<Peer<P>>),
    /// Does what a site needs from time to time.
    Maintain(Seat<L>, Counting<'a, N>),
    /// Takes what another site tells.
    Receive(Seat<L>, Counting<'a, N>, Q),
}

/// Counts sessions that ended.
fn count_sessions<L: Room, N: Named>(backend: &mut Holder<'_, L, N>, passed: Passed) {
    for _session in 0..passed.ended {
        backend.count(Counter::Sessions);
    }
    for _fault in 0..passed.faults {
        backend.count(Counter::Faults);
    }
}

/// Carries clients' connections until no more come and all have ended, and gives the seats back.
fn serve_clients<R: Wait + rt::Clock, L: Room, N: Named, G: Gate>(
    rt: &R,
    alloc: Global,
    course: &Course<'_, G>,
    clerk: Clerk<'_, L, N>,
    mut worker: Worker<'_>,
) -> Rested<L, N> {
    if !course.comes(rt) {
        return clerk.into_rested();
    }
    let mut backend = Holder::new(clerk);
    for _ in rt.forever() {
        let passed = worker.turn(rt, alloc, &mut backend, course.gate);
        count_sessions(&mut backend, passed);
        if worker.is_done() {
            course.worker_ends();
            return backend.into_rested();
        }
    }
    unreachable!()
}

/// Whether a parcel can be put on some link.
fn is_any_ready<R: Wait, K: Lead>(rt: &R, alloc: Global, peers: &mut [Peer<K>]) -> bool {
    let mut is_ready = false;
    for at in 0..peers.len() {
        is_ready = peers[at].link.is_ready(rt, alloc) || is_ready;
    }
    is_ready
}

/// For how long all links rest.
fn rest_of<K: Lead>(peers: &[Peer<K>], every: Duration) -> Duration {
    let mut rest = every;
    for at in 0..peers.len() {
        rest = peers[at].link.rest(every);
    }
    rest
}

/// One round, and the asks for what the site lacks where that is to be.
fn go_round<R: Wait + rt::Clock, L: Room, K: Lead, G: Gate>(
    rt: &R,
    alloc: Global,
    course: &Course<'_, G>,
    station: &Station<L>,
    seat: &mut Seat<L>,
    peers: &mut [Peer<K>],
) {
    let _ = round(rt, alloc, station, seat, peers);
    if course.fills {
        let now = SystemClock.now(rt);
        let _filled = fetch(rt, alloc, station, seat, now, peers);
    }
}

/// The last round, where one is owed: nobody writes at the site any more. Whether there was one.
fn go_round_at_last<R: Wait, L: Room, K: Lead>(
    rt: &R,
    alloc: Global,
    station: &Station<L>,
    seat: &mut Seat<L>,
    peers: &mut [Peer<K>],
) -> bool {
    let mut is_owed = false;
    for at in 0..peers.len() {
        is_owed = is_owed || peers[at].link.owes_a_last_round();
    }
    if is_owed {
        let _ = round(rt, alloc, station, seat, peers);
        for at in 0..peers.len() {
            peers[at].link.finish(alloc);
        }
    }
    is_owed
}

/// Sends rounds, and behind each asks for what the site lacks where that is to be, until the cluster stops, and then lets go of the links,
/// by which those who receive at their ends learn of it.
fn gossip<R: Wait + rt::Clock, L: Room, N: Named, K: Lead + Drop, G: Gate>(
    rt: &R,
    alloc: Global,
    course: &Course<'_, G>,
    station: &Station<L>,
    mut seat: Seat<L>,
    mut counting: Counting<'_, N>,
    mut peers: Vec<Peer<K>>,
) -> Rested<L, N> {
    if !course.comes(rt) {
        return counting.into_rested(seat);
    }
    for _ in rt.forever() {
        if is_any_ready(rt, alloc, peers.as_mut_slice()) {
            go_round(rt, alloc, course, station, &mut seat, peers.as_mut_slice());
            counting.count(Counter::Rounds);
        }
        if course.stops_within(rt, rest_of(peers.as_slice(), course.every)) {
            if go_round_at_last(rt, alloc, station, &mut seat, peers.as_mut_slice()) {
                counting.count(Counter::Rounds);
            }
            return counting.into_rested(seat);
        }
    }
    unreachable!()
}

/// Maintains the site until the cluster stops, and lets its history begin anew where it is long.
fn maintain<R: Wait + rt::Clock, L: Room, G: Gate>(
    rt: &R,
    alloc: Global,
    course: &Course<'_, G>,
    station: &Station<L>,
    mut seat: Seat<L>,
) -> Seat<L> {
    if !course.comes(rt) {
        return seat;
    }
    for _ in rt.forever() {
        let _ = station.maintain(rt, alloc, &mut seat, SystemClock.now(rt));
        let _ = station.renew(rt, alloc, course.era);
        if course.stops_within(rt, course.every) {
            return seat;
        }
    }
    unreachable!()
}

/// Takes and answers what comes over a link, until it is closed or there was no memory for an answer. The seat that counts what the link
/// refused stays one of its tally.
fn hear<R: Wait, L: Room, K: Link + Drop>(
    rt: &R,
    alloc: Global,
    station: &Station<L>,
    seat: &mut Seat<L>,
    link: &mut Answering<'_, K>,
)
    ensures { link.new.link.seat.tally ≡ link.old.link.seat.tally }
{
    let _ = receive(rt, alloc, station, seat, link);
}

/// Takes and answers what comes over a link until it is closed, and gives back the seat that counts what the link refused.
fn hear_all<R: Wait, L: Room, K: Link + Drop>(
    rt: &R,
    alloc: Global,
    station: &Station<L>,
    seat: &mut Seat<L>,
    mut link: Answering<'_, K>,
) -> TallySeat
    ensures { result.tally ≡ link.entry.link.seat.tally }
{
    for _ in rt.forever() {
        hear(rt, alloc, station, seat, &mut link);
        if link.is_over() {
            return link.into_counts();
        }
    }
    unreachable!()
}

/// Takes what another site tells until it tells no more.
fn hear_out<R: Wait, L: Room, N: Named, K: Link + Drop, G: Gate>(
    rt: &R,
    alloc: Global,
    course: &Course<'_, G>,
    station: &Station<L>,
    mut seat: Seat<L>,
    counting: Counting<'_, N>,
    from: K,
) -> Rested<L, N> {
    if !course.comes(rt) {
        return counting.into_rested(seat);
    }
    let Counting {
        tally,
        seat: counts,
        ..
    } = counting;
    let link = Answering::new(Tallied::new(from, tally, counts));
    let counts = hear_all(rt, alloc, station, &mut seat, link);
    Rested::new(seat, counts)
}

impl<L: Room, N: Named, P: Lead + Drop, Q: Link + Drop> Duty<'_, L, N, P, Q> {
    /// Does it to its end, once all threads have begun, and gives the seats back.
    pub(crate) fn run<R: Wait + rt::Clock, G: Gate>(
        self,
        rt: &R,
        alloc: Global,
        course: &Course<'_, G>,
        station: &Station<L>,
    ) -> Rested<L, N> {
        match self {
            Duty::Serve(clerk, worker) => serve_clients(rt, alloc, course, clerk, worker),
            Duty::Gossip(seat, counting, peers) => gossip(
                rt, alloc, course, station, seat, counting, peers,
            ),
            Duty::Maintain(seat, counting) => {
                counting.into_rested(maintain(rt, alloc, course, station, seat))
            }
            Duty::Receive(seat, counting, from) => hear_out(
                rt, alloc, course, station, seat, counting, from,
            ),
        }
    }
}
