//! Sessions at one station.
ghost use Rattle.std.specs.Prelude.{◌≡◌, IfSome};
ghost use Rattle.geo_history.specs.Stories.{IsNew};

use super::{each, run_by};
use geo_fixtures::opened;
use geo_history::Kept;
use geo_session::clock::Clock;
use geo_session::{Counted, Gate, OpenGate, SessionEnd};
use geo_station::{Room, Station, Unopened};
use geo_tally::{Counter, Tally, TallySeat};
use std::alloc::Global;
use std::marker::Brand;
use std::process::Abort;
use std::rt;
use std::sync::Wait;
use std::sync::atomic::{AtomicU64, Ordering};
use std::thread::{self, Threads, join};
use std::time::Duration;

/// A clock that stands still.
#[derive(Drop)]
struct Noon;

impl Clock for Noon {
    ghost use Rattle.std.specs.Prelude.{◌≡◌};

    ghost shows = { λ _ moment. moment ≡ 100 };

    fn now<R: rt::Clock>(&self, _rt: &R) -> u64 {
        100
    }
}

/// The first pass waits until a second has come.
#[derive(Drop)]
struct Meeting {
    passes: AtomicU64,
    missed: AtomicU64,
}

impl Gate for Meeting {
    fn pass<R: Wait + rt::Clock>(&self, rt: &R, _call: u64) {
        if self.passes.fetch_add(1, Ordering::SeqCst) > 0 {
            return;
        }
        for _turn in 0..10_000 {
            if self.passes.load(Ordering::SeqCst) > 1 {
                return;
            }
            thread::sleep(rt, Duration::from_millis(1));
        }
        self.missed.store(1, Ordering::SeqCst);
    }
}

/// A tally and two seats of it.
fn tallied(rt: &impl Abort, alloc: Global) -> (Tally, TallySeat, TallySeat)
    ensures first { result.1.tally ≡ result.0.tally }
    ensures second { result.2.tally ≡ result.0.tally }
{
    let (tally, mut seats) = Tally::new(alloc, 2).ok().expect(rt, "a tally");
    let second = seats.pop().expect(rt, "two seats");
    let first = seats.pop().expect(rt, "another seat");
    (tally, first, second)
}

/// Whether a client that asks for the version and quits is answered so.
fn talk<L: Room, R: Wait + rt::Clock>(
    rt: &R,
    alloc: Global,
    gate: &Meeting,
    mut backend: Counted<'_, L, Noon>,
) -> bool {
    let input = b"version\r\nquit\r\n";
    let told = run_by(rt, alloc, input, each(100), each(100), &mut backend, gate);
    told.ends(b"VERSION 1.0.0\r\n", Ok(SessionEnd::Quit))
}

/// Whether two clients are, each by a thread of its own.
fn both<L: Room + Send + Sync, R: Threads + Wait + Abort + rt::Clock + Sync>(
    rt: &R,
    alloc: Global,
    unopened: Unopened,
    gate: &Meeting,
) -> (bool, bool)
    requires name { unopened.name ≡ L.name }
    requires parts { unopened.parts ≡ L.parts }
    requires table { unopened.table ≡ L.table }
    requires two { unopened.parts ≡ 2 }
{
    let station = Station::<L>::new(unopened).ok().expect(rt, "a station");
    let one = station.seat(rt, alloc).ok().expect(rt, "a seat");
    let two = station.seat(rt, alloc).ok().expect(rt, "another");
    let (tally, first, second) = tallied(rt, alloc);
    let one = Counted::new(&station, one, &Noon, &tally, first);
    let two = Counted::new(&station, two, &Noon, &tally, second);
    join(
        rt,
        || -> bool { talk(rt, alloc, gate, one) },
        || -> bool { talk(rt, alloc, gate, two) },
    )
}

/// A station of two seats round a site, which no type stands for yet.
fn with_two_seats(alloc: Global, kept: Kept) -> Option<Unopened>
    requires { IsNew kept }
    ensures { IfSome result (λ unopened. unopened.parts ≡ 2) }
{
    Unopened::new(alloc, kept, 2).ok()
}

#[test]
fn two_sessions_run_at_once(rt: HostRuntime) {
    let gate = Meeting {
        passes: AtomicU64::new(0),
        missed: AtomicU64::new(0),
    };
    let kept = opened(&rt, rt.alloc(), 1, 1).expect(&rt, "a site");
    let unopened = with_two_seats(rt.alloc(), kept).expect(&rt, "memory");
    let right = both::<Brand, _>(&rt, rt.alloc(), unopened, &gate);
    assert_eq!(rt; right, (true, true));
    assert_eq!(rt; gate.missed.load(Ordering::SeqCst), 0);
}

/// What a client reads, and how many requests and sessions are counted then.
fn counted<L: Room, R: Wait + Abort + rt::Clock>(
    rt: &R,
    alloc: Global,
    unopened: Unopened,
) -> (Vec<u8>, u64, u64)
    requires name { unopened.name ≡ L.name }
    requires parts { unopened.parts ≡ L.parts }
    requires table { unopened.table ≡ L.table }
    requires two { unopened.parts ≡ 2 }
{
    let station = Station::<L>::new(unopened).ok().expect(rt, "a station");
    let seat = station.seat(rt, alloc).ok().expect(rt, "a seat");
    let (tally, first, mut second) = tallied(rt, alloc);
    let mut backend = Counted::new(&station, seat, &Noon, &tally, first);
    let input = b"set a 0 0 2 noreply\r\nhi\r\nnonsense\r\nget a\r\nquit\r\nget a\r\n";
    let told = run_by(rt, alloc, input, each(7), each(7), &mut backend, &OpenGate);
    backend.count(Counter::Sessions);
    let requests = tally.read(&mut second, Counter::Requests);
    let sessions = tally.read(&mut second, Counter::Sessions);
    (told.written, requests, sessions)
}

#[test]
fn requests_are_counted(rt: HostRuntime) {
    let kept = opened(&rt, rt.alloc(), 1, 1).expect(&rt, "a site");
    let unopened = with_two_seats(rt.alloc(), kept).expect(&rt, "memory");
    let (written, requests, sessions) = counted::<Brand, _>(&rt, rt.alloc(), unopened);
    assert_eq!(rt;
        written.as_slice(),
        b"ERROR\r\nVALUE a 0 2\r\nhi\r\nEND\r\n".as_slice()
    );
    assert_eq!(rt; requests, 3);
    assert_eq!(rt; sessions, 1);
}
