//! Two threads at one station.
ghost use Rattle.std.specs.Prelude.{◌≡◌};

use crate::stations::{act, closed, with_seats};
use geo_fixtures::opened;
use geo_history::{History, Kept};
use geo_requests::{Reply, Request};
use geo_site::{Answer, Event};
use geo_station::{Call, Room, Seat, Station, Unopened};
use std::alloc::Global;
use std::marker::Brand;
use std::process::Abort;
use std::random::RandomSource;
use std::sync::Wait;
use std::thread::{Threads, join};

/// What a thread asks, and what is found then.
struct Row {
    set: &'static [u8],
    get: &'static [u8],
    found: &'static [u8],
}

const ONE: Row = Row {
    set: b"set a 0 0 2\r\nhi\r\n",
    get: b"get a\r\n",
    found: b"VALUE a 0 2\r\nhi\r\nEND\r\n",
};

const TWO: Row = Row {
    set: b"set b 0 0 2\r\nyo\r\n",
    get: b"get b\r\n",
    found: b"VALUE b 0 2\r\nyo\r\nEND\r\n",
};

/// Whether a request is answered so.
fn is_answered<L: Room>(
    rt: &impl Wait,
    alloc: Global,
    station: &Station<L>,
    seat: &mut Seat<L>,
    text: &[u8],
    wanted: &[u8],
) -> bool {
    let mut out = Vec::new(alloc);
    match act(rt, alloc, station, seat, text, &mut out) {
        Some(()) => out.as_slice() == wanted,
        None => false,
    }
}

/// Sets a key and gets it, and tells whether both were answered as they should be.
fn is_right<L: Room>(
    rt: &impl Wait,
    alloc: Global,
    station: &Station<L>,
    seat: &mut Seat<L>,
    row: &Row,
) -> bool {
    is_answered(rt, alloc, station, seat, row.set, b"STORED\r\n")
        && is_answered(rt, alloc, station, seat, row.get, row.found)
}

/// Sets and gets a hundred times, and tells how often that was answered as it should be.
fn work<L: Room>(
    rt: &impl Wait,
    alloc: Global,
    station: &Station<L>,
    mut seat: Seat<L>,
    row: &Row,
) -> (Seat<L>, usize) {
    let mut right = 0usize;
    for _turn in 0..100 {
        if is_right(rt, alloc, station, &mut seat, row) {
            right = right.saturating_add(1);
        }
    }
    (seat, right)
}

/// What a seat's thread was told, and what the seat keeps of its calls: sets that stored, and gets that found.
#[derive(Clone, Copy, Debug, PartialEq, Eq)]
struct Told {
    right: usize,
    calls: usize,
    sets: usize,
    gets: usize,
}

fn is_set(call: &Call) -> bool {
    matches!(
        call,
        Call {
            event: Event::Command {
                now: 100,
                request: Request::Store { .. }
            },
            answer: Answer::Replied(Reply::Stored)
        }
    )
}

fn is_get(call: &Call) -> bool {
    matches!(
        call,
        Call {
            event: Event::Command {
                now: 100,
                request: Request::Fetch { .. }
            },
            answer: Answer::Replied(Reply::Values(_))
        }
    )
}

fn told_of<L: Room>(seat: &Seat<L>, right: usize) -> Told {
    let calls = seat.calls();
    Told {
        right,
        calls: calls.len(),
        sets: calls.iter().filter(|call| is_set(call)).count(),
        gets: calls.iter().filter(|call| is_get(call)).count(),
    }
}

/// Lets go of a seat's calls and gets once more, and tells whether that was answered as it should be.
fn forgets_and_gets<L: Room>(
    rt: &impl Wait,
    alloc: Global,
    station: &Station<L>,
    seat: &mut Seat<L>,
    row: &Row,
) -> bool {
    seat.forget();
    is_answered(rt, alloc, station, seat, row.get, row.found)
}

/// What two threads are told, of whose seats each may forget its calls at the end and get once more; and the history.
fn day<L: Room + Send + Sync, R: Threads + Wait + Abort + Sync>(
    rt: &R,
    alloc: Global,
    unopened: Unopened,
    forgetful: bool,
) -> ([Told; 2], History)
    requires name { unopened.name ≡ L.name }
    requires parts { unopened.parts ≡ L.parts }
    requires table { unopened.table ≡ L.table }
    requires two { unopened.parts ≡ 2 }
{
    let station = Station::<L>::new(unopened).ok().expect(rt, "a station");
    let one = station.seat(rt, alloc).ok().expect(rt, "a seat");
    let two = station.seat(rt, alloc).ok().expect(rt, "another");
    let shared = &station;
    let (one, two) = join(
        rt,
        || -> (Seat<L>, usize) { work(rt, alloc, shared, one, &ONE) },
        || -> (Seat<L>, usize) { work(rt, alloc, shared, two, &TWO) },
    );
    let (mut first, right) = one;
    let (mut second, other_right) = two;
    if forgetful {
        assert!(rt; forgets_and_gets(rt, alloc, &station, &mut first, &ONE));
        assert!(rt; forgets_and_gets(rt, alloc, &station, &mut second, &TWO));
    }
    let told = [told_of(&first, right), told_of(&second, other_right)];
    (told, closed(rt, alloc, station, first, second))
}

/// What the threads are told, and how many steps the history has.
fn shared<R: Threads + Wait + Abort + RandomSource + Sync>(
    rt: &R,
    alloc: Global,
    forgetful: bool,
) -> ([Told; 2], usize) {
    let kept = opened(rt, alloc, 1, 1).expect(rt, "a site");
    let unopened = with_seats(alloc, kept, 2).expect(rt, "memory");
    let (told, history) = day::<Brand, _>(rt, alloc, unopened, forgetful);
    (told, history.steps.len())
}

#[test]
fn two_threads_are_told_what_the_history_has(rt: HostRuntime) {
    let each = Told {
        right: 100,
        calls: 200,
        sets: 100,
        gets: 100,
    };
    assert_eq!(rt; shared(&rt, rt.alloc(), false), ([each, each], 400));
}

#[test]
fn seats_that_forgot_their_calls_close_too(rt: HostRuntime) {
    let each = Told {
        right: 100,
        calls: 1,
        sets: 0,
        gets: 1,
    };
    assert_eq!(rt; shared(&rt, rt.alloc(), true), ([each, each], 402));
}
