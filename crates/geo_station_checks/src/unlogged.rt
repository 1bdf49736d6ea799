//! A station whose history proofs alone have answers as any other, keeps nothing, and isn't closed.
ghost use Rattle.std.specs.Prelude.{◌≡◌, IfSome};
ghost use Rattle.geo_history.specs.Stories.{IsNew};

use crate::stations::{Call, answer, other_site, say, show_seats, with_seats};
use geo_fixtures::setup_of;
use geo_history::Kept;
use geo_site::Site;
use geo_station::{Room, Seat, Station, Unclosed, Unopened};
use std::alloc::Global;
use std::marker::Brand;
use std::process::Abort;
use std::random::RandomSource;
use std::sync::Wait;

/// The first of two sites, which logs no step.
fn opened(rt: &impl RandomSource, alloc: Global) -> Option<Kept>
    ensures { IfSome result IsNew }
{
    let setup = setup_of(rt, 1, 2)?;
    Kept::opened(alloc, setup, false).ok()
}

/// The same, whose eras may keep one byte alone.
fn unlogged(rt: &impl RandomSource, alloc: Global) -> Option<Kept>
    ensures { IfSome result IsNew }
{
    let kept = opened(rt, alloc)?;
    Some(kept.bounded(1))
}

/// Writes why a station isn't closed with one of its seats, and why not with both.
fn stays_open<L: Room>(
    rt: &impl Abort,
    alloc: Global,
    station: Station<L>,
    one: Seat<L>,
    two: Seat<L>,
    out: &mut Vec<u8>,
)
    requires { station ≡ L.parts }
{
    let mut seats = Vec::new(alloc);
    seats.push(one).expect(rt, "memory");
    let Err(unclosed) = station.close(seats) else {
        panic!(rt; "a seat is missing");
    };
    let Unclosed {
        why,
        station,
        mut seats,
    } = unclosed;
    say(alloc, out, &why).expect(rt, "memory");
    seats.push(two).expect(rt, "memory");
    let Err(unclosed) = station.lock().close(seats) else {
        panic!(rt; "nothing was logged");
    };
    say(alloc, out, &unclosed.why).expect(rt, "memory");
}

/// Carries out calls by the first of two seats, counts those that it keeps, asks for a third seat, and tries to close the station.
fn carried<L: Room, R: Wait + Abort>(
    rt: &R,
    alloc: Global,
    unopened: Unopened,
    other: &mut Site,
    calls: &[Call],
    out: &mut Vec<u8>,
)
    requires name { unopened.name ≡ L.name }
    requires parts { unopened.parts ≡ L.parts }
    requires table { unopened.table ≡ L.table }
    requires two { unopened.parts ≡ 2 }
{
    let Ok(station) = Station::<L>::new(unopened) else {
        panic!(rt; "a station");
    };
    let mut one = station.seat(rt, alloc).ok().expect(rt, "a seat");
    let two = station.seat(rt, alloc).ok().expect(rt, "another");
    for call in calls {
        answer(rt, alloc, &station, &mut one, other, *call, out).expect(rt, "an answer");
    }
    show_seats(rt, alloc, &station, &one, out).expect(rt, "memory");
    stays_open(rt, alloc, station, one, two, out);
}

/// Calls of each kind. The second site's write of the same time wins, its bytes fill the station, and it is retired.
const CALLS: &[Call] = &[
    Call::Act(b"set a 0 0 2\r\nhi\r\n"),
    Call::Act(b"append a 0 0 1\r\n!\r\n"),
    Call::Act(b"get a\r\n"),
    Call::Renew(0),
    Call::Other(b"set a 0 0 2\r\nyo\r\n"),
    Call::Exchange,
    Call::Act(b"get a\r\n"),
    Call::Missing(None),
    Call::Fill(b"no"),
    Call::Fill(b"yo"),
    Call::FirstMissing(9),
    Call::Offer(b"yo"),
    Call::Act(b"get a\r\n"),
    Call::Act(b"set b 0 50 1\r\nx\r\n"),
    Call::Maintain,
    Call::Retire(2),
    Call::Retire(2),
    Call::Send(2),
    Call::Renew(0),
];

/// What they answer, that the seat keeps none of them, that there is no third seat, and why the station isn't closed.
const TOLD: &[u8] =
    b"STORED\r\nSTORED\r\nVALUE a 0 3\r\nhi!\r\nEND\r\nfalse\nSTORED\r\nEND\r\n(1, 2, [97], true)\nNotNamed\nDone\n\
      0\nSome([121, 111])\nVALUE a 0 2\r\nyo\r\nEND\r\nSTORED\r\n\
      Maintained { flushed: false, reaped: 1, removed: 0, juggled: 1, refused: false }\n\
      Ok(true)\nOk(false)\nSome(Site(Retired))\nfalse\n\
      0 calls, false, Missing\nUnlogged\n";

#[test]
fn a_station_that_logs_nothing_answers_and_stays_open(rt: HostRuntime) {
    let alloc = rt.alloc();
    let mut out = Vec::new(alloc);
    let mut other = other_site(&rt, alloc).expect(&rt, "another site");
    let kept = unlogged(&rt, alloc).expect(&rt, "a site");
    let unopened = with_seats(alloc, kept, 2).expect(&rt, "memory");
    carried::<Brand, _>(&rt, alloc, unopened, &mut other, CALLS, &mut out);
    assert_eq!(rt; out.as_slice(), TOLD);
}
