//! Two stations whose sites set one key, tell each other, and which are closed.
ghost use Rattle.std.specs.Prelude.{◌≡◌};
ghost use Rattle.geo_history.specs.Stories.{IsNew};

use crate::audits::{Told, check};
use crate::shown::show_steps;
use crate::stations::{act, closed, with_seats};
use geo_delta::Parcel;
use geo_fixtures::opened;
use geo_history::{History, Kept};
use geo_station::{Room, Seat, Station, Unopened};
use std::alloc::Global;
use std::marker::Brand;
use std::process::Abort;
use std::sync::Wait;

/// A site takes a parcel, which is written down.
fn take<L: Room>(
    rt: &impl Wait,
    alloc: Global,
    station: &Station<L>,
    seat: &mut Seat<L>,
    parcel: Parcel,
    out: &mut Vec<u8>,
) -> Option<()> {
    let _taken = station.take(rt, alloc, seat, parcel).ok()?;
    out.extend_from_slice(b"taken\n").ok()
}

/// Both set one key, both send before either takes, and then both get.
fn tie<L: Room, M: Room>(
    rt: &impl Wait,
    alloc: Global,
    one: &Station<L>,
    first: &mut Seat<L>,
    two: &Station<M>,
    second: &mut Seat<M>,
    out: &mut Vec<u8>,
) -> Option<()> {
    act(rt, alloc, one, first, b"set a 0 0 2\r\nhi\r\n", out)?;
    act(rt, alloc, two, second, b"set a 0 0 2\r\nyo\r\n", out)?;
    let forth = one.send(rt, alloc, first, 2).ok()?;
    let back = two.send(rt, alloc, second, 1).ok()?;
    take(rt, alloc, two, second, forth, out)?;
    take(rt, alloc, one, first, back, out)?;
    act(rt, alloc, one, first, b"get a\r\n", out)?;
    act(rt, alloc, two, second, b"get a\r\n", out)
}

/// The history of a second station, which is opened beside the first and closed.
fn beside<L: Room, M: Room, R: Wait + Abort>(
    rt: &R,
    alloc: Global,
    station: &Station<L>,
    seat: &mut Seat<L>,
    unopened: Unopened,
    out: &mut Vec<u8>,
) -> History
    requires name { unopened.name ≡ M.name }
    requires parts { unopened.parts ≡ M.parts }
    requires table { unopened.table ≡ M.table }
    requires two { unopened.parts ≡ 2 }
{
    let other = Station::<M>::new(unopened).ok().expect(rt, "a station");
    let mut second = other.seat(rt, alloc).ok().expect(rt, "a seat");
    let idle = other.seat(rt, alloc).ok().expect(rt, "another");
    tie(rt, alloc, station, seat, &other, &mut second, out).expect(rt, "all is answered");
    closed(rt, alloc, other, second, idle)
}

/// The histories of two stations, of which each is closed.
fn both<L: Room, R: Wait + Abort>(
    rt: &R,
    alloc: Global,
    unopened: Unopened,
    two: Kept,
    out: &mut Vec<u8>,
) -> [History; 2]
    requires name { unopened.name ≡ L.name }
    requires parts { unopened.parts ≡ L.parts }
    requires table { unopened.table ≡ L.table }
    requires two { unopened.parts ≡ 2 }
    requires new { IsNew two }
{
    let station = Station::<L>::new(unopened).ok().expect(rt, "a station");
    let mut first = station.seat(rt, alloc).ok().expect(rt, "a seat");
    let idle = station.seat(rt, alloc).ok().expect(rt, "another");
    let unopened = with_seats(alloc, two, 2).expect(rt, "memory");
    let second = beside::<L, Brand, R>(rt, alloc, &station, &mut first, unopened, out);
    [closed(rt, alloc, station, first, idle), second]
}

const ANSWERS: &[u8] = b"STORED\r\nSTORED\r\ntaken\ntaken\nEND\r\nVALUE a 0 2\r\nyo\r\nEND\r\n";

// The second's write of the same time wins, so the first's value goes.
const STEPS: &[u8] = b"seat 0 step 1: act at 100; STORED\r\n\n\
      seat 0 step 2: send to 2; sent to 2\n\
      seat 0 step 3: take from 2; Taken { rose: true, dropped: 1 }\n\
      seat 0 step 4: act at 100; END\r\n\n\
      seat 0 step 1: act at 100; STORED\r\n\n\
      seat 0 step 2: send to 1; sent to 1\n\
      seat 0 step 3: take from 1; Taken { rose: true, dropped: 0 }\n\
      seat 0 step 4: act at 100; VALUE a 0 2\r\nyo\r\nEND\r\n\n";

#[test]
fn two_stations_that_told_each_other_close(rt: HostRuntime) {
    let alloc = rt.alloc();
    let one = opened(&rt, alloc, 1, 2).expect(&rt, "a site");
    let two = opened(&rt, alloc, 2, 2).expect(&rt, "another");
    let mut out = Vec::new(alloc);
    let unopened = with_seats(alloc, one, 2).expect(&rt, "memory");
    let histories = both::<Brand, _>(&rt, alloc, unopened, two, &mut out);
    assert_eq!(rt; out.as_slice(), ANSWERS);
    let mut steps = Vec::new(alloc);
    for history in &histories {
        show_steps(&mut steps, &history.steps).expect(&rt, "memory");
    }
    assert_eq!(rt; steps.as_slice(), STEPS);
    check(&rt, alloc, &histories, Told::Sound(8));
}
