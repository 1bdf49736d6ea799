//! A station that a thread holds from one request to the next.
ghost use Rattle.std.specs.Prelude.{◌≡◌, IfSome};
ghost use Rattle.geo_history.specs.Stories.{IsNew};

use crate::calls::request;
use crate::stations::{act, with_seats};
use geo_fixtures::{opened, setup_of};
use geo_grammar::push_reply;
use geo_history::Kept;
use geo_station::{Hold, Room, Seat, Station, Unopened};
use std::alloc::Global;
use std::marker::Brand;
use std::process::Abort;
use std::random::RandomSource;
use std::sync::Wait;

/// More than a thread asks while it holds a station.
const MANY: u64 = 200;

/// The first of two sites, which logs no step.
fn unlogged(rt: &impl RandomSource, alloc: Global) -> Option<Kept>
    ensures { IfSome result IsNew }
{
    let setup = setup_of(rt, 1, 2)?;
    Kept::opened(alloc, setup, false).ok()
}

/// A request's answer by a hold, in the text of the protocol, unless the seat is spent.
fn act_by<'a, L: Room>(
    rt: &impl Wait,
    alloc: Global,
    station: &'a Station<L>,
    hold: &mut Hold<'a, L>,
    seat: &mut Seat<L>,
    text: &[u8],
    out: &mut Vec<u8>,
) -> Option<()> {
    let request = request(alloc, text)?;
    let reply = hold.act(rt, station, alloc, seat, 100, request).ok()?;
    push_reply(out, &reply).ok()
}

/// A first seat asks by a hold and rests, a second one asks without, and the first asks often then, and rests no more.
fn asked<L: Room>(
    rt: &impl Wait,
    alloc: Global,
    station: &Station<L>,
    out: &mut Vec<u8>,
) -> Option<()> {
    let mut one = station.seat(rt, alloc).ok()?;
    let mut two = station.seat(rt, alloc).ok()?;
    let mut hold = Hold::none();
    act_by(
        rt,
        alloc,
        station,
        &mut hold,
        &mut one,
        b"set a 0 0 2\r\nhi\r\n",
        out,
    )?;
    act_by(rt, alloc, station, &mut hold, &mut one, b"get a\r\n", out)?;
    hold.rest();
    act(rt, alloc, station, &mut two, b"incr a 1\r\n", out)?;
    act(rt, alloc, station, &mut two, b"set a 0 0 1\r\n1\r\n", out)?;
    for _more in 0..MANY {
        act_by(
            rt,
            alloc,
            station,
            &mut hold,
            &mut one,
            b"incr a 1 noreply\r\n",
            &mut Vec::new(alloc),
        )?;
    }
    act_by(rt, alloc, station, &mut hold, &mut one, b"get a\r\n", out)
}

fn told<L: Room, R: Wait + Abort>(rt: &R, alloc: Global, unopened: Unopened, out: &mut Vec<u8>)
    requires name { unopened.name ≡ L.name }
    requires parts { unopened.parts ≡ L.parts }
    requires table { unopened.table ≡ L.table }
{
    let Ok(station) = Station::<L>::new(unopened) else {
        panic!(rt; "a station");
    };
    asked(rt, alloc, &station, out).expect(rt, "an answer");
}

/// What the two seats are answered.
const TOLD: &[u8] = b"STORED\r\nVALUE a 0 2\r\nhi\r\nEND\r\n\
    CLIENT_ERROR cannot increment or decrement non-numeric value\r\nSTORED\r\nVALUE a 0 3\r\n201\r\nEND\r\n";

#[test]
fn a_thread_that_rests_lets_others_in(rt: HostRuntime) {
    let alloc = rt.alloc();
    let mut out = Vec::new(alloc);
    let kept = unlogged(&rt, alloc).expect(&rt, "a site");
    let unopened = with_seats(alloc, kept, 2).expect(&rt, "memory");
    told::<Brand, _>(&rt, alloc, unopened, &mut out);
    assert_eq!(rt; out.as_slice(), TOLD);
}

#[test]
fn a_station_that_logs_is_asked_request_by_request(rt: HostRuntime) {
    let alloc = rt.alloc();
    let mut out = Vec::new(alloc);
    let kept = opened(&rt, alloc, 1, 2).expect(&rt, "a site");
    let unopened = with_seats(alloc, kept, 2).expect(&rt, "memory");
    told::<Brand, _>(&rt, alloc, unopened, &mut out);
    assert_eq!(rt; out.as_slice(), TOLD);
}
