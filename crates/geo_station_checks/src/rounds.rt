//! Rounds of gossip between two stations.
ghost use Rattle.std.specs.Prelude.{◌≡◌};
ghost use Rattle.geo_history.specs.Stories.{IsNew};

use crate::stations::with_seats;
use geo_fixtures::opened;
use geo_gossip::{Peer, receive, round};
use geo_history::Kept;
use geo_lattice::Items;
use geo_link::{MemoryLink, memory_link};
use geo_requests::{Reply, Request, ValueBytes, Verb};
use geo_station::{Room, Seat, Station, Unopened};
use geo_versions::Key;
use std::alloc::Global;
use std::marker::Brand;
use std::process::Abort;
use std::sync::Wait;

/// A station and a seat at it.
pub fn station_of<L: Room>(
    rt: &(impl Wait + Abort),
    alloc: Global,
    unopened: Unopened,
) -> (Station<L>, Seat<L>)
    requires name { unopened.name ≡ L.name }
    requires parts { unopened.parts ≡ L.parts }
    requires table { unopened.table ≡ L.table }
    requires two { unopened.parts ≡ 2 }
{
    let station = Station::<L>::new(unopened).ok().expect(rt, "a station");
    let seat = station.seat(rt, alloc).ok().expect(rt, "a seat");
    (station, seat)
}

pub fn set<L: Room>(
    rt: &impl Wait,
    alloc: Global,
    station: &Station<L>,
    seat: &mut Seat<L>,
    bytes: &[u8],
) -> Option<()> {
    let request = Request::Store {
        verb: Verb::Set,
        key: Key::new(alloc, b"a").ok()??,
        flags: 0,
        exptime: 0,
        unique: None,
        bytes: ValueBytes::of(Vec::from_slice(alloc, bytes).ok()?),
        noreply: false,
    };
    match station.act(rt, alloc, seat, 100, request) {
        Ok(Reply::Stored) => Some(()),
        _ => None,
    }
}

/// A round to one peer, whose link is then dropped: how many parcels were put.
fn tell<L: Room>(
    rt: &impl Wait,
    alloc: Global,
    station: &Station<L>,
    seat: &mut Seat<L>,
    site: u8,
    link: MemoryLink,
) -> Option<usize> {
    let mut peers = Vec::new(alloc);
    peers.push(Peer { site, link }).ok()?;
    round(rt, alloc, station, seat, peers.as_mut_slice()).ok()
}

/// The number of what a site names for the one key that it tells a third site of.
fn named<L: Room>(
    rt: &impl Wait,
    alloc: Global,
    station: &Station<L>,
    seat: &mut Seat<L>,
) -> Option<u64> {
    let parcel = station.send(rt, alloc, seat, 3).ok()?;
    match parcel.records.as_slice() {
        [(_key, record)] => {
            let (stamp, _body) = record.left.get()?;
            Some(stamp.cas())
        }
        _ => None,
    }
}

/// How many values a get finds.
pub fn found<L: Room>(
    rt: &impl Wait,
    alloc: Global,
    station: &Station<L>,
    seat: &mut Seat<L>,
) -> Option<usize> {
    let mut keys = Vec::new(alloc);
    keys.push(Key::new(alloc, b"a").ok()??).ok()?;
    let request = Request::Fetch {
        keys: Items::of(keys),
        numbers: false,
    };
    match station.act(rt, alloc, seat, 100, request) {
        Ok(Reply::Values(values)) => Some(values.as_slice().len()),
        _ => None,
    }
}

/// What a site has of one exchange: how many parcels were put, how many were taken, what is named then, and how many values are found.
type Seen = (usize, usize, u64, usize);

/// What a site names and finds.
fn seen<L: Room>(
    rt: &impl Wait,
    alloc: Global,
    station: &Station<L>,
    seat: &mut Seat<L>,
) -> Option<(u64, usize)> {
    let number = named(rt, alloc, station, seat)?;
    Some((number, found(rt, alloc, station, seat)?))
}

/// Both tell each other, and then both take what came.
fn exchange<L: Room, M: Room>(
    rt: &(impl Wait + Abort),
    alloc: Global,
    one: &Station<L>,
    first: &mut Seat<L>,
    two: &Station<M>,
    second: &mut Seat<M>,
) -> [Seen; 2] {
    let (forth, mut at_two) = memory_link(alloc, 16).ok().expect(rt, "a link");
    let (back, mut at_one) = memory_link(alloc, 16).ok().expect(rt, "another");
    let put_by_one = tell(rt, alloc, one, first, 2, forth).expect(rt, "a round");
    let put_by_two = tell(rt, alloc, two, second, 1, back).expect(rt, "another");
    let by_one = receive(rt, alloc, one, first, &mut at_one);
    let by_two = receive(rt, alloc, two, second, &mut at_two);
    let at_first = seen(rt, alloc, one, first).expect(rt, "the key");
    let at_second = seen(rt, alloc, two, second).expect(rt, "the key");
    [
        (put_by_one, by_one, at_first.0, at_first.1),
        (put_by_two, by_two, at_second.0, at_second.1),
    ]
}

/// A second site beside the first.
fn beside<L: Room, M: Room, R: Wait + Abort>(
    rt: &R,
    alloc: Global,
    station: &Station<L>,
    seat: &mut Seat<L>,
    unopened: Unopened,
) -> [Seen; 2]
    requires name { unopened.name ≡ M.name }
    requires parts { unopened.parts ≡ M.parts }
    requires table { unopened.table ≡ M.table }
    requires two { unopened.parts ≡ 2 }
{
    let (other, mut second) = station_of::<M>(rt, alloc, unopened);
    set(rt, alloc, &other, &mut second, b"yo").expect(rt, "it is stored");
    exchange(rt, alloc, station, seat, &other, &mut second)
}

/// Two sites that set one key, and tell each other in one round each.
fn both<L: Room, R: Wait + Abort>(rt: &R, alloc: Global, unopened: Unopened, two: Kept) -> [Seen; 2]
    requires name { unopened.name ≡ L.name }
    requires parts { unopened.parts ≡ L.parts }
    requires table { unopened.table ≡ L.table }
    requires two { unopened.parts ≡ 2 }
    requires new { IsNew two }
{
    let (station, mut seat) = station_of::<L>(rt, alloc, unopened);
    set(rt, alloc, &station, &mut seat, b"hi").expect(rt, "it is stored");
    let unopened = with_seats(alloc, two, 2).expect(rt, "memory");
    beside::<L, Brand, R>(rt, alloc, &station, &mut seat, unopened)
}

#[test]
fn a_round_each_makes_two_sites_name_the_same(rt: HostRuntime) {
    let one = opened(&rt, rt.alloc(), 1, 3).expect(&rt, "a site");
    let two = opened(&rt, rt.alloc(), 2, 3).expect(&rt, "another");
    let unopened = with_seats(rt.alloc(), one, 2).expect(&rt, "memory");
    let seen = both::<Brand, _>(&rt, rt.alloc(), unopened, two);
    assert_eq!(rt; seen, [(1, 1, 258, 0), (1, 1, 258, 1)]);
}
