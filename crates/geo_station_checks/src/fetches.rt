//! Fetches of what a site lacks: from a site that has it, and from peers that answer otherwise.
ghost use Rattle.std.specs.Prelude.{◌≡◌};
ghost use Rattle.geo_history.specs.Stories.{IsNew};

use crate::rounds::{found, set, station_of};
use crate::stations::with_seats;
use geo_delta::Parcel;
use geo_fixtures::opened;
use geo_frame::{FrameFault, Message};
use geo_gossip::{Peer, fetch, receive};
use geo_history::Kept;
use geo_lattice::Items;
use geo_link::{Link, LinkError, MemoryLink, memory_link};
use geo_stamp::{Retired, Vector};
use geo_station::{Room, Seat, Station, Unopened};
use geo_versions::{Digest, Key};
use std::alloc::{AllocError, Global};
use std::marker::Brand;
use std::process::Abort;
use std::sync::Wait;
use std::thread::{Threads, join};

/// How a peer answers an ask for the value `yo` of the key `a`.
#[derive(Clone, Copy, Debug, PartialEq, Eq)]
enum Way {
    Rightly,
    WithOtherBytes,
    WithoutBytes,
    OfAnotherKey,
    OfAnotherVersion,
    ForAnotherSite,
    ByAnAsk,
    ByAParcel,
    ByAFault,
}

/// A peer, which counts what it is asked for.
#[derive(Drop)]
struct Other {
    site: u8,
    way: Way,
    asks: usize,
    is_closed: bool,
}

fn offer(
    alloc: Global,
    site: u8,
    to: u8,
    key: &[u8],
    value: &[u8],
    bytes: Option<&[u8]>,
) -> Result<Option<Message>, AllocError> {
    let Some(key) = Key::new(alloc, key)? else {
        return Ok(None);
    };
    let bytes = match bytes {
        Some(bytes) => Some(Vec::from_slice(alloc, bytes)?),
        None => None,
    };
    Ok(Some(Message::Offer {
        from: site,
        to,
        sites: 3,
        key,
        digest: Digest::of(value),
        bytes,
    }))
}

fn ask(alloc: Global, site: u8) -> Result<Option<Message>, AllocError> {
    let Some(key) = Key::new(alloc, b"a")? else {
        return Ok(None);
    };
    Ok(Some(Message::Ask {
        from: site,
        to: 1,
        sites: 3,
        key,
        digest: Digest::of(b"yo"),
    }))
}

fn parcel(alloc: Global, site: u8) -> Message {
    Message::Parcel(Parcel {
        from: site,
        to: 1,
        base: Vector::new(3),
        upto: Vector::new(3),
        retired: Retired::none(),
        floor: None,
        records: Items::of(Vec::new(alloc)),
    })
}

/// What a peer answers. None where its link fails.
fn answer(alloc: Global, site: u8, way: Way) -> Result<Option<Message>, AllocError> {
    match way {
        Way::Rightly => offer(alloc, site, 1, b"a", b"yo", Some(b"yo")),
        Way::WithOtherBytes => offer(alloc, site, 1, b"a", b"yo", Some(b"no")),
        Way::WithoutBytes => offer(alloc, site, 1, b"a", b"yo", None),
        Way::OfAnotherKey => offer(alloc, site, 1, b"b", b"yo", Some(b"yo")),
        Way::OfAnotherVersion => offer(alloc, site, 1, b"a", b"no", Some(b"no")),
        Way::ForAnotherSite => offer(alloc, site, 2, b"a", b"yo", Some(b"yo")),
        Way::ByAnAsk => ask(alloc, site),
        Way::ByAParcel => Ok(Some(parcel(alloc, site))),
        Way::ByAFault => Ok(None),
    }
}

/// Whether a message asks a site for that value.
fn asks_for_it(message: &Message, site: u8) -> bool {
    match message {
        Message::Ask {
            from: 1,
            to,
            sites: 3,
            key,
            digest,
        } => *to == site && key.bytes() == b"a".as_slice() && *digest == Digest::of(b"yo"),
        _ => false,
    }
}

impl Link for Other {
    ghost puts = { λ _ _ _. Unit {0} };

    ghost gets = { λ _ _ _. Unit {0} };

    ghost put_fails = { λ _ _ _ _. Unit {0} };

    ghost get_fails = { λ _ _ _. Unit {0} };

    ghost closes = { λ _ _. Unit {0} };

    fn put<R: Wait>(&mut self, _rt: &R, _alloc: Global, message: Message) -> Result<(), LinkError> {
        if self.is_closed {
            return Err(LinkError::Closed);
        }
        if asks_for_it(&message, self.site) {
            self.asks = self.asks.saturating_add(1);
        }
        Ok(())
    }

    fn get<R: Wait>(&mut self, _rt: &R, alloc: Global) -> Result<Message, LinkError> {
        if self.is_closed {
            return Err(LinkError::Closed);
        }
        match answer(alloc, self.site, self.way) {
            Ok(Some(message)) => Ok(message),
            Ok(None) => Err(LinkError::Frame(FrameFault::Field)),
            Err(_) => Err(LinkError::Memory),
        }
    }

    fn close(&mut self) {
        self.is_closed = true;
    }
}

/// What peers 2 and 3 have seen: how often each was asked, and whether its link was closed.
type Asked = [(usize, bool); 2];

fn asked_of(peers: &[Peer<Other>]) -> Option<Asked> {
    match peers {
        [two, three] => Some([
            (two.link.asks, two.link.is_closed),
            (three.link.asks, three.link.is_closed),
        ]),
        _ => None,
    }
}

fn peer_of(site: u8, way: Way) -> Peer<Other> {
    Peer {
        site,
        link: Other {
            site,
            way,
            asks: 0,
            is_closed: false,
        },
    }
}

/// Fetches from two peers: how many values are held then that were not, and what the peers have seen.
fn fetch_from<L: Room>(
    rt: &impl Wait,
    alloc: Global,
    station: &Station<L>,
    seat: &mut Seat<L>,
    ways: [Way; 2],
) -> Option<(usize, Asked)> {
    let [two, three] = ways;
    let mut peers = Vec::new(alloc);
    peers.push(peer_of(2, two)).ok()?;
    peers.push(peer_of(3, three)).ok()?;
    let done = fetch(rt, alloc, station, seat, 100, peers.as_mut_slice());
    Some((done, asked_of(peers.as_slice())?))
}

/// Site 1 learns that site 2 wrote a value.
fn learn<L: Room, M: Room>(
    rt: &impl Wait,
    alloc: Global,
    one: &Station<L>,
    first: &mut Seat<L>,
    two: &Station<M>,
    second: &mut Seat<M>,
) -> Option<()> {
    set(rt, alloc, two, second, b"yo")?;
    let parcel = two.send(rt, alloc, second, 1).ok()?;
    let _taken = one.take(rt, alloc, first, parcel).ok()?;
    Some(())
}

/// What a fetch from two peers brings, and how many values a get finds behind it.
type Brought = (usize, Asked, usize);

fn brings<L: Room>(
    rt: &impl Wait,
    alloc: Global,
    station: &Station<L>,
    seat: &mut Seat<L>,
    ways: [Way; 2],
) -> Option<Brought> {
    let (done, asked) = fetch_from(rt, alloc, station, seat, ways)?;
    Some((done, asked, found(rt, alloc, station, seat)?))
}

/// Site 2 beside site 1, which learns of its write and fetches it from peers that answer in these ways.
fn beside<L: Room, M: Room, R: Wait + Abort>(
    rt: &R,
    alloc: Global,
    station: &Station<L>,
    seat: &mut Seat<L>,
    unopened: Unopened,
    ways: [Way; 2],
) -> Brought
    requires name { unopened.name ≡ M.name }
    requires parts { unopened.parts ≡ M.parts }
    requires table { unopened.table ≡ M.table }
    requires two { unopened.parts ≡ 2 }
{
    let (other, mut second) = station_of::<M>(rt, alloc, unopened);
    learn(rt, alloc, station, seat, &other, &mut second).expect(rt, "it is learned");
    brings(rt, alloc, station, seat, ways).expect(rt, "a fetch")
}

fn over_peers<L: Room, R: Wait + Abort>(
    rt: &R,
    alloc: Global,
    unopened: Unopened,
    two: Kept,
    ways: [Way; 2],
) -> Brought
    requires name { unopened.name ≡ L.name }
    requires parts { unopened.parts ≡ L.parts }
    requires table { unopened.table ≡ L.table }
    requires two { unopened.parts ≡ 2 }
    requires new { IsNew two }
{
    let (station, mut seat) = station_of::<L>(rt, alloc, unopened);
    let unopened = with_seats(alloc, two, 2).expect(rt, "memory");
    beside::<L, Brand, R>(rt, alloc, &station, &mut seat, unopened, ways)
}

/// Two peers' ways, how many values are fetched, what the peers see, and how many values a get finds.
const ROWS: [([Way; 2], Brought); 9] = [
    (
        [Way::Rightly, Way::Rightly],
        (1, [(1, false), (0, false)], 1),
    ),
    (
        [Way::WithoutBytes, Way::Rightly],
        (1, [(1, false), (1, false)], 1),
    ),
    (
        [Way::WithOtherBytes, Way::Rightly],
        (1, [(1, true), (1, false)], 1),
    ),
    (
        [Way::OfAnotherKey, Way::WithoutBytes],
        (0, [(1, true), (1, false)], 0),
    ),
    (
        [Way::OfAnotherVersion, Way::Rightly],
        (1, [(1, true), (1, false)], 1),
    ),
    (
        [Way::ForAnotherSite, Way::ByAnAsk],
        (0, [(1, true), (1, true)], 0),
    ),
    (
        [Way::ByAParcel, Way::Rightly],
        (1, [(1, true), (1, false)], 1),
    ),
    (
        [Way::ByAFault, Way::Rightly],
        (1, [(1, false), (1, false)], 1),
    ),
    (
        [Way::ByAnAsk, Way::WithOtherBytes],
        (0, [(1, true), (1, true)], 0),
    ),
];

#[test]
fn a_fetch_asks_each_peer_and_closes_the_links_of_those_that_answer_wrongly(rt: HostRuntime) {
    for (ways, owed) in ROWS {
        let one = opened(&rt, rt.alloc(), 1, 3).expect(&rt, "a site");
        let two = opened(&rt, rt.alloc(), 2, 3).expect(&rt, "another");
        let unopened = with_seats(rt.alloc(), one, 2).expect(&rt, "memory");
        let seen = over_peers::<Brand, _>(&rt, rt.alloc(), unopened, two, ways);
        assert_eq!(rt; seen, owed);
    }
}

/// A fetch over a link, which is then dropped.
fn fetched<L: Room>(
    rt: &impl Wait,
    alloc: Global,
    station: &Station<L>,
    mut seat: Seat<L>,
    link: MemoryLink,
) -> (Seat<L>, usize) {
    let mut peers = Vec::new(alloc);
    let done = match peers.push(Peer { site: 2, link }) {
        Ok(()) => fetch(rt, alloc, station, &mut seat, 100, peers.as_mut_slice()),
        Err(_) => 0,
    };
    (seat, done)
}

/// What comes over a link until it is closed: how many parcels were taken.
fn answered<L: Room>(
    rt: &impl Wait,
    alloc: Global,
    station: &Station<L>,
    mut seat: Seat<L>,
    mut link: MemoryLink,
) -> (Seat<L>, usize) {
    let taken = receive(rt, alloc, station, &mut seat, &mut link);
    (seat, taken)
}

/// One site fetches from the other, whose thread receives: how many were fetched, how many parcels taken, and how many values found.
fn over_a_link<L: Room + Send + Sync, M: Room + Send + Sync, R: Threads + Wait + Abort + Sync>(
    rt: &R,
    alloc: Global,
    one: &Station<L>,
    first: Seat<L>,
    two: &Station<M>,
    second: Seat<M>,
) -> (usize, usize, usize) {
    let (forth, back) = memory_link(alloc, 2).ok().expect(rt, "a link");
    let (at_one, at_two) = join(
        rt,
        || -> (Seat<L>, usize) { fetched(rt, alloc, one, first, forth) },
        || -> (Seat<M>, usize) { answered(rt, alloc, two, second, back) },
    );
    let (mut first, done) = at_one;
    let (_second, taken) = at_two;
    let count = found(rt, alloc, one, &mut first).expect(rt, "a get");
    (done, taken, count)
}

fn beside_a_link<L: Room + Send + Sync, M: Room + Send + Sync, R: Threads + Wait + Abort + Sync>(
    rt: &R,
    alloc: Global,
    station: &Station<L>,
    mut seat: Seat<L>,
    unopened: Unopened,
) -> (usize, usize, usize)
    requires name { unopened.name ≡ M.name }
    requires parts { unopened.parts ≡ M.parts }
    requires table { unopened.table ≡ M.table }
    requires two { unopened.parts ≡ 2 }
{
    let (other, mut second) = station_of::<M>(rt, alloc, unopened);
    learn(rt, alloc, station, &mut seat, &other, &mut second).expect(rt, "it is learned");
    over_a_link(rt, alloc, station, seat, &other, second)
}

fn both<L: Room + Send + Sync, R: Threads + Wait + Abort + Sync>(
    rt: &R,
    alloc: Global,
    unopened: Unopened,
    two: Kept,
) -> (usize, usize, usize)
    requires name { unopened.name ≡ L.name }
    requires parts { unopened.parts ≡ L.parts }
    requires table { unopened.table ≡ L.table }
    requires two { unopened.parts ≡ 2 }
    requires new { IsNew two }
{
    let (station, seat) = station_of::<L>(rt, alloc, unopened);
    let unopened = with_seats(alloc, two, 2).expect(rt, "memory");
    beside_a_link::<L, Brand, R>(rt, alloc, &station, seat, unopened)
}

#[test]
fn a_site_fetches_what_another_wrote(rt: HostRuntime) {
    let one = opened(&rt, rt.alloc(), 1, 2).expect(&rt, "a site");
    let two = opened(&rt, rt.alloc(), 2, 2).expect(&rt, "another");
    let unopened = with_seats(rt.alloc(), one, 2).expect(&rt, "memory");
    let seen = both::<Brand, _>(&rt, rt.alloc(), unopened, two);
    assert_eq!(rt; seen, (1, 0, 1));
}
