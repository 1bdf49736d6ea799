//! What no clause says of stations: that their calls succeed where there is memory, what they answer, and the steps that are kept.
ghost use Rattle.std.specs.Prelude.{◌≡◌, [], IfSome};
ghost use Rattle.geo_history.specs.Stories.{IsNew};

use crate::audits::{Told, check};
use crate::calls::request;
use crate::shown::show_steps;
use geo_fixtures::{opened, setup_of};
use geo_grammar::push_reply;
use geo_history::{History, Kept};
use geo_requests::ValueBytes;
use geo_site::Site;
use geo_station::{Missing, Room, Seat, Station, StationError, Unclosed, Unopened};
use geo_versions::{Digest, Key};
use std::alloc::Global;
use std::fmt::Debug;
use std::marker::Brand;
use std::process::Abort;
use std::random::RandomSource;
use std::sync::Wait;

/// Whether a station of one seat is refused.
fn refuses_one<L: Room>(unopened: Unopened) -> bool
    requires name { unopened.name ≡ L.name }
    requires parts { unopened.parts ≡ L.parts }
    requires table { unopened.table ≡ L.table }
    requires one { unopened.parts ≡ 1 }
{
    Station::<L>::new(unopened).err() == Some(StationError::SeatCount)
}

/// A station of so many seats round a site, which no type stands for yet.
pub fn with_seats(alloc: Global, kept: Kept, seats: u64) -> Option<Unopened>
    requires { IsNew kept }
    ensures { IfSome result (λ unopened. unopened.parts ≡ seats) }
{
    Unopened::new(alloc, kept, seats).ok()
}

#[test]
fn one_seat_is_too_few(rt: HostRuntime) {
    let kept = opened(&rt, rt.alloc(), 1, 1).expect(&rt, "a site");
    let unopened = with_seats(rt.alloc(), kept, 1).expect(&rt, "memory");
    assert!(rt; refuses_one::<Brand>(unopened));
}

/// A call by a station's first seat.
#[derive(Clone, Copy)]
pub enum Call {
    /// A request in the text of the protocol, at the moment 100.
    Act(&'static [u8]),
    /// At the moment 211.
    Maintain,
    Send(u8),
    /// The second site and the station's send each other what they know, and take it.
    Exchange,
    /// A new era after so many steps.
    Renew(u64),
    /// The second site answers a request in the text of the protocol, at the moment 100.
    Other(&'static [u8]),
    /// What the site lacks above a key, at the moment 100.
    Missing(Option<&'static [u8]>),
    /// What it lacks of the least keys, so many at most, at the moment 100.
    FirstMissing(usize),
    /// These bytes of the key a.
    Fill(&'static [u8]),
    /// What the site offers of the key a for the SHA-256 of these bytes.
    Offer(&'static [u8]),
    /// A site is gone for good.
    Retire(u8),
}

/// A request's answer in the text of the protocol, unless the seat is spent.
pub fn act<L: Room>(
    rt: &impl Wait,
    alloc: Global,
    station: &Station<L>,
    seat: &mut Seat<L>,
    text: &[u8],
    out: &mut Vec<u8>,
) -> Option<()> {
    let request = request(alloc, text)?;
    let reply = station.act(rt, alloc, seat, 100, request).ok()?;
    push_reply(out, &reply).ok()
}

fn exchange<L: Room>(
    rt: &impl Wait,
    alloc: Global,
    station: &Station<L>,
    seat: &mut Seat<L>,
    other: &mut Site,
) -> Option<()> {
    let parcel = other.send(alloc, 1).ok()?;
    let own = station.send(rt, alloc, seat, 2).ok()?;
    let _taken = other.take(alloc, own).ok()?;
    let _told = station.take(rt, alloc, seat, parcel).ok()?;
    Some(())
}

/// Writes what is told on a line of its own.
pub fn say(alloc: Global, out: &mut Vec<u8>, told: &impl Debug) -> Option<()> {
    let text = format!(in alloc; "{told:?}\n").ok()?;
    out.extend_from_slice(text.as_bytes()).ok()
}

fn key(alloc: Global, name: &[u8]) -> Option<Key> {
    Key::new(alloc, name).ok()?
}

/// Has the second site answer a request.
fn act_other(alloc: Global, other: &mut Site, text: &[u8], out: &mut Vec<u8>) -> Option<()> {
    let request = request(alloc, text)?;
    let reply = other.act(alloc, 100, &request);
    push_reply(out, &reply).ok()
}

/// Writes what a site lacks: its number and that of the sites, the key, and whether the SHA-256 is that of these bytes.
fn say_missing(alloc: Global, out: &mut Vec<u8>, missing: &Missing) -> Option<()> {
    let is_yo = missing.digest == Digest::of(b"yo");
    let told = (missing.from, missing.sites, missing.key.bytes(), is_yo);
    say(alloc, out, &told)
}

/// Writes what a site lacks above a key.
fn miss<L: Room>(
    rt: &impl Wait,
    alloc: Global,
    station: &Station<L>,
    after: Option<&[u8]>,
    out: &mut Vec<u8>,
) -> Option<()> {
    let after = match after {
        Some(name) => Some(key(alloc, name)?),
        None => None,
    };
    match station.missing(rt, alloc, 100, after.as_ref()).ok()? {
        Some(missing) => say_missing(alloc, out, &missing),
        None => out.extend_from_slice(b"nothing\n").ok(),
    }
}

/// Writes of how many keys a site lacks bytes, so many at most, and of which.
fn miss_first<L: Room>(
    rt: &impl Wait,
    alloc: Global,
    station: &Station<L>,
    most: usize,
    out: &mut Vec<u8>,
) -> Option<()> {
    let lacked = station.first_missing(rt, alloc, 100, most).ok()?;
    say(alloc, out, &lacked.len())?;
    for missing in &lacked {
        say_missing(alloc, out, missing)?;
    }
    Some(())
}

/// Offers a site bytes, and writes what came of them.
fn fill<L: Room>(
    rt: &impl Wait,
    alloc: Global,
    station: &Station<L>,
    seat: &mut Seat<L>,
    bytes: &[u8],
    out: &mut Vec<u8>,
) -> Option<()> {
    let bytes = ValueBytes::of(Vec::from_slice(alloc, bytes).ok()?);
    let filled = station.fill(rt, alloc, seat, &key(alloc, b"a")?, bytes);
    say(alloc, out, &filled.ok()?)
}

/// Writes what a site offers for the SHA-256 of these bytes.
fn offer<L: Room>(
    rt: &impl Wait,
    alloc: Global,
    station: &Station<L>,
    bytes: &[u8],
    out: &mut Vec<u8>,
) -> Option<()> {
    let digest = Digest::of(bytes);
    let offered = station.offer(rt, alloc, &key(alloc, b"a")?, &digest).ok()?;
    say(alloc, out, &offered)
}

/// Carries out a call, and writes what it answers.
pub fn answer<L: Room>(
    rt: &impl Wait,
    alloc: Global,
    station: &Station<L>,
    seat: &mut Seat<L>,
    other: &mut Site,
    call: Call,
    out: &mut Vec<u8>,
) -> Option<()> {
    match call {
        Call::Act(text) => act(rt, alloc, station, seat, text, out),
        Call::Exchange => exchange(rt, alloc, station, seat, other),
        Call::Maintain => say(alloc, out, &station.maintain(rt, alloc, seat, 211).ok()?),
        Call::Renew(after) => say(alloc, out, &station.renew(rt, alloc, after).ok()?.is_some()),
        Call::Send(to) => say(alloc, out, &station.send(rt, alloc, seat, to).err()),
        Call::Other(text) => act_other(alloc, other, text, out),
        Call::Missing(after) => miss(rt, alloc, station, after, out),
        Call::FirstMissing(most) => miss_first(rt, alloc, station, most, out),
        Call::Fill(bytes) => fill(rt, alloc, station, seat, bytes, out),
        Call::Offer(bytes) => offer(rt, alloc, station, bytes, out),
        Call::Retire(other) => say(alloc, out, &station.retire(rt, alloc, seat, other)),
    }
}

/// The history of a station that is closed with its two seats.
pub fn closed<L: Room>(
    rt: &impl Abort,
    alloc: Global,
    station: Station<L>,
    one: Seat<L>,
    two: Seat<L>,
) -> History {
    let mut seats = Vec::new(alloc);
    seats.push(one).expect(rt, "memory");
    seats.push(two).expect(rt, "memory");
    station.close(seats).ok().expect(rt, "it closes")
}

/// The history of a station that isn't closed with one of its seats, and why not, but with both.
fn closed_at_last<L: Room>(
    rt: &impl Abort,
    alloc: Global,
    station: Station<L>,
    one: Seat<L>,
    two: Seat<L>,
    out: &mut Vec<u8>,
) -> History
    requires { station ≡ L.parts }
{
    let mut seats = Vec::new(alloc);
    seats.push(one).expect(rt, "memory");
    let Err(unclosed) = station.close(seats) else {
        panic!(rt; "a seat is missing");
    };
    let Unclosed {
        why,
        station,
        mut seats,
    } = unclosed;
    say(alloc, out, &why).expect(rt, "memory");
    let one = seats.pop().expect(rt, "the seat comes back");
    closed(rt, alloc, station.lock(), one, two)
}

/// Writes how many calls a seat keeps, and whether there is another seat.
pub fn show_seats<L: Room>(
    rt: &impl Wait,
    alloc: Global,
    station: &Station<L>,
    seat: &Seat<L>,
    out: &mut Vec<u8>,
) -> Option<()> {
    let (count, another) = (seat.calls().len(), station.seat(rt, alloc).is_ok());
    let text = format!(in alloc; "{count} calls, {another}, ").ok()?;
    out.extend_from_slice(text.as_bytes()).ok()
}

/// Carries out calls by the first of two seats, counts those that it keeps, asks for a third seat, and closes the station.
fn carried<L: Room, R: Wait + Abort>(
    rt: &R,
    alloc: Global,
    unopened: Unopened,
    other: &mut Site,
    calls: &[Call],
    out: &mut Vec<u8>,
) -> History
    requires name { unopened.name ≡ L.name }
    requires parts { unopened.parts ≡ L.parts }
    requires table { unopened.table ≡ L.table }
    requires two { unopened.parts ≡ 2 }
{
    let Ok(station) = Station::<L>::new(unopened) else {
        panic!(rt; "a station");
    };
    let mut one = station.seat(rt, alloc).ok().expect(rt, "a seat");
    let two = station.seat(rt, alloc).ok().expect(rt, "another");
    for call in calls {
        answer(rt, alloc, &station, &mut one, other, *call, out).expect(rt, "an answer");
    }
    show_seats(rt, alloc, &station, &one, out).expect(rt, "memory");
    closed_at_last(rt, alloc, station, one, two, out)
}

/// A site alone, the steps of whose eras may keep so many bytes.
fn bounded(rt: &impl RandomSource, alloc: Global, most_bytes: u64) -> Option<Kept>
    ensures { IfSome result IsNew }
{
    let kept = opened(rt, alloc, 1, 1)?;
    Some(kept.bounded(most_bytes))
}

/// The second site, which set a key that the station sets too.
pub fn other_site(rt: &impl RandomSource, alloc: Global) -> Option<Site> {
    let request = request(alloc, b"set a 0 0 2\r\nyo\r\n")?;
    let mut site = Site::new(alloc, setup_of(rt, 2, 2)?).ok()?;
    let _stored = site.act(alloc, 100, &request);
    Some(site)
}

/// How many steps the first seat made: those before the history opened, and those in it. By what `close` promises that is the
/// seat's share of the ledger.
fn share_of(history: &History) -> u64 {
    let before = history.opening.counts.first().map_or(0, |count| *count);
    let mut share = before;
    for place in 0..history.steps.len() {
        if history.steps.get(place).map(|step| step.seat) == Some(0) {
            share = share.saturating_add(1);
        }
    }
    share
}

/// The first seat's share, and the history's era if it isn't the first, with how many steps the seat had made before.
fn show_share(out: &mut Vec<u8>, history: &History) -> Option<()> {
    let alloc = *out.allocator();
    let (era, before) = (history.opening.era, history.opening.counts.first());
    if let Some(before) = before {
        let text = format!(in alloc; "era {era} behind {before}, ").ok()?;
        out.extend_from_slice(text.as_bytes()).ok()?;
    }
    let share = share_of(history);
    let text = format!(in alloc; "share {share}\n").ok()?;
    out.extend_from_slice(text.as_bytes()).ok()
}

/// Carries out calls at the first of so many sites, writes what they answer, how many the seat keeps, whether there is a third seat
/// and why one is too few to close, and gives the history.
fn history_of<R: Wait + Abort + RandomSource>(
    rt: &R,
    alloc: Global,
    sites: u8,
    calls: &[Call],
    out: &mut Vec<u8>,
) -> History {
    let mut other = other_site(rt, alloc).expect(rt, "another site");
    let kept = opened(rt, alloc, 1, sites).expect(rt, "a site");
    let unopened = with_seats(alloc, kept, 2).expect(rt, "memory");
    carried::<Brand, _>(rt, alloc, unopened, &mut other, calls, out)
}

/// What the calls answer and leave, the seat's share, and the steps.
fn shown<R: Wait + Abort + RandomSource>(
    rt: &R,
    alloc: Global,
    sites: u8,
    calls: &[Call],
    out: &mut Vec<u8>,
) {
    let history = history_of(rt, alloc, sites, calls, out);
    show_share(out, &history).expect(rt, "memory");
    show_steps(out, &history.steps).expect(rt, "memory");
}

/// Three calls and two more, with a new era asked for behind each: after three steps.
const RENEWED: &[Call] = &[
    Call::Act(b"set a 0 0 2\r\nhi\r\n"),
    Call::Act(b"get a\r\n"),
    Call::Act(b"get b\r\n"),
    Call::Renew(3),
    Call::Act(b"get a\r\n"),
    Call::Act(b"delete a\r\n"),
    Call::Renew(3),
];

/// A site that learned of a value by a parcel is filled with its bytes, once.
const FILLED: &[Call] = &[
    Call::Missing(None),
    Call::Exchange,
    Call::Missing(None),
    Call::Missing(Some(b"A")),
    Call::Missing(Some(b"a")),
    Call::Offer(b"yo"),
    Call::Act(b"get a\r\n"),
    Call::Fill(b"no"),
    Call::Missing(None),
    Call::Fill(b"yo"),
    Call::Fill(b"yo"),
    Call::Missing(None),
    Call::Act(b"get a\r\n"),
    Call::Offer(b"no"),
    Call::Offer(b"yo"),
];

/// A site that learned of three values is told of the first of them at once, by rising key.
const LACKING: &[Call] = &[
    Call::FirstMissing(9),
    Call::Other(b"set c 0 0 1\r\nx\r\n"),
    Call::Other(b"set b 0 0 2\r\nyo\r\n"),
    Call::Exchange,
    Call::FirstMissing(2),
    Call::FirstMissing(9),
    Call::FirstMissing(0),
    Call::Fill(b"yo"),
    Call::FirstMissing(1),
];

/// A site is retired once, and no number of none.
const RETIRED: &[Call] = &[
    Call::Act(b"set a 0 0 2\r\nhi\r\n"),
    Call::Retire(2),
    Call::Retire(2),
    Call::Retire(1),
    Call::Retire(3),
    Call::Send(2),
];

/// How many sites there are, the calls, and what is shown.
const ROWS: &[(u8, &[Call], &[u8])] = &[
    (1, &[], b"0 calls, false, Missing\nshare 0\n"),
    // Of two writes the one that ended at 150 is reaped, and what is left of it dropped; the other's value is moved on in the lists.
    (
        1,
        &[
            Call::Act(b"set a 0 50 2\r\nhi\r\n"),
            Call::Act(b"set b 0 0 2\r\nyo\r\n"),
            Call::Maintain,
        ],
        b"STORED\r\nSTORED\r\n\
          Maintained { flushed: false, reaped: 1, removed: 1, juggled: 1, refused: false }\n\
          2 calls, false, Missing\n\
          share 4\n\
          seat 0 step 1: act at 100; STORED\r\n\n\
          seat 0 step 2: act at 100; STORED\r\n\n\
          seat 0 step 3: reap at 211; reaped true\n\
          seat 0 step 4: remove; removed 1\n",
    ),
    // The second site's write of the same time wins, so the station's value goes.
    (
        2,
        &[
            Call::Act(b"set a 0 0 2\r\nhi\r\n"),
            Call::Act(b"get a\r\n"),
            Call::Exchange,
            Call::Act(b"get a\r\n"),
            Call::Send(1),
        ],
        b"STORED\r\nVALUE a 0 2\r\nhi\r\nEND\r\nEND\r\nSome(Site(NoSuchSite))\n\
          6 calls, false, Missing\n\
          share 6\n\
          seat 0 step 1: act at 100; STORED\r\n\n\
          seat 0 step 2: act at 100; VALUE a 0 2\r\nhi\r\nEND\r\n\n\
          seat 0 step 3: send to 2; sent to 2\n\
          seat 0 step 4: take from 2; Taken { rose: true, dropped: 1 }\n\
          seat 0 step 5: act at 100; END\r\n\n\
          seat 0 step 6: send to 1; NoSuchSite\n",
    ),
    // A new era begins behind three steps, and not again behind two more; the share goes on.
    (
        1,
        RENEWED,
        b"STORED\r\nVALUE a 0 2\r\nhi\r\nEND\r\nEND\r\ntrue\nVALUE a 0 2\r\nhi\r\nEND\r\nDELETED\r\nfalse\n\
          5 calls, false, Missing\n\
          era 1 behind 3, share 5\n\
          seat 0 step 4: act at 100; VALUE a 0 2\r\nhi\r\nEND\r\n\n\
          seat 0 step 5: act at 100; DELETED\r\n\n",
    ),
    // A retirement is a step, a refused one too, and no call that the seat keeps; nothing is sent to a retired site.
    (
        2,
        RETIRED,
        b"STORED\r\nOk(true)\nOk(false)\nErr(Site(NoSuchSite))\nErr(Site(NoSuchSite))\nSome(Site(Retired))\n\
          2 calls, false, Missing\n\
          share 6\n\
          seat 0 step 1: act at 100; STORED\r\n\n\
          seat 0 step 2: retire 2; retired true\n\
          seat 0 step 3: retire 2; retired false\n\
          seat 0 step 4: retire 1; NoSuchSite\n\
          seat 0 step 5: retire 3; NoSuchSite\n\
          seat 0 step 6: send to 2; Retired\n",
    ),
    // A fill is a step, and no call that the seat keeps; to look for what is missing and to offer it are no steps.
    (
        2,
        FILLED,
        b"nothing\n(1, 2, [97], true)\n(1, 2, [97], true)\nnothing\nNone\nEND\r\nNotNamed\n(1, 2, [97], true)\nDone\nHeld\n\
          nothing\nVALUE a 0 2\r\nyo\r\nEND\r\nNone\nSome([121, 111])\n\
          4 calls, false, Missing\n\
          share 7\n\
          seat 0 step 1: send to 2; sent to 2\n\
          seat 0 step 2: take from 2; Taken { rose: true, dropped: 0 }\n\
          seat 0 step 3: act at 100; END\r\n\n\
          seat 0 step 4: fill of 2; NotNamed\n\
          seat 0 step 5: fill of 2; Done\n\
          seat 0 step 6: fill of 2; Held\n\
          seat 0 step 7: act at 100; VALUE a 0 2\r\nyo\r\nEND\r\n\n",
    ),
    (
        2,
        LACKING,
        b"0\nSTORED\r\nSTORED\r\n2\n(1, 2, [97], true)\n(1, 2, [98], true)\n\
          3\n(1, 2, [97], true)\n(1, 2, [98], true)\n(1, 2, [99], false)\n0\nDone\n1\n(1, 2, [98], true)\n\
          2 calls, false, Missing\n\
          share 3\n\
          seat 0 step 1: send to 2; sent to 2\n\
          seat 0 step 2: take from 2; Taken { rose: true, dropped: 0 }\n\
          seat 0 step 3: fill of 2; Done\n",
    ),
];

#[test]
fn a_station_closes_with_the_steps_of_its_seats(rt: HostRuntime) {
    for (sites, calls, text) in ROWS {
        let mut out = Vec::new(rt.alloc());
        shown(&rt, rt.alloc(), *sites, calls, &mut out);
        assert_eq!(rt; out.as_slice(), *text);
    }
}

#[test]
fn an_audit_tells_a_renewed_station(rt: HostRuntime) {
    let alloc = rt.alloc();
    let mut out = Vec::new(alloc);
    let first = history_of(&rt, alloc, 1, &[Call::Act(b"get a\r\n")], &mut out);
    check(&rt, alloc, &[first], Told::Sound(1));
    let later = history_of(&rt, alloc, 1, RENEWED, &mut out);
    check(&rt, alloc, &[later], Told::LaterEra(1));
}

/// Calls of which the second and the fourth fill an era of 700 bytes.
const FILLING: &[Call] = &[
    Call::Act(b"set a 0 0 2\r\nhi\r\n"),
    Call::Act(b"get a\r\n"),
    Call::Act(b"get b\r\n"),
    Call::Act(b"delete a\r\n"),
    Call::Act(b"get a\r\n"),
];

#[test]
fn the_call_that_fills_an_era_ends_it(rt: HostRuntime) {
    let alloc = rt.alloc();
    let mut out = Vec::new(alloc);
    let mut other = other_site(&rt, alloc).expect(&rt, "another site");
    let kept = bounded(&rt, alloc, 700).expect(&rt, "a site");
    let unopened = with_seats(alloc, kept, 2).expect(&rt, "memory");
    let history = carried::<Brand, _>(&rt, alloc, unopened, &mut other, FILLING, &mut out);
    show_share(&mut out, &history).expect(&rt, "memory");
    show_steps(&mut out, &history.steps).expect(&rt, "memory");
    assert_eq!(rt;
        out.as_slice(),
        b"STORED\r\nVALUE a 0 2\r\nhi\r\nEND\r\nEND\r\nDELETED\r\nEND\r\n\
          5 calls, false, Missing\n\
          era 2 behind 4, share 5\n\
          seat 0 step 5: act at 100; END\r\n\n"
            .as_slice()
    );
}
