//! Calls of seats at a station, and its end.
ghost use Rattle.std.specs.Prelude.{◌≡◌};

use crate::fills::{fetch_all, fill, miss, offer};
use crate::rounds::{hear_all, tell_all};
use crate::rows::Rows;
use geo_delta::Parcel;
use geo_equal::Equal;
use geo_fixtures::{opened, setup_of};
use geo_grammar::push_reply;
use geo_history::{History, Kept};
use geo_lattice::Twin;
use geo_requests::Reply;
use geo_scenes::shown::{
    name_of_take, push_answer, push_each_step, push_event, push_number, push_parcel, push_state,
};
use geo_scenes::texts::{request, word};
use geo_scenes::{Course, Scene, Stop, carry_out};
use geo_site::{LAST_MOMENT, RetireError, SendError, Site, TakeError, Taken};
use geo_station::{CallError, Maintained, Returned, Room, Seat, Station, Unclosed, Unopened, Why};
use std::alloc::{AllocError, Global};
use std::marker::Brand;
use std::random::RandomSource;
use std::rt::Clock;
use std::sync::Wait;
use std::{io, mem};

/// A call at a station, whose seat, 0 or 1, comes first, or at a second site. Moments are in seconds.
#[derive(Clone, Copy)]
pub enum Line {
    /// A request in the text of the protocol, at a moment.
    Act(usize, u64, &'static [u8]),
    /// A parcel for a site. Parcels are numbered from 0.
    Send(usize, u8),
    /// The parcel of this number, which stays there to be taken again.
    Take(usize, usize),
    /// What the site needs from time to time, at a moment.
    Maintain(usize, u64),
    /// The seat lets go of the calls that it keeps.
    Forget(usize),
    /// A new era, where this one has so many steps.
    Renew(u64),
    /// The end: without the last seat, and then with both.
    Close,
    /// A request at the second site, at the moment 100.
    Beside(&'static [u8]),
    /// The second site sends the station's a parcel.
    Back,
    /// The second site takes the parcel of this number.
    Forth(usize),
    /// A round to sites 2 and 3.
    Round(usize),
    /// The parcels from this number on come over a link.
    Receive(usize, usize),
    /// Which key is missing first.
    Missing,
    /// What is held of a key and has the SHA-256 of these bytes.
    Offer(&'static [u8], &'static [u8]),
    /// The site is offered these bytes of a key.
    Fill(usize, &'static [u8], &'static [u8]),
    /// A fetch from the second site, which brings so many values.
    Fetch(usize, usize),
    /// A site is gone for good.
    Retire(usize, u8),
}

/// What is seen of a station.
#[derive(Clone, Copy)]
pub enum Sight {
    /// The calls that its seats keep, and the histories that it handed out.
    Calls,
    /// What its site is, which a station shows where it begins an era. How many steps were made is left out, for calls that go on where
    /// memory was wanted make some of them again.
    State,
    /// What its site is, the steps, and the calls that its seats keep.
    Steps,
}

/// A station with its two seats, and a second site.
#[derive(Drop)]
pub struct Post<L: Room> {
    station: Option<Station<L>>,
    seats: Vec<Seat<L>>,
    beside: Site,
    parcels: Vec<Parcel>,
    /// The histories that ended, also by a look at the station.
    ended: Vec<History>,
    /// What the parts of a maintenance did.
    done: Maintained,
    /// How many values the parts of a fetch brought.
    fetched: usize,
    rows: Rows,
}

const NOTHING_DONE: Maintained = Maintained {
    flushed: false,
    reaped: 0,
    removed: 0,
    juggled: 0,
    refused: false,
};

fn act<L: Room, R: Wait>(
    rt: &R,
    alloc: Global,
    station: &Station<L>,
    seat: &mut Seat<L>,
    now: u64,
    text: &[u8],
    out: &mut Vec<u8>,
) -> Result<(), Stop> {
    let request = request(alloc, text)?;
    if now > LAST_MOMENT {
        return Err(Stop::Wrong("no such moment"));
    }
    match station.act(rt, alloc, seat, now, request) {
        Ok(Reply::OutOfMemory) => Err(Stop::Memory),
        Ok(reply) => Ok(push_reply(out, &reply)?),
        Err(_) => Err(Stop::Wrong("a spent seat")),
    }
}

/// Keeps a parcel for which there is room, and tells how many records it brings.
fn keep(parcels: &mut Vec<Parcel>, parcel: Parcel, out: &mut Vec<u8>) -> Result<(), Stop> {
    word(out, b"records ", parcel.records.as_slice().len() as u64)?;
    parcels.push(parcel)?;
    Ok(())
}

fn send<L: Room, R: Wait>(
    rt: &R,
    alloc: Global,
    station: &Station<L>,
    seat: &mut Seat<L>,
    to: u8,
    parcels: &mut Vec<Parcel>,
    out: &mut Vec<u8>,
) -> Result<(), Stop> {
    parcels.reserve(1)?;
    match station.send(rt, alloc, seat, to) {
        Ok(parcel) => keep(parcels, parcel, out),
        Err(CallError::Site(SendError::Memory)) => Err(Stop::Memory),
        Err(CallError::Site(SendError::NoSuchSite)) => Ok(out.extend_from_slice(b"no such site")?),
        Err(CallError::Site(SendError::Retired)) => Ok(out.extend_from_slice(b"retired")?),
        Err(CallError::SeatSpent) => Err(Stop::Wrong("a spent seat")),
    }
}

fn tell_taken(taken: Taken, out: &mut Vec<u8>) -> Result<(), Stop> {
    let told: &[u8] = if taken.rose { b"rose, " } else { b"knew, " };
    out.extend_from_slice(told)?;
    Ok(word(out, b"dropped ", taken.dropped as u64)?)
}

/// A parcel that was not taken comes back whole.
fn handed_back(returned: &Returned, whole: &Parcel, out: &mut Vec<u8>) -> Result<(), Stop> {
    if !returned.parcel.equals(whole) {
        return Err(Stop::Wrong("the parcel did not come back whole"));
    }
    match returned.why {
        CallError::Site(TakeError::Memory) => Err(Stop::Memory),
        CallError::Site(why) => Ok(out.extend_from_slice(name_of_take(why))?),
        CallError::SeatSpent => Err(Stop::Wrong("a spent seat")),
    }
}

fn take<L: Room, R: Wait>(
    rt: &R,
    alloc: Global,
    station: &Station<L>,
    seat: &mut Seat<L>,
    parcel: &Parcel,
    out: &mut Vec<u8>,
) -> Result<(), Stop> {
    let copy = parcel.twin(alloc)?;
    match station.take(rt, alloc, seat, copy) {
        Ok(taken) => tell_taken(taken, out),
        Err(returned) => handed_back(&returned, parcel, out),
    }
}

fn retire<L: Room, R: Wait>(
    rt: &R,
    alloc: Global,
    station: &Station<L>,
    seat: &mut Seat<L>,
    other: u8,
    out: &mut Vec<u8>,
) -> Result<(), Stop> {
    let told: &[u8] = match station.retire(rt, alloc, seat, other) {
        Ok(true) => b"gone",
        Ok(false) => b"gone already",
        Err(CallError::Site(RetireError::Memory)) => return Err(Stop::Memory),
        Err(CallError::Site(RetireError::NoSuchSite)) => b"no such site",
        Err(CallError::SeatSpent) => return Err(Stop::Wrong("a spent seat")),
    };
    Ok(out.extend_from_slice(told)?)
}

/// Adds what a part of a maintenance did.
fn add(done: &mut Maintained, part: Maintained) {
    done.flushed = done.flushed || part.flushed;
    done.reaped = done.reaped.saturating_add(part.reaped);
    done.removed = done.removed.saturating_add(part.removed);
    done.juggled = done.juggled.saturating_add(part.juggled);
}

fn tell_done(done: Maintained, out: &mut Vec<u8>) -> Result<(), AllocError> {
    word(out, b"flushed ", done.flushed as u64)?;
    word(out, b", reaped ", done.reaped as u64)?;
    word(out, b", removed ", done.removed as u64)?;
    word(out, b", juggled ", done.juggled as u64)
}

/// Where a part of it was refused, made again it does the rest.
fn maintain<L: Room, R: Wait>(
    rt: &R,
    alloc: Global,
    station: &Station<L>,
    seat: &mut Seat<L>,
    now: u64,
    done: &mut Maintained,
    out: &mut Vec<u8>,
) -> Result<(), Stop> {
    let Ok(part) = station.maintain(rt, alloc, seat, now) else {
        return Err(Stop::Wrong("a spent seat"));
    };
    add(done, part);
    if part.refused {
        return Err(Stop::Part);
    }
    tell_done(*done, out)?;
    *done = NOTHING_DONE;
    Ok(())
}

/// How many steps the seats had made at the end of a history.
fn steps_in(history: &History) -> u64 {
    let mut count = history.steps.len() as u64;
    for before in &history.opening.counts {
        count = count.saturating_add(*before);
    }
    count
}

fn renew<L: Room, R: Wait>(
    rt: &R,
    alloc: Global,
    station: &Station<L>,
    after: u64,
    ended: &mut Vec<History>,
    out: &mut Vec<u8>,
) -> Result<(), Stop> {
    ended.reserve(1)?;
    match station.renew(rt, alloc, after)? {
        Some(history) => {
            word(out, b"steps ", steps_in(&history))?;
            ended.push(history)?;
            Ok(())
        }
        None => Ok(out.extend_from_slice(b"too early")?),
    }
}

/// Begins two eras, so that the second tells what the site is.
fn look<L: Room, R: Wait>(
    rt: &R,
    alloc: Global,
    station: &Station<L>,
    ended: &mut Vec<History>,
) -> Result<(), AllocError> {
    for _era in 0..2 {
        ended.reserve(1)?;
        if let Some(history) = station.renew(rt, alloc, 0)? {
            if ended.push(history).is_err() {
                return Err(AllocError);
            }
        }
    }
    Ok(())
}

/// The history of a station that is closed without its last seat, which is refused, and then with it. It takes no memory.
fn closed<L: Room>(station: Station<L>, mut seats: Vec<Seat<L>>) -> Result<History, Stop> {
    let Some(last) = seats.pop() else {
        return Err(Stop::Wrong("no seats"));
    };
    let Err(unclosed) = station.close(seats) else {
        return Err(Stop::Wrong("it closed without a seat"));
    };
    let Unclosed {
        why,
        station,
        mut seats,
    } = unclosed;
    if why != Why::Missing {
        return Err(Stop::Wrong("no seat was missing"));
    }
    seats.push(last)?;
    match station.lock().close(seats) {
        Ok(history) => Ok(history),
        Err(_) => Err(Stop::Wrong("it does not close")),
    }
}

/// Makes a call at the second site.
fn beside(alloc: Global, site: &mut Site, text: &[u8], out: &mut Vec<u8>) -> Result<(), Stop> {
    let request = request(alloc, text)?;
    match site.act(alloc, 100, &request) {
        Reply::OutOfMemory => Err(Stop::Memory),
        reply => Ok(push_reply(out, &reply)?),
    }
}

/// The second site sends a parcel.
fn back(
    alloc: Global,
    site: &Site,
    parcels: &mut Vec<Parcel>,
    out: &mut Vec<u8>,
) -> Result<(), Stop> {
    parcels.reserve(1)?;
    match site.send(alloc, 1) {
        Ok(parcel) => keep(parcels, parcel, out),
        Err(SendError::Memory) => Err(Stop::Memory),
        Err(SendError::NoSuchSite) => Err(Stop::Wrong("no such site")),
        Err(SendError::Retired) => Err(Stop::Wrong("a retired site")),
    }
}

/// The second site takes a parcel.
fn forth(alloc: Global, site: &mut Site, parcel: &Parcel, out: &mut Vec<u8>) -> Result<(), Stop> {
    let copy = parcel.twin(alloc)?;
    match site.take(alloc, copy) {
        Ok(taken) => tell_taken(taken, out),
        Err(refused) if refused.why == TakeError::Memory => Err(Stop::Memory),
        Err(_) => Err(Stop::Wrong("it was not taken")),
    }
}

fn parcel_of(parcels: &Vec<Parcel>, number: usize) -> Result<&Parcel, Stop> {
    match parcels.get(number) {
        Some(parcel) => Ok(parcel),
        None => Err(Stop::Wrong("no such parcel")),
    }
}

fn seat_of<L: Room>(seats: &mut Vec<Seat<L>>, number: usize) -> Result<&mut Seat<L>, Stop> {
    match seats.get_mut(number) {
        Some(seat) => Ok(seat),
        None => Err(Stop::Wrong("no such seat")),
    }
}

/// The calls that a seat keeps.
fn push_calls<L: Room>(out: &mut Vec<u8>, seat: &Seat<L>) -> Result<(), AllocError> {
    push_number(out, seat.calls().len() as u64)?;
    for call in seat.calls() {
        push_event(out, &call.event)?;
        push_answer(out, &call.answer)?;
    }
    Ok(())
}

fn push_all_calls<L: Room>(out: &mut Vec<u8>, seats: &Vec<Seat<L>>) -> Result<(), AllocError> {
    for seat in seats {
        push_calls(out, seat)?;
    }
    Ok(())
}

/// What a site was where a history begins.
fn push_opening(out: &mut Vec<u8>, history: &History) -> Result<(), AllocError> {
    push_state(out, &history.opening.state)
}

/// What histories tell that were handed out in turn.
fn push_ended(out: &mut Vec<u8>, ended: &Vec<History>, sight: Sight) -> Result<(), AllocError> {
    for history in ended {
        match sight {
            Sight::Calls => {
                push_opening(out, history)?;
                push_each_step(out, &history.steps)?;
            }
            Sight::Steps => push_each_step(out, &history.steps)?,
            Sight::State => {}
        }
    }
    match ended.last() {
        Some(last) => push_opening(out, last),
        None => Ok(()),
    }
}

/// Makes a call by a seat.
fn seated<L: Room, R: Wait>(
    rt: &R,
    alloc: Global,
    station: &Station<L>,
    seats: &mut Vec<Seat<L>>,
    parcels: &mut Vec<Parcel>,
    done: &mut Maintained,
    line: Line,
    out: &mut Vec<u8>,
) -> Result<(), Stop> {
    match line {
        Line::Act(seat, now, text) => {
            act(rt, alloc, station, seat_of(seats, seat)?, now, text, out)
        }
        Line::Send(seat, to) => {
            send(rt, alloc, station, seat_of(seats, seat)?, to, parcels, out)
        }
        Line::Take(seat, number) => {
            let parcel = parcel_of(parcels, number)?;
            take(rt, alloc, station, seat_of(seats, seat)?, parcel, out)
        }
        Line::Maintain(seat, now) => {
            maintain(rt, alloc, station, seat_of(seats, seat)?, now, done, out)
        }
        Line::Retire(seat, other) => {
            retire(rt, alloc, station, seat_of(seats, seat)?, other, out)
        }
        Line::Round(seat) => { tell_all(rt, alloc, station, seat_of(seats, seat)?, parcels, out) }
        Line::Receive(seat, first) => {
            let (_, coming) = parcels.as_slice().split_at(first.min(parcels.len()));
            hear_all(rt, alloc, station, seat_of(seats, seat)?, coming, out)
        }
        _ => Err(Stop::Wrong("another call")),
    }
}

impl<L: Room> Post<L> {
    fn by_seat<R: Wait>(
        &mut self,
        rt: &R,
        alloc: Global,
        line: Line,
        out: &mut Vec<u8>,
    ) -> Result<(), Stop> {
        match &self.station {
            Some(station) => seated(
                rt,
                alloc,
                station,
                &mut self.seats,
                &mut self.parcels,
                &mut self.done,
                line,
                out,
            ),
            None => Err(Stop::Wrong("it is closed")),
        }
    }

    /// Makes a call at the second site.
    fn by_second(&mut self, alloc: Global, line: Line, out: &mut Vec<u8>) -> Result<(), Stop> {
        match line {
            Line::Beside(text) => beside(alloc, &mut self.beside, text, out),
            Line::Back => back(alloc, &self.beside, &mut self.parcels, out),
            Line::Forth(number) => {
                let parcel = parcel_of(&self.parcels, number)?;
                forth(alloc, &mut self.beside, parcel, out)
            }
            _ => Err(Stop::Wrong("another call")),
        }
    }

    /// Fills what the site lacks, or tells of it.
    fn by_fill<R: Wait>(
        &mut self,
        rt: &R,
        alloc: Global,
        line: Line,
        out: &mut Vec<u8>,
    ) -> Result<(), Stop> {
        let Some(station) = &self.station else {
            return Err(Stop::Wrong("it is closed"));
        };
        match line {
            Line::Missing => miss(rt, alloc, station, out),
            Line::Offer(key, value) => offer(rt, alloc, station, key, value, out),
            Line::Fill(seat, key, value) => {
                fill(
                    rt,
                    alloc,
                    station,
                    seat_of(&mut self.seats, seat)?,
                    key,
                    value,
                    out,
                )
            }
            Line::Fetch(seat, due) => fetch_all(
                rt,
                alloc,
                station,
                seat_of(&mut self.seats, seat)?,
                &self.beside,
                &mut self.fetched,
                due,
                out,
            ),
            _ => Err(Stop::Wrong("another call")),
        }
    }

    fn begin_era<R: Wait>(
        &mut self,
        rt: &R,
        alloc: Global,
        after: u64,
        out: &mut Vec<u8>,
    ) -> Result<(), Stop> {
        match &self.station {
            Some(station) => renew(rt, alloc, station, after, &mut self.ended, out),
            None => Err(Stop::Wrong("it is closed")),
        }
    }

    /// Ends the station, and tells how many steps were made.
    fn close(&mut self, alloc: Global, out: &mut Vec<u8>) -> Result<(), Stop> {
        self.ended.reserve(1)?;
        let Some(station) = self.station.take() else {
            return Err(Stop::Wrong("it is closed"));
        };
        let seats = mem::replace(&mut self.seats, Vec::new(alloc));
        let history = closed(station, seats)?;
        word(out, b"missing, then steps ", steps_in(&history))?;
        self.ended.push(history)?;
        Ok(())
    }
}

impl<L: Room> Scene for Post<L> {
    fn count(&self) -> usize {
        self.rows.lines().len()
    }

    fn begin(&mut self, _place: usize) -> Result<(), Stop> {
        Ok(())
    }

    fn call<R: Wait + Clock>(
        &mut self,
        rt: &R,
        alloc: Global,
        place: usize,
        out: &mut Vec<u8>,
    ) -> Result<(), Stop> {
        match self.rows.lines().get(place).copied() {
            None => Err(Stop::Wrong("no such call")),
            Some(Line::Forget(seat)) => {
                seat_of(&mut self.seats, seat)?.forget();
                Ok(())
            }
            Some(Line::Renew(after)) => self.begin_era(rt, alloc, after, out),
            Some(Line::Close) => self.close(alloc, out),
            Some(line @ (Line::Beside(_) | Line::Back | Line::Forth(_))) => {
                self.by_second(alloc, line, out)
            }
            Some(line @ (Line::Missing | Line::Offer(..) | Line::Fill(..) | Line::Fetch(..))) => {
                self.by_fill(rt, alloc, line, out)
            }
            Some(line) => self.by_seat(rt, alloc, line, out),
        }
    }

    fn show<R: Wait>(
        &mut self,
        rt: &R,
        alloc: Global,
        out: &mut Vec<u8>,
    ) -> Result<(), AllocError> {
        if !matches!(self.rows.sight(), Sight::State) {
            push_all_calls(out, &self.seats)?;
        }
        for parcel in &self.parcels {
            push_parcel(out, parcel)?;
        }
        push_state(out, &self.beside.state(alloc)?)?;
        match (&self.station, self.rows.sight()) {
            (Some(station), Sight::State | Sight::Steps) => {
                look(rt, alloc, station, &mut self.ended)?;
            }
            _ => {}
        }
        push_ended(out, &self.ended, self.rows.sight())
    }

    fn glance(&self) -> u64 {
        let mut sum = self.parcels.len() as u64;
        sum = sum
            .wrapping_mul(31)
            .wrapping_add(self.beside.records() as u64);
        if matches!(self.rows.sight(), Sight::State) {
            return sum;
        }
        for seat in &self.seats {
            sum = sum.wrapping_mul(31).wrapping_add(seat.calls().len() as u64);
        }
        sum
    }
}

/// Two seats of a station.
fn two_seats<L: Room, R: Wait>(
    rt: &R,
    alloc: Global,
    station: &Station<L>,
) -> Result<Vec<Seat<L>>, Stop> {
    let (Ok(one), Ok(two)) = (station.seat(rt, alloc), station.seat(rt, alloc)) else {
        return Err(Stop::Wrong("no seat"));
    };
    let mut seats = Vec::new(alloc);
    seats.push(one)?;
    seats.push(two)?;
    Ok(seats)
}

/// A station of two seats round a site.
fn post_at<L: Room, R: Wait>(
    rt: &R,
    alloc: Global,
    unopened: Unopened,
    beside: Site,
    rows: Rows,
) -> Result<Post<L>, Stop>
    requires name { unopened.name ≡ L.name }
    requires parts { unopened.parts ≡ L.parts }
    requires table { unopened.table ≡ L.table }
    requires two { unopened.parts ≡ 2 }
{
    let Ok(station) = Station::<L>::new(unopened) else {
        return Err(Stop::Wrong("no station"));
    };
    let seats = two_seats(rt, alloc, &station)?;
    Ok(Post {
        station: Some(station),
        seats,
        beside,
        parcels: Vec::new(alloc),
        ended: Vec::new(alloc),
        done: NOTHING_DONE,
        fetched: 0,
        rows,
    })
}

/// Makes calls at a station round a site.
fn run_named<L: Room, R: Print + Wait + Clock>(
    rt: &R,
    alloc: Global,
    unopened: Unopened,
    beside: Site,
    rows: Rows,
    course: &mut Course,
) -> io::Result<Result<(), Stop>>
    requires name { unopened.name ≡ L.name }
    requires parts { unopened.parts ≡ L.parts }
    requires table { unopened.table ≡ L.table }
    requires two { unopened.parts ≡ 2 }
{
    let post = post_at::<L, R>(rt, alloc, unopened, beside, rows);
    carry_out(rt, alloc, post, course)
}

/// The second of so many sites, or of two.
fn second_site<R: RandomSource>(rt: &R, alloc: Global, sites: u8) -> Option<Site> {
    Site::new(alloc, setup_of(rt, 2, sites.max(2))?).ok()
}

/// Makes the calls of a scene at a station round a site that knows nothing, and at a second site.
pub fn run<R: Print + Wait + Clock + RandomSource>(
    rt: &R,
    alloc: Global,
    rows: Rows,
    course: &mut Course,
) -> io::Result<Result<(), Stop>> {
    let (Some(kept), Some(beside)) = (
        opened(rt, alloc, 1, rows.sites()),
        second_site(rt, alloc, rows.sites()),
    ) else {
        return Ok(Err(Stop::Wrong("no site")));
    };
    match Unopened::new(alloc, kept, 2) {
        Ok(unopened) => run_named::<Brand, R>(rt, alloc, unopened, beside, rows, course),
        Err(refused) => Ok(Err(refused.into())),
    }
}
