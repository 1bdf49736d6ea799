//! A station of one of several sites, with the seats that ask it in turn.
ghost use Rattle.std.specs.Prelude.{◌≡◌, ◌≤◌, ◌^◌, IfOk};
ghost use Rattle.geo_delta.specs.Ranges.{InRange};

use crate::hall::add_maintained;
use crate::sites::{Ask, Beside, Sites, Told};
use crate::sum::Sum;
use anyhow::{Result, anyhow};
use geo_delta::Parcel;
use geo_frame::{Message, decode, encode};
use geo_grammar::{Request, push_reply};
use geo_history::History;
use geo_station::{Room, Seat, Station, Unopened};
use std::alloc::Global;
use std::mem;
use std::sync::Wait;

/// The moment at which all happens.
pub const NOON: u64 = 1_000_000;

/// A station, its seats, and the frames that come late.
#[derive(Drop)]
pub struct Place<L: Room> {
    alloc: Global,
    station: Station<L>,
    seats: Vec<Seat<L>>,
    // How often a seat asked.
    turn: usize,
    late: Vec<Vec<u8>>,
    sum: Sum,
}

impl<L: Room> Place<L> {
    /// The place of the seat whose turn it is.
    fn next(&mut self) -> usize {
        let at = self.turn.checked_rem(self.seats.len()).unwrap_or(0);
        self.turn = self.turn.wrapping_add(1);
        at
    }

    fn act<R: Wait>(&mut self, rt: &R, request: Request) -> Result<()> {
        let at = self.next();
        let Some(seat) = self.seats.get_mut(at) else {
            return Err(anyhow!("no seat"));
        };
        seat.trim();
        let Ok(reply) = self.station.act(rt, self.alloc, seat, NOON, request) else {
            return Err(anyhow!("a spent seat"));
        };
        let mut out = Vec::new(self.alloc);
        push_reply(&mut out, &reply)?;
        self.sum.add_bytes(out.as_slice());
        Ok(())
    }

    // the seat lets go of what it kept before
    fn send<R: Wait>(&mut self, rt: &R, to: u8) -> Result<Parcel>
        ensures { IfOk result InRange }
    {
        let at = self.next();
        let Some(seat) = self.seats.get_mut(at) else {
            return Err(anyhow!("no seat"));
        };
        seat.forget();
        match self.station.send(rt, self.alloc, seat, to) {
            Ok(parcel) => Ok(parcel),
            Err(_) => Err(anyhow!("no parcel")),
        }
    }

    fn frame<R: Wait>(&mut self, rt: &R, to: u8) -> Result<Vec<u8>> {
        let parcel = self.send(rt, to)?;
        let Ok(frame) = encode(self.alloc, &Message::Parcel(parcel)) else {
            return Err(anyhow!("no frame"));
        };
        self.sum.add_bytes(frame.as_slice());
        Ok(frame)
    }

    // so does this one
    fn take<R: Wait>(&mut self, rt: &R, parcel: Parcel) -> Result<()> {
        let at = self.next();
        let Some(seat) = self.seats.get_mut(at) else {
            return Err(anyhow!("no seat"));
        };
        seat.forget();
        match self.station.take(rt, self.alloc, seat, parcel) {
            Ok(taken) => {
                self.sum.add(u64::from(taken.rose));
                self.sum.add(taken.dropped as u64);
            }
            Err(_) => self.sum.add(3),
        }
        Ok(())
    }

    fn take_late<R: Wait>(&mut self, rt: &R) -> Result<()> {
        let late = mem::replace(&mut self.late, Vec::new(self.alloc));
        for frame in late.iter() {
            let parcel = parcel_of(self.alloc, frame.as_slice())?;
            self.take(rt, parcel)?;
        }
        Ok(())
    }

    fn maintain<R: Wait>(&mut self, rt: &R) -> Result<()> {
        let at = self.next();
        let Some(seat) = self.seats.get_mut(at) else {
            return Err(anyhow!("no seat"));
        };
        match self.station.maintain(rt, self.alloc, seat, NOON) {
            Ok(done) => add_maintained(&mut self.sum, done),
            Err(_) => return Err(anyhow!("a spent seat")),
        }
        Ok(())
    }

    fn renew<R: Wait>(&mut self, rt: &R, after: u64) -> Result<()> {
        let ended = self.station.renew(rt, self.alloc, after)?;
        self.sum.add(u64::from(ended.is_some()));
        Ok(())
    }

    fn total<R: Wait>(&mut self, rt: &R) -> Result<u64> {
        self.act(rt, Request::Stats)?;
        Ok(self.sum.total())
    }
}

/// The parcel of a frame.
pub fn parcel_of(alloc: Global, frame: &[u8]) -> Result<Parcel> {
    match decode(alloc, frame) {
        Ok(Message::Parcel(parcel)) => Ok(parcel),
        Ok(_) => Err(anyhow!("another message than a parcel")),
        Err(_) => Err(anyhow!("a damaged frame")),
    }
}

impl<L: Room> Sites for Place<L> {
    fn ask<R: Wait>(&mut self, rt: &R, _at: u8, ask: Ask) -> Result<Told> {
        match ask {
            Ask::Act(request) => self.act(rt, request)?,
            Ask::Send(to) => return Ok(Told::Parcel(self.send(rt, to)?)),
            Ask::Frame(to) => return Ok(Told::Frame(self.frame(rt, to)?)),
            Ask::Take(parcel) => self.take(rt, parcel)?,
            Ask::Delay(frame) => self.late.push(frame)?,
            Ask::TakeLate => self.take_late(rt)?,
            Ask::Maintain => self.maintain(rt)?,
            Ask::Renew(after) => self.renew(rt, after)?,
            Ask::Total => return Ok(Told::Total(self.total(rt)?)),
        }
        Ok(Told::Nothing)
    }

    fn close(self, histories: &mut Vec<History>) -> Result<()> {
        let Place { station, seats, .. } = self;
        let Ok(history) = station.close(seats) else {
            return Err(anyhow!("it does not close"));
        };
        histories.push(history)?;
        Ok(())
    }
}

/// Sites that are opened under a name, whatever they are.
pub trait Opens<U>: Sites {
    // It may be opened from this.
    ghost fits: { U → Type 0 };

    /// So many seats ask in turn.
    fn opened<R: Wait>(rt: &R, alloc: Global, unopened: U, count: u64) -> Result<Self>
        requires { fits unopened };
}

impl<L: Room> Opens<Unopened> for Place<L> {
    ghost fits = { λ u. (u.name ≡ L.name) × (u.parts ≡ L.parts) × (u.table ≡ L.table) };

    fn opened<R: Wait>(rt: &R, alloc: Global, unopened: Unopened, count: u64) -> Result<Place<L>> {
        let Ok(station) = Station::<L>::new(unopened) else {
            return Err(anyhow!("no station"));
        };
        let mut seats = Vec::new(alloc);
        for _seat in 0..count {
            let Ok(seat) = station.seat(rt, alloc) else {
                return Err(anyhow!("no seat"));
            };
            seats.push(seat)?;
        }
        Ok(Place {
            alloc,
            station,
            seats,
            turn: 0,
            late: Vec::new(alloc),
            sum: Sum::new(),
        })
    }
}

/// Two beside each other, of so many seats each.
pub fn opened_beside<R: Wait, U: Drop, A: Opens<U>, B: Opens<U>>(
    rt: &R,
    alloc: Global,
    low: U,
    high: U,
    count: u64,
    first_high: u8,
) -> Result<Beside<A, B>>
    requires low { A.fits low }
    requires high { B.fits high }
{
    let low = A::opened(rt, alloc, low, count)?;
    let high = B::opened(rt, alloc, high, count)?;
    Ok(Beside {
        low,
        high,
        first_high,
    })
}
