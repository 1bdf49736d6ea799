//! A station with its clients.
ghost use Rattle.std.specs.Prelude.{◌≡◌, IfOk};
ghost use Rattle.geo_history.specs.Stories.{IsNew};

use crate::client::{Client, Talk};
use crate::sum::Sum;
use anyhow::{Result, anyhow};
use geo_crowd::{Carried, Crowd, Ready};
use geo_grammar::push_reply;
use geo_history::Kept;
use geo_requests::Request;
use geo_session::clock::Clock as Moments;
use geo_session::{Counted, OpenGate};
use geo_site::{LAST_MOMENT, Setup};
use geo_station::{Maintained, Room, Seat, Station, Unopened};
use geo_tally::{Tally, TallySeat};
use std::alloc::Global;
use std::hash::RandomState;
use std::rt::Clock;
use std::sync::Wait;

/// A site's history begins anew after so many steps.
const ERA: u64 = 1_000_000;

/// More passes than any clients need.
const MOST_PASSES: u64 = 1 << 32;

/// A clock that stands still.
#[derive(Clone, Copy)]
pub struct At {
    pub moment: u64,
}

impl Moments for At {
    ghost use Rattle.std.specs.Prelude.{◌≤◌, ◌^◌};

    ghost shows = { λ _ moment. (1 ≤ moment) × (moment ≤ 2 ^ 40) };

    fn now<R: Clock>(&self, _rt: &R) -> u64 {
        self.moment.clamp(1, LAST_MOMENT)
    }
}

/// A site that knows nothing and has made no step.
#[derive(Drop)]
pub struct Fresh {
    pub kept: Kept,
    ghost empty: { IsNew kept },
}

impl Fresh {
    /// A station of so many seats round it, which no type stands for yet.
    pub fn unopened(self, alloc: Global, seats: u64) -> Result<Unopened>
        ensures { IfOk result (λ unopened. unopened.parts ≡ seats) }
    {
        let Fresh { kept } = self;
        Ok(Unopened::new(alloc, kept, seats)?)
    }
}

/// How large a site is.
#[derive(Clone, Copy)]
pub struct Size {
    pub pages: u32,
    pub max_records: u32,
    pub reap_after: u32,
}

/// What one of so many sites is told.
fn setup_of(hasher: &RandomState, size: Size, site: u8, sites: u8) -> Result<Setup> {
    Ok(Setup {
        site,
        sites,
        pages: size.pages,
        max_records: size.max_records,
        reap_after: size.reap_after,
        hasher: hasher.clone()?,
    })
}

/// One of so many sites.
pub fn new_site(
    alloc: Global,
    hasher: &RandomState,
    size: Size,
    site: u8,
    sites: u8,
) -> Result<Fresh> {
    site_of(alloc, setup_of(hasher, size, site, sites)?, true)
}

/// A site alone, whose steps are logged or not.
pub fn lone_site(alloc: Global, hasher: &RandomState, size: Size, logged: bool) -> Result<Fresh> {
    site_of(alloc, setup_of(hasher, size, 1, 1)?, logged)
}

fn site_of(alloc: Global, setup: Setup, logged: bool) -> Result<Fresh> {
    match Kept::opened(alloc, setup, logged) {
        Ok(kept) => Ok(Fresh { kept }),
        Err(_) => Err(anyhow!("no site")),
    }
}

/// A station, the seat of its clients, that of its maintenance, and a sum of what came of both.
#[derive(Drop)]
pub struct Hall<L: Room> {
    station: Station<L>,
    serving: Option<Seat<L>>,
    keeping: Seat<L>,
    pub sum: Sum,
}

/// A station of four seats.
pub fn opened<R: Wait, L: Room>(rt: &R, alloc: Global, unopened: Unopened) -> Result<Hall<L>>
    requires name { unopened.name ≡ L.name }
    requires parts { unopened.parts ≡ L.parts }
    requires table { unopened.table ≡ L.table }
    requires four { unopened.parts ≡ 4 }
{
    let Ok(station) = Station::<L>::new(unopened) else {
        return Err(anyhow!("no station"));
    };
    let (Ok(serving), Ok(keeping)) = (station.seat(rt, alloc), station.seat(rt, alloc)) else {
        return Err(anyhow!("no seat"));
    };
    Ok(Hall {
        station,
        serving: Some(serving),
        keeping,
        sum: Sum::new(),
    })
}

/// Takes in what a maintenance did.
pub fn add_maintained(sum: &mut Sum, done: Maintained) {
    sum.add(u64::from(done.flushed));
    sum.add(done.reaped as u64);
    sum.add(done.removed as u64);
    sum.add(done.juggled as u64);
    sum.add(u64::from(done.refused));
}

/// What a site needs from time to time.
fn maintain<R: Wait, L: Room>(
    rt: &R,
    alloc: Global,
    station: &Station<L>,
    seat: &mut Seat<L>,
    moment: u64,
    sum: &mut Sum,
) -> Result<()> {
    match station.maintain(rt, alloc, seat, moment) {
        Ok(done) => add_maintained(sum, done),
        Err(_) => return Err(anyhow!("a spent seat")),
    }
    let ended = station.renew(rt, alloc, ERA)?;
    sum.add(u64::from(ended.is_some()));
    Ok(())
}

/// Takes clients in, and says under which numbers.
fn crowd_of<'a, T: Talk + Drop>(
    alloc: Global,
    clients: Vec<Client<'a, T>>,
) -> Result<(Crowd<Client<'a, T>>, Vec<usize>)> {
    let mut crowd = Crowd::new(alloc)?;
    let mut numbers = Vec::new(alloc);
    for client in clients {
        numbers.push(crowd.add(Carried::new(alloc, client))?)?;
    }
    Ok((crowd, numbers))
}

/// All are ready again.
fn all_ready<T: Talk + Drop>(crowd: &mut Crowd<Client<'_, T>>, numbers: &[usize]) {
    for number in numbers.iter() {
        crowd.is_ready(Ready {
            number: *number,
            readable: true,
            writable: true,
            ending: false,
        });
    }
}

/// Takes in what was written to those who have ended.
fn add_left<T: Talk + Drop>(crowd: &mut Crowd<Client<'_, T>>, sum: &mut Sum) {
    for client in crowd.take_left() {
        sum.add(client.sum());
    }
}

/// What serves clients: a station, the seat of its maintenance, a sum, and after how many passes the station is maintained.
#[derive(Drop)]
struct Desk<'a, L: Room> {
    station: &'a Station<L>,
    keeping: &'a mut Seat<L>,
    sum: &'a mut Sum,
    every: u64,
}

impl<L: Room> Desk<'_, L> {
    /// Serves clients until all have ended, and gives the seat back by which they were served.
    fn serve<R: Wait + Clock, T: Talk + Drop>(
        self,
        rt: &R,
        alloc: Global,
        clock: &At,
        tally: &Tally,
        counting: TallySeat,
        seat: Seat<L>,
        clients: Vec<Client<'_, T>>,
    ) -> Result<Seat<L>>
        requires { counting.tally ≡ tally.now.tally }
    {
        let Desk {
            station,
            keeping,
            sum,
            every,
        } = self;
        let (mut crowd, numbers) = crowd_of(alloc, clients)?;
        let mut backend = Counted::new(station, seat, clock, tally, counting);
        for pass in 1..MOST_PASSES {
            let passed = crowd.pass(rt, &mut backend, &OpenGate);
            sum.add(passed.faults as u64);
            add_left(&mut crowd, sum);
            if crowd.is_empty() {
                break;
            }
            all_ready(&mut crowd, numbers.as_slice());
            if pass.checked_rem(every) == Some(0) {
                maintain(rt, alloc, station, keeping, clock.moment, sum)?;
            }
        }
        Ok(backend.into_seats().0)
    }
}

impl<L: Room> Hall<L> {
    /// Serves clients at a moment until all have ended, with a maintenance after each so many passes.
    pub fn serve<R: Wait + Clock, T: Talk + Drop>(
        &mut self,
        rt: &R,
        alloc: Global,
        moment: u64,
        clients: Vec<Client<'_, T>>,
        every: u64,
    ) -> Result<()> {
        let Hall {
            station,
            serving,
            keeping,
            sum,
        } = self;
        let Some(seat) = serving.take() else {
            return Err(anyhow!("no seat"));
        };
        let Ok((tally, mut counts)) = Tally::new(alloc, 1) else {
            return Err(anyhow!("no tally"));
        };
        let Some(counting) = counts.pop() else {
            return Err(anyhow!("no seat of the tally"));
        };
        let desk = Desk {
            station,
            keeping,
            sum,
            every,
        };
        let clock = At { moment };
        *serving = Some(desk.serve(rt, alloc, &clock, &tally, counting, seat, clients)?);
        Ok(())
    }

    /// Does what the site needs at a moment.
    pub fn maintain<R: Wait>(&mut self, rt: &R, alloc: Global, moment: u64) -> Result<()> {
        maintain(
            rt,
            alloc,
            &self.station,
            &mut self.keeping,
            moment,
            &mut self.sum,
        )
    }

    /// The sum of all, the site's numbers at last.
    pub fn ended<R: Wait>(mut self, rt: &R, alloc: Global) -> Result<u64> {
        let mut out = Vec::new(alloc);
        match self
            .station
            .act(rt, alloc, &mut self.keeping, 1, Request::Stats)
        {
            Ok(reply) => push_reply(&mut out, &reply)?,
            Err(_) => return Err(anyhow!("a spent seat")),
        }
        self.sum.add_bytes(out.as_slice());
        Ok(self.sum.total())
    }
}
