//! Schedules of events at several sites, step by step and whole.
ghost use Rattle.std.specs.Prelude.{◌≡◌};
ghost use Rattle.geo_world.specs.There.{is_in_time};

use geo_delta::Parcel;
use geo_fixtures::setup_of;
use geo_grammar::push_reply;
use geo_requests::{Reply, ValueBytes};
use geo_scenes::shown::{name_of_fill, name_of_take, push_parcel, push_state, push_versions};
use geo_scenes::texts::{key, request, word};
use geo_scenes::{Scene, Stop};
use geo_site::{LAST_MOMENT, ReapError, RetireError, SendError, Setup, Site, TakeError};
use geo_world::{Event, Outcome, Trace, World, WorldError, are_in_time, run_schedule};
use std::alloc::{AllocError, Global};
use std::random::RandomSource;
use std::rt::Clock;
use std::sync::Wait;

/// An event at a site, whose number comes first.
#[derive(Clone, Copy)]
enum Line {
    /// A request in the text of the protocol, at a moment.
    Act(u8, u64, &'static [u8]),
    Send(u8, u8),
    Take(u8, usize),
    Remove(u8),
    Evict(u8, &'static [u8]),
    Tick(u8, u64),
    Reap(u8, u64, &'static [u8]),
    /// Bytes of a key, which need not be right.
    Fill(u8, &'static [u8], &'static [u8]),
    Retire(u8, u8),
}

/// Each kind of event: a tie, a removal that both sites know, a flush, a reaping, a send to the site itself, fills, and a retirement.
const LINES: &[Line] = &[
    Line::Act(1, 100, b"set a 0 0 2\r\nhi\r\n"),
    Line::Act(2, 100, b"set a 0 0 2\r\nyo\r\n"),
    Line::Send(1, 2),
    Line::Send(2, 1),
    Line::Take(2, 0),
    Line::Take(1, 1),
    Line::Act(1, 100, b"get a\r\n"),
    Line::Act(2, 100, b"append a 0 0 1\r\n!\r\n"),
    Line::Act(2, 100, b"gets a\r\n"),
    Line::Act(2, 100, b"delete a\r\n"),
    Line::Send(2, 1),
    Line::Take(1, 2),
    Line::Send(1, 2),
    Line::Take(2, 3),
    Line::Remove(2),
    Line::Remove(1),
    Line::Take(2, 3),
    Line::Take(2, 1),
    Line::Send(2, 2),
    Line::Act(1, 100, b"set b 0 50 1\r\nz\r\n"),
    Line::Evict(1, b"b"),
    Line::Reap(1, 211, b"b"),
    Line::Act(2, 100, b"flush_all 10\r\n"),
    Line::Tick(2, 110),
    Line::Act(
        1,
        300,
        b"set c_whose_name_is_too_long_to_stand_in_place 0 0 1\r\n1\r\n",
    ),
    Line::Act(
        1,
        300,
        b"incr c_whose_name_is_too_long_to_stand_in_place 8\r\n",
    ),
    Line::Evict(1, b"c_whose_name_is_too_long_to_stand_in_place"),
    Line::Fill(1, b"c_whose_name_is_too_long_to_stand_in_place", b"1"),
    Line::Fill(1, b"c_whose_name_is_too_long_to_stand_in_place", b"9"),
    Line::Fill(1, b"c_whose_name_is_too_long_to_stand_in_place", b"9"),
    Line::Retire(1, 1),
    Line::Retire(1, 2),
    Line::Retire(1, 2),
    Line::Send(1, 2),
    Line::Take(1, 1),
];

fn event_of(alloc: Global, line: Line) -> Result<Event, Stop> {
    Ok(match line {
        Line::Act(site, now, text) => Event::Command {
            site,
            now,
            request: request(alloc, text)?,
        },
        Line::Send(site, to) => Event::Send { site, to },
        Line::Take(site, parcel) => Event::Take { site, parcel },
        Line::Remove(site) => Event::Remove { site },
        Line::Evict(site, name) => Event::Evict {
            site,
            key: key(alloc, name)?,
        },
        Line::Tick(site, now) => Event::Tick { site, now },
        Line::Reap(site, now, name) => Event::Reap {
            site,
            now,
            key: key(alloc, name)?,
        },
        Line::Fill(site, name, bytes) => Event::Fill {
            site,
            key: key(alloc, name)?,
            bytes: ValueBytes::of(Vec::from_slice(alloc, bytes)?),
        },
        Line::Retire(site, other) => Event::Retire { site, other },
    })
}

fn all_events(alloc: Global) -> Result<Vec<Event>, Stop> {
    let mut events = Vec::new(alloc);
    for line in LINES {
        events.push(event_of(alloc, *line)?)?;
    }
    Ok(events)
}

/// Copies of setups, which take no memory but for their list.
fn copies(alloc: Global, setups: &Vec<Setup>) -> Result<Vec<Setup>, Stop> {
    let mut all = Vec::new(alloc);
    for setup in setups {
        all.push(setup.copied())?;
    }
    Ok(all)
}

/// The setups of two sites.
fn two_setups<R: RandomSource>(rt: &R, alloc: Global) -> Result<Vec<Setup>, Stop> {
    let (Some(one), Some(two)) = (setup_of(rt, 1, 2), setup_of(rt, 2, 2)) else {
        return Err(Stop::Wrong("no setup"));
    };
    let mut setups = Vec::new(alloc);
    setups.push(one)?;
    setups.push(two)?;
    Ok(setups)
}

fn tell(told: bool, yes: &'static [u8]) -> &'static [u8] {
    if told { yes } else { b"nothing" }
}

/// What came of an event, unless memory was wanted for it.
fn push_trace(trace: &Trace, out: &mut Vec<u8>) -> Result<(), Stop> {
    let told: &[u8] = match trace {
        Trace::Replied(Reply::OutOfMemory, _)
        | Trace::SendRefused(SendError::Memory)
        | Trace::TakeRefused(TakeError::Memory)
        | Trace::ReapRefused(ReapError::Memory)
        | Trace::RetireRefused(RetireError::Memory)
        | Trace::FillRefused => return Err(Stop::Memory),
        Trace::Replied(reply, _victim) => return Ok(push_reply(out, reply)?),
        Trace::Removed { horizon, count } => {
            word(out, b"removed ", *count as u64)?;
            return Ok(word(out, b" by ", *horizon)?);
        }
        Trace::Evicted(told) => tell(*told, b"evicted"),
        Trace::Ticked(told) => tell(*told, b"flushed"),
        Trace::Reaped(told) => tell(*told, b"reaped"),
        Trace::Filled(filled) => name_of_fill(*filled),
        Trace::Sent => b"sent",
        Trace::Taken => b"taken",
        Trace::Retired(told) => tell(*told, b"retired"),
        Trace::SendRefused(SendError::NoSuchSite) | Trace::RetireRefused(RetireError::NoSuchSite) =>
            b"no such site",
        Trace::SendRefused(SendError::Retired) => b"retired",
        Trace::TakeRefused(why) => name_of_take(*why),
        Trace::ReapRefused(ReapError::ClockEnded) => b"clock ended",
    };
    Ok(out.extend_from_slice(told)?)
}

fn push_sites(alloc: Global, sites: &Vec<Site>, out: &mut Vec<u8>) -> Result<(), AllocError> {
    for site in sites {
        push_state(out, &site.state(alloc)?)?;
        let versions = site.versions(alloc)?;
        push_versions(out, versions.as_slice())?;
    }
    Ok(())
}

fn push_parcels(parcels: &Vec<Parcel>, out: &mut Vec<u8>) -> Result<(), AllocError> {
    for parcel in parcels {
        push_parcel(out, parcel)?;
    }
    Ok(())
}

/// Whether the moment of an event, if it has one, is one of a schedule.
fn is_in_time(event: &Event) -> bool
    ensures { result ≡ is_in_time event.now }
{
    match event {
        Event::Command { now, .. } | Event::Tick { now, .. } | Event::Reap { now, .. } => {
            *now <= LAST_MOMENT
        }
        Event::Evict { .. }
        | Event::Send { .. }
        | Event::Take { .. }
        | Event::Remove { .. }
        | Event::Fill { .. }
        | Event::Retire { .. } => true,
    }
}

/// Why there is no world or no step.
fn stop_of(why: WorldError) -> Stop {
    match why {
        WorldError::Memory => Stop::Memory,
        WorldError::Setups => Stop::Wrong("bad setups"),
        WorldError::BadEvent(_) => Stop::Wrong("a bad event"),
    }
}

/// A world that is opened, and then makes a step for each event.
#[derive(Drop)]
pub struct Globe {
    setups: Vec<Setup>,
    events: Vec<Event>,
    world: Option<World>,
}

impl Globe {
    /// No world yet.
    pub fn new<R: RandomSource>(rt: &R, alloc: Global) -> Result<Globe, Stop> {
        Ok(Globe {
            setups: two_setups(rt, alloc)?,
            events: all_events(alloc)?,
            world: None,
        })
    }

    fn open(&mut self, alloc: Global, out: &mut Vec<u8>) -> Result<(), Stop> {
        let setups = copies(alloc, &self.setups)?;
        match World::open(alloc, setups) {
            Ok(world) => {
                self.world = Some(world);
                Ok(out.extend_from_slice(b"open")?)
            }
            Err(why) => Err(stop_of(why)),
        }
    }

    fn step(&mut self, alloc: Global, index: usize, out: &mut Vec<u8>) -> Result<(), Stop> {
        let (Some(world), Some(event)) = (&mut self.world, self.events.get(index)) else {
            return Err(Stop::Wrong("no such call"));
        };
        if !is_in_time(event) {
            return Err(Stop::Wrong("no such moment"));
        }
        match world.step(alloc, event, index) {
            Ok(trace) => push_trace(&trace, out),
            Err(why) => Err(stop_of(why)),
        }
    }
}

impl Scene for Globe {
    fn count(&self) -> usize {
        LINES.len() + 1
    }

    fn begin(&mut self, place: usize) -> Result<(), Stop> {
        let Some(index) = place.checked_sub(1) else {
            return Ok(());
        };
        if let (Some(Line::Act(site, now, _) | Line::Reap(site, now, _)), Some(world)) = (
            LINES.get(index),
            &mut self.world,
        ) {
            if let Some(site) = world.sites.get_mut((*site as usize).wrapping_sub(1)) {
                let _flushed = site.tick(*now);
            }
        }
        Ok(())
    }

    fn call<R: Wait + Clock>(
        &mut self,
        _rt: &R,
        alloc: Global,
        place: usize,
        out: &mut Vec<u8>,
    ) -> Result<(), Stop> {
        match place.checked_sub(1) {
            None => self.open(alloc, out),
            Some(index) => self.step(alloc, index, out),
        }
    }

    fn show<R: Wait>(
        &mut self,
        _rt: &R,
        alloc: Global,
        out: &mut Vec<u8>,
    ) -> Result<(), AllocError> {
        match &self.world {
            Some(world) => {
                push_sites(alloc, &world.sites, out)?;
                push_parcels(&world.parcels, out)
            }
            None => Ok(()),
        }
    }

    fn glance(&self) -> u64 {
        match &self.world {
            Some(world) => {
                let mut sum = world.parcels.len() as u64;
                for site in &world.sites {
                    sum = sum
                        .wrapping_mul(1_000_003)
                        .wrapping_add(site.known().greatest())
                        .wrapping_mul(31)
                        .wrapping_add(site.records() as u64);
                }
                sum
            }
            None => 0,
        }
    }
}

/// A schedule that is run whole.
#[derive(Drop)]
pub struct Schedule {
    setups: Vec<Setup>,
    events: Vec<Event>,
    outcome: Option<Outcome>,
}

/// What came of each event, one behind the other.
fn push_traces(outcome: &Outcome, out: &mut Vec<u8>) -> Result<(), Stop> {
    for (index, trace) in outcome.traces.iter().enumerate() {
        if index > 0 {
            out.extend_from_slice(b"; ")?;
        }
        push_trace(trace, out)?;
    }
    Ok(())
}

impl Schedule {
    /// A schedule that was not run.
    pub fn new<R: RandomSource>(rt: &R, alloc: Global) -> Result<Schedule, Stop> {
        Ok(Schedule {
            setups: two_setups(rt, alloc)?,
            events: all_events(alloc)?,
            outcome: None,
        })
    }
}

impl Scene for Schedule {
    fn count(&self) -> usize {
        1
    }

    fn begin(&mut self, _place: usize) -> Result<(), Stop> {
        Ok(())
    }

    fn call<R: Wait + Clock>(
        &mut self,
        _rt: &R,
        alloc: Global,
        _place: usize,
        out: &mut Vec<u8>,
    ) -> Result<(), Stop> {
        let setups = copies(alloc, &self.setups)?;
        if !are_in_time(self.events.as_slice()) {
            return Err(Stop::Wrong("no such moment"));
        }
        match run_schedule(alloc, setups, self.events.as_slice()) {
            Ok(outcome) => {
                push_traces(&outcome, out)?;
                self.outcome = Some(outcome);
                Ok(())
            }
            Err(why) => Err(stop_of(why)),
        }
    }

    fn show<R: Wait>(
        &mut self,
        _rt: &R,
        alloc: Global,
        out: &mut Vec<u8>,
    ) -> Result<(), AllocError> {
        match &self.outcome {
            Some(outcome) => {
                push_sites(alloc, &outcome.sites, out)?;
                push_parcels(&outcome.parcels, out)
            }
            None => Ok(()),
        }
    }

    fn glance(&self) -> u64 {
        self.outcome.is_some() as u64
    }
}
