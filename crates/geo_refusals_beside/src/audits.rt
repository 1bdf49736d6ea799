//! The audit of what sites did.
ghost use Rattle.std.specs.Prelude.{◌≡◌, true};
ghost use Rattle.geo_audit.specs.Verdicts.{AreInOrder};

use geo_audit::{Verdict, audit};
use geo_delta::Parcel;
use geo_fixtures::opened;
use geo_history::{History, Kept};
use geo_scenes::shown::{push_key, push_number};
use geo_scenes::texts::{request, word};
use geo_scenes::{Scene, Stop};
use geo_world::Event;
use std::alloc::{AllocError, Global};
use std::random::RandomSource;
use std::rt::Clock;
use std::sync::Wait;

fn act(alloc: Global, kept: &mut Kept, text: &[u8]) -> Result<(), Stop> {
    let request = request(alloc, text)?;
    if kept.left(0) < 2 {
        return Err(Stop::Wrong("no step left"));
    }
    let _replies = kept.act_for(alloc, 0, 100, request)?;
    Ok(())
}

fn send(alloc: Global, kept: &mut Kept, to: u8) -> Result<Parcel, Stop> {
    if kept.left(0) < 2 {
        return Err(Stop::Wrong("no step left"));
    }
    match kept.send_for(alloc, 0, to) {
        Ok((parcel, _copy)) => Ok(parcel),
        Err(_) => Err(Stop::Wrong("no parcel")),
    }
}

fn take(alloc: Global, kept: &mut Kept, parcel: Parcel) -> Result<(), Stop> {
    if kept.left(0) < 2 {
        return Err(Stop::Wrong("no step left"));
    }
    match kept.take_for(alloc, 0, parcel) {
        Ok(_) => Ok(()),
        Err(_) => Err(Stop::Wrong("it was not taken")),
    }
}

/// Both set one key, tell each other, and get it; the first has counted a number up.
fn tie(alloc: Global, one: &mut Kept, two: &mut Kept) -> Result<(), Stop> {
    act(alloc, one, b"set n 0 0 1\r\n5\r\n")?;
    act(alloc, one, b"incr n 7\r\n")?;
    act(alloc, one, b"set a 0 0 2\r\nhi\r\n")?;
    act(alloc, two, b"set a 0 0 2\r\nyo\r\n")?;
    let forth = send(alloc, one, 2)?;
    let back = send(alloc, two, 1)?;
    take(alloc, two, forth)?;
    take(alloc, one, back)?;
    act(alloc, one, b"gets a n\r\n")?;
    act(alloc, two, b"gets a n\r\n")
}

/// Two sites that have told each other of a key.
fn tied<R: RandomSource>(rt: &R, alloc: Global) -> Result<(Kept, Kept), Stop> {
    let (Some(mut one), Some(mut two)) = (opened(rt, alloc, 1, 2), opened(rt, alloc, 2, 2)) else {
        return Err(Stop::Wrong("no site"));
    };
    tie(alloc, &mut one, &mut two)?;
    Ok((one, two))
}

fn fresh<R: RandomSource>(rt: &R, alloc: Global) -> Result<Kept, Stop> {
    match opened(rt, alloc, 1, 2) {
        Some(kept) => Ok(kept),
        None => Err(Stop::Wrong("no site")),
    }
}

/// Whether they are those of the sites from 1 on, in order.
fn are_in_order(histories: &[History]) -> bool
    ensures { result ≡ true → AreInOrder histories.now }
{
    for at in 0..histories.len() {
        if histories[at].setup.site as usize != at + 1 {
            return false;
        }
    }
    true
}

/// An event of a schedule, without the request of a command.
fn push_event(event: &Event, out: &mut Vec<u8>) -> Result<(), AllocError> {
    match event {
        Event::Command { site, now, .. } => push_three(1, *site, *now, out),
        Event::Evict { site, key } => {
            push_three(2, *site, 0, out)?;
            push_key(out, key)
        }
        Event::Send { site, to } => push_three(3, *site, *to as u64, out),
        Event::Take { site, parcel } => push_three(4, *site, *parcel as u64, out),
        Event::Remove { site } => push_three(5, *site, 0, out),
        Event::Tick { site, now } => push_three(6, *site, *now, out),
        Event::Reap { site, now, key } => {
            push_three(7, *site, *now, out)?;
            push_key(out, key)
        }
        Event::Fill { site, key, .. } => {
            push_three(8, *site, 0, out)?;
            push_key(out, key)
        }
        Event::Retire { site, other } => push_three(9, *site, *other as u64, out),
    }
}

fn push_three(kind: u64, site: u8, with: u64, out: &mut Vec<u8>) -> Result<(), AllocError> {
    push_number(out, kind)?;
    push_number(out, site as u64)?;
    push_number(out, with)
}

/// What an audit finds, in words.
fn push_verdict(verdict: &Verdict, out: &mut Vec<u8>) -> Result<(), AllocError> {
    match verdict {
        Verdict::Sound(schedule) => word(out, b"sound ", schedule.len() as u64),
        Verdict::Stuck(counts) => {
            out.extend_from_slice(b"stuck")?;
            for count in counts {
                word(out, b" ", *count as u64)?;
            }
            Ok(())
        }
        Verdict::Wrong { site, step } => {
            word(out, b"wrong ", *site as u64)?;
            word(out, b" ", *step as u64)
        }
        Verdict::LaterEra { site } => word(out, b"later era ", *site as u64),
    }
}

/// Histories that are audited, one list after the other, and what was found last.
#[derive(Drop)]
pub struct Audits {
    cases: Vec<Vec<History>>,
    found: Option<Verdict>,
}

impl Audits {
    /// Histories that are sound; of which one lacks the steps of the first site; and the first of them alone.
    pub fn new<R: RandomSource>(rt: &R, alloc: Global) -> Result<Audits, Stop> {
        let mut audits = Audits {
            cases: Vec::new(alloc),
            found: None,
        };
        let (one, two) = tied(rt, alloc)?;
        audits.add(alloc, one, Some(two))?;
        let (one, two) = tied(rt, alloc)?;
        audits.add(alloc, fresh(rt, alloc)?, Some(two))?;
        audits.add(alloc, one, None)?;
        Ok(audits)
    }

    fn add(&mut self, alloc: Global, one: Kept, two: Option<Kept>) -> Result<(), Stop> {
        let mut histories = Vec::new(alloc);
        histories.push(one.history())?;
        if let Some(two) = two {
            histories.push(two.history())?;
        }
        self.cases.push(histories)?;
        Ok(())
    }
}

impl Scene for Audits {
    fn count(&self) -> usize {
        self.cases.len()
    }

    fn begin(&mut self, _place: usize) -> Result<(), Stop> {
        Ok(())
    }

    fn call<R: Wait + Clock>(
        &mut self,
        _rt: &R,
        alloc: Global,
        place: usize,
        out: &mut Vec<u8>,
    ) -> Result<(), Stop> {
        let Some(histories) = self.cases.get(place) else {
            return Err(Stop::Wrong("no such call"));
        };
        if !are_in_order(histories.as_slice()) {
            return Err(Stop::Wrong("another order"));
        }
        let verdict = audit(alloc, histories.as_slice())?;
        push_verdict(&verdict, out)?;
        self.found = Some(verdict);
        Ok(())
    }

    fn show<R: Wait>(
        &mut self,
        _rt: &R,
        _alloc: Global,
        out: &mut Vec<u8>,
    ) -> Result<(), AllocError> {
        match &self.found {
            Some(Verdict::Sound(schedule)) => {
                for event in schedule {
                    push_event(event, out)?;
                }
                Ok(())
            }
            Some(verdict) => push_verdict(verdict, out),
            None => Ok(()),
        }
    }

    fn glance(&self) -> u64 {
        match &self.found {
            Some(Verdict::Sound(schedule)) => schedule.len() as u64,
            Some(_) => 1,
            None => 0,
        }
    }
}
