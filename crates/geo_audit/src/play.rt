//! What is carried out at all sites, one event after the other.
ghost use Rattle.std.specs.Prelude.{◌≡◌, ◌≢◌, ℕ, ◌+◌, ◌<◌, true, false, IfOk, MatchBool, length};
ghost use Rattle.geo_world.specs.There.{is_in_time, is_site};
ghost use Rattle.geo_audit.specs.Runs.{event_of, lets_go, gone, setups_in, is_timely};
ghost use Rattle.geo_audit.specs.Misses.{Unheld, MissesBy, Misses};
ghost use Rattle.geo_audit.specs.Playing.{Always, Leads, Opens, Happens, StaysAt, FlushesAt, StaysFor, FlushesFor, EndsWith, ComesAsTold, Replays};

use crate::replay::{is_plain, is_said, is_told, seen_at, tells};
use geo_equal::Equal;
use geo_history::{History, Step};
use geo_lattice::Twin;
use geo_site::{Answer, Event, Setup};
use geo_versions::Key;
use geo_world::{Event as Happening, Trace, World, WorldError};
use std::alloc::{AllocError, Global};

/// All sites, and what was carried out at them since their start.
#[derive(Drop)]
pub struct Play {
    pub(crate) world: World,
    pub(crate) events: Vec<Happening>,
}

/// What all sites were told at their start.
fn setups_of(alloc: Global, histories: &[History]) -> Result<Vec<Setup>, AllocError>
    ensures { IfOk result (λ setups. setups.items ≡ setups_in histories.now) }
{
    let mut setups = Vec::new(alloc);
    for history in histories {
        setups.push(history.setup.copied())?;
    }
    Ok(setups)
}

/// What was asked of a site, as a schedule has it.
fn event_of(alloc: Global, site: u8, number: usize, event: &Event) -> Result<Happening, AllocError>
    ensures { IfOk result (λ happening. happening ≡ event_of site number event.now) }
{
    Ok(match event {
        Event::Command { now, request } => Happening::Command {
            site,
            now: *now,
            request: request.twin(alloc)?,
        },
        Event::Evict { key } => Happening::Evict {
            site,
            key: key.twin(alloc)?,
        },
        Event::Send { to } => Happening::Send { site, to: *to },
        Event::Take { .. } => Happening::Take {
            site,
            parcel: number,
        },
        Event::Remove => Happening::Remove { site },
        Event::Tick { now } => Happening::Tick { site, now: *now },
        Event::Reap { now, key } => Happening::Reap {
            site,
            now: *now,
            key: key.twin(alloc)?,
        },
        Event::Fill { key, bytes } => Happening::Fill {
            site,
            key: key.twin(alloc)?,
            bytes: bytes.twin(alloc)?,
        },
        Event::Retire { other } => Happening::Retire {
            site,
            other: *other,
        },
    })
}

/// Whether no flush was carried out.
fn is_still(trace: &Trace) -> bool
    ensures { MatchBool result (trace.now ≡ Trace.Ticked false) (trace.now ≢ Trace.Ticked false) }
{
    match trace {
        Trace::Ticked(done) => !*done,
        _ => false,
    }
}

/// Whether bytes were evicted.
fn is_gone(trace: &Trace) -> bool
    ensures { MatchBool result (trace.now ≡ Trace.Evicted true) (trace.now ≢ Trace.Evicted true) }
{
    match trace {
        Trace::Evicted(done) => *done,
        _ => false,
    }
}

impl Play {
    /// Sites as they were at their start. None where they are not set up so.
    pub(crate) fn open(alloc: Global, histories: &[History]) -> Result<Option<Play>, AllocError>
        ensures { IfOk result (Opens histories.now) }
    {
        let setups = setups_of(alloc, histories)?;
        match World::open(alloc, setups) {
            Ok(world) => {
                let events = Vec::new(alloc);
                Ok(Some(Play { world, events }))
            }
            Err(WorldError::Setups) => Ok(None),
            Err(WorldError::Memory) => Err(AllocError),
            Err(WorldError::BadEvent(_)) => unreachable!(),
        }
    }

    /// Carries out one event. None where it names a site or a parcel that is not there.
    fn carry_out(&mut self, alloc: Global, event: Happening) -> Result<Option<Trace>, AllocError>
        requires moment { is_in_time event ≡ true }
        ensures { IfOk result (Happens self.old self.new event) }
    {
        let trace = match self.world.step(alloc, &event, 0) {
            Ok(trace) => trace,
            Err(WorldError::BadEvent(_)) => return Ok(None),
            Err(WorldError::Memory) => return Err(AllocError),
            Err(WorldError::Setups) => unreachable!(),
        };
        if !is_said(&trace) {
            return Err(AllocError);
        }
        self.events.push(event)?;
        Ok(Some(trace))
    }

    /// Whether no flush is due at a site. A due one is carried out, and then the audit ends.
    fn stays(&mut self, alloc: Global, site: u8, now: u64) -> Result<bool, AllocError>
        requires there { is_site (length self.old.world.sites.items) site ≡ true }
        requires moment { is_in_time (Happening.Tick site now) ≡ true }
        ensures { IfOk result (λ still. MatchBool still (StaysAt self.old self.new site now) (FlushesAt self.old site now)) }
    {
        let tick = Happening::Tick { site, now };
        match self.world.step(alloc, &tick, 0) {
            Ok(trace) => Ok(is_still(&trace)),
            Err(_) => Err(AllocError),
        }
    }

    /// Whether no flush is due before what is asked of a site: it was to be a step of its own.
    fn is_undue(&mut self, alloc: Global, site: u8, event: &Event) -> Result<bool, AllocError>
        requires there { is_site (length self.old.world.sites.items) site ≡ true }
        requires moment { is_timely event.now ≡ true }
        ensures { IfOk result (λ still. MatchBool still (StaysFor self.old self.new site event.now) (FlushesFor self.old site event.now)) }
    {
        match event {
            Event::Command { now, .. } | Event::Reap { now, .. } => {
                self.stays(alloc, site, *now)
            }
            Event::Evict { .. }
            | Event::Send { .. }
            | Event::Take { .. }
            | Event::Remove
            | Event::Tick { .. }
            | Event::Fill { .. }
            | Event::Retire { .. } => Ok(true),
        }
    }

    /// Evicts the bytes of a recorded victim, if there is one, and tells whether they were held.
    fn lets_go(&mut self, alloc: Global, site: u8, victim: &Option<Key>) -> Result<bool, AllocError>
        requires there { is_site (length self.old.world.sites.items) site ≡ true }
        ensures { IfOk result
            (λ done. MatchBool done (Leads self.old self.new (lets_go site victim.now) (gone victim.now))
            (Always self.old (λ w all. Unheld w site victim.now))) }
    {
        let Some(victim) = victim else {
            return Ok(true);
        };
        let key = victim.twin(alloc)?;
        match self.carry_out(alloc, Happening::Evict { site, key })? {
            Some(trace) => Ok(is_gone(&trace)),
            None => Ok(false),
        }
    }

    /// Whether the parcel that an answer tells of, if any, is the last that was made.
    fn ends_with(&self, answer: &Answer) -> bool
        ensures { MatchBool result (EndsWith self.now.world.parcels.items answer.now) (EndsWith self.now.world.parcels.items answer.now
            → ⊥) }
    {
        let Answer::Sent(told) = answer else {
            return true;
        };
        match self.world.parcels.last() {
            Some(made) => made.equals(told.parcel()),
            None => false,
        }
    }

    /// Carries out the event of a step of the site at a place, and tells whether what comes of it is what the step tells.
    fn answers(
        &mut self,
        alloc: Global,
        at: usize,
        happening: Happening,
        step: &Step,
    ) -> Result<bool, AllocError>
        requires there { at < length self.old.world.sites.items }
        requires moment { is_in_time happening ≡ true }
        requires event { (number : ℕ) × (happening ≡ event_of (at + 1) number step.now.event) }
        ensures { IfOk result
            (λ done. MatchBool done (ComesAsTold self.old self.new (at + 1) happening step.now)
            (Always self.old (λ w all. MissesBy w all (at + 1) happening step.now))) }
    {
        let seen = seen_at(&self.world.sites[at], &step.event);
        let Some(trace) = self.carry_out(alloc, happening)? else {
            return Ok(false);
        };
        if !is_told(&trace, &step.answer) {
            return Ok(false);
        }
        if !self.ends_with(&step.answer) {
            return Ok(false);
        }
        Ok(tells(&self.world.sites[at], &seen, step))
    }

    /// Carries out a step of the site at a place, and tells whether what comes of it is what the step tells. The recorded victim goes
    /// first: with its chunk free the site evicts nothing itself, in whatever order it would have let go.
    pub(crate) fn replays(
        &mut self,
        alloc: Global,
        at: usize,
        site: u8,
        number: usize,
        step: &Step,
    ) -> Result<bool, AllocError>
        requires there { at < length self.old.world.sites.items }
        requires site { site ≡ at + 1 }
        ensures { IfOk result
            (λ done. MatchBool done (Replays self.old self.new site number step.now)
            (Always self.old (λ w all. Misses w all site number step.now))) }
    {
        if !is_plain(step) {
            return Ok(false);
        }
        if !self.is_undue(alloc, site, &step.event)? {
            return Ok(false);
        }
        if !self.lets_go(alloc, site, &step.victim)? {
            return Ok(false);
        }
        let happening = event_of(alloc, site, number, &step.event)?;
        self.answers(alloc, at, happening, step)
    }
}
