//! What all sites know along a schedule with its trace.
ghost use Rattle.std.specs.Prelude.{[], ◌≡◌, ◌≤◌, ◌<◌, length, IfOk, IfErr, true, false};
ghost use Rattle.geo_world.specs.Schedule.{Known as Knowing, happens, known, fills, holds_retired, Lawful, EachLawful};
ghost use Rattle.geo_stamp.specs.Retired.{with_site};
ghost use Rattle.geo_site.specs.Entries.{is_done as is_done_by};
ghost use Rattle.geo_world.specs.Setups.{start};
ghost use Rattle.geo_world.specs.There.{is_site, all_in_time, EachThere};
ghost use Rattle.geo_plain.specs.Plain.{Meets, can_follow};

use crate::knowledge::{Knowledge, copies};
use crate::operation::Operation;
use geo_lattice::{Items, Lattice};
use geo_requests::{Reply, ValueBytes};
use geo_site::Setup;
use geo_stamp::Retired;
use geo_versions::Key;
use geo_world::event::{Event, Trace};
use geo_world::{has_site, is_at_hand, is_in_time_event};
use std::alloc::{AllocError, Global};
use thiserror::Error;

/// What a site knew, and which it held for gone for good, when it sent a parcel.
#[derive(Drop)]
pub struct Sending {
    pub from: u8,
    pub to: u8,
    pub retired: Retired,
    pub ops: Items<Operation>,
}

/// What each site knows and holds and what waits there, and what was known when each parcel was sent.
#[derive(Drop)]
pub struct Known {
    pub sites: Vec<Knowledge>,
    pub sent: Vec<Sending>,
}

/// Why the plain program gives up.
#[derive(Clone, Copy, Debug, PartialEq, Eq, Error)]
pub enum PlainError {
    /// There are more than 16 sites, or the event names a site or a parcel that is not there, or a moment after the last.
    #[error("the event names a site or a parcel that is not there, or a moment after the last")]
    NotThere,
    /// The trace says that something was done for which no stamp is left.
    #[error("the trace says that something was done when no stamp was left")]
    ClockEnded,
    /// Memory was wanted and refused.
    #[error("out of memory")]
    Memory,
}

fn is_done(reply: &Reply) -> bool
    ensures { result ≡ is_done_by reply.now }
{
    !matches!(
        reply,
        Reply::MapFull | Reply::ClockEnded | Reply::OutOfMemory
    )
}

impl Known {
    /// Whether there is a site of this number.
    pub fn has(&self, site: u8) -> bool
        ensures { result ≡ is_site (length self.now.sites.items) site }
    {
        has_site(self.sites.len(), site)
    }

    fn send(&mut self, alloc: Global, site: u8, to: u8) -> Result<(), AllocError>
        requires there { is_site (length self.old.sites.items) site ≡ true }
        ensures kept { IfOk result (λ _. (w : Knowing) → Meets self.old.sites.items self.old.sent.items w
            → Meets self.new.sites.items self.new.sent.items (happens w (Event.Send site to) Trace.Sent)) }
        ensures as_many { length self.new.sites.items ≡ length self.old.sites.items }
    {
        let at = &self.sites[site as usize - 1];
        let retired = at.retired;
        let ops = copies(alloc, at.ops.as_slice())?;
        self.sent.push(Sending {
            from: site,
            to,
            retired,
            ops,
        })?;
        Ok(())
    }

    fn fill(
        &mut self,
        alloc: Global,
        site: u8,
        key: &Key,
        bytes: &ValueBytes,
    ) -> Result<(), AllocError>
        requires there { is_site (length self.old.sites.items) site ≡ true }
        ensures kept { IfOk result (λ _. (w : Knowing) → Meets self.old.sites.items self.old.sent.items w
            → Meets self.new.sites.items self.new.sent.items (fills w site key.now bytes.now)) }
        ensures as_many { length self.new.sites.items ≡ length self.old.sites.items }
    {
        let at = &mut self.sites[site as usize - 1];
        at.fill(alloc, key, bytes)?;
        Ok(())
    }

    fn take(&mut self, alloc: Global, site: u8, parcel: usize) -> Result<(), AllocError>
        requires there { is_site (length self.old.sites.items) site ≡ true }
        requires sent { parcel < length self.old.sent.items }
        ensures kept { IfOk result (λ _. (w : Knowing) → Meets self.old.sites.items self.old.sent.items w
            → Meets self.new.sites.items self.new.sent.items (happens w (Event.Take site parcel) Trace.Taken)) }
        ensures as_many { length self.new.sites.items ≡ length self.old.sites.items }
    {
        let sent = &self.sent[parcel];
        let at = &mut self.sites[site as usize - 1];
        at.learn(alloc, sent.ops.as_slice())?;
        at.retired.join(sent.retired);
        Ok(())
    }

    fn retire(&mut self, site: u8, other: u8)
        requires there { is_site (length self.old.sites.items) site ≡ true }
        requires other_there { is_site (length self.old.sites.items) other ≡ true }
        requires few { length self.old.sites.items ≤ 16 }
        ensures kept { (w : Knowing) → Meets self.old.sites.items self.old.sent.items w
            → Meets self.new.sites.items self.new.sent.items (holds_retired w site (with_site (w.sets site) other)) }
        ensures as_many { length self.new.sites.items ≡ length self.old.sites.items }
    {
        let at = &mut self.sites[site as usize - 1];
        at.retired.add(other);
    }

    /// Whether the sites and the parcel that an event names are there, and its moment is one of a schedule.
    fn can_follow(&self, event: &Event) -> bool
        ensures { result ≡ can_follow (length self.now.sites.items) (length self.now.sent.items) event.now }
    {
        is_at_hand(self.sites.len(), self.sent.len(), event) && is_in_time_event(event)
    }

    /// What an event with its trace adds.
    fn happens(&mut self, alloc: Global, event: &Event, trace: &Trace) -> Result<(), PlainError>
        requires few { length self.old.sites.items ≤ 16 }
        ensures kept { IfOk result (λ _. (w : Knowing) → Meets self.old.sites.items self.old.sent.items w
            → Meets self.new.sites.items self.new.sent.items (happens w event.now trace.now)) }
        ensures missing { IfErr result (λ e. e ≡ PlainError.NotThere
            → can_follow (length self.old.sites.items) (length self.old.sent.items) event.now ≡ false) }
        ensures ended { IfErr result (λ e. e ≡ PlainError.ClockEnded → (w : Knowing)
            → Meets self.old.sites.items self.old.sent.items w → Lawful w event.now trace.now → ⊥) }
        ensures as_many { length self.new.sites.items ≡ length self.old.sites.items }
    {
        if !self.can_follow(event) {
            return Err(PlainError::NotThere);
        }
        match (event, trace) {
            (Event::Command { site, now, request }, Trace::Replied(reply, victim)) => {
                self.flush_due(alloc, *site, *now)?;
                if !is_done(reply) {
                    return Ok(());
                }
                self.carry_out(alloc, *site, *now, request, victim.as_ref())
            }
            (Event::Evict { site, key }, Trace::Evicted(done)) => {
                if *done {
                    self.evict(alloc, *site, key)?;
                }
                Ok(())
            }
            (Event::Send { site, to }, Trace::Sent) => Ok(self.send(alloc, *site, *to)?),
            (Event::Take { site, parcel }, Trace::Taken) => Ok(self.take(alloc, *site, *parcel)?),
            (Event::Tick { site, now }, Trace::Ticked(_))
            | (Event::Reap { site, now, .. }, Trace::ReapRefused(_)) => {
                self.flush_due(alloc, *site, *now)
            }
            (Event::Reap { site, now, key }, Trace::Reaped(_)) => {
                self.flush_due(alloc, *site, *now)?;
                self.reap(alloc, *site, *now, key)
            }
            (Event::Fill { site, key, bytes }, Trace::Filled(filled)) => {
                if filled.is_done() {
                    self.fill(alloc, *site, key, bytes)?;
                }
                Ok(())
            }
            (Event::Retire { site, other }, Trace::Retired(_)) => {
                self.retire(*site, *other);
                Ok(())
            }
            _ => Ok(()),
        }
    }

    /// What events with their traces add, one after the other.
    pub fn follow(
        &mut self,
        alloc: Global,
        events: &[Event],
        traces: &[Trace],
    ) -> Result<(), PlainError>
        requires few { length self.old.sites.items ≤ 16 }
        ensures kept { IfOk result (λ _. (w : Knowing) → Meets self.old.sites.items self.old.sent.items w
            → Meets self.new.sites.items self.new.sent.items (known w events.now traces.now)) }
        ensures missing { IfErr result (λ e. e ≡ PlainError.NotThere → (w : Knowing)
            → Meets self.old.sites.items self.old.sent.items w → EachThere (length self.old.sites.items) w events.now traces.now
            → all_in_time events.now ≡ true → ⊥) }
        ensures ended { IfErr result (λ e. e ≡ PlainError.ClockEnded → (w : Knowing)
            → Meets self.old.sites.items self.old.sent.items w → EachLawful w events.now traces.now → ⊥) }
        ensures as_many { length self.new.sites.items ≡ length self.old.sites.items }
    {
        match events {
            [] => Ok(()),
            [event, events @ ..] => match traces {
                [] => Ok(()),
                [trace, traces @ ..] => {
                    self.happens(alloc, event, trace)?;
                    self.follow(alloc, events, traces)
                }
            },
        }
    }
}

fn sites_without(alloc: Global, setups: &[Setup]) -> Result<Vec<Knowledge>, AllocError>
    ensures { IfOk result (λ all. (length all.items ≡ length setups.now) × Meets all.items [] (start setups.now)) }
{
    let mut all = Vec::new(alloc);
    for setup in setups {
        all.push(Knowledge {
            ops: Vec::new(alloc),
            changes: Vec::new(alloc),
            hits: 0,
            misses: 0,
            evictions: 0,
            waiting: None,
            reap_after: setup.reap_after,
            retired: Retired::none(),
        })?;
    }
    Ok(all)
}

/// What the sites of these setups know after the events with their traces: the definition as it stands, in lists.
pub fn known_after(
    alloc: Global,
    setups: &[Setup],
    events: &[Event],
    traces: &[Trace],
) -> Result<Known, PlainError>
    ensures known { IfOk result (λ k. (length k.sites.items ≡ length setups.now)
        × Meets k.sites.items k.sent.items (known (start setups.now) events.now traces.now)) }
    ensures missing { IfErr result (λ e. e ≡ PlainError.NotThere → length setups.now ≤ 16
        → EachThere (length setups.now) (start setups.now) events.now traces.now → all_in_time events.now ≡ true → ⊥) }
    ensures ended { IfErr result (λ e. e ≡ PlainError.ClockEnded → EachLawful (start setups.now) events.now traces.now → ⊥) }
{
    if setups.len() > 16 {
        return Err(PlainError::NotThere);
    }
    let Ok(sites) = sites_without(alloc, setups) else {
        return Err(PlainError::Memory);
    };
    let mut all = Known {
        sites,
        sent: Vec::new(alloc),
    };
    match all.follow(alloc, events, traces) {
        Ok(()) => Ok(all),
        Err(why) => Err(why),
    }
}
