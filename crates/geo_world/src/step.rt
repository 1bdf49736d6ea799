//! One event.
ghost use Rattle.std.specs.Prelude.{◌≡◌, ℕ, ◌≤◌, ◌<◌, ◌^◌, true, length, IfOk, IfErr};
ghost use Rattle.geo_world.specs.There.{is_site, is_there, is_in_time};
ghost use Rattle.geo_world.specs.Agreement.{HasLawfulTrace, LeadsOn, SameWorld, StepDoes};
ghost use Rattle.geo_world.specs.Doing.{DoesAlone};
ghost use Rattle.geo_world.specs.Tables.{TabledIn};

use crate::event::{Event, Trace};
use crate::outcome::WorldError;
use crate::there::is_at_hand;
use crate::world::World;
use geo_lattice::Twin;
use geo_requests::{Reply, Request, ValueBytes};
use geo_values::Blob;
use geo_versions::Key;
use std::alloc::{AllocError, Global};

impl World {
    fn command(&mut self, alloc: Global, site: u8, now: u64, request: &Request) -> Trace
        requires there { is_site (length self.old.sites.items) site ≡ true }
        requires moment { now ≤ 2 ^ 40 }
        ensures lawful { HasLawfulTrace self.old (Event.Command site now request.now) result }
        ensures kept { LeadsOn self.old self.new (Event.Command site now request.now) result }
        ensures alone { DoesAlone self.old.sites.items self.new.sites.items (Event.Command site now request.now) result }
        ensures tables { TabledIn self.old self.new (Event.Command site now request.now) result }
        ensures as_many { length self.new.sites.items ≡ length self.old.sites.items }
    {
        let at = &mut self.sites[site as usize - 1];
        match at.act_full(alloc, now, request, false) {
            Ok(acted) => Trace::Replied(acted.reply, acted.victim),
            Err(_) => Trace::Replied(Reply::OutOfMemory, None),
        }
    }

    /// The bytes of a key are dropped where they are held.
    fn evict(&mut self, site: u8, key: &Key) -> Trace
        requires there { is_site (length self.old.sites.items) site ≡ true }
        ensures lawful { HasLawfulTrace self.old (Event.Evict site key.now) result }
        ensures kept { LeadsOn self.old self.new (Event.Evict site key.now) result }
        ensures alone { DoesAlone self.old.sites.items self.new.sites.items (Event.Evict site key.now) result }
        ensures tables { TabledIn self.old self.new (Event.Evict site key.now) result }
        ensures as_many { length self.new.sites.items ≡ length self.old.sites.items }
    {
        let at = &mut self.sites[site as usize - 1];
        Trace::Evicted(at.evict(key))
    }

    /// What every site that is not held for gone knows to be deleted is dropped.
    fn remove(&mut self, site: u8) -> Trace
        requires there { is_site (length self.old.sites.items) site ≡ true }
        ensures lawful { HasLawfulTrace self.old (Event.Remove site) result }
        ensures kept { LeadsOn self.old self.new (Event.Remove site) result }
        ensures alone { DoesAlone self.old.sites.items self.new.sites.items (Event.Remove site) result }
        ensures tables { TabledIn self.old self.new (Event.Remove site) result }
        ensures as_many { length self.new.sites.items ≡ length self.old.sites.items }
    {
        let at = &mut self.sites[site as usize - 1];
        let horizon = at.horizon();
        let before = at.records();
        let count = at.remove();
        let after = at.records();
        prove!(after + count == before);
        Trace::Removed { horizon, count }
    }

    /// A flush that waits is carried out where it is due.
    fn tick(&mut self, site: u8, now: u64) -> Trace
        requires there { is_site (length self.old.sites.items) site ≡ true }
        ensures lawful { HasLawfulTrace self.old (Event.Tick site now) result }
        ensures kept { LeadsOn self.old self.new (Event.Tick site now) result }
        ensures alone { DoesAlone self.old.sites.items self.new.sites.items (Event.Tick site now) result }
        ensures tables { TabledIn self.old self.new (Event.Tick site now) result }
        ensures as_many { length self.new.sites.items ≡ length self.old.sites.items }
    {
        let at = &mut self.sites[site as usize - 1];
        Trace::Ticked(at.tick(now))
    }

    /// A key is deleted where it is to be reaped.
    fn reap(&mut self, alloc: Global, site: u8, now: u64, key: &Key) -> Trace
        requires there { is_site (length self.old.sites.items) site ≡ true }
        ensures lawful { HasLawfulTrace self.old (Event.Reap site now key.now) result }
        ensures kept { LeadsOn self.old self.new (Event.Reap site now key.now) result }
        ensures alone { DoesAlone self.old.sites.items self.new.sites.items (Event.Reap site now key.now) result }
        ensures tables { TabledIn self.old self.new (Event.Reap site now key.now) result }
        ensures as_many { length self.new.sites.items ≡ length self.old.sites.items }
    {
        let at = &mut self.sites[site as usize - 1];
        match at.reap(alloc, now, key) {
            Ok(done) => Trace::Reaped(done),
            Err(why) => Trace::ReapRefused(why),
        }
    }

    /// Bytes that are offered are held where the site has none and names them.
    fn fill(&mut self, alloc: Global, site: u8, key: &Key, bytes: &ValueBytes) -> Trace
        requires there { is_site (length self.old.sites.items) site ≡ true }
        ensures lawful { HasLawfulTrace self.old (Event.Fill site key.now bytes.now) result }
        ensures kept { LeadsOn self.old self.new (Event.Fill site key.now bytes.now) result }
        ensures alone { DoesAlone self.old.sites.items self.new.sites.items (Event.Fill site key.now bytes.now) result }
        ensures tables { TabledIn self.old self.new (Event.Fill site key.now bytes.now) result }
        ensures as_many { length self.new.sites.items ≡ length self.old.sites.items }
    {
        let blob = Blob::known(bytes.as_slice(), bytes.digest());
        let at = &mut self.sites[site as usize - 1];
        match at.fill(alloc, key, &blob) {
            Ok(filled) => Trace::Filled(filled),
            Err(_) => Trace::FillRefused,
        }
    }

    /// Another site is held for gone for good.
    fn retire(&mut self, site: u8, other: u8) -> Trace
        requires there { is_site (length self.old.sites.items) site ≡ true }
        requires other_there { is_site (length self.old.sites.items) other ≡ true }
        ensures lawful { HasLawfulTrace self.old (Event.Retire site other) result }
        ensures kept { LeadsOn self.old self.new (Event.Retire site other) result }
        ensures alone { DoesAlone self.old.sites.items self.new.sites.items (Event.Retire site other) result }
        ensures tables { TabledIn self.old self.new (Event.Retire site other) result }
        ensures as_many { length self.new.sites.items ≡ length self.old.sites.items }
    {
        let at = &mut self.sites[site as usize - 1];
        match at.retire(other) {
            Ok(fresh) => Trace::Retired(fresh),
            Err(why) => Trace::RetireRefused(why),
        }
    }

    fn send(&mut self, alloc: Global, site: u8, to: u8) -> Result<Trace, AllocError>
        requires there { is_site (length self.old.sites.items) site ≡ true }
        requires to_there { is_site (length self.old.sites.items) to ≡ true }
        ensures lawful { IfOk result (λ trace. HasLawfulTrace self.old (Event.Send site to) trace) }
        ensures kept { IfOk result (λ trace. LeadsOn self.old self.new (Event.Send site to) trace) }
        ensures alone { IfOk result (λ trace. DoesAlone self.old.sites.items self.new.sites.items (Event.Send site to) trace) }
        ensures tables { IfOk result (λ trace. TabledIn self.old self.new (Event.Send site to) trace) }
        ensures unchanged { IfErr result (λ _. SameWorld self.old self.new) }
        ensures as_many { length self.new.sites.items ≡ length self.old.sites.items }
    {
        let at = &self.sites[site as usize - 1];
        match at.send(alloc, to) {
            Ok(parcel) => {
                self.parcels.push(parcel)?;
                Ok(Trace::Sent)
            }
            Err(why) => Ok(Trace::SendRefused(why)),
        }
    }

    /// A parcel stays, so that it can be taken again.
    fn take(&mut self, alloc: Global, site: u8, parcel: usize) -> Result<Trace, AllocError>
        requires there { is_site (length self.old.sites.items) site ≡ true }
        requires sent { parcel < length self.old.parcels.items }
        ensures lawful { IfOk result (λ trace. HasLawfulTrace self.old (Event.Take site parcel) trace) }
        ensures kept { IfOk result (λ trace. LeadsOn self.old self.new (Event.Take site parcel) trace) }
        ensures alone { IfOk result (λ trace. DoesAlone self.old.sites.items self.new.sites.items (Event.Take site parcel) trace) }
        ensures tables { IfOk result (λ trace. TabledIn self.old self.new (Event.Take site parcel) trace) }
        ensures unchanged { IfErr result (λ _. SameWorld self.old self.new) }
        ensures as_many { length self.new.sites.items ≡ length self.old.sites.items }
    {
        let sent = &self.parcels[parcel];
        let copy = sent.twin(alloc)?;
        let at = &mut self.sites[site as usize - 1];
        match at.take(alloc, copy) {
            Ok(_) => Ok(Trace::Taken),
            Err(refused) => Ok(Trace::TakeRefused(refused.why)),
        }
    }
}

impl World {
    /// Does the event with this index, unless it names a site or a parcel that is not there. Memory is wanted here for a parcel that is
    /// sent, and for the copy of one that is taken, alone: what a command wants is answered in its reply.
    pub fn step(&mut self, alloc: Global, event: &Event, index: usize) -> Result<Trace, WorldError>
        requires moment { is_in_time event.now ≡ true }
        ensures does { StepDoes self.old self.new event.now index result }
        ensures alone { IfOk result (λ trace. DoesAlone self.old.sites.items self.new.sites.items event.now trace) }
        ensures tables { IfOk result (λ trace. TabledIn self.old self.new event.now trace) }
        ensures as_many { length self.new.sites.items ≡ length self.old.sites.items }
    {
        if !is_at_hand(self.sites.len(), self.parcels.len(), event) {
            return Err(WorldError::BadEvent(index));
        }
        match event {
            Event::Command { site, now, request } => {
                Ok(self.command(alloc, *site, *now, request))
            }
            Event::Evict { site, key } => Ok(self.evict(*site, key)),
            Event::Send { site, to } => match self.send(alloc, *site, *to) {
                Ok(trace) => Ok(trace),
                Err(_) => Err(WorldError::Memory),
            },
            Event::Take { site, parcel } => match self.take(alloc, *site, *parcel) {
                Ok(trace) => Ok(trace),
                Err(_) => Err(WorldError::Memory),
            },
            Event::Remove { site } => Ok(self.remove(*site)),
            Event::Tick { site, now } => Ok(self.tick(*site, *now)),
            Event::Reap { site, now, key } => Ok(self.reap(alloc, *site, *now, key)),
            Event::Fill { site, key, bytes } => Ok(self.fill(alloc, *site, key, bytes)),
            Event::Retire { site, other } => Ok(self.retire(*site, *other)),
        }
    }
}
