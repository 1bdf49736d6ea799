//! What a site issues and evicts, and the flush that waits there.
ghost use Rattle.std.specs.Prelude.{[], ◌∷◌, ◌≡◌, ◌≤◌, ◌<◌, ◌+◌, ◌^◌, Option, ℕ, length, IfOk, IfErr, true};
ghost use Rattle.geo_stamp.specs.Stamps.{last_time};
ghost use Rattle.geo_records.specs.Operations.{latest as latest_of};
ghost use Rattle.geo_site.specs.Entries.{lacks};
ghost use Rattle.geo_world.specs.Schedule.{Known as Knowing, evicts, waits, flushed, reaps_on};
ghost use Rattle.geo_plain.specs.declared.known.PlainError.TheVariants.{Memory};
ghost use Rattle.geo_world.specs.There.{is_site};
ghost use Rattle.geo_plain.specs.Plain.{act_of, acts_of, Meets, ChangeAdds};

use crate::known::{Known, PlainError};
use crate::meaning::latest;
use crate::operation::Act;
use geo_lattice::Twin;
use geo_stamp::{LAST_TIME, Stamp};
use geo_versions::Key;
use std::alloc::{AllocError, Global};

impl From<AllocError> for PlainError {
    ghost from_gives = { λ _ e. e ≡ Memory };

    fn from(_error: AllocError) -> PlainError {
        PlainError::Memory
    }
}

impl Known {
    /// The next stamp of a site. ClockEnded where none is left.
    fn next_stamp(&self, site: u8) -> Result<Stamp, PlainError>
        requires there { is_site (length self.now.sites.items) site ≡ true }
        requires few { length self.now.sites.items ≤ 16 }
        ensures stamp { IfOk result (λ stamp. (w : Knowing) → Meets self.now.sites.items self.now.sent.items w → stamp
            ≡ record { time = latest_of (w.at site) + 1; site = site }) }
        ensures ended { IfErr result (λ e. (e ≡ PlainError.ClockEnded) × ((w : Knowing)
            → Meets self.now.sites.items self.now.sent.items w → last_time < latest_of (w.at site) + 1)) }
    {
        let clock = latest(self.sites[site as usize - 1].ops.as_slice());
        if clock >= LAST_TIME {
            return Err(PlainError::ClockEnded);
        }
        match Stamp::new(clock + 1, site) {
            Some(stamp) => Ok(stamp),
            None => Err(PlainError::ClockEnded),
        }
    }

    /// A site issues an operation.
    pub(crate) fn issue(&mut self, alloc: Global, site: u8, act: Act) -> Result<(), PlainError>
        requires there { is_site (length self.old.sites.items) site ≡ true }
        requires few { length self.old.sites.items ≤ 16 }
        ensures adds { ChangeAdds self.old self.new site (λ w. act_of act ∷ []) result }
        ensures as_many { length self.new.sites.items ≡ length self.old.sites.items }
    {
        let stamp = self.next_stamp(site)?;
        let at = &mut self.sites[site as usize - 1];
        at.issue(alloc, stamp, act)?;
        Ok(())
    }

    /// A site issues operations, one after the other.
    pub(crate) fn issue_all(
        &mut self,
        alloc: Global,
        site: u8,
        acts: &[Act],
    ) -> Result<(), PlainError>
        requires there { is_site (length self.old.sites.items) site ≡ true }
        requires few { length self.old.sites.items ≤ 16 }
        ensures adds { ChangeAdds self.old self.new site (λ w. acts_of acts.now) result }
        ensures as_many { length self.new.sites.items ≡ length self.old.sites.items }
    {
        match acts {
            [] => Ok(()),
            [act, rest @ ..] => {
                let act = act.twin(alloc)?;
                self.issue(alloc, site, act)?;
                self.issue_all(alloc, site, rest)
            }
        }
    }

    /// A site evicts the bytes of a key.
    pub(crate) fn evict(&mut self, alloc: Global, site: u8, key: &Key) -> Result<(), AllocError>
        requires there { is_site (length self.old.sites.items) site ≡ true }
        ensures kept { IfOk result (λ _. (w : Knowing) → Meets self.old.sites.items self.old.sent.items w
            → Meets self.new.sites.items self.new.sent.items (evicts w site key.now)) }
        ensures as_many { length self.new.sites.items ≡ length self.old.sites.items }
    {
        let at = &mut self.sites[site as usize - 1];
        at.evict(alloc, key)?;
        Ok(())
    }

    /// A flush waits at a site from now on, or none does.
    pub(crate) fn wait(&mut self, site: u8, waiting: Option<u64>)
        requires there { is_site (length self.old.sites.items) site ≡ true }
        ensures kept { (w : Knowing) → Meets self.old.sites.items self.old.sent.items w
            → Meets self.new.sites.items self.new.sent.items (waits w site waiting) }
        ensures as_many { length self.new.sites.items ≡ length self.old.sites.items }
    {
        let at = &mut self.sites[site as usize - 1];
        at.waiting = waiting;
    }

    /// A site carries out a flush that waits, where it is due and a stamp is left for it.
    pub fn flush_due(&mut self, alloc: Global, site: u8, now: u64) -> Result<(), PlainError>
        requires there { is_site (length self.old.sites.items) site ≡ true }
        requires few { length self.old.sites.items ≤ 16 }
        ensures kept { IfOk result (λ _. (w : Knowing) → Meets self.old.sites.items self.old.sent.items w
            → Meets self.new.sites.items self.new.sent.items (flushed w site now)) }
        ensures memory { IfErr result (λ e. e ≡ PlainError.Memory) }
        ensures as_many { length self.new.sites.items ≡ length self.old.sites.items }
    {
        if !self.sites[site as usize - 1].flushes_due(now) {
            return Ok(());
        }
        match self.issue(alloc, site, Act::Flush) {
            Ok(()) => {
                self.wait(site, None);
                Ok(())
            }
            Err(_) => Err(PlainError::Memory),
        }
    }

    /// A site deletes a key that is to be reaped.
    pub(crate) fn reap(
        &mut self,
        alloc: Global,
        site: u8,
        now: u64,
        key: &Key,
    ) -> Result<(), PlainError>
        requires there { is_site (length self.old.sites.items) site ≡ true }
        requires few { length self.old.sites.items ≤ 16 }
        ensures adds { ChangeAdds self.old self.new site (λ w. reaps_on w site now key.now) result }
        ensures as_many { length self.new.sites.items ≡ length self.old.sites.items }
    {
        if !self.sites[site as usize - 1].is_to_reap(site, now, key) {
            return Ok(());
        }
        let key = key.twin(alloc)?;
        self.issue(alloc, site, Act::Delete { key })
    }
}
