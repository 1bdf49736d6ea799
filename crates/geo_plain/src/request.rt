//! What a request adds to what is known.
ghost use Rattle.std.specs.Prelude.{[], ◌∷◌, ◌≡◌, ◌≤◌, ◌^◌, ℕ, Bool, length, IfOk, IfErr, true, cond, None, Some};
ghost use Rattle.std.specs.Option.{option_copied};
ghost use Rattle.geo_memcache.specs.Entries.{expiry_at};
ghost use Rattle.geo_memcache.specs.Decisions.{decided};
ghost use Rattle.geo_records.specs.Operations.{latest as latest_of};
ghost use Rattle.geo_site.specs.Entries.{acts_of as acts_by, issued as issued_by, counted, evicted_on, lacks, touched_of, touches_of, flush_acts as flushes_by, flushes_now as is_at_once, waits_after};
ghost use Rattle.geo_site.specs.Changes.{is_change, bytes_in, IsShort};
ghost use Rattle.geo_world.specs.Schedule.{Known as Knowing, issues_on, counts_keys, lets_go, carries_out, visible};
ghost use Rattle.geo_world.specs.There.{is_site};
ghost use Rattle.geo_plain.specs.Plain.{acts_of, counts_of, shown, Meets};

use crate::knowledge::Knowledge;
use crate::known::{Known, PlainError};
use crate::operation::{Act, Written};
use geo_lattice::Twin;
use geo_memcache::{Ask, Effect, ask_of, expiry_of};
use geo_requests::{Request, ValueBytes};
use geo_versions::Key;
use std::alloc::{AllocError, Global};

/// One act alone.
fn one(alloc: Global, act: Act) -> Result<Vec<Act>, AllocError>
    ensures { IfOk result (λ acts. acts.items ≡ act ∷ []) }
{
    let mut acts = Vec::new(alloc);
    acts.push(act)?;
    Ok(acts)
}

/// A copy of the bytes that are asked to be stored; none where none are asked to be.
fn asked_bytes(alloc: Global, ask: &Ask<'_>) -> Result<ValueBytes, AllocError>
    ensures { IfOk result (λ bytes. bytes ≡ bytes_in ask.now) }
{
    match ask {
        Ask::Store { bytes, .. } => bytes.twin(alloc),
        Ask::Fetch { .. }
        | Ask::FetchTouch { .. }
        | Ask::Delete
        | Ask::Touch { .. }
        | Ask::Arith { .. } => Ok(ValueBytes::of(Vec::new(alloc))),
    }
}

/// What an effect on a key issues, where this is asked of it.
fn acts_on(alloc: Global, key: &Key, effect: Effect, ask: &Ask<'_>) -> Result<Vec<Act>, AllocError>
    requires short { IsShort effect (bytes_in ask.now) }
    ensures { IfOk result (λ acts. acts_of acts.items ≡ acts_by key.now (bytes_in ask.now) effect) }
{
    let key = key.twin(alloc)?;
    match effect {
        Effect::Nothing => Ok(Vec::new(alloc)),
        Effect::Keep { flags, expiry } => {
            let bytes = asked_bytes(alloc, ask)?;
            let written = Written {
                key,
                bytes,
                flags,
                expiry,
            };
            one(alloc, Act::Write(written))
        }
        Effect::Made {
            bytes,
            flags,
            expiry,
        } => {
            let written = Written {
                key,
                bytes,
                flags,
                expiry,
            };
            one(alloc, Act::Write(written))
        }
        Effect::Renew { expiry } => one(alloc, Act::Touch { key, expiry }),
        Effect::Tomb => one(alloc, Act::Delete { key }),
    }
}

/// Whether the moment of a flush_all has come already.
fn is_now(delay: i64, now: u64) -> bool
    requires moment { now ≤ 2 ^ 40 }
    ensures { result ≡ is_at_once delay now }
{
    expiry_of(delay, now) <= now
}

/// What a flush_all issues at once.
fn flush_acts(alloc: Global, delay: i64, now: u64) -> Result<Vec<Act>, AllocError>
    requires moment { now ≤ 2 ^ 40 }
    ensures { IfOk result (λ acts. acts_of acts.items ≡ flushes_by delay now) }
{
    if !is_now(delay, now) {
        return Ok(Vec::new(alloc));
    }
    one(alloc, Act::Flush)
}

/// The moment for which a flush_all waits, unless it flushes at once.
fn later(delay: i64, now: u64) -> Option<u64>
    requires moment { now ≤ 2 ^ 40 }
    ensures { result ≡ cond (is_at_once delay now) None (Some (expiry_at delay now)) }
{
    if is_now(delay, now) {
        return None;
    }
    Some(expiry_of(delay, now))
}

impl Knowledge {
    /// What plain memcached issues where this is asked of a key.
    fn asked(
        &self,
        alloc: Global,
        now: u64,
        key: &Key,
        ask: &Ask<'_>,
    ) -> Result<Vec<Act>, AllocError>
        requires moment { now ≤ 2 ^ 40 }
        requires change { is_change ask.now ≡ true }
        ensures { IfOk result (λ acts. acts_of acts.items
            ≡ acts_by key.now (bytes_in ask.now) (decided (shown self.now now key.now) now ask.now).effect) }
    {
        let decision = self.decision(alloc, now, key, ask)?;
        acts_on(alloc, key, decision.effect, ask)
    }

    /// The touches of a fetch with touches.
    fn touches(
        &self,
        alloc: Global,
        now: u64,
        expiry: u64,
        keys: &[Key],
    ) -> Result<Vec<Act>, AllocError>
        ensures { IfOk result (λ acts. (numbers : Bool) → acts_of acts.items
            ≡ touches_of expiry (touched_of now expiry numbers (shown self.now now) keys.now)) }
    {
        let mut before = Vec::new(alloc);
        let mut acts = Vec::new(alloc);
        self.add_touches(alloc, now, expiry, &mut before, keys, &mut acts)?;
        Ok(acts)
    }

    /// What plain memcached issues on a request at a moment of at most 2^40.
    fn issued(&self, alloc: Global, now: u64, request: &Request) -> Result<Vec<Act>, AllocError>
        requires moment { now ≤ 2 ^ 40 }
        ensures { IfOk result (λ acts. acts_of acts.items ≡ issued_by now (shown self.now now) request.now) }
    {
        if let Some((key, ask)) = ask_of(request) {
            return self.asked(alloc, now, key, &ask);
        }
        match request {
            Request::FetchTouch { exptime, keys, .. } => {
                let expiry = expiry_of(*exptime, now);
                self.touches(alloc, now, expiry, keys.as_slice())
            }
            Request::FlushAll { delay, .. } => flush_acts(alloc, *delay, now),
            _ => Ok(Vec::new(alloc)),
        }
    }

    /// The moment of the flush that waits after a request.
    fn waiting_after(&self, now: u64, request: &Request) -> Option<u64>
        requires moment { now ≤ 2 ^ 40 }
        ensures { result ≡ waits_after now request.now self.now.waiting }
    {
        match request {
            Request::FlushAll { delay, .. } => later(*delay, now),
            _ => self.waiting,
        }
    }

    /// It counts the keys of a request that looks them up.
    fn count(&mut self, now: u64, request: &Request)
        ensures counts { counts_of self.new ≡ counted (shown self.old now) request.now (counts_of self.old) }
        ensures ops { self.new.ops ≡ self.old.ops }
        ensures changes { self.new.changes ≡ self.old.changes }
        ensures waiting { self.new.waiting ≡ self.old.waiting }
        ensures reap_after { self.new.reap_after ≡ self.old.reap_after }
        ensures retired { self.new.retired ≡ self.old.retired }
    {
        let Request::Fetch { keys, .. } = request else {
            return;
        };
        let keys = keys.as_slice();
        let found = self.found(now, keys);
        self.hits = self.hits.saturating_add(found as u64);
        self.misses = self.misses.saturating_add((keys.len() - found) as u64);
    }
}

impl Known {
    /// A site counts the keys of a request that looks them up.
    fn count(&mut self, site: u8, now: u64, request: &Request)
        requires there { is_site (length self.old.sites.items) site ≡ true }
        ensures counts { (w : Knowing) → Meets self.old.sites.items self.old.sent.items w
            → Meets self.new.sites.items self.new.sent.items (counts_keys w site
            (counted (visible w site now) request.now (w.counts site))) }
        ensures as_many { length self.new.sites.items ≡ length self.old.sites.items }
    {
        let at = &mut self.sites[site as usize - 1];
        at.count(now, request);
    }

    /// A site evicts the bytes of a victim, if there is one.
    fn let_go(&mut self, alloc: Global, site: u8, victim: Option<&Key>) -> Result<(), AllocError>
        requires there { is_site (length self.old.sites.items) site ≡ true }
        ensures kept { IfOk result (λ _. (w : Knowing) → Meets self.old.sites.items self.old.sent.items w
            → Meets self.new.sites.items self.new.sent.items (counts_keys (lets_go w site (option_copied victim.entry)) site
            (evicted_on (option_copied victim.entry) (w.counts site)))) }
        ensures as_many { length self.new.sites.items ≡ length self.old.sites.items }
    {
        match victim {
            None => Ok(()),
            Some(key) => self.evict(alloc, site, key),
        }
    }

    /// What a request that is carried out adds: what it issues is decided before the bytes of a victim go.
    pub(crate) fn carry_out(
        &mut self,
        alloc: Global,
        site: u8,
        now: u64,
        request: &Request,
        victim: Option<&Key>,
    ) -> Result<(), PlainError>
        requires there { is_site (length self.old.sites.items) site ≡ true }
        requires moment { now ≤ 2 ^ 40 }
        requires few { length self.old.sites.items ≤ 16 }
        ensures kept { IfOk result (λ _. (w : Knowing) → Meets self.old.sites.items self.old.sent.items w
            → Meets self.new.sites.items self.new.sent.items (carries_out w site now request.now (option_copied victim.entry))) }
        ensures ended { IfErr result (λ e. e ≡ PlainError.ClockEnded → (w : Knowing)
            → Meets self.old.sites.items self.old.sent.items w → lacks (latest_of (w.at site)) (issues_on w site now request.now)
            ≡ true) }
        ensures there { IfErr result (λ e. e ≡ PlainError.NotThere → ⊥) }
        ensures as_many { length self.new.sites.items ≡ length self.old.sites.items }
    {
        let at = &self.sites[site as usize - 1];
        let acts = at.issued(alloc, now, request)?;
        let waiting = at.waiting_after(now, request);
        self.count(site, now, request);
        self.let_go(alloc, site, victim)?;
        self.issue_all(alloc, site, acts.as_slice())?;
        self.wait(site, waiting);
        Ok(())
    }
}
