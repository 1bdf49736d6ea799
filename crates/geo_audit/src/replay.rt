//! What a step tells, beside what comes of its event.
ghost use Rattle.std.specs.Prelude.{◌≡◌, ◌≢◌, ◌+◌, ◌↔◌, ℕ, List, IsTrue, MatchBool, length, option_copied};
ghost use Rattle.geo_stamp.specs.Vectors.{vector_joined};
ghost use Rattle.geo_site.specs.Entries.{Held};
ghost use Rattle.geo_site.specs.Machine.{IsHeldCount};
ghost use Rattle.geo_site.specs.Sites.{state_in};
ghost use Rattle.geo_audit.specs.Runs.{is_timely, IsPlain, IsPlainStep, IsSaid, IsToldBy, TellsBeside, StoresBeside, IsOneClass, NamedAlike, Alike, MayEvict, IsBare, stored_under, named_in, made_at};
ghost use Rattle.geo_audit.specs.Misses.{OtherBeside, OtherClass, NamedUnlike, Unlike};
ghost use Rattle.geo_audit.specs.Playing.{Rises, Sees, versions_at};

use geo_equal::Equal;
use geo_history::Step;
use geo_lattice::Lattice;
use geo_requests::{LONGEST_VALUE, Reply, Request, Verb};
use geo_site::{Answer, Event, LAST_MOMENT, ReapError, RetireError, SendError, Site, TakeError};
use geo_slabs::class_of;
use geo_versions::{Digest, Key, Version};
use geo_world::Trace;

/// Whether the moment of an event, if it has one, is one at which a site can be asked.
fn is_timely(event: &Event) -> bool
    ensures { result ≡ is_timely event.now }
{
    match event {
        Event::Command { now, .. } | Event::Tick { now } | Event::Reap { now, .. } => {
            *now <= LAST_MOMENT
        }
        Event::Evict { .. }
        | Event::Send { .. }
        | Event::Take { .. }
        | Event::Remove
        | Event::Fill { .. }
        | Event::Retire { .. } => true,
    }
}

/// The key under which a request that was answered so stored bytes.
fn stored_under<'a>(request: &'a Request, reply: &Reply) -> Option<&'a Key>
    ensures { option_copied result ≡ stored_under request.now reply.now }
{
    match (request, reply) {
        (Request::Store { key, .. }, Reply::Stored)
        | (Request::Arith { key, .. }, Reply::Number(_)) => Some(key),
        _ => None,
    }
}

/// Whether bytes were stored under another key than the victim's.
fn stores_beside(victim: &Key, request: &Request, reply: &Reply) -> bool
    ensures { MatchBool result (StoresBeside (stored_under request.now reply.now) victim.now)
        (StoresBeside (stored_under request.now reply.now) victim.now → ⊥) }
{
    match stored_under(request, reply) {
        Some(key) => !key.equals(victim),
        None => false,
    }
}

/// Whether a command may have a victim, where it has one.
fn may_evict(request: &Request, answer: &Answer, victim: &Option<Key>) -> bool
    ensures { MatchBool result (MayEvict request.now answer.now victim.now) (MayEvict request.now answer.now victim.now → ⊥) }
{
    let Some(victim) = victim else {
        return true;
    };
    match answer {
        Answer::Replied(reply) => stores_beside(victim, request, reply),
        _ => false,
    }
}

/// Whether a step that is no command tells of no victim, and of no bytes made.
fn is_bare(victim: &Option<Key>, made: &Option<(Digest, u32)>) -> bool
    ensures { MatchBool result (IsBare victim.now made.now) (IsBare victim.now made.now → ⊥) }
{
    victim.is_none() && made.is_none()
}

/// Whether a step tells of nothing that its event can't have: only a command has a victim, or makes bytes of older ones, and a tick
/// is recorded where it carried out a flush.
fn may_tell(step: &Step) -> bool
    ensures { MatchBool result (IsPlain step.now.event step.now.answer step.now.victim step.now.made)
        (IsPlain step.now.event step.now.answer step.now.victim step.now.made → ⊥) }
{
    match &step.event {
        Event::Command { request, .. } => may_evict(request, &step.answer, &step.victim),
        Event::Tick { .. } => {
            step.answer.equals(&Answer::Ticked(true)) && is_bare(&step.victim, &step.made)
        }
        Event::Evict { .. }
        | Event::Send { .. }
        | Event::Take { .. }
        | Event::Remove
        | Event::Reap { .. }
        | Event::Fill { .. }
        | Event::Retire { .. } => is_bare(&step.victim, &step.made),
    }
}

/// Whether a step tells of nothing that its event can't have, at a moment that can be.
pub(crate) fn is_plain(step: &Step) -> bool
    ensures { MatchBool result (IsPlainStep step.now) (IsPlainStep step.now → ⊥) }
{
    is_timely(&step.event) && may_tell(step)
}

/// Whether no memory was wanted.
pub(crate) fn is_said(trace: &Trace) -> bool
    ensures { IsTrue result → IsSaid trace.now }
{
    match trace {
        Trace::Replied(reply, _) => !reply.equals(&Reply::OutOfMemory),
        Trace::SendRefused(why) => *why != SendError::Memory,
        Trace::TakeRefused(why) => *why != TakeError::Memory,
        Trace::ReapRefused(why) => *why != ReapError::Memory,
        Trace::RetireRefused(why) => *why != RetireError::Memory,
        Trace::Evicted(_)
        | Trace::Sent
        | Trace::Taken
        | Trace::Removed { .. }
        | Trace::Ticked(_)
        | Trace::Reaped(_)
        | Trace::Filled(_)
        | Trace::Retired(_) => true,
        Trace::FillRefused => false,
    }
}

/// Whether a recorded answer is what came of an event.
pub(crate) fn is_told(trace: &Trace, answer: &Answer) -> bool
    ensures { MatchBool result (IsToldBy trace.now answer.now) (IsToldBy trace.now answer.now → ⊥) }
{
    match (trace, answer) {
        (Trace::Replied(reply, victim), Answer::Replied(told)) => {
            victim.is_none() && reply.equals(told)
        }
        (Trace::Evicted(done), Answer::Evicted(told))
        | (Trace::Ticked(done), Answer::Ticked(told))
        | (Trace::Reaped(done), Answer::Reaped(told))
        | (Trace::Retired(done), Answer::Retired(told)) => *done == *told,
        (Trace::Sent, Answer::Sent(_)) | (Trace::Taken, Answer::Taken(_)) => true,
        (Trace::SendRefused(why), Answer::SendRefused(told)) => *why == *told,
        (Trace::TakeRefused(why), Answer::TakeRefused(told)) => *why == *told,
        (Trace::Removed { count, .. }, Answer::Removed(told)) => *count == *told,
        (Trace::ReapRefused(why), Answer::ReapRefused(told)) => *why == *told,
        (Trace::RetireRefused(why), Answer::RetireRefused(told)) => *why == *told,
        (Trace::Filled(filled), Answer::Filled(told)) => *filled == *told,
        _ => false,
    }
}

/// What is seen of a site before an event.
#[derive(Drop)]
pub(crate) struct Seen {
    /// Whether a parcel that comes knows more than the site.
    rose: bool,
    /// How many values it holds.
    items: usize,
}

/// Whether a parcel that comes, if one does, knows more than a site.
fn rises(site: &Site, event: &Event) -> bool
    ensures { Rises (state_in site.now).vector event.now result }
{
    match event {
        Event::Take { parcel } => !site.known().covers(&parcel.parcel().upto),
        Event::Command { .. }
        | Event::Evict { .. }
        | Event::Send { .. }
        | Event::Remove
        | Event::Tick { .. }
        | Event::Reap { .. }
        | Event::Fill { .. }
        | Event::Retire { .. } => false,
    }
}

/// What is seen of a site before an event.
pub(crate) fn seen_at(site: &Site, event: &Event) -> Seen
    ensures { Sees (state_in site.now).vector (state_in site.now).stock.held event.now result }
{
    Seen {
        rose: rises(site, event),
        items: site.items(),
    }
}

/// Whether what was made of older bytes is the same.
fn is_made(made: &Option<(Digest, u32)>, told: &Option<(Digest, u32)>) -> bool
    ensures { MatchBool result (made.now ≡ told.now) (made.now ≢ told.now) }
{
    match (made, told) {
        (None, None) => true,
        (Some(one), Some(two)) => one.0 == two.0 && one.1 == two.1,
        _ => false,
    }
}

/// What a site names of a key.
fn named_at(site: &Site, key: &Key) -> Option<(Digest, u32)>
    ensures { result ≡ named_in (versions_at site.now key.now) }
{
    let version = site.version_of(key)?;
    Some((version.digest, version.length))
}

/// What a command made of older bytes and stored: that is what the site names then.
fn made_at(site: &Site, request: &Request, reply: &Reply) -> Option<(Digest, u32)>
    ensures { result ≡ made_at (versions_at site.now) request.now reply.now }
{
    match (request, reply) {
        (
            Request::Store {
                verb: Verb::Append | Verb::Prepend,
                key,
                ..
            },
            Reply::Stored,
        )
        | (Request::Arith { key, .. }, Reply::Number(_)) => named_at(site, key),
        _ => None,
    }
}

/// Whether values of so many bytes are of one slab class.
fn is_one_class(one: u32, two: u32) -> bool
    ensures { MatchBool result (IsOneClass one two) (OtherClass one two) }
{
    if one as usize > LONGEST_VALUE {
        return false;
    }
    if two as usize > LONGEST_VALUE {
        return false;
    }
    class_of(one as usize) == class_of(two as usize)
}

/// Whether two versions are of one slab class.
fn are_alike(one: &Option<Version>, two: &Option<Version>) -> bool
    ensures { MatchBool result (NamedAlike one.now two.now) (NamedUnlike one.now two.now) }
{
    match (one, two) {
        (Some(one), Some(two)) => is_one_class(one.length, two.length),
        _ => false,
    }
}

/// Whether a victim, if there is one, is of the slab class of what was stored under a key.
fn is_alike(site: &Site, key: Option<&Key>, victim: &Option<Key>) -> bool
    ensures { MatchBool result (Alike (versions_at site.now) (option_copied key.entry) victim.now)
        (Unlike (versions_at site.now) (option_copied key.entry) victim.now) }
{
    let Some(victim) = victim else {
        return true;
    };
    match key {
        Some(key) => are_alike(&site.version_of(key), &site.version_of(victim)),
        None => false,
    }
}

/// Whether so many fewer are left.
fn is_dropped(before: usize, after: usize, dropped: usize) -> bool
    ensures { MatchBool result (after + dropped ≡ before) (after + dropped ≢ before) }
{
    after <= before && dropped == before - after
}

/// Whether a step tells what its site was seen to do, beside what came of the event: what a take changed, and what a command made.
pub(crate) fn tells(site: &Site, seen: &Seen, step: &Step) -> bool
    ensures { (vector : List ℕ) (held : Held) → Sees vector held step.now.event seen.now
        → MatchBool result (TellsBeside vector held (state_in site.now).stock.held
        (versions_at site.now) step.now.event step.now.answer step.now.victim step.now.made)
        (OtherBeside vector held (state_in site.now).stock.held
        (versions_at site.now) step.now.event step.now.answer step.now.victim step.now.made) }
{
    match (&step.event, &step.answer) {
        (Event::Take { .. }, Answer::Taken(told)) => {
            told.rose == seen.rose && is_dropped(seen.items, site.items(), told.dropped)
        }
        (Event::Command { request, .. }, Answer::Replied(reply)) => {
            is_made(&step.made, &made_at(site, request, reply))
                && is_alike(site, stored_under(request, reply), &step.victim)
        }
        _ => true,
    }
}
