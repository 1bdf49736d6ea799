//! What a site answers its clients.
ghost use Rattle.std.specs.Prelude.{◌≡◌, ◌≤◌, ◌^◌, ℕ, Option, None, true, false, cond, IfOk, IfErr};
ghost use Rattle.std.specs.Option.{option_map};
ghost use Rattle.geo_memcache.specs.Entries.{Entry as Visible, entry_of};
ghost use Rattle.geo_memcache.specs.Decisions.{decided, is_made};
ghost use Rattle.geo_site.specs.Entries.{Answers, accesses, evicted_on, counted, waits_after, is_done, made_on};
ghost use Rattle.geo_site.specs.Machine.{Same, visible_in};
ghost use Rattle.geo_site.specs.Sites.{state_in, basis_in, issued_in, counts_in, waiting_in, stats_in, victim_in, FirstVictimFits, HasIssuedAfter, Rests, Stays, ActDoes, ActFullDoes, TellsBeside, TellsPlain, reply_in};
ghost use Rattle.geo_site.specs.Steps.{ActSteps};
ghost use Rattle.geo_site.specs.Changes.{is_change, bytes_in, refusal_reply, ChangeDoes, TellsChange};

use crate::acted::Acted;
use crate::refusal::WriteError;
use crate::site::Site;
use geo_memcache::{Answer, Ask, Decision, Entry, ask_of, decide, expiry_of, live};
use geo_requests::{Reply, Request, Stats, Verb};
use geo_versions::Key;
use std::alloc::{AllocError, Global};

/// Tells a client why a key is not written.
fn refused(why: WriteError, with_copies: bool) -> Result<Acted, AllocError>
    ensures reply { reply_in result ≡ refusal_reply why }
    ensures told { IfOk result (TellsPlain with_copies) }
{
    match why {
        WriteError::MapFull => Ok(Acted::plain(Reply::MapFull, with_copies)),
        WriteError::ClockEnded => Ok(Acted::plain(Reply::ClockEnded, with_copies)),
        WriteError::Memory => Err(AllocError),
    }
}

/// Whether what is decided depends on what is there. A set stores whatever is.
fn depends(ask: &Ask<'_>) -> bool
    ensures { result ≡ false → (present : Option Visible) (now : ℕ) → decided present now ask.now ≡ decided None now ask.now }
{
    !matches!(
        ask,
        Ask::Store {
            verb: Verb::Set,
            ..
        }
    )
}

impl Site {
    /// Answers a request at a moment in seconds, 1 to 2^40, as plain memcached does over what is visible (protocol.txt). A flush
    /// that is due is carried out first; where no stamp is left for that, each reply is ClockEnded. Refusals are replies, in this
    /// order: a value too large, a full map, no stamp left, want of memory. None of them changes anything but by a due flush.
    pub fn act(&mut self, alloc: Global, now: u64, request: &Request) -> Reply
        requires moment { now ≤ 2 ^ 40 }
        ensures does { ActDoes self.old self.new now request.now result }
    {
        match self.act_full(alloc, now, request, false) {
            Ok(acted) => acted.reply,
            Err(_) => Reply::OutOfMemory,
        }
    }

    /// Answers a request as [`Site::act`] does, and tells beside the reply what a history of the site keeps of it: the reply twice
    /// more, where that is wanted, the key whose bytes were evicted, and what was made of older bytes. Want of memory is an Err.
    pub fn act_full(
        &mut self,
        alloc: Global,
        now: u64,
        request: &Request,
        with_copies: bool,
    ) -> Result<Acted, AllocError>
        requires moment { now ≤ 2 ^ 40 }
        ensures does { ActFullDoes self.old self.new now request.now with_copies result }
        ensures step { ActSteps self.old self.new now request.now result }
    {
        self.act_by(alloc, now, request, with_copies)
    }

    /// The same, by what becomes of what is held, too.
    fn act_by(
        &mut self,
        alloc: Global,
        now: u64,
        request: &Request,
        with_copies: bool,
    ) -> Result<Acted, AllocError>
        requires moment { now ≤ 2 ^ 40 }
        ensures does { ActFullDoes self.old self.new now request.now with_copies result }
    {
        self.flush_due(now);
        // What the contract of a reply counts, though most replies don't show it.
        let _records = self.records();
        let _items = self.items();
        if self.has_due_flush(now) {
            return Ok(Acted::plain(Reply::ClockEnded, with_copies));
        }
        self.answer(alloc, now, request, with_copies)
    }

    /// Answers a request where no flush is due.
    fn answer(
        &mut self,
        alloc: Global,
        now: u64,
        request: &Request,
        with_copies: bool,
    ) -> Result<Acted, AllocError>
        requires moment { now ≤ 2 ^ 40 }
        ensures answer { Answers now (basis_in self.old now) request.now (reply_in result) }
        ensures done { is_done (reply_in result) ≡ true
            → HasIssuedAfter (accesses now (visible_in (state_in self.old) now) request.now) self.old self.new
            (issued_in self.old now request.now) }
        ensures refused { is_done (reply_in result) ≡ false → Same (state_in self.old) (state_in self.new) }
        ensures counts { counts_in self.new
            ≡ cond (is_done (reply_in result)) (evicted_on (victim_in self.old (issued_in self.old now request.now)) (counted
            (visible_in (state_in self.old) now) request.now (counts_in self.old))) (counts_in self.old) }
        ensures victim { is_done (reply_in result) ≡ true → FirstVictimFits self.old (issued_in self.old now request.now) }
        ensures told { IfOk result (TellsBeside self.old with_copies (issued_in self.old now request.now) (made_on now
            (visible_in (state_in self.old) now) request.now)) }
        ensures waiting { waiting_in self.new
            ≡ cond (is_done (reply_in result)) (waits_after now request.now (waiting_in self.old)) (waiting_in self.old) }
        ensures stays { Stays self.old self.new }
    {
        if let Some((key, ask)) = ask_of(request) {
            return self.change(alloc, now, key, &ask, with_copies);
        }
        match request {
            Request::Fetch { keys, numbers } => {
                self.fetch(alloc, now, keys.as_slice(), *numbers, with_copies)
            }
            Request::FetchTouch {
                exptime,
                keys,
                numbers,
            } => {
                let expiry = expiry_of(*exptime, now);
                self.fetch_touch(alloc, now, expiry, keys.as_slice(), *numbers, with_copies)
            }
            Request::FlushAll { delay, .. } => {
                let reply = self.flush_all(now, *delay);
                Ok(Acted::plain(reply, with_copies))
            }
            Request::ShowVersion => Ok(Acted::plain(Reply::Version, with_copies)),
            Request::Verbosity { .. } => Ok(Acted::plain(Reply::Done, with_copies)),
            Request::Stats => Ok(Acted::plain(Reply::Stats(self.stats()), with_copies)),
            Request::Quit => Ok(Acted::plain(Reply::Closed, with_copies)),
            Request::Store { .. }
            | Request::Delete { .. }
            | Request::Touch { .. }
            | Request::Arith { .. } => unreachable!(),
        }
    }

    /// The numbers that it tells of itself.
    fn stats(&self) -> Stats
        ensures { result ≡ stats_in self.now }
    {
        Stats {
            curr_items: self.items() as u64,
            get_hits: self.hits,
            get_misses: self.misses,
            evictions: self.evictions,
            site: self.number as u64,
            clock: self.vector.greatest(),
            records: self.records() as u64,
        }
    }

    /// What is visible of a key at a moment.
    pub(crate) fn entry(&self, now: u64, key: &Key) -> Option<Entry<'_>>
        ensures { option_map entry_of result ≡ visible_in (state_in self.now) now key.now }
    {
        let (_, entry) = self.placed(now, key)?;
        Some(entry)
    }

    /// What is visible of a key at a moment, and where its value stands.
    pub(crate) fn placed(&self, now: u64, key: &Key) -> Option<(usize, Entry<'_>)>
        ensures { option_map (λ p. entry_of p.1) result ≡ visible_in (state_in self.now) now key.now }
    {
        let version = self.versions.version_of(key)?;
        if !live(version.expiry, now) {
            return None;
        }
        let (place, bytes) = self.values.find(key, &version.digest)?;
        let entry = Entry {
            bytes,
            flags: version.flags,
            expiry: version.expiry,
            unique: version.stamp.cas(),
        };
        Some((place, entry))
    }

    /// What plain memcached decides of a key.
    fn decision(
        &self,
        alloc: Global,
        now: u64,
        key: &Key,
        ask: &Ask<'_>,
    ) -> Result<Decision, AllocError>
        requires moment { now ≤ 2 ^ 40 }
        ensures decided { IfOk result (λ d. d ≡ decided (visible_in (state_in self.now) now key.now) now ask.now) }
        ensures memory { IfErr result (λ _. is_made (decided (visible_in (state_in self.now) now key.now) now ask.now).effect ≡ true) }
    {
        let entry = if depends(ask) {
            self.entry(now, key)
        } else {
            None
        };
        decide(alloc, entry.as_ref(), now, ask)
    }

    /// Decides on one key, and carries the decision out.
    fn change(
        &mut self,
        alloc: Global,
        now: u64,
        key: &Key,
        ask: &Ask<'_>,
        with_copies: bool,
    ) -> Result<Acted, AllocError>
        requires moment { now ≤ 2 ^ 40 }
        requires change { is_change ask.now ≡ true }
        ensures does { ChangeDoes self.old self.new key.now (bytes_in ask.now) (decided
            (visible_in (state_in self.old) now key.now) now ask.now) (reply_in result) }
        ensures told { IfOk result (TellsChange self.old with_copies key.now (bytes_in ask.now) (decided
            (visible_in (state_in self.old) now key.now) now ask.now)) }
        ensures waiting { waiting_in self.new ≡ waiting_in self.old }
        ensures stays { Stays self.old self.new }
    {
        let Ok(Decision { answer, effect }) = self.decision(alloc, now, key, ask) else {
            return match self.next_stamp(key) {
                Ok(_) => Err(AllocError),
                Err(why) => refused(why, with_copies),
            };
        };
        match self.carry_out(alloc, key, effect, ask) {
            Ok(beside) => match answer {
                Answer::Reply(reply) => Ok(Acted::short(reply, beside, with_copies)),
                Answer::Hit | Answer::Miss => unreachable!(),
            },
            Err(why) => refused(why, with_copies),
        }
    }
}
