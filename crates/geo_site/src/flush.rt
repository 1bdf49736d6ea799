//! Flushes: at once, and those that wait for their moment.
ghost use Rattle.std.specs.Prelude.{◌≡◌, ◌≤◌, ◌<◌, ◌+◌, ◌^◌, [], ◌∷◌, cond, MatchOption, None, Some};
ghost use Rattle.geo_stamp.specs.Stamps.{last_time};
ghost use Rattle.geo_requests.specs.declared.reply.Reply.TheVariants.{Done};
ghost use Rattle.geo_memcache.specs.Entries.{expiry_at};
ghost use Rattle.geo_records.specs.Operations.Act.{Flush};
ghost use Rattle.geo_site.specs.Entries.{is_due, is_done, flushes_now, flush_acts};
ghost use Rattle.geo_site.specs.Machine.{clock_of};
ghost use Rattle.geo_site.specs.Sites.{state_in, waiting_in, counts_in, HasIssued, Rests, Stays, IssuesAs, TickDoes};
ghost use Rattle.geo_site.specs.Steps.{TickSteps};
ghost use Rattle.geo_site.specs.Changes.{next_stamp_of};

use crate::exchange::keep_named;
use crate::site::Site;
use geo_memcache::expiry_of;
use geo_requests::Reply;
use geo_stamp::Stamp;

impl Site {
    /// The stamp of the next operation; None where none is left.
    pub(crate) fn stamp(&self) -> Option<Stamp>
        ensures { MatchOption result (last_time < clock_of (state_in self.now) + 1) (λ stamp.
            (clock_of (state_in self.now) + 1 ≤ last_time) × (stamp ≡ next_stamp_of self.now)) }
    {
        Stamp::new(self.vector.greatest() + 1, self.number)
    }

    /// Issues a flush: what was written before it counts for nothing from now on, here and wherever its stamp comes.
    fn flush(&mut self, stamp: Stamp)
        requires next { stamp ≡ next_stamp_of self.old }
        ensures issued { HasIssued self.old self.new (Flush ∷ []) }
        ensures rests { Rests self.old self.new }
        ensures stays { Stays self.old self.new }
    {
        self.versions.raise_floor(stamp);
        self.vector.raise(self.number, stamp.time());
        keep_named(&mut self.values, &self.versions);
    }

    /// Whether the moment of a flush that waits has come.
    pub(crate) fn has_due_flush(&self, now: u64) -> bool
        ensures { result ≡ is_due (waiting_in self.now) now }
    {
        match self.waiting {
            None => false,
            Some(at) => at <= now,
        }
    }

    /// Carries out a flush that waits, where its moment, in seconds, has come and a stamp is left for it, and tells whether there
    /// was one. It takes no memory but what notes measures, the want of which fails nothing.
    pub fn tick(&mut self, now: u64) -> bool
        ensures does { TickDoes self.old self.new now result }
        ensures step { TickSteps self.old self.new now result }
    {
        self.flush_due(now)
    }

    /// The same, by what becomes of what is held, too.
    pub(crate) fn flush_due(&mut self, now: u64) -> bool
        ensures { TickDoes self.old self.new now result }
    {
        if !self.has_due_flush(now) {
            return false;
        }
        let Some(stamp) = self.stamp() else {
            return false;
        };
        self.flush(stamp);
        self.waiting = None;
        true
    }

    /// Flushes at once, or leaves a flush waiting for its moment (protocol.txt, "flush_all"). A flush that waited is given up in
    /// both cases. It takes no memory but what notes measures, the want of which fails nothing.
    pub(crate) fn flush_all(&mut self, now: u64, delay: i64) -> Reply
        requires moment { now ≤ 2 ^ 40 }
        ensures issued { IssuesAs [] self.old self.new (flush_acts delay now) Done result }
        ensures waiting { waiting_in self.new
            ≡ cond (is_done result) (cond (flushes_now delay now) None (Some (expiry_at delay now))) (waiting_in self.old) }
        ensures counts { counts_in self.new ≡ counts_in self.old }
        ensures stays { Stays self.old self.new }
    {
        let at = expiry_of(delay, now);
        if at > now {
            self.waiting = Some(at);
            return Reply::Done;
        }
        let Some(stamp) = self.stamp() else {
            return Reply::ClockEnded;
        };
        self.flush(stamp);
        self.waiting = None;
        Reply::Done
    }
}
