//! Deletes of what ended long ago.
ghost use Rattle.std.specs.Prelude.{◌≡◌, ◌≤◌, ℕ, List, true, false, MatchOption};
ghost use Rattle.std.specs.List.{All};
ghost use Rattle.geo_site.specs.Machine.{earlier_of};
ghost use Rattle.geo_site.specs.Sites.{EndFrom, to_reap, ReapDoes};
ghost use Rattle.geo_site.specs.Steps.{ReapSteps};

use crate::refusal::ReapError;
use crate::site::Site;
use geo_versions::{Key, Rec};
use std::alloc::Global;

/// The earlier of a moment and an expiry, where 0 is no end.
pub(crate) fn earlier(least: u64, expiry: u64) -> u64
    ensures { result ≡ earlier_of least expiry }
{
    if expiry == 0 {
        least
    } else {
        least.min(expiry)
    }
}

/// The earliest of a moment and the expiries in records.
pub(crate) fn earliest_in(least: u64, records: &[(Key, Rec)]) -> u64
    ensures least { result ≤ least }
    ensures ends { All (EndFrom result) records.now }
{
    let mut earliest = least;
    for (_, rec) in records {
        if let Some(kept) = rec.right.get() {
            earliest = earlier(earliest, kept.1);
        }
    }
    earliest
}

impl Site {
    /// Whether the version of a key is a write of this site that ended longer ago than it is kept for.
    fn is_to_reap(&self, now: u64, key: &Key) -> bool
        ensures { result ≡ to_reap self.now now key.now }
    {
        let kept = self.limits.reap_after as u64;
        match self.versions.version_of(key) {
            None => false,
            Some(version) => {
                version.stamp.site() == self.number
                    && version.expiry != 0
                    && version.expiry < now
                    && now - version.expiry > kept
            }
        }
    }

    /// A key that a reap deletes at a moment in seconds where no flush is due; None exactly where there is none. Where nothing that
    /// the site ever knew can have ended, it tells so at once; else it passes over the ends of all records, eight bytes each, and looks at
    /// the records that have ended. It takes no memory.
    pub fn due(&self, now: u64) -> Option<&Key>
        ensures { MatchOption result ((q : List ℕ) → to_reap self.now now q ≡ false) (λ key. to_reap self.now now key.now ≡ true) }
    {
        let before = now.checked_sub(self.limits.reap_after as u64)?;
        if before <= self.earliest {
            return None;
        }
        self.versions.ended(self.number, before)
    }

    /// Deletes a key for all sites, where a write of this site ended more than `reap_after` seconds before a moment in seconds,
    /// and tells whether it did. A flush that is due is carried out first. ClockEnded exactly where the delete has no stamp; that
    /// changes nothing. Memory never comes, since the key has a record.
    pub fn reap(&mut self, alloc: Global, now: u64, key: &Key) -> Result<bool, ReapError>
        ensures does { ReapDoes self.old self.new now key.now result }
        ensures step { ReapSteps self.old self.new now key.now result }
    {
        self.delete_ended(alloc, now, key)
    }

    /// The same, by what becomes of what is held, too.
    fn delete_ended(&mut self, alloc: Global, now: u64, key: &Key) -> Result<bool, ReapError>
        ensures { ReapDoes self.old self.new now key.now result }
    {
        self.flush_due(now);
        if !self.is_to_reap(now, key) {
            return Ok(false);
        }
        let Some(stamp) = self.stamp() else {
            return Err(ReapError::ClockEnded);
        };
        match self.delete(alloc, stamp, key) {
            Ok(()) => Ok(true),
            Err(_) => Err(ReapError::Memory),
        }
    }
}
