//! What is listed of records, and what is sought among them.
ghost use Rattle.std.specs.Prelude.{◌≡◌, ◌<◌, Bool, Some, true};
ghost use Rattle.geo_records.specs.Operations.{Register, version_in};
ghost use Rattle.geo_versions.specs.Records.{Rec, rec_means, rec_since, is_unknown, has_ended, mark_in, site_in};

use geo_lattice::{Exact, Glance, Lww, Measure, Pair, Show, Test};
use geo_records::{Rec, Version, shown_version};
use geo_stamp::{Stamp, Vector};

/// An equal record. It takes no memory.
pub(crate) fn copied(rec: &Rec) -> Rec
    ensures { result ≡ rec.now }
{
    Pair {
        left: rec.left.copied(),
        right: rec.right.copied(),
    }
}

/// The records of which a vector does not know some register.
#[derive(Drop)]
pub(crate) struct UnknownTo {
    pub base: Vector,
}

fn is_news<V: Exact + Drop>(base: &Vector, register: &Lww<Stamp, V>) -> bool
    ensures { result ≡ is_unknown base.now register.now.register }
{
    match register.get() {
        None => false,
        Some((stamp, _)) => !base.knows(stamp),
    }
}

impl Show<Rec> for UnknownTo {
    type Item = Rec;

    ghost shown = { λ u r. rec_since u.base r };

    fn show(&self, value: &Rec) -> Option<Rec> {
        if is_news(&self.base, &value.left) || is_news(&self.base, &value.right) {
            Some(copied(value))
        } else {
            None
        }
    }
}

/// All records.
#[derive(Clone, Copy)]
pub(crate) struct Whole;

impl Show<Rec> for Whole {
    type Item = Rec;

    ghost shown = { λ _ r. Some r };

    fn show(&self, value: &Rec) -> Option<Rec> {
        Some(copied(value))
    }
}

/// The versions that records show.
#[derive(Clone, Copy)]
pub(crate) struct Shown;

impl Show<Rec> for Shown {
    type Item = Version;

    ghost shown = { λ _ r. version_in (rec_means r) };

    fn show(&self, value: &Rec) -> Option<Version> {
        shown_version(value)
    }
}

/// The versions that are writes of a site and ended before a moment, in seconds.
#[derive(Clone, Copy)]
pub(crate) struct Ended {
    pub site: u8,
    pub before: u64,
}

impl Test<Rec> for Ended {
    ghost passing = { λ t r. has_ended t.site t.before (version_in (rec_means r)) };

    fn passes(&self, value: &Rec) -> bool {
        match shown_version(value) {
            None => false,
            Some(version) => {
                version.stamp.site() == self.site
                    && version.expiry != 0
                    && version.expiry < self.before
            }
        }
    }
}

impl Glance for Ended {
    fn remainders(&self) -> u16 {
        1 << (self.site % 16)
    }
}

impl Ended {
    /// What the marks of those that pass are below.
    pub(crate) fn bound(&self) -> u64
        ensures { (r : Rec) → has_ended self.now.site self.now.before (version_in (rec_means r)) ≡ true → mark_in r < result }
    {
        if self.before > LAST_END {
            return u64::MAX;
        }
        self.before * SITES
    }
}

/// How many sites there are at most.
const SITES: u64 = 16;

/// From this moment on ends are not told apart.
const LAST_END: u64 = 1 << 59;

/// The moment at which a record's value ends, if it has one, and behind it whose write it is: the greatest number where it has no end.
#[derive(Clone, Copy, Drop)]
pub(crate) struct EndOf;

/// Whose write or delete a record has, 0 where it has none.
fn site_of(value: &Rec) -> u64
    ensures { result ≡ site_in value.now.left.register }
{
    match value.left.get() {
        None => 0,
        Some((stamp, _)) => u64::from(stamp.site()),
    }
}

impl Measure<Rec> for EndOf {
    ghost measured = { λ _ r. mark_in r };

    fn measure(&self, value: &Rec) -> u64 {
        match value.right.get() {
            None | Some((_, 0) | (_, u64::MAX)) => u64::MAX,
            Some((_, expiry)) => (*expiry).min(LAST_END) * SITES + site_of(value) % SITES,
        }
    }
}
