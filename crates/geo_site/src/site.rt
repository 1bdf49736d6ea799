//! A site's state, and what can be asked of it.
ghost use Rattle.std.specs.Prelude.{◌≡◌, ◌≢◌, ℕ, ◌≤◌, ◌<◌, List, length, None, Some, IsTrue, IfOk, ◌↔◌, true};
ghost use Rattle.geo_slabs.specs.Storage.{class_count, most_pages};
ghost use Rattle.geo_values.specs.Stock.{Same, first_stock};
ghost use Rattle.geo_values.specs.Held.{stock_in};
ghost use Rattle.geo_records.specs.Keys.{same_key};
ghost use Rattle.geo_records.specs.Operations.{version_in};
ghost use Rattle.geo_versions.specs.Maps.{floor_in, record_in};
ghost use Rattle.geo_delta.specs.Changes.{nothing_pending};
ghost use Rattle.geo_delta.specs.Telling.{Tells};
ghost use Rattle.geo_delta.proofs.Told.{tells_prop};
ghost use Rattle.geo_site.specs.Machine.{Numbered, HasRows, Covers, Settled, EndsFrom, knows_floor};

use crate::notes::kept_behind;
use crate::refusal::SetupError;
use crate::setup::{Limits, MOST_RECORDS, Setup};
use geo_delta::Changes;
use geo_slabs::{CLASSES, MOST_PAGES, Slabs};
use geo_stamp::{Acks, MOST_SITES, Stamp, Vector};
use geo_values::Values;
use geo_versions::{Key, Version, Versions};
use std::alloc::{AllocError, Global};
use std::hash::RandomState;

/// One site: a vector of the clocks that it knows, the versions of all that was written, and the bytes of some of its own
/// writes.
#[derive(Drop)]
pub struct Site {
    pub(crate) number: u8,
    pub(crate) limits: Limits,
    /// How a set of keys hashes them, as the maps below do.
    pub(crate) hasher: RandomState,
    pub(crate) vector: Vector,
    /// What it last heard of each site, which sites it holds for gone for good, and the greatest horizon that it kept.
    pub(crate) heard: Acks,
    pub(crate) versions: Versions,
    /// The keys whose records changed last, with what it knew then, and those further back.
    pub(crate) changes: Changes,
    pub(crate) values: Values,
    pub(crate) hits: u64,
    pub(crate) misses: u64,
    pub(crate) evictions: u64,
    /// The moment of the flush that waits, in seconds.
    pub(crate) waiting: Option<u64>,
    /// No record has an expiry before this moment, but for 0.
    pub(crate) earliest: u64,
    ghost numbered: { Numbered number vector },
    ghost rows: { HasRows (length vector) heard },
    ghost floor_known: { knows_floor vector (floor_in versions) ≡ true },
    ghost covered: { Covers vector (record_in versions) },
    ghost traced: { Tells nothing_pending (record_in versions) changes } by { tells_prop nothing_pending (record_in versions) changes },
    ghost ends: { EndsFrom earliest (record_in versions) },
    ghost named: { Settled (record_in versions) (stock_in values).held },
}

/// Empty values with so many pages, which are in range. It takes the memory of all pages.
fn fresh_values(alloc: Global, hasher: RandomState, pages: usize) -> Result<Values, AllocError>
    requires { (class_count ≤ pages) × (pages ≤ most_pages) }
    ensures { IfOk result (λ values. Same (first_stock pages) (stock_in values)) }
{
    let Ok(slabs) = Slabs::new(alloc, pages) else {
        return Err(AllocError);
    };
    Values::new(alloc, hasher, slabs)
}

impl Site {
    ghost use Rattle.std.specs.Map.{lookup};
    ghost use Rattle.geo_versions.specs.Maps.{Rising};
    ghost use Rattle.geo_site.specs.Machine.{IsRecordCount, IsHeldCount};
    ghost use Rattle.geo_site.specs.Sites.{state_in, record_count, held_count, OpenDoes};

    /// A site that knows nothing. The number of sites is tested first, then the site's number, then the pages, then
    /// the most records. It takes the memory of all pages.
    pub fn new(alloc: Global, setup: Setup) -> Result<Site, SetupError>
        ensures { OpenDoes setup result }
    {
        if setup.sites == 0 || setup.sites > MOST_SITES {
            return Err(SetupError::Sites);
        }
        if setup.site == 0 || setup.site > setup.sites {
            return Err(SetupError::SiteNumber);
        }
        if (setup.pages as usize) < CLASSES {
            return Err(SetupError::TooFewPages);
        }
        if setup.pages as usize > MOST_PAGES {
            return Err(SetupError::TooManyPages);
        }
        if setup.max_records == 0 || setup.max_records > MOST_RECORDS {
            return Err(SetupError::Records);
        }
        let Ok(hasher) = setup.hasher.clone() else {
            return Err(SetupError::Memory);
        };
        let behind = kept_behind(setup.max_records);
        let Ok(changes) = Changes::new(alloc, setup.sites as usize, behind) else {
            return Err(SetupError::Memory);
        };
        let Ok(values) = fresh_values(alloc, hasher, setup.pages as usize) else {
            return Err(SetupError::Memory);
        };
        Ok(Site {
            number: setup.site,
            limits: Limits {
                max_records: setup.max_records,
                reap_after: setup.reap_after,
            },
            hasher: setup.hasher,
            vector: Vector::new(setup.sites as usize),
            heard: Acks::new(setup.sites as usize),
            versions: Versions::new(alloc, setup.hasher),
            changes,
            values,
            hits: 0,
            misses: 0,
            evictions: 0,
            waiting: None,
            earliest: u64::MAX,
        })
    }

    /// What it knows of each site's clock.
    pub fn known(&self) -> &Vector
        ensures { result.now ≡ (state_in self.now).vector }
    {
        &self.vector
    }

    /// The greatest stamp of a flush that it knows.
    pub fn floor(&self) -> Option<Stamp>
        ensures { result ≡ (state_in self.now).floor }
    {
        self.versions.floor()
    }

    /// The version of a key.
    pub fn version_of(&self, key: &Key) -> Option<Version>
        ensures { result ≡ version_in ((state_in self.now).map key.now) }
    {
        self.versions.version_of(key)
    }

    /// The versions of all keys, by rising key.
    pub fn versions(&self, alloc: Global) -> Result<Vec<(Key, Version)>, AllocError>
        ensures rising { IfOk result (λ all. Rising all.items) }
        ensures versions { IfOk result (λ all. (q : List ℕ) → lookup (same_key q) all.items ≡ version_in ((state_in self.now).map q)) }
    {
        self.versions.all(alloc)
    }

    /// Whether it holds the bytes of a key.
    pub fn holds(&self, key: &Key) -> bool
        ensures { IsTrue result ↔ ((state_in self.now).stock.held key.now ≢ None) }
    {
        self.values.holds(key)
    }

    /// How many keys have a record: a version, or what is left of one that is gone.
    pub fn records(&self) -> usize
        ensures count { result ≡ record_count self.now }
        ensures records { IsRecordCount (state_in self.now).map result }
    {
        self.versions.len()
    }

    /// How many values it holds, expired ones too.
    pub fn items(&self) -> usize
        ensures count { result ≡ held_count self.now }
        ensures held { IsHeldCount (state_in self.now).stock.held result }
    {
        self.values.len()
    }
}
