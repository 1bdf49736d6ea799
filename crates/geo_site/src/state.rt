//! What a site is at a moment, as plain data.
ghost use Rattle.std.specs.Prelude.{◌≡◌, ◌≤◌, [], None};
ghost use Rattle.geo_stamp.specs.Acks.{none_heard};
ghost use Rattle.geo_stamp.specs.Vectors.{zeros};

use crate::site::Site;
use geo_lattice::Items;
use geo_stamp::{Acks, Stamp, Vector};
use geo_versions::{Digest, Key, Rec};
use std::alloc::{AllocError, Global};

/// All that a site knows and counts, and of the bytes that it holds their SHA-256 and length. In which order the bytes go, where
/// there are too many, it does not say.
#[derive(Drop)]
pub struct SiteState {
    pub floor: Option<Stamp>,
    /// What it keeps of each key, by rising key.
    pub records: Items<(Key, Rec)>,
    pub vector: Vector,
    /// What it last heard of each site, which sites it holds for gone for good, and the greatest horizon that it kept.
    pub rows: Acks,
    /// SHA-256 and length of what it holds of each key, by rising key.
    pub held: Items<(Key, Digest, u32)>,
    /// The moment of the flush that waits, in seconds.
    pub waiting: Option<u64>,
    pub hits: u64,
    pub misses: u64,
    pub evictions: u64,
}

impl SiteState {
    /// The state of a site that knows nothing, where there are so many sites, 0 to 16. It takes no memory.
    pub fn empty(alloc: Global, sites: u8) -> SiteState
        requires { sites ≤ 16 }
        ensures { result ≡ record {
          floor = None;
          records = [];
          vector = zeros sites;
          rows = none_heard sites;
          held = [];
          waiting =
              None;
          hits = 0;
          misses = 0;
          evictions = 0;
        } }
    {
        SiteState {
            floor: None,
            records: Items::of(Vec::new(alloc)),
            vector: Vector::new(sites as usize),
            rows: Acks::new(sites as usize),
            held: Items::of(Vec::new(alloc)),
            waiting: None,
            hits: 0,
            misses: 0,
            evictions: 0,
        }
    }
}

impl Site {
    ghost use Rattle.std.specs.Prelude.{IfOk};
    ghost use Rattle.geo_site.specs.States.{IsStateOf};

    /// What it is at this moment. Keys and records are copied once; no value is, and nothing is hashed.
    pub fn state(&self, alloc: Global) -> Result<SiteState, AllocError>
        ensures { IfOk result (IsStateOf self.now) }
    {
        let records = self.versions.copies(alloc)?;
        let held = self.values.held(alloc)?;
        Ok(SiteState {
            floor: self.versions.floor(),
            records: Items::of(records),
            vector: self.vector.copied(),
            rows: self.heard.copied(),
            held: Items::of(held),
            waiting: self.waiting,
            hits: self.hits,
            misses: self.misses,
            evictions: self.evictions,
        })
    }
}
