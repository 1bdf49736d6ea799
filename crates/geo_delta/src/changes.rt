//! What changed at a site, by its newest changes and by those further back.
ghost use Rattle.std.specs.Prelude.{◌≡◌, ◌≤◌, ℕ, List, [], None, IfSome, IfOk};
ghost use Rattle.std.specs.List.{All};
ghost use Rattle.geo_versions.specs.Maps.{Rising, listed_at, rec_means, since};
ghost use Rattle.geo_delta.specs.Changes.{first_ring, nothing_pending};
ghost use Rattle.geo_delta.specs.Telling.{Tells};

use crate::buffer::Buffer;
use crate::lookup::Lookup;
use crate::trail::Trail;
use geo_stamp::Vector;
use geo_versions::{Key, Rec};
use std::alloc::{AllocError, Global};

/// What changed at a site, so that a parcel finds it without a look at all records: its newest changes, each with what was known after it,
/// and beside these the keys that changed further back.
#[derive(Drop)]
pub struct Changes {
    pub newest: Buffer,
    pub trail: Trail,
}

impl Changes {
    /// No changes, of this many sites, 0 to 16, with room for so many that are further back. All memory that they want is taken here, but
    /// for what long keys and notes of what was known take.
    pub fn new(alloc: Global, sites: usize, most: usize) -> Result<Changes, AllocError>
        requires { sites ≤ 16 }
        ensures newest { IfOk result (λ changes. changes.newest ≡ first_ring sites) }
        ensures trail { IfOk result (λ changes. changes.trail.changes ≡ []) }
        ensures most { IfOk result (λ changes. changes.trail.most ≡ most) }
    {
        Ok(Changes {
            newest: Buffer::new(alloc, sites)?,
            trail: Trail::new(alloc, most)?,
        })
    }

    /// Copies of the records of which the vector does not know some register, by rising key, where the changes tell them.
    pub fn recent<T: Lookup>(
        &self,
        alloc: Global,
        versions: &T,
        base: &Vector,
    ) -> Result<Option<Vec<(Key, Rec)>>, AllocError>
        requires told { Tells nothing_pending (T.record_of versions.now) self.now }
        ensures rising { IfOk result (λ found. IfSome found (λ all. Rising all.items)) }
        ensures records { IfOk result (λ found. IfSome found (λ all. (q : List ℕ)
            → listed_at all.items q ≡ since base.now (T.record_of versions.now q))) }
        ensures filled { IfOk result (λ found. IfSome found (λ all. All (λ e. rec_means e.1 ≡ (None, None) → ⊥) all.items)) }
    {
        match self.newest.recent(alloc, versions, base)? {
            Some(records) => Ok(Some(records)),
            None => self.trail.recent(alloc, versions, base),
        }
    }
}
