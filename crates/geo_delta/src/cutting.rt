//! Making a parcel.
ghost use Rattle.std.specs.Prelude.{◌≡◌, ℕ, List, IfOk, None};
ghost use Rattle.std.specs.List.{All};
ghost use Rattle.geo_versions.specs.Maps.{Rising, floor_in, listed_at, rec_means, record_in, since};
ghost use Rattle.geo_delta.specs.Changes.{nothing_pending};
ghost use Rattle.geo_delta.specs.Telling.{Tells};

use crate::changes::Changes;
use crate::parcel::Parcel;
use geo_lattice::Items;
use geo_stamp::{Retired, Vector};
use geo_versions::{Key, Rec, Versions};
use std::alloc::{AllocError, Global};

/// The records of which a vector does not know some register, by rising key. All records are passed over only where the changes
/// do not reach back to what it knows.
fn lacking(
    alloc: Global,
    versions: &Versions,
    changes: &Changes,
    base: &Vector,
) -> Result<Vec<(Key, Rec)>, AllocError>
    requires told { Tells nothing_pending (record_in versions.now) changes.now }
    ensures rising { IfOk result (λ all. Rising all.items) }
    ensures records { IfOk result (λ all. (q : List ℕ) → listed_at all.items q ≡ since base.now (record_in versions.now q)) }
    ensures filled { IfOk result (λ all. All (λ e. rec_means e.1 ≡ (None, None) → ⊥) all.items) }
{
    match changes.recent(alloc, versions, base)? {
        Some(records) => Ok(records),
        None => versions.since(alloc, base),
    }
}

/// The parcel from one site to another of what a version map has and `base` does not know (a delta: Almeida et al. 2018), by
/// rising key. The changes are those of the map.
pub fn cut(
    alloc: Global,
    versions: &Versions,
    changes: &Changes,
    from: u8,
    to: u8,
    base: &Vector,
    upto: &Vector,
    retired: &Retired,
) -> Result<Parcel, AllocError>
    requires told { Tells nothing_pending (record_in versions.now) changes.now }
    ensures sites { IfOk result (λ p. (p.from ≡ from) × (p.to ≡ to)) }
    ensures vectors { IfOk result (λ p. (p.base ≡ base.now) × (p.upto ≡ upto.now)) }
    ensures retired { IfOk result (λ p. p.retired ≡ retired.now) }
    ensures floor { IfOk result (λ p. p.floor ≡ floor_in versions.now) }
    ensures rising { IfOk result (λ p. Rising p.records) }
    ensures delta { IfOk result (λ p. (q : List ℕ) → listed_at p.records q ≡ since base.now (record_in versions.now q)) }
    ensures filled { IfOk result (λ p. All (λ e. rec_means e.1 ≡ (None, None) → ⊥) p.records) }
{
    Ok(Parcel {
        from,
        to,
        base: base.copied(),
        upto: upto.copied(),
        retired: *retired,
        floor: versions.floor(),
        records: Items::of(lacking(alloc, versions, changes, base)?),
    })
}
