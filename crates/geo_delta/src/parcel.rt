//! One parcel.
ghost use Rattle.std.specs.Prelude.{◌≡◌, IfOk};

use geo_lattice::{Items, Twin};
use geo_stamp::{Retired, Stamp, Vector};
use geo_versions::{Key, Rec};
use std::alloc::{AllocError, Global};

/// What one site tells another: its floor, and those of its records that `base` does not know all of. A receiver that knows
/// `base` knows, once it has joined them, all that `upto` knows.
#[derive(Drop)]
pub struct Parcel {
    /// The sender's number, from 1.
    pub from: u8,
    /// The receiver's number, from 1.
    pub to: u8,
    /// What the receiver is taken to know already.
    pub base: Vector,
    /// What the sender knows.
    pub upto: Vector,
    /// The sites that the sender holds for gone for good.
    pub retired: Retired,
    /// The stamp up to which everything was flushed, if anything was.
    pub floor: Option<Stamp>,
    /// The records, by rising key.
    pub records: Items<(Key, Rec)>,
}

/// An equal list of records.
fn copied(alloc: Global, records: &[(Key, Rec)]) -> Result<Vec<(Key, Rec)>, AllocError>
    ensures { IfOk result (λ all. all.items ≡ records.now) }
{
    let mut all = Vec::with_capacity(alloc, records.len())?;
    for (key, rec) in records {
        let key = key.twin(alloc)?;
        let rec = rec.twin(alloc)?;
        all.push((key, rec))?;
    }
    Ok(all)
}

impl Twin for Parcel {
    fn twin(&self, alloc: Global) -> Result<Self, AllocError> {
        Ok(Parcel {
            from: self.from,
            to: self.to,
            base: self.base.copied(),
            upto: self.upto.copied(),
            retired: self.retired,
            floor: self.floor,
            records: Items::of(copied(alloc, self.records.as_slice())?),
        })
    }
}
