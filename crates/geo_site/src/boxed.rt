//! Parcels in memory of their own.
ghost use Rattle.std.specs.Prelude.{◌≡◌, IfOk};

use geo_delta::Parcel;
use geo_lattice::Twin;
use std::alloc::{AllocError, Global};
use std::marker::Model;
use std::sync::Arc;

/// A parcel that stands in memory of its own, so that a step without one is small. A history and a seat own one together. Contracts
/// see the parcel.
#[derive(Drop)]
pub struct BoxedParcel {
    parcel: Arc<Parcel, Global>,
}

impl Model for BoxedParcel {
    ghost use Rattle.std.specs.Arc.{arc_value};
    ghost use Rattle.geo_delta.specs.declared.parcel.Parcel.{Parcel};

    ghost Value = { Parcel };

    ghost view = { λ b. arc_value b.parcel };
}

impl BoxedParcel {
    /// Where memory is refused the parcel is dropped.
    pub fn new(alloc: Global, parcel: Parcel) -> Result<BoxedParcel, AllocError>
        ensures { IfOk result (λ boxed. boxed ≡ parcel) }
    {
        Ok(BoxedParcel {
            parcel: Arc::new(alloc, parcel)?,
        })
    }

    /// A copy of a parcel.
    pub fn copy_of(alloc: Global, parcel: &Parcel) -> Result<BoxedParcel, AllocError>
        ensures { IfOk result (λ boxed. boxed ≡ parcel.now) }
    {
        BoxedParcel::new(alloc, parcel.twin(alloc)?)
    }

    /// The same parcel for one owner more, which copies nothing and asks for no memory. Err only where no further owner can be counted.
    pub fn shared(&self) -> Result<BoxedParcel, AllocError>
        ensures { IfOk result (λ boxed. boxed ≡ self.now) }
    {
        Ok(BoxedParcel {
            parcel: Arc::try_clone(&self.parcel)?,
        })
    }

    /// The parcel.
    pub fn parcel(&self) -> &Parcel
        ensures { result.now ≡ self.now }
    {
        &self.parcel
    }
}
