//! Who has the bytes of a value.
ghost use Rattle.std.specs.Prelude.{◌≡◌};
ghost use Rattle.geo_requests.specs.Holdings.{held};

use crate::shared::Shared;
use geo_lattice::Twin;
use std::alloc::{AllocError, Global};

/// Who has the bytes of a value.
#[derive(Drop)]
pub enum Holding {
    /// One owner.
    Lone(Vec<u8>),
    /// Several, or one that more can join.
    Joint(Shared<u8>),
}

impl Holding {
    /// These bytes, of which a twin copies nothing, unless there is no memory for that.
    pub fn joint(alloc: Global, bytes: Vec<u8>) -> Holding
        ensures { held result ≡ bytes.items }
    {
        match Shared::keep(alloc, bytes) {
            Ok(bytes) => Holding::Joint(bytes),
            Err(bytes) => Holding::Lone(bytes),
        }
    }

    /// The bytes.
    pub fn as_slice(&self) -> &[u8]
        ensures { result.now ≡ held self.now }
    {
        match self {
            Holding::Lone(bytes) => bytes.as_slice(),
            Holding::Joint(bytes) => bytes.as_slice(),
        }
    }
}

impl Holding {
    ghost use Rattle.std.specs.Prelude.{◌≡◌, IfOk};

    /// The same bytes once more: a copy of those with one owner.
    pub fn again(&self, alloc: Global) -> Result<Holding, AllocError>
        ensures { IfOk result (λ other. held other ≡ held self.now) }
    {
        match self {
            Holding::Lone(bytes) => Ok(Holding::Lone(Vec::from_slice(alloc, bytes.as_slice())?)),
            Holding::Joint(bytes) => Ok(Holding::Joint(bytes.twin(alloc)?)),
        }
    }
}
