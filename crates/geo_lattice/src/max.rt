//! The greatest number so far.
ghost use Rattle.std.specs.Prelude.{◌≡◌, ℕ, max};
ghost use Rattle.geo_laws.proofs.Registers.{max_assoc, max_comm, max_same};
ghost use Rattle.std.proofs.Common.{arith};

use crate::lattice::{Bottom, Flat, Lattice};
use std::alloc::{AllocError, Global};

/// The greatest number so far.
#[derive(Clone, Copy, Debug, PartialEq, Eq)]
pub struct Max(pub u64);

impl Lattice for Max {
    ghost Meaning = { ℕ };

    ghost meaning = { λ m. m.0 };

    ghost joined = { max };

    ghost HasRoom = { λ _ _. Unit {0} };

    ghost associative = { max_assoc };

    ghost commutative = { max_comm };

    ghost idempotent = { max_same };

    ghost least = { 0 };

    ghost least_joined = { λ a. Prim.omega arith };

    fn ready(&mut self, _alloc: Global, _other: &Self) -> Result<(), AllocError> {
        Ok(())
    }

    fn has_room(&self, _other: &Self) -> bool {
        true
    }

    fn join(&mut self, other: Self) {
        if self.0 < other.0 {
            self.0 = other.0;
        }
    }

    fn covers(&self, other: &Self) -> bool {
        other.0 <= self.0
    }
}

impl Bottom for Max {
    fn bottom() -> Self {
        Max(0)
    }

    fn is_bottom(&self) -> bool {
        self.0 == 0
    }
}

impl Flat for Max {
    ghost always_room = { λ _ _. tt };
}
