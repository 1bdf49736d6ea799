//! The bytes of a value that a reply shows.
ghost use Rattle.std.specs.Prelude.{◌≡◌, length, IfOk, OnOk};

use crate::holding::Holding;
use crate::shared::Shared;
use geo_lattice::Twin;
use std::alloc::{AllocError, Global};
use std::marker::Model;
use std::mem;

/// The bytes of a value that a reply shows, which contracts see as a list of bytes and nothing more. Those that it shows more than
/// once can stand in memory once.
#[derive(Drop)]
pub struct Shown {
    holding: Holding,
}

impl Model for Shown {
    ghost use Rattle.std.specs.Prelude.{List, ℕ};
    ghost use Rattle.geo_requests.specs.Holdings.{held};

    ghost Value = { List ℕ };

    ghost view = { λ s. held s.holding };
}

impl Shown {
    /// These bytes, shown once. It takes no memory.
    pub fn of(bytes: Vec<u8>) -> Shown
        ensures { result ≡ bytes.items }
    {
        Shown {
            holding: Holding::Lone(bytes),
        }
    }

    /// Its bytes.
    pub fn as_slice(&self) -> &[u8]
        ensures { result.now ≡ self.now }
    {
        self.holding.as_slice()
    }

    /// How many bytes it has.
    pub fn len(&self) -> usize
        ensures { result ≡ length self.now }
    {
        self.as_slice().len()
    }

    /// The same bytes, shown once more: they stand in memory once from now on, however large they are.
    pub fn again(&mut self, alloc: Global) -> Result<Shown, AllocError>
        ensures again { IfOk result (λ shown. shown ≡ self.old) }
        ensures stays { OnOk result (self.new ≡ self.old) }
    {
        let joint = match mem::replace(&mut self.holding, Holding::Lone(Vec::new(alloc))) {
            Holding::Lone(bytes) => Shared::of(alloc, bytes)?,
            Holding::Joint(bytes) => bytes,
        };
        let other = joint.twin(alloc)?;
        self.holding = Holding::Joint(joint);
        Ok(Shown {
            holding: Holding::Joint(other),
        })
    }
}

impl Twin for Shown {
    fn twin(&self, alloc: Global) -> Result<Self, AllocError> {
        let holding = self.holding.again(alloc)?;
        Ok(Shown { holding })
    }
}
