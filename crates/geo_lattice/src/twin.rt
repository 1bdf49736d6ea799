//! Values of which a second, equal one can be made.
ghost use Rattle.std.specs.Prelude.{◌≡◌, IfOk};

use std::alloc::{AllocError, Global};

/// A value of which a second, equal one can be made. Where a clone need only be alike, a twin is the same to every contract.
pub trait Twin: Drop {
    /// The second value; Err only where a growth was refused.
    fn twin(&self, alloc: Global) -> Result<Self, AllocError>
        ensures { IfOk result (λ other. other ≡ self.now) };
}

impl<A: Twin, B: Twin> Twin for (A, B) {
    fn twin(&self, alloc: Global) -> Result<Self, AllocError> {
        let first = self.0.twin(alloc)?;
        let second = self.1.twin(alloc)?;
        Ok((first, second))
    }
}

impl<T: Twin> Twin for Option<T> {
    fn twin(&self, alloc: Global) -> Result<Self, AllocError> {
        match self {
            None => Ok(None),
            Some(value) => Ok(Some(value.twin(alloc)?)),
        }
    }
}
