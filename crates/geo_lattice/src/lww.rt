//! A register that the last write wins.
ghost use Rattle.std.specs.Prelude.{◌≡◌, Option, option_copied, None, Some, refl};
ghost use Rattle.geo_laws.specs.Registers.{newer, by_both};
ghost use Rattle.geo_laws.proofs.Registers.{newer_assoc, newer_comm, newer_same, total_by, exact_by};

use crate::exact::Exact;
use crate::lattice::{Bottom, Flat, Lattice};
use crate::twin::Twin;
use std::alloc::{AllocError, Global};

/// A register that the last write wins: empty, or a stamp with a content. Of two the greater stays, by stamp and then by content,
/// so that sites that join in any order end alike, also where two writes have one stamp.
#[derive(Drop)]
pub struct Lww<S, V> {
    register: Option<(S, V)>,
}

impl<S: Exact + Drop, V: Exact + Drop> Lww<S, V> {
    /// An empty register.
    pub fn none() -> Self
        ensures { result.register ≡ None }
    {
        Lww { register: None }
    }

    /// A register with this content.
    pub fn of(stamp: S, content: V) -> Self
        ensures { result.register ≡ Some (stamp, content) }
    {
        Lww {
            register: Some((stamp, content)),
        }
    }

    /// What is in it.
    pub fn get(&self) -> Option<&(S, V)>
        ensures { option_copied result ≡ self.now.register }
    {
        self.register.as_ref()
    }
}

impl<S: Exact + Drop, V: Exact + Drop> Lattice for Lww<S, V> {
    ghost Meaning = { Option (S × V) };

    ghost meaning = { λ l. l.register };

    ghost joined = { newer (by_both S.order V.order) };

    ghost least = { None };

    ghost HasRoom = { λ _ _. Unit {0} };

    ghost associative = { newer_assoc (by_both S.order V.order) (total_by S.order V.order S.order_is V.order_is S.total V.total)
        (exact_by S.order V.order S.order_is V.order_is S.exact V.exact) };

    ghost commutative = { newer_comm (by_both S.order V.order) (total_by S.order V.order S.order_is V.order_is S.total V.total)
        (exact_by S.order V.order S.order_is V.order_is S.exact V.exact) };

    ghost idempotent = { newer_same (by_both S.order V.order) (total_by S.order V.order S.order_is V.order_is S.total V.total)
        (exact_by S.order V.order S.order_is V.order_is S.exact V.exact) };

    ghost least_joined = { λ a. refl };

    fn ready(&mut self, _alloc: Global, _other: &Self) -> Result<(), AllocError> {
        Ok(())
    }

    fn has_room(&self, _other: &Self) -> bool {
        true
    }

    fn join(&mut self, other: Self) {
        let Lww { register } = other;
        if let Some((stamp, content)) = register {
            let newer = match &self.register {
                None => true,
                Some((mine, own)) => mine.cmp(&stamp).then(own.cmp(&content)).is_lt(),
            };
            if newer {
                self.register = Some((stamp, content));
            }
        }
    }

    fn covers(&self, other: &Self) -> bool {
        match (&self.register, &other.register) {
            (_, None) => true,
            (None, Some(_)) => false,
            (Some((mine, own)), Some((stamp, content))) => {
                !mine.cmp(stamp).then(own.cmp(content)).is_lt()
            }
        }
    }
}

impl<S: Exact + Drop, V: Exact + Drop> Bottom for Lww<S, V> {
    fn bottom() -> Self {
        Lww { register: None }
    }

    fn is_bottom(&self) -> bool {
        self.register.is_none()
    }
}

impl<S: Exact + Drop, V: Exact + Drop> Flat for Lww<S, V> {
    ghost always_room = { λ _ _. tt };
}

impl<S: Exact + Copy, V: Exact + Copy> Lww<S, V> {
    /// An equal register. It takes no memory.
    pub fn copied(&self) -> Self
        ensures { result ≡ self.now }
    {
        Lww {
            register: self.register,
        }
    }
}

impl<S: Exact + Copy, V: Exact + Copy> Twin for Lww<S, V> {
    fn twin(&self, _alloc: Global) -> Result<Self, AllocError> {
        Ok(self.copied())
    }
}
