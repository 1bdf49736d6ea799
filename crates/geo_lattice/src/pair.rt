//! Two values, joined part by part.
ghost use Rattle.std.specs.Prelude.{◌≡◌};

use crate::lattice::{Bottom, Flat, Lattice};
use crate::twin::Twin;
use std::alloc::{AllocError, Global};

/// Two values, joined part by part.
#[derive(Drop)]
pub struct Pair<A, B> {
    pub left: A,
    pub right: B,
}

impl<A: Lattice, B: Lattice> Lattice for Pair<A, B> {
    ghost Meaning = { A.Meaning × B.Meaning };

    ghost meaning = { λ p. (A.meaning p.left, B.meaning p.right) };

    ghost joined = { λ p q. (A.joined p.0 q.0, B.joined p.1 q.1) };

    ghost HasRoom = { λ p q. A.HasRoom p.left q.left × B.HasRoom p.right q.right };

    ghost associative = { λ a b c. λ i. (A.associative a.0 b.0 c.0 i, B.associative a.1 b.1 c.1 i) };

    ghost commutative = { λ a b. λ i. (A.commutative a.0 b.0 i, B.commutative a.1 b.1 i) };

    ghost idempotent = { λ a. λ i. (A.idempotent a.0 i, B.idempotent a.1 i) };

    ghost least = { (A.least, B.least) };

    ghost least_joined = { λ a. λ i. (A.least_joined a.0 i, B.least_joined a.1 i) };

    fn ready(&mut self, alloc: Global, other: &Self) -> Result<(), AllocError> {
        self.left.ready(alloc, &other.left)?;
        self.right.ready(alloc, &other.right)
    }

    fn has_room(&self, other: &Self) -> bool {
        self.left.has_room(&other.left) && self.right.has_room(&other.right)
    }

    fn join(&mut self, other: Self) {
        let Pair { left, right } = other;
        self.left.join(left);
        self.right.join(right);
    }

    fn covers(&self, other: &Self) -> bool {
        self.left.covers(&other.left) && self.right.covers(&other.right)
    }
}

impl<A: Bottom, B: Bottom> Bottom for Pair<A, B> {
    fn bottom() -> Self {
        Pair {
            left: A::bottom(),
            right: B::bottom(),
        }
    }

    fn is_bottom(&self) -> bool {
        self.left.is_bottom() && self.right.is_bottom()
    }
}

impl<A: Flat, B: Flat> Flat for Pair<A, B> {
    ghost always_room = { λ p q. (A.always_room p.left q.left, B.always_room p.right q.right) };
}

impl<A: Twin, B: Twin> Twin for Pair<A, B> {
    fn twin(&self, alloc: Global) -> Result<Self, AllocError> {
        let left = self.left.twin(alloc)?;
        let right = self.right.twin(alloc)?;
        Ok(Pair { left, right })
    }
}
