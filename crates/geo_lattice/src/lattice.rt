//! Values that join, and the laws that joining keeps (states that join: Almeida, Shoker and Baquero 2018).
ghost use Rattle.std.specs.Prelude.{◌≡◌, ◌↔◌, IsTrue, IsOk, OnOk};

use std::alloc::{AllocError, Global};

/// Values that join: what two of them know, put together. Growth comes first, so that a join cannot fail.
pub trait Lattice: Drop {
    /// What values mean.
    ghost Meaning: { Type 0 };

    /// What a value means.
    ghost meaning: { Self → Meaning };

    /// The join of two meanings.
    ghost joined: { Meaning → Meaning → Meaning };

    /// What the empty value means.
    ghost least: { Meaning };

    /// There is room in the first to join the second.
    ghost HasRoom: { Self → Self → Type 0 };

    /// Makes room to join the other value. It changes what is meant in no case; Err only where a growth was refused, and so never
    /// where there was room.
    fn ready(&mut self, alloc: Global, other: &Self) -> Result<(), AllocError>
        ensures kept { meaning self.new ≡ meaning self.old }
        ensures room { OnOk result (HasRoom self.new other.now) }
        ensures succeeds { HasRoom self.old other.now → IsOk result };

    /// Whether there is room to join the other value.
    fn has_room(&self, other: &Self) -> bool
        ensures { IsTrue result ↔ HasRoom self.now other.now };

    /// Joins the other value, for which there is room. It takes no memory.
    fn join(&mut self, other: Self)
        requires { HasRoom self.old other }
        ensures { meaning self.new ≡ joined (meaning self.old) (meaning other) };

    /// Whether joining the other value would change nothing.
    fn covers(&self, other: &Self) -> bool
        ensures { IsTrue result ↔ (joined (meaning self.now) (meaning other.now) ≡ meaning self.now) };

    ghost associative: { (a b c : Meaning) → joined a (joined b c) ≡ joined (joined a b) c };

    ghost commutative: { (a b : Meaning) → joined a b ≡ joined b a };

    ghost idempotent: { (a : Meaning) → joined a a ≡ a };

    ghost least_joined: { (a : Meaning) → joined least a ≡ a };
}

/// A lattice with an empty value, which takes no memory.
pub trait Bottom: Lattice {
    /// The empty value.
    fn bottom() -> Self
        ensures { Self.meaning result ≡ Self.least };

    /// Whether it is empty.
    fn is_bottom(&self) -> bool
        ensures { IsTrue result ↔ (Self.meaning self.now ≡ Self.least) };
}

/// A lattice whose values join in place: there is always room.
pub trait Flat: Lattice {
    ghost always_room: { (a b : Self) → Self.HasRoom a b };
}
