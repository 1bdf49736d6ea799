//! Parcels, and what they bring.
ghost use Rattle.std.specs.Prelude.{◌≡◌, ◌≢◌, MatchBool};

use crate::{Equal, is_same};
use geo_delta::Parcel;
use geo_lattice::{Exact, Lattice, Lww, Pair};
use geo_stamp::{Retired, Stamp, Vector};
use geo_versions::{Key, Rec};

impl Equal for Vector {
    fn equals(&self, other: &Self) -> bool {
        self.covers(other) && other.covers(self)
    }
}

impl Equal for Retired {
    fn equals(&self, other: &Self) -> bool {
        self.covers(other) && other.covers(self)
    }
}

/// Whether two registers are one.
fn is_register<V: Exact + Drop>(one: &Lww<Stamp, V>, two: &Lww<Stamp, V>) -> bool
    ensures { MatchBool result (one.now ≡ two.now) (one.now ≢ two.now) }
{
    match (one.get(), two.get()) {
        (None, None) => true,
        (Some(a), Some(b)) => is_same(&a.0, &b.0) && is_same(&a.1, &b.1),
        _ => false,
    }
}

impl Equal for (Key, Rec) {
    fn equals(&self, other: &Self) -> bool {
        self.0.equals(&other.0)
            && is_register(&self.1.left, &other.1.left)
            && is_register(&self.1.right, &other.1.right)
    }
}

/// Whether two stamps, or none, are one.
fn is_floor(one: Option<Stamp>, two: Option<Stamp>) -> bool
    ensures { MatchBool result (one ≡ two) (one ≢ two) }
{
    match (one, two) {
        (None, None) => true,
        (Some(a), Some(b)) => is_same(&a, &b),
        _ => false,
    }
}

impl Equal for Parcel {
    fn equals(&self, other: &Self) -> bool {
        self.from == other.from
            && self.to == other.to
            && self.base.equals(&other.base)
            && self.upto.equals(&other.upto)
            && self.retired.equals(&other.retired)
            && is_floor(self.floor, other.floor)
            && self.records.equals(&other.records)
    }
}
