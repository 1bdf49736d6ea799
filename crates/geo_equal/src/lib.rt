//! Whether two values are one: requests, replies, parcels, and what was asked of a site and answered.
//!
//! [`Equal`] tells of two values whether they are the same to every contract, and not only alike to `==`. The crate stands on what
//! it compares, and knows nothing of who asks.
#![tactic(auto)]

ghost use Rattle.std.specs.Prelude.{◌≡◌, ◌≢◌, MatchBool};

mod calls;
mod parcels;
mod replies;
mod requests;

use geo_lattice::{Exact, Items};
use geo_requests::{Shared, Shown, ValueBytes};
use geo_versions::Key;
use std::cmp::Ordering;

/// A value of which it can be told whether another is the same to every contract. Where `==` need only be alike, this is one.
pub trait Equal {
    /// Whether the other is the same.
    fn equals(&self, other: &Self) -> bool
        ensures { MatchBool result (self.now ≡ other.now) (self.now ≢ other.now) };
}

/// Whether two lists have equal elements, one by one.
fn are_equal<T: Equal>(one: &[T], two: &[T]) -> bool
    ensures { MatchBool result (one.now ≡ two.now) (one.now ≢ two.now) }
{
    if one.len() != two.len() {
        return false;
    }
    for at in 0..one.len() {
        if !one[at].equals(&two[at]) {
            return false;
        }
    }
    true
}

impl<T: Equal> Equal for Items<T> {
    fn equals(&self, other: &Self) -> bool {
        are_equal(self.as_slice(), other.as_slice())
    }
}

impl<T: Equal> Equal for Shared<T> {
    fn equals(&self, other: &Self) -> bool {
        are_equal(self.as_slice(), other.as_slice())
    }
}

impl Equal for Key {
    fn equals(&self, other: &Self) -> bool {
        self == other
    }
}

impl Equal for ValueBytes {
    fn equals(&self, other: &Self) -> bool {
        self.as_slice() == other.as_slice()
    }
}

impl Equal for Shown {
    fn equals(&self, other: &Self) -> bool {
        self.as_slice() == other.as_slice()
    }
}

/// Whether two values of an order that tells all values apart are one.
pub fn is_same<T: Exact>(one: &T, two: &T) -> bool
    ensures { MatchBool result (one.now ≡ two.now) (one.now ≢ two.now) }
{
    one.cmp(two) == Ordering::Equal
}
