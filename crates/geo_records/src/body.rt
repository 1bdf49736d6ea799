//! What stands at a key.
ghost use Rattle.std.specs.Prelude.{◌≡◌, refl};
ghost use Rattle.geo_records.specs.Bodies.{body_cmp, body_parts, body_from};

use crate::digest::Digest;
use crate::length::Length;
use geo_lattice::{Exact, Lww, Pair};
use geo_stamp::Stamp;

/// What the greatest write or delete of a key left. Gone comes before each Value, and Values are ordered by their digest, then
/// their flags, then their length.
#[derive(Clone, Copy, Debug, PartialEq, Eq, PartialOrd, Ord)]
pub enum Body {
    /// The key was deleted: a tombstone.
    Gone,
    /// A value, by its SHA-256, its flags and its length in bytes.
    Value {
        digest: Digest,
        flags: u32,
        length: Length,
    },
}

impl Exact for Body {
    ghost use Rattle.std.specs.Ordering.{nat_cmp, ordering_then};
    ghost use Rattle.std.specs.Cmp.Lexicographic.{slice_cmp};
    ghost use Rattle.std.proofs.lemmas.Map.Lookups.{exact_pairs, exact_unsigned, exact_bytes};
    ghost use Rattle.geo_laws.proofs.Orders.{exact_on};
    ghost use Rattle.geo_records.specs.declared.body.Body.TheVariants.{Gone, Value};

    ghost order = { body_cmp };

    ghost order_is = { elim [
      | Gone ↦ elim [ Gone ↦ refl | Value d f l ↦ refl ]
      | Value e g m ↦ elim [ Gone ↦ refl | Value d f l ↦ refl ]
    ] };

    ghost exact = { let numbers = exact_pairs nat_cmp nat_cmp exact_unsigned exact_unsigned in
        let named = exact_pairs (slice_cmp nat_cmp) (λ x y. ordering_then (nat_cmp x.0 y.0) (nat_cmp x.1 y.1)) exact_bytes numbers in
        let parts = exact_pairs nat_cmp
        (λ x y. ordering_then (slice_cmp nat_cmp x.0 y.0) (ordering_then (nat_cmp x.1.0 y.1.0) (nat_cmp x.1.1 y.1.1))) exact_unsigned named in
        let apart = exact_on body_parts body_from
        (λ x y. ordering_then (nat_cmp x.0 y.0) (ordering_then (slice_cmp nat_cmp x.1.0 y.1.0)
        (ordering_then (nat_cmp x.1.1.0 y.1.1.0) (nat_cmp x.1.1.1 y.1.1.1)))) (elim [ Gone ↦ refl | Value d f l ↦ refl ]) parts in
        elim [
          | Gone ↦ elim [ Gone ↦ apart Gone Gone | Value d f l ↦ apart Gone (Value d f l) ]
          | Value e g m ↦ elim [ Gone ↦ apart (Value e g m) Gone | Value d f l ↦ apart (Value e g m) (Value d f l) ]
        ] };
}

/// What is kept of a key: the greatest write or delete, and the latest expiry with the stamp of the operation that set it, in
/// seconds, 0 for never.
pub type Rec = Pair<Lww<Stamp, Body>, Lww<Stamp, u64>>;
