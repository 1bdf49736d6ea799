//! Orders that tell all values apart.
ghost use Rattle.std.specs.Prelude.{◌≡◌, refl};
ghost use Rattle.std.specs.declared.cmp.Ordering.{Ordering};
ghost use Rattle.std.specs.declared.cmp.Ordering.TheVariants.{Equal};

use std::cmp::Ordering;

/// An order that tells all values apart.
pub trait Exact: Ord {
    /// How two values compare.
    ghost order: { Self → Self → Ordering };

    /// It is that of the type.
    ghost order_is: { (a b : Self) → Self.cmp a b ≡ order a b };

    /// Values that compare as equal are one value.
    ghost exact: { (a b : Self) → Self.cmp a b ≡ Equal → a ≡ b };
}

impl Exact for u64 {
    ghost use Rattle.std.specs.Ordering.{nat_cmp};
    ghost use Rattle.std.proofs.lemmas.Map.Lookups.{exact_unsigned};

    ghost order = { nat_cmp };

    ghost order_is = { λ _ _. refl };

    ghost exact = { exact_unsigned };
}
