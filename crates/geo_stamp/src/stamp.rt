//! When and where an operation was issued.
ghost use Rattle.std.specs.Prelude.{◌≡◌, ℕ, ◌≤◌, ◌+◌, ◌*◌, MatchOption, refl};
ghost use Rattle.geo_stamp.specs.Stamps.{Moment, InRange, stamp_cmp};

use geo_lattice::Exact;
use std::marker::Model;

/// The greatest time of a stamp: 2^56 - 1.
pub const LAST_TIME: u64 = 0xff_ffff_ffff_ffff;

/// The greatest number of a site.
pub const MOST_SITES: u8 = 16;

/// When and where an operation was issued (Lamport 1978): ordered by time, and then by site. A time is 1 to 2^56 - 1 and a
/// site 1 to 16.
#[derive(Clone, Copy, Debug, PartialEq, Eq, PartialOrd, Ord)]
pub struct Stamp {
    time: u64,
    site: u8,
}

impl Model for Stamp {
    ghost use Rattle.geo_stamp.specs.Stamps.{Moment, InRange};

    ghost Value = { Moment };

    ghost view = { λ s. record { time = s.time; site = s.site } };

    ghost invariant = { λ s. InRange s.time s.site };

    ghost inverse = { λ m. record { time = m.time; site = m.site } };
}

impl Stamp {
    /// The stamp of this time and site, None exactly where one of them is out of range.
    pub fn new(time: u64, site: u8) -> Option<Stamp>
        ensures { MatchOption result (InRange time site → ⊥) (λ s. InRange time site × (s ≡ record { time = time; site = site })) }
    {
        if time == 0 || time > LAST_TIME || site == 0 || site > MOST_SITES {
            return None;
        }
        Some(Stamp { time, site })
    }

    /// The time by its site's clock, 1 to 2^56 - 1.
    pub fn time(&self) -> u64
        ensures time { result ≡ self.now.time }
        ensures range { (1 ≤ result) × (result ≤ LAST_TIME) }
    {
        self.time
    }

    /// The site's number, 1 to 16.
    pub fn site(&self) -> u8
        ensures site { result ≡ self.now.site }
        ensures range { (1 ≤ result) × (result ≤ MOST_SITES) }
    {
        self.site
    }

    /// The number that memcached's `gets` shows and `cas` compares: time * 256 + site.
    pub fn cas(&self) -> u64
        ensures { result ≡ self.now.time * 256 + self.now.site }
    {
        self.time * 256 + self.site as u64
    }
}

impl Exact for Stamp {
    ghost use Rattle.std.specs.Ordering.{nat_cmp, ordering_then};
    ghost use Rattle.std.proofs.lemmas.Map.Lookups.{exact_pairs, exact_unsigned};
    ghost use Rattle.geo_laws.proofs.Orders.{exact_on};

    ghost order = { stamp_cmp };

    ghost order_is = { λ _ _. refl };

    ghost exact = { exact_on (λ s. (s.time, s.site)) (λ p. record { time = p.0; site = p.1 })
        (λ x y. ordering_then (nat_cmp x.0 y.0) (nat_cmp x.1 y.1)) (λ _. refl) (exact_pairs nat_cmp nat_cmp exact_unsigned exact_unsigned) };
}
