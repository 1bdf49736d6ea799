//! Which sites are gone for good.
ghost use Rattle.std.specs.Prelude.{◌≡◌, ◌≤◌, ◌<◌, ◌↔◌, ℕ, IsTrue, false, not, length};
ghost use Rattle.geo_stamp.specs.Retired.{no_sites, is_in, with_site, set_fits, set_bits, bits_set};

use geo_lattice::{Flat, Lattice, Twin};
use std::alloc::{AllocError, Global};
use std::marker::Model;

/// A set of sites, by their numbers, 1 to 16, that are held for gone for good. Sets join by union, and so never lose a site.
#[derive(Clone, Copy, PartialEq, Eq)]
pub struct Retired {
    sites: [bool; 16],
}

impl Model for Retired {
    ghost use Rattle.std.specs.Prelude.{Bool, List, length, ◌≡◌};

    ghost Value = { List Bool };

    ghost view = { λ r. r.sites };

    ghost invariant = { λ r. length r.sites ≡ 16 };

    ghost inverse = { λ b. record { sites = b } };
}

impl Retired {
    /// No site.
    pub fn none() -> Retired
        ensures { result ≡ no_sites }
    {
        Retired { sites: [false; 16] }
    }

    /// Whether a site is in it.
    pub fn has(&self, site: u8) -> bool
        ensures { result ≡ is_in self.now site }
    {
        let at = site as usize;
        at >= 1 && at <= 16 && self.sites[at - 1]
    }

    /// Whether no site is in it.
    pub fn is_empty(&self) -> bool
        ensures { IsTrue result ↔ ((site : ℕ) → is_in self.now site ≡ false) }
    {
        self.fits(0)
    }

    /// Whether no site past so many is in it.
    pub fn fits(&self, sites: usize) -> bool
        ensures fits { result ≡ set_fits sites self.now }
        ensures many { length self.now ≡ 16 }
    {
        for at in 0..16 {
            if at >= sites && self.sites[at] {
                return false;
            }
        }
        true
    }

    /// Adds a site, 1 to 16, and tells whether it was not in it.
    pub fn add(&mut self, site: u8) -> bool
        requires first { 1 ≤ site }
        requires last { site ≤ 16 }
        ensures told { result ≡ not (is_in self.old site) }
        ensures added { self.new ≡ with_site self.old site }
    {
        let at = site as usize - 1;
        let is_new = !self.sites[at];
        self.sites[at] = true;
        is_new
    }

    /// The set as a number, whose bit of worth 2^(j - 1) stands for site j.
    pub fn bits(&self) -> u64
        ensures bits { result ≡ set_bits self.now }
        ensures range { result < 65536 }
        ensures many { length self.now ≡ 16 }
    {
        let mut bits = 0;
        for before in 0..16 {
            let bit = if self.sites[15 - before] { 1 } else { 0 };
            bits = bits * 2 + bit;
        }
        bits
    }

    /// The set that the lowest 16 bits of a number stand for, the bit of worth 2^(j - 1) for site j.
    pub fn of_bits(bits: u64) -> Retired
        ensures { result ≡ bits_set 16 bits }
    {
        let mut sites = [false; 16];
        let mut rest = bits;
        for at in 0..16 {
            sites[at] = rest % 2 == 1;
            rest /= 2;
        }
        Retired { sites }
    }
}

impl Twin for Retired {
    fn twin(&self, _alloc: Global) -> Result<Self, AllocError> {
        Ok(*self)
    }
}

impl Lattice for Retired {
    ghost use Rattle.std.specs.Prelude.{List, Bool, [], refl};
    ghost use Rattle.geo_stamp.specs.Retired.{set_joined};
    ghost use Rattle.geo_stamp.specs.Unions.{sets_assoc, sets_comm, sets_same};

    ghost Meaning = { List Bool };

    ghost meaning = { λ r. r };

    ghost joined = { set_joined };

    ghost least = { [] };

    ghost HasRoom = { λ _ _. Unit {0} };

    ghost associative = { sets_assoc };

    ghost commutative = { sets_comm };

    ghost idempotent = { sets_same };

    ghost least_joined = { λ a. refl };

    fn ready(&mut self, _alloc: Global, _other: &Self) -> Result<(), AllocError> {
        Ok(())
    }

    fn has_room(&self, _other: &Self) -> bool {
        true
    }

    fn join(&mut self, other: Self) {
        for i in 0..16 {
            self.sites[i] = self.sites[i] || other.sites[i];
        }
    }

    fn covers(&self, other: &Self) -> bool {
        for i in 0..16 {
            if other.sites[i] && !self.sites[i] {
                return false;
            }
        }
        true
    }
}

impl Flat for Retired {
    ghost always_room = { λ _ _. tt };
}
