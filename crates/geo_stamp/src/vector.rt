//! What a site knows of each site's clock.
ghost use Rattle.std.specs.Prelude.{◌≡◌, ℕ, ◌≤◌, ◌↔◌, max, length, slice_index, IsTrue, IfOk, List, take};
ghost use Rattle.std.specs.Prelude.{not, true};
ghost use Rattle.geo_stamp.specs.Vectors.{entry_of, zeros, vector_joined, greatest_of, least_of, raised, Knows};
ghost use Rattle.geo_stamp.specs.Retired.{is_in};
ghost use Rattle.geo_stamp.specs.Acks.{least_of_sites};

use crate::retired::Retired;
use crate::stamp::{LAST_TIME, Stamp};
use geo_lattice::{Flat, Lattice, Twin};
use std::alloc::{AllocError, Global};
use std::marker::Model;

/// A clock for each site, by the sites' numbers from 1: all operations of site j with a time of at most entry j are known.
#[derive(Drop)]
pub struct Vector {
    entries: [u64; 16],
    sites: usize,
}

impl Model for Vector {
    ghost use Rattle.std.specs.Prelude.{ℕ, List, take};
    ghost use Rattle.geo_stamp.specs.Vectors.{IsVector};

    ghost Value = { List ℕ };

    ghost view = { λ v. take v.sites v.entries };

    ghost invariant = { λ v. IsVector v.entries v.sites };
}

impl Vector {
    /// All zero, for this many sites, 0 to 16.
    pub fn new(sites: usize) -> Vector
        requires { sites ≤ 16 }
        ensures { result ≡ zeros sites }
    {
        Vector {
            entries: [0; 16],
            sites,
        }
    }

    /// For how many sites it has entries.
    pub fn sites(&self) -> usize
        ensures sites { result ≡ length self.now }
        ensures most { result ≤ 16 }
    {
        self.sites
    }

    /// The clock of a site, 0 where there is no such entry.
    pub fn entry(&self, site: u8) -> u64
        ensures entry { result ≡ entry_of self.now site }
        ensures range { result ≤ LAST_TIME }
    {
        let at = site as usize;
        if at == 0 || at > self.sites {
            return 0;
        }
        self.entries[at - 1]
    }

    /// Whether the stamp's operation is among those that the vector says are known.
    pub fn knows(&self, stamp: &Stamp) -> bool
        ensures { IsTrue result ↔ Knows self.now stamp.now }
    {
        stamp.time() <= self.entry(stamp.site())
    }

    /// The greatest entry.
    pub fn greatest(&self) -> u64
        ensures greatest { result ≡ greatest_of self.now }
        ensures range { result ≤ LAST_TIME }
    {
        let mut top = 0;
        for clock in &self.entries[..self.sites] {
            if top < *clock {
                top = *clock;
            }
        }
        top
    }

    /// The least entry, 2^56 - 1 where there is none.
    pub fn least(&self) -> u64
        ensures least { result ≡ least_of self.now }
        ensures range { result ≤ LAST_TIME }
    {
        let clocks = &self.entries[..self.sites];
        let mut least = LAST_TIME;
        for clock in clocks {
            least = least.min(*clock);
        }
        least
    }

    /// The least of the entries for the sites up to this number, at most 16, 2^56 - 1 where it is 0.
    pub fn least_up_to(&self, sites: usize) -> u64
        requires { sites ≤ 16 }
        ensures least { result ≡ least_of_sites sites (λ _. true) (entry_of self.now) }
        ensures range { result ≤ LAST_TIME }
    {
        let mut least = LAST_TIME;
        for at in 0..sites {
            least = least.min(self.entries[at]);
        }
        least
    }

    /// The least of the entries for the sites up to this number, at most 16, that are not in a set, 2^56 - 1 where there is none.
    pub fn least_outside(&self, sites: usize, retired: &Retired) -> u64
        requires { sites ≤ 16 }
        ensures least { result ≡ least_of_sites sites (λ j. not (is_in retired.now j)) (entry_of self.now) }
        ensures range { result ≤ LAST_TIME }
    {
        let mut least = LAST_TIME;
        for at in 0..sites {
            if !retired.has(at as u8 + 1) {
                least = least.min(self.entries[at]);
            }
        }
        least
    }

    /// Raises the entry of a site to a time of at most 2^56 - 1, where it is lower. A site without an entry gets none.
    pub fn raise(&mut self, site: u8, time: u64)
        requires { time ≤ LAST_TIME }
        ensures { self.new ≡ raised self.old site time }
    {
        let at = site as usize;
        if at == 0 || at > self.sites {
            return;
        }
        if self.entries[at - 1] < time {
            self.entries[at - 1] = time;
        }
    }

    /// An equal vector. It takes no memory.
    pub fn copied(&self) -> Vector
        ensures { result ≡ self.now }
    {
        Vector {
            entries: self.entries,
            sites: self.sites,
        }
    }
}

impl Twin for Vector {
    fn twin(&self, _alloc: Global) -> Result<Self, AllocError> {
        Ok(self.copied())
    }
}

impl Lattice for Vector {
    ghost use Rattle.std.specs.Prelude.{List, ℕ, [], refl};
    ghost use Rattle.geo_stamp.specs.Vectors.{vector_joined};
    ghost use Rattle.geo_laws.proofs.Joins.{joined_assoc, joined_comm, joined_same};

    ghost Meaning = { List ℕ };

    ghost meaning = { λ v. v };

    ghost joined = { vector_joined };

    ghost least = { [] };

    ghost HasRoom = { λ _ _. Unit {0} };

    ghost associative = { joined_assoc };

    ghost commutative = { joined_comm };

    ghost idempotent = { joined_same };

    ghost least_joined = { λ a. refl };

    fn ready(&mut self, _alloc: Global, _other: &Self) -> Result<(), AllocError> {
        Ok(())
    }

    fn has_room(&self, _other: &Self) -> bool {
        true
    }

    fn join(&mut self, other: Self) {
        for i in 0..16 {
            if self.entries[i] < other.entries[i] {
                self.entries[i] = other.entries[i];
            }
        }
        if self.sites < other.sites {
            self.sites = other.sites;
        }
    }

    fn covers(&self, other: &Self) -> bool {
        if self.sites < other.sites {
            return false;
        }
        for i in 0..16 {
            if self.entries[i] < other.entries[i] {
                return false;
            }
        }
        true
    }
}

impl Flat for Vector {
    ghost always_room = { λ _ _. tt };
}
