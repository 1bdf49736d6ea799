//! What a site last heard of the other sites' vectors, and which they hold for gone.
ghost use Rattle.std.specs.Prelude.{◌≡◌, ℕ, ◌≤◌, ◌&&◌, not};
ghost use Rattle.geo_stamp.specs.Vectors.{entry_of};
ghost use Rattle.geo_stamp.specs.Retired.{is_in};
ghost use Rattle.geo_stamp.specs.Acks.{least_of_sites, row_of, told_of, heard, retires, none_heard, tells_of, tells, agrees_with, agrees, horizon_by, horizon_of, looked};

use crate::retired::Retired;
use crate::stamp::LAST_TIME;
use crate::vector::Vector;
use geo_lattice::Lattice;
use std::marker::Model;

/// A vector and a set of retired sites for each site, by the sites' numbers from 1: what was heard of it. What a site has heard another
/// know it need not tell it again (acknowledgements: Almeida et al. 2018). Beside these the sites that whoever heard it holds for gone
/// itself, and the greatest horizon that it kept.
#[derive(Drop)]
pub struct Acks {
    rows: [Vector; 16],
    told: [Retired; 16],
    set: Retired,
    reached: u64,
}

impl Model for Acks {
    ghost use Rattle.geo_stamp.specs.Acks.{Heard, AreKept};

    ghost Value = { Heard };

    ghost view = { λ acks. record { rows = acks.rows; told = acks.told; set = acks.set; reached = acks.reached } };

    ghost invariant = { λ acks. AreKept acks.rows acks.told acks.reached };
}

/// The least of the entries for so many sites, with or without those for the sites in a set.
fn least_in(known: &Vector, leave: bool, sites: usize, retired: &Retired) -> u64
    requires { sites ≤ 16 }
    ensures least { result ≡ least_of_sites sites (λ j. not (leave && is_in retired.now j)) (entry_of known.now) }
    ensures range { result ≤ LAST_TIME }
{
    if leave {
        known.least_outside(sites, retired)
    } else {
        known.least_up_to(sites)
    }
}

impl Acks {
    /// Nothing was heard. The vectors have this many entries, 0 to 16.
    pub fn new(sites: usize) -> Acks
        requires { sites ≤ 16 }
        ensures { result ≡ none_heard sites }
    {
        let none = || Vector::new(sites);
        Acks {
            rows: [
                none(),
                none(),
                none(),
                none(),
                none(),
                none(),
                none(),
                none(),
                none(),
                none(),
                none(),
                none(),
                none(),
                none(),
                none(),
                none(),
            ],
            told: [Retired::none(); 16],
            set: Retired::none(),
            reached: 0,
        }
    }

    /// An equal one.
    pub fn copied(&self) -> Acks
        ensures { result ≡ self.now }
    {
        let Acks { mut rows, .. } = Acks::new(0);
        for index in 0..16 {
            rows[index] = self.rows[index].copied();
        }
        Acks {
            rows,
            told: self.told,
            set: self.set,
            reached: self.reached,
        }
    }

    /// The vector that was heard of a site, 1 to 16.
    pub fn row(&self, site: u8) -> &Vector
        requires first { 1 ≤ site }
        requires last { site ≤ 16 }
        ensures { result.now ≡ row_of self.now.rows site }
    {
        &self.rows[site as usize - 1]
    }

    /// The sites that a site, 1 to 16, told that it holds for gone.
    pub fn told(&self, site: u8) -> Retired
        requires first { 1 ≤ site }
        requires last { site ≤ 16 }
        ensures { result ≡ told_of self.now.told site }
    {
        self.told[site as usize - 1]
    }

    /// The greatest horizon that was kept.
    pub fn reached(&self) -> u64
        ensures { result ≡ self.now.reached }
    {
        self.reached
    }

    /// The sites that are held for gone.
    pub fn retired(&self) -> &Retired
        ensures { result.now ≡ self.now.set }
    {
        &self.set
    }

    /// Holds a site, 1 to 16, for gone from now on, and tells whether it was not before.
    pub fn retire(&mut self, site: u8) -> bool
        requires first { 1 ≤ site }
        requires last { site ≤ 16 }
        ensures told { result ≡ not (is_in self.old.set site) }
        ensures retired { self.new ≡ retires self.old site }
    {
        self.set.add(site)
    }

    /// Joins a vector and a set into what was heard of a site, 1 to 16, and the set into the own one. It takes no memory.
    pub fn heard(&mut self, site: u8, vector: &Vector, retired: &Retired)
        requires first { 1 ≤ site }
        requires last { site ≤ 16 }
        ensures { self.new ≡ heard self.old site vector.now retired.now }
    {
        self.rows[site as usize - 1].join(vector.copied());
        self.told[site as usize - 1].join(*retired);
        self.set.join(*retired);
    }

    /// Whether a site, 1 to 16, told that another is gone, with the entry for it that this vector has, where that one is in the own set.
    fn tells_of(&self, site: u8, vector: &Vector, other: u8) -> bool
        requires first { 1 ≤ site }
        requires last { site ≤ 16 }
        ensures { result ≡ tells_of self.now site vector.now other }
    {
        if !self.set.has(other) {
            return true;
        }
        self.told(site).has(other) && self.row(site).entry(other) == vector.entry(other)
    }

    /// Whether a site, 1 to 16, told so of all of the own set.
    fn tells(&self, site: u8, vector: &Vector) -> bool
        requires first { 1 ≤ site }
        requires last { site ≤ 16 }
        ensures { result ≡ tells self.now site vector.now }
    {
        for before in 0..vector.sites() as u8 {
            if !self.tells_of(site, vector, before + 1) {
                return false;
            }
        }
        true
    }

    /// Whether a site, 1 to 16, told so of all of the own set, where it is outside of the set and another.
    fn agrees_with(&self, own: u8, vector: &Vector, site: u8) -> bool
        requires first { 1 ≤ site }
        requires last { site ≤ 16 }
        ensures { result ≡ agrees_with self.now own vector.now site }
    {
        site == own || self.set.has(site) || self.tells(site, vector)
    }

    /// Whether each other site outside of the own set told so of all of it.
    fn agrees(&self, own: u8, vector: &Vector) -> bool
        ensures { result ≡ agrees self.now own vector.now }
    {
        for before in 0..vector.sites() as u8 {
            if !self.agrees_with(own, vector, before + 1) {
                return false;
            }
        }
        true
    }

    /// The least entry of its own vector and of what was heard of all others outside of the own set, with or without the entries for
    /// those in it.
    fn least(&self, leave: bool, own: u8, vector: &Vector) -> u64
        ensures least { result ≡ horizon_by leave self.now own vector.now }
        ensures range { result ≤ LAST_TIME }
    {
        let sites = vector.sites();
        let mut least = LAST_TIME;
        for at in 0..sites {
            let site = at as u8 + 1;
            if !self.set.has(site) {
                let known = if site == own { vector } else { &self.rows[at] };
                least = least.min(least_in(known, leave, sites, &self.set));
            }
        }
        least
    }

    /// The horizon of a site, 1 to 16, that knows so much: the greatest that was kept, or the least entry of its
    /// own vector and of what was heard of all others outside of the own set, where that is greater. The entries for sites in the set
    /// are left out once each other site outside of it told all of it, with entries for them that equal the site's own. All sites outside
    /// know each operation up to this time that one of them knows, and none of them issues another one (Almeida et al. 2018). A
    /// site in its own set keeps the one that it has. It takes no memory.
    pub fn horizon(&self, own: u8, vector: &Vector) -> u64
        requires first { 1 ≤ own }
        requires last { own ≤ 16 }
        ensures horizon { result ≡ horizon_of self.now own vector.now }
        ensures range { result ≤ LAST_TIME }
    {
        if self.set.has(own) {
            return self.reached;
        }
        // Where none is retired nothing is left out, and nobody need be asked.
        let leave = !self.set.is_empty() && self.agrees(own, vector);
        self.reached.max(self.least(leave, own, vector))
    }

    /// Keeps the horizon of a site, 1 to 16, that knows so much. It takes no memory.
    pub fn look(&mut self, own: u8, vector: &Vector)
        requires first { 1 ≤ own }
        requires last { own ≤ 16 }
        ensures { self.new ≡ looked self.old own vector.now }
    {
        self.reached = self.horizon(own, vector);
    }
}
