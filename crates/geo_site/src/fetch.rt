//! How a site looks keys up.
ghost use Rattle.std.specs.Prelude.{◌≡◌, ◌++◌, ℕ, List, length, IfOk, IfErr, OnOk, cond, true};
ghost use Rattle.std.specs.List.{All};
ghost use Rattle.geo_site.specs.Entries.{found_at, found_of, is_some_found, keys_found, is_done, counted_on};
ghost use Rattle.geo_site.specs.Machine.{Same, accessed, visible_in};
ghost use Rattle.geo_site.specs.Repeats.{Shows};
ghost use Rattle.geo_site.specs.Sites.{state_in, counts_in, limits_of, waiting_in, Rests, Stays, FetchDoes, TellsPlain, reply_in};

use crate::acted::{Acted, twice_values};
use crate::places::Places;
use crate::repeats::Findings;
use crate::site::Site;
use geo_requests::{Found, Shared};
use geo_versions::Key;
use std::alloc::{AllocError, Global};

impl Site {
    /// Finds a key: appends what is visible of it, with its number where it is asked for.
    pub(crate) fn look(
        &self,
        alloc: Global,
        now: u64,
        key: &Key,
        numbers: bool,
        findings: &mut Findings,
    ) -> Result<(), AllocError>
        requires { All (Shows numbers (visible_in (state_in self.now) now)) findings.old.all.items }
        ensures looked { OnOk result (findings.new.all.items
            ≡ findings.old.all.items ++ found_at numbers key.now (visible_in (state_in self.now) now key.now)) }
        ensures memory { IfErr result (λ _. is_some_found (found_at numbers key.now (visible_in (state_in self.now) now key.now))
            ≡ true) }
    {
        match self.placed(now, key) {
            Some((place, entry)) => findings.push(alloc, place, key, &entry, numbers),
            None => Ok(()),
        }
    }

    /// What is found of keys, one after the other, and where.
    fn found(
        &self,
        alloc: Global,
        now: u64,
        keys: &[Key],
        numbers: bool,
    ) -> Result<(Vec<Found>, Places), AllocError>
        ensures found { IfOk result (λ found. found.0.items ≡ found_of numbers (visible_in (state_in self.now) now) keys.now) }
        ensures memory { IfErr result (λ _. is_some_found (found_of numbers (visible_in (state_in self.now) now) keys.now) ≡ true) }
    {
        let mut findings = Findings::none(alloc, self.hasher);
        for key in keys {
            self.look(alloc, now, key, numbers, &mut findings)?;
        }
        Ok(findings.parts())
    }

    /// Notes that these were found, at these places.
    pub(crate) fn note_hits(&mut self, found: &[Found], places: &Places)
        ensures hits { Same (accessed (keys_found found.now) (state_in self.old)) (state_in self.new) }
        ensures rests { Rests self.old self.new }
        ensures stays { Stays self.old self.new }
    {
        for (number, entry) in found.iter().enumerate() {
            self.values.hit_at(places.of(number), &entry.key);
        }
    }

    /// Shows what is found of keys, notes that it was, and counts them.
    pub(crate) fn fetch(
        &mut self,
        alloc: Global,
        now: u64,
        keys: &[Key],
        numbers: bool,
        with_copies: bool,
    ) -> Result<Acted, AllocError>
        ensures does { FetchDoes self.old self.new now keys.now numbers (reply_in result) }
        ensures told { IfOk result (TellsPlain with_copies) }
    {
        let (all, places) = self.found(alloc, now, keys, numbers)?;
        let found = Shared::of(alloc, all)?;
        let copies = twice_values(alloc, with_copies, &found)?;
        self.note_hits(found.as_slice(), &places);
        let hits = found.as_slice().len();
        self.hits = self.hits.saturating_add(hits as u64);
        self.misses = self.misses.saturating_add((keys.len() - hits) as u64);
        Ok(Acted::values(found, copies))
    }
}
