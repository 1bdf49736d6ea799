//! What a site lacks.
ghost use Rattle.std.specs.Prelude.{◌≡◌, ◌≤◌, ℕ, Some, None, true, List, length, map, slice_get, IfOk, IfSome, option_map, option_copied};
ghost use Rattle.std.specs.List.{All};
ghost use Rattle.geo_records.specs.Operations.{version_in};
ghost use Rattle.geo_site.specs.Fills.{IsFirstMissing, AreFirstMissing, is_missing};
ghost use Rattle.geo_site.specs.Sites.{state_in};
ghost use Rattle.geo_history.specs.Keeping.{IsKept};
ghost use Rattle.geo_history.specs.Stories.{story_in};
ghost use Rattle.geo_station.specs.Lacking.{IsLackedBy};

use crate::desk::Desk;
use geo_journal::Room;
use geo_lattice::Twin;
use geo_site::Site;
use geo_versions::{Digest, Key};
use std::alloc::{AllocError, Global};

/// Bytes that a site lacks, as it asks other sites for them.
#[derive(Drop)]
pub struct Missing {
    /// The site's number, from 1.
    pub from: u8,
    /// How many sites there are.
    pub sites: u8,
    /// The key that has them.
    pub key: Key,
    /// Their SHA-256, as the site's version of the key names it.
    pub digest: Digest,
}

/// What is asked for of a key whose bytes are missing, as a site's version names them.
fn lacked(site: &Site, number: u8, now: u64, key: Key) -> Missing
    requires missing { is_missing (state_in site.now) now key ≡ true }
    ensures key { result.key ≡ key }
    ensures named { option_map (λ v. v.digest) (version_in ((state_in site.now).map key)) ≡ Some result.digest }
    ensures from { result.from ≡ number }
    ensures sites { result.sites ≡ length (state_in site.now).vector }
{
    let Some(version) = site.version_of(&key) else {
        unreachable!();
    };
    Missing {
        from: number,
        sites: site.known().sites() as u8,
        key,
        digest: version.digest,
    }
}

/// What is asked for of keys whose bytes are missing, in their order.
fn all_lacked(
    alloc: Global,
    site: &Site,
    number: u8,
    now: u64,
    keys: &[Key],
) -> Result<Vec<Missing>, AllocError>
    requires missing { (at : ℕ) (q : List ℕ) → slice_get keys.now at ≡ Some q → is_missing (state_in site.now) now q ≡ true }
    ensures keys { IfOk result (λ lacked. map (λ m. m.key) lacked.items ≡ keys.now) }
    ensures many { IfOk result (λ lacked. length lacked.items ≡ length keys.now) }
    ensures each { IfOk result (λ lacked. All (λ m. IsLackedBy (state_in site.now) number m) lacked.items) }
{
    let mut lacked_ones = Vec::with_capacity(alloc, keys.len())?;
    for at in 0..keys.len() {
        let copy = keys[at].twin(alloc)?;
        lacked_ones.push(lacked(site, number, now, copy))?;
    }
    Ok(lacked_ones)
}

impl<L: Room> Desk<L> {
    /// What the site lacks of the keys that [`Desk::missing`] would give one after the other, so many at most.
    pub(crate) fn first_missing(
        &self,
        alloc: Global,
        now: u64,
        most: usize,
    ) -> Result<Vec<Missing>, AllocError>
        ensures lawful { ∥ IsKept (story_in self.now.kept) ∥₁ }
        ensures first { IfOk result (λ lacked. AreFirstMissing (state_in (story_in self.now.kept).site) now None most
            (map (λ m. m.key) lacked.items)) }
        ensures each { IfOk result (λ lacked. All (λ m. IsLackedBy (state_in (story_in self.now.kept).site)
            (story_in self.now.kept).site.number m) lacked.items) }
        ensures few { IfOk result (λ lacked. length lacked.items ≤ most) }
    {
        let keys = self.kept.site().first_missing(alloc, now, None, most)?;
        all_lacked(
            alloc,
            self.kept.site(),
            self.kept.number(),
            now,
            keys.as_slice(),
        )
    }

    /// What the site lacks of the least key above another, as [`geo_site::Site::missing`] finds it.
    pub(crate) fn missing(
        &self,
        alloc: Global,
        now: u64,
        after: Option<&Key>,
    ) -> Result<Option<Missing>, AllocError>
        ensures lawful { ∥ IsKept (story_in self.now.kept) ∥₁ }
        ensures first { IfOk result (λ missing. IsFirstMissing (state_in (story_in self.now.kept).site) now (option_copied after.entry)
            (option_map (λ m. m.key) missing)) }
        ensures named { IfOk result (λ missing. IfSome missing
            (λ m. option_map (λ v. v.digest) (version_in ((state_in (story_in self.now.kept).site).map m.key)) ≡ Some m.digest)) }
        ensures number { IfOk result (λ missing. IfSome missing (λ m. (1 ≤ m.from) × (m.from ≤ m.sites))) }
        ensures sites { IfOk result (λ missing. IfSome missing (λ m. m.sites ≤ 16)) }
    {
        let site = self.kept.site();
        let Some(key) = site.missing(now, after) else {
            return Ok(None);
        };
        let Some(version) = site.version_of(key) else {
            unreachable!();
        };
        let copy = key.twin(alloc)?;
        Ok(Some(Missing {
            from: self.kept.number(),
            sites: site.known().sites() as u8,
            key: copy,
            digest: version.digest,
        }))
    }
}
