//! Which keys a line named before.
ghost use Rattle.std.specs.Prelude.{◌≡◌, ℕ, List, IfOk, IsSome, [], ◌∷◌, ◌++◌};
ghost use Rattle.std.specs.List.{list_any};
ghost use Rattle.geo_records.specs.Keys.{same_key};
ghost use Rattle.geo_site.specs.Entries.{Visible};
ghost use Rattle.geo_site.specs.Passing.{HasPassed};

use geo_versions::Key;
use std::alloc::{AllocError, Global};
use std::collections::HashSet;
use std::hash::RandomState;

/// At the key of this number that is found a set is made of those before it. Up to there all of them are looked through, so that a line
/// on which fewer are found pays for none.
const MANY: usize = 32;

/// Whether a key is one of these.
fn is_among(keys: &[Key], key: &Key) -> bool
    ensures { result ≡ list_any (same_key key.now) keys.now }
{
    keys.iter().any(|other| key == other)
}

/// A set of keys, with room for so many.
fn set_of<'a>(
    alloc: Global,
    hasher: RandomState,
    room: usize,
    keys: &'a [Key],
) -> Result<HashSet<&'a Key, RandomState>, AllocError>
    ensures { IfOk result (λ set. (q : List ℕ) → list_any (λ k. same_key q k.now) set.keys ≡ list_any (same_key q) keys.now) }
{
    let mut set = HashSet::with_capacity_and_hasher(alloc, room, hasher)?;
    for key in keys {
        set.insert(key)?;
    }
    Ok(set)
}

/// The keys of a line that stand before one of them, in a set where many are found: to look through all before each that is found
/// takes time by the square of the line's length. The set takes 23 to 46 bytes for each key of the line, until the answer is made.
#[derive(Drop)]
pub(crate) struct Passed<'a> {
    hasher: RandomState,
    /// How many keys the line has.
    coming: usize,
    /// How many keys were found, counted up to the one at which the set is made.
    count: usize,
    keys: Option<HashSet<&'a Key, RandomState>>,
}

impl<'a> Passed<'a> {
    /// No keys, of so many that come. Strangers choose them, so the hasher is the site's own.
    pub(crate) fn none(hasher: RandomState, coming: usize) -> Passed<'a>
        ensures { (visible : Visible) → HasPassed visible result [] }
    {
        Passed {
            hasher,
            coming,
            count: 0,
            keys: None,
        }
    }

    /// Counts a key that is found behind these, and makes the set of them once enough are. Where memory for it is refused there is
    /// none, and it isn't tried again.
    fn count_found(&mut self, alloc: Global, before: &'a [Key])
        ensures { (visible : Visible) → HasPassed visible self.old before.now → HasPassed visible self.new before.now }
    {
        if self.count >= MANY {
            return;
        }
        self.count += 1;
        if self.count == MANY {
            self.keys = set_of(alloc, self.hasher, self.coming, before).ok();
        }
    }

    /// Passes a key that is found, and tells whether it came before, behind these keys.
    pub(crate) fn pass(&mut self, alloc: Global, before: &'a [Key], key: &'a Key) -> bool
        ensures { (visible : Visible) → HasPassed visible self.old before.now → IsSome (visible key.now)
            → (result ≡ list_any (same_key key.now) before.now) × HasPassed visible self.new (before.now ++ key.now ∷ []) }
    {
        self.count_found(alloc, before);
        let Some(keys) = &mut self.keys else {
            return is_among(before, key);
        };
        match keys.insert(key) {
            Ok(is_new) => !is_new,
            // Only a key that isn't there wants memory.
            Err(_) => {
                self.keys = None;
                false
            }
        }
    }
}
