//! The least of keys, so many at most, in their order.
ghost use Rattle.std.specs.Prelude.{◌≡◌, ◌≤◌, ◌++◌, ◌∷◌, true, None, length, take, drop, OnOk};
ghost use Rattle.geo_site.specs.Fills.{Rises, placed};

use geo_lattice::Twin;
use geo_versions::Key;
use std::alloc::{AllocError, Global};

/// How many of rising keys a key is not less than.
fn place_of(found: &[Key], key: &Key) -> usize
    ensures within { result ≤ length found.now }
    ensures split { placed key.now found.now ≡ take result found.now ++ (key.now ∷ drop result found.now) }
{
    let mut at = 0;
    while at < found.len() && !(*key < found[at]) {
        at += 1;
    }
    at
}

/// Whether there are as many rising keys as may be, and a key is less than none of them.
pub(crate) fn is_beyond(found: &[Key], most: usize, key: &Key) -> bool
    requires few { length found.now ≤ most }
    requires rises { Rises None found.now }
    ensures { result ≡ true → take most (placed key.now found.now) ≡ found.now }
{
    if found.len() < most {
        return false;
    }
    match found.last() {
        Some(last) => !(*key < *last),
        None => true,
    }
}

/// Brings a copy of a key to its place among rising keys, and drops the last where there are too many.
pub(crate) fn place(
    alloc: Global,
    found: &mut Vec<Key>,
    most: usize,
    key: &Key,
) -> Result<(), AllocError>
    ensures { OnOk result (found.new.items ≡ take most (placed key.now found.old.items)) }
{
    let at = place_of(found.as_slice(), key);
    let copy = key.twin(alloc)?;
    found.insert(at, copy)?;
    found.truncate(most);
    Ok(())
}
