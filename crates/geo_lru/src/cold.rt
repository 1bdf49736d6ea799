//! The list COLD, whose active items are found by their places.
ghost use Rattle.std.specs.Prelude.{◌≡◌, ◌≤◌, ◌<◌, ◌^◌, ◌++◌, ℕ, [], ◌∷◌, length, is_some, nat_eq, true, false, cond, Some, None, Contains, IfSome, IfNone, IfOk, OnOk, OnErr};
ghost use Rattle.std.specs.Ordering.{nat_cmp, is_eq};
ghost use Rattle.std.specs.BTreeMap.{get, IsLowerBound};
ghost use Rattle.std.specs.Map.{lookup};
ghost use Rattle.lru.specs.LruCache.{last_entry};
ghost use Rattle.geo_lru.specs.Lists.{present, touched_in, without, last_active, active_count};
ghost use Rattle.geo_lru.specs.Placed.{seen, Falling, EachActive, IsFiled, IsIndexed, active_there};

use crate::access::Access;
use lru::LruCache;
use std::alloc::{AllocError, Global};
use std::collections::BTreeMap;
use std::marker::Model;

/// How many places there are.
const PLACES: u64 = u64::MAX;

/// By how many half of what is filed may outnumber the items, past which most of it is stale. Room for as many notes is kept.
const SPARE: usize = 32;

/// What is kept of an item here.
#[derive(Clone, Copy)]
pub(crate) struct Placed {
    pub access: Access,
    /// Items come to places that rise, at the head: the nearer the tail, the lower.
    pub place: u64,
}

/// A list that finds its active item nearest the tail without a walk: each item that becomes active is noted, and the next search takes
/// what was noted into an index by places. Nothing is taken out where an item leaves, so what is filed under a place may be stale, and
/// is held against the list before it counts. Where memory to file an item is refused, or most of what is filed is stale, the next
/// search files all active items anew. Where it cannot, it goes through the list, and so do as many more as the list has items.
#[derive(Drop)]
pub(crate) struct ColdList {
    entries: LruCache<usize, Placed>,
    /// The place of the next item that comes.
    next: u64,
    /// How many items are active: where there is none, nobody need look for one.
    active: usize,
    /// Whether each active item is filed: noted, or in the index.
    whole: bool,
    /// How many searches go through the list before it is tried again to file all active items, for which memory was refused.
    rest: usize,
    noted: Vec<(u64, usize)>,
    index: BTreeMap<u64, usize>,
}

impl Model for ColdList {
    ghost use Rattle.std.specs.Prelude.{ℕ, List};
    ghost use Rattle.geo_lru.specs.Placed.{seen, IsPlaced};
    ghost use Rattle.geo_lru.specs.declared.access.Access.{Access as Bits};

    ghost Value = { List (ℕ × Bits) };

    ghost view = { λ l. seen l.entries.entries };

    ghost invariant = { λ l. IsPlaced l.entries.entries l.entries.cap l.next l.active l.whole l.noted.items l.index };
}

impl ColdList {
    /// An empty list.
    pub(crate) fn new(alloc: Global) -> Result<ColdList, AllocError>
        ensures { IfOk result (λ list. list ≡ []) }
    {
        Ok(ColdList {
            entries: LruCache::unbounded(alloc)?,
            next: 0,
            active: 0,
            whole: true,
            rest: 0,
            noted: Vec::new(alloc),
            index: BTreeMap::new(alloc),
        })
    }

    /// How many items it has.
    pub(crate) fn len(&self) -> usize
        ensures len { result ≡ length self.now }
        ensures fits { result < 2 ^ 63 }
    {
        self.entries.len()
    }

    /// The last item.
    pub(crate) fn tail(&self) -> Option<(usize, Access)>
        ensures { result ≡ last_entry self.now }
    {
        let (item, placed) = self.entries.peek_lru()?;
        Some((*item, placed.access))
    }

    /// Whether no item is active.
    fn is_idle(&self) -> bool
        ensures { result ≡ true → active_count self.now ≡ 0 }
    {
        self.active == 0
    }

    /// The active item nearest the tail.
    pub(crate) fn last_active(&mut self) -> Option<(usize, Access)>
        ensures found { result ≡ last_active self.old }
        ensures unchanged { self.new ≡ self.old }
    {
        if self.is_idle() {
            // All that is filed is stale.
            self.noted.clear();
            self.noted.shrink_to(SPARE);
            self.index.clear();
            self.whole = self.next < PLACES;
            self.rest = 0;
            return None;
        }
        if self.next >= PLACES {
            return search_from_tail(&self.entries);
        }
        if !self.whole && self.rest > 0 {
            self.rest -= 1;
            return search_from_tail(&self.entries);
        }
        let len = self.entries.len();
        let whole = still_whole(self.whole, self.noted.len(), self.index.len(), len);
        self.whole = index_all(&self.entries, whole, &mut self.noted, &mut self.index);
        if !self.whole {
            // So many searches pay for the next pass.
            self.rest = len;
            return search_from_tail(&self.entries);
        }
        first_active(&self.entries, &mut self.index)
    }

    /// Notes a hit on the item, and tells whether it is here.
    pub(crate) fn touch(&mut self, item: usize) -> bool
        ensures found { result ≡ is_some (lookup (nat_eq item) self.old) }
        ensures touched { self.new ≡ touched_in item self.old }
    {
        // Its clauses bound the count of active items.
        let len = self.entries.len();
        let Some(placed) = self.entries.peek_mut(&item) else {
            return false;
        };
        let before = placed.access;
        let place = placed.place;
        placed.access = before.touched();
        if before.wakes() {
            self.active += 1;
            let whole = still_whole(self.whole, self.noted.len(), self.index.len(), len);
            self.whole = note(&mut self.noted, whole, place, item);
        }
        true
    }

    /// Puts an item that is not active at the head.
    pub(crate) fn push_idle(&mut self, item: usize, access: Access) -> Result<(), AllocError>
        requires absent { present item self.old ≡ 0 }
        requires idle { access.active ≡ false }
        ensures pushed { OnOk result (self.new ≡ (item, access) ∷ self.old) }
        ensures unchanged { OnErr result (self.new ≡ self.old) }
    {
        // Its clauses say that nothing falls out at the tail.
        let _len = self.entries.len();
        let place = self.next;
        self.entries.put(item, Placed { access, place })?;
        if place < PLACES - 1 {
            self.next = place + 1;
        } else {
            self.next = PLACES;
            self.whole = false;
        }
        Ok(())
    }

    /// Takes out the active item nearest the tail.
    pub(crate) fn take_active(&mut self, last: (usize, Access))
        requires last { last_active self.old ≡ Some last }
        requires once { present last.0 self.old ≤ 1 }
        ensures { self.new ≡ without last.0 self.old }
    {
        self.remove(last.0);
    }

    /// Takes the item out, and tells whether it was here.
    pub(crate) fn remove(&mut self, item: usize) -> bool
        ensures found { result ≡ is_some (lookup (nat_eq item) self.old) }
        ensures removed { self.new ≡ without item self.old }
    {
        // What goes is looked for in each list, and a list that has none needs no look-up.
        if self.entries.len() == 0 {
            return false;
        }
        let Some(placed) = self.entries.pop(&item) else {
            return false;
        };
        if placed.access.active {
            self.active -= 1;
        }
        true
    }
}

/// Whether all active items are filed, and not so much besides that most of it is stale.
fn still_whole(whole: bool, noted: usize, indexed: usize, len: usize) -> bool
    ensures { result ≡ true → whole ≡ true }
{
    whole && noted / 2 + indexed / 2 <= len.saturating_add(SPARE)
}

/// Notes an item where all others are filed, and tells whether all are then.
fn note(noted: &mut Vec<(u64, usize)>, whole: bool, place: u64, item: usize) -> bool
    ensures others { result ≡ true → whole ≡ true }
    ensures noted { result ≡ true → noted.new.items ≡ noted.old.items ++ (place, item) ∷ [] }
{
    whole && noted.push((place, item)).is_ok()
}

/// Notes all active items anew, by a walk, and tells whether memory allowed it.
fn note_all(entries: &LruCache<usize, Placed>, noted: &mut Vec<(u64, usize)>) -> bool
    ensures { result ≡ true → EachActive (λ q i. Contains noted.new.items (q, i)) entries.now.entries }
{
    noted.clear();
    let mut items = entries.iter();
    while let Some((item, placed)) = items.next_back() {
        if placed.access.active && !note(noted, true, placed.place, *item) {
            return false;
        }
    }
    true
}

/// Puts an item into the index, and tells whether it is there, at a place that was free: memory may be refused.
fn add(index: &mut BTreeMap<u64, usize>, place: u64, item: usize) -> bool
    ensures free { result ≡ true → get nat_cmp index.old place ≡ None }
    ensures added { result ≡ true → (q : ℕ) → get nat_cmp index.new q
        ≡ cond (is_eq (nat_cmp place q)) (Some item) (get nat_cmp index.old q) }
{
    matches!(index.insert(place, item), Ok(None))
}

/// Takes what is noted into the index, and tells whether all of it went there.
fn index_noted(noted: &mut Vec<(u64, usize)>, index: &mut BTreeMap<u64, usize>) -> bool
    ensures { result ≡ true → (q : ℕ) → (i : ℕ) → IsFiled noted.old.items index.old q i → IsIndexed index.new q i }
{
    while let Some((place, item)) = noted.pop() {
        if !add(index, place, item) {
            return false;
        }
    }
    noted.shrink_to(SPARE);
    true
}

/// Brings all active items into the index, and tells whether they are there.
fn index_all(
    entries: &LruCache<usize, Placed>,
    whole: bool,
    noted: &mut Vec<(u64, usize)>,
    index: &mut BTreeMap<u64, usize>,
) -> bool
    requires { whole ≡ true → EachActive (IsFiled noted.old.items index.old) entries.now.entries }
    ensures { result ≡ true → EachActive (IsIndexed index.new) entries.now.entries }
{
    if whole {
        return index_noted(noted, index);
    }
    index.clear();
    note_all(entries, noted) && index_noted(noted, index)
}

/// The active item nearest the tail, which the index has at its lowest place. What is stale goes out of the index.
fn first_active(
    entries: &LruCache<usize, Placed>,
    index: &mut BTreeMap<u64, usize>,
) -> Option<(usize, Access)>
    requires falling { Falling (2 ^ 64) entries.now.entries }
    requires indexed { EachActive (IsIndexed index.old) entries.now.entries }
    ensures found { result ≡ last_active (seen entries.now.entries) }
    ensures indexed { EachActive (IsIndexed index.new) entries.now.entries }
{
    // Its clauses say that no item is there twice.
    let _len = entries.len();
    while let Some((place, item)) = lowest(index) {
        if let Some(access) = active_at(entries, place, item) {
            return Some((item, access));
        }
        index.remove(&place);
    }
    None
}

/// The lowest place of the index, and the item there.
fn lowest(index: &BTreeMap<u64, usize>) -> Option<(u64, usize)>
    ensures found { IfSome result (λ p. IsIndexed index.now p.0 p.1) }
    ensures least { IfSome result (λ p. IsLowerBound nat_cmp index.now p.0) }
    ensures none { IfNone result (index.now.entries ≡ []) }
{
    let (place, item) = index.first_key_value()?;
    Some((*place, *item))
}

/// What was seen of the item, where it is active and stands at the place.
fn active_at(entries: &LruCache<usize, Placed>, place: u64, item: usize) -> Option<Access>
    ensures { result ≡ active_there place (lookup (nat_eq item) entries.now.entries) }
{
    let placed = entries.peek(&item)?;
    if placed.place == place && placed.access.active {
        Some(placed.access)
    } else {
        None
    }
}

/// The active item nearest the tail, by a walk.
fn search_from_tail(entries: &LruCache<usize, Placed>) -> Option<(usize, Access)>
    ensures { result ≡ last_active (seen entries.now.entries) }
{
    let mut rest = entries.iter();
    while let Some((item, placed)) = rest.next_back() {
        if placed.access.active {
            return Some((*item, placed.access));
        }
    }
    None
}
