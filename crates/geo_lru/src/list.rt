//! One of the three lists.
ghost use Rattle.std.specs.Prelude.{◌≡◌, ◌≤◌, ◌<◌, ◌^◌, [], ◌∷◌, length, cond, is_some, nat_eq, nat_lt, IfOk, OnOk, OnErr};
ghost use Rattle.std.specs.Map.{lookup};
ghost use Rattle.lru.specs.LruCache.{last_entry};
ghost use Rattle.geo_lru.specs.Lists.{present, unseen, touched_in, brought_forward, without};

use crate::access::Access;
use lru::LruCache;
use std::alloc::{AllocError, Global};
use std::marker::Model;

/// Items with what was seen of each, head first.
#[derive(Drop)]
pub(crate) struct ItemList {
    // The items are the caller's own numbers, so a hasher of a fixed seed serves.
    pub(crate) entries: LruCache<usize, Access>,
}

impl Model for ItemList {
    ghost use Rattle.std.specs.Prelude.{◌≡◌, ◌^◌, ◌-◌, ℕ, List};
    ghost use Rattle.geo_lru.specs.declared.access.Access.{Access as Bits};

    ghost Value = { List (ℕ × Bits) };

    ghost view = { λ l. l.entries.entries };

    ghost invariant = { λ l. l.entries.cap ≡ 2 ^ 64 - 1 };
}

impl ItemList {
    /// An empty list.
    pub(crate) fn new(alloc: Global) -> Result<ItemList, AllocError>
        ensures { IfOk result (λ list. list ≡ []) }
    {
        let entries = LruCache::unbounded(alloc)?;
        Ok(ItemList { entries })
    }

    /// How many items it has.
    pub(crate) fn len(&self) -> usize
        ensures len { result ≡ length self.now }
        ensures fits { result < 2 ^ 63 }
    {
        self.entries.len()
    }

    /// The last item.
    pub(crate) fn tail(&self) -> Option<(usize, Access)>
        ensures { result ≡ last_entry self.now }
    {
        let (item, access) = self.entries.peek_lru()?;
        Some((*item, *access))
    }

    /// Notes a hit on the item, and tells whether it is here.
    pub(crate) fn touch(&mut self, item: usize) -> bool
        ensures found { result ≡ is_some (lookup (nat_eq item) self.old) }
        ensures touched { self.new ≡ touched_in item self.old }
    {
        let Some(access) = self.entries.peek_mut(&item) else {
            return false;
        };
        *access = access.touched();
        true
    }

    /// Puts an item at the head.
    pub(crate) fn push_head(&mut self, item: usize, access: Access) -> Result<(), AllocError>
        requires { present item self.old ≡ 0 }
        ensures pushed { OnOk result (self.new ≡ (item, access) ∷ self.old) }
        ensures unchanged { OnErr result (self.new ≡ self.old) }
    {
        // Its clauses say that nothing falls out at the tail.
        let _len = self.entries.len();
        self.entries.put(item, access)?;
        Ok(())
    }

    /// Moves the item to the head, with its bits after a move. Where it is not here, nothing changes.
    pub(crate) fn move_to_head(&mut self, item: usize)
        ensures { self.new ≡ brought_forward item self.old }
    {
        let Some(access) = self.entries.get_mut(&item) else {
            return;
        };
        *access = access.moved();
    }

    /// Moves the item to the head, as one that has just come, and tells whether it is here. Where it is not, nothing changes.
    pub(crate) fn renew(&mut self, item: usize) -> bool
        ensures found { result ≡ is_some (lookup (nat_eq item) self.old) }
        ensures renewed { self.new ≡ cond result ((item, unseen) ∷ without item self.old) self.old }
    {
        let Some(access) = self.entries.get_mut(&item) else {
            return false;
        };
        let fresh = Access::unseen();
        *access = fresh;
        true
    }

    /// Takes the item out, and tells whether it was here.
    pub(crate) fn remove(&mut self, item: usize) -> bool
        ensures found { result ≡ is_some (lookup (nat_eq item) self.old) }
        ensures removed { self.new ≡ without item self.old }
    {
        // What goes is looked for in each list, and a list that has none needs no look-up.
        if self.entries.len() == 0 {
            return false;
        }
        self.entries.pop(&item).is_some()
    }
}
