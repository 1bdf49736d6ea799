//! The three lists of a class.
ghost use Rattle.std.specs.Prelude.{◌≡◌, ◌≤◌, ℕ, [], IfOk, OnOk, OnErr};
ghost use Rattle.geo_lru.specs.Lists.{present, places, entered, touched_at, left, victim_of};

use crate::access::Access;
use crate::cold::ColdList;
use crate::list::ItemList;
use std::alloc::{AllocError, Global};
use std::marker::Model;

/// The items of a slab class in memcached's three lists, each item once (`doc/new_lru.txt`). An item is a number that the
/// caller chose. `enter`, `renew`, `hit`, `leave` and `victim` are one step, but for a map or list that grows. So is a `juggle` that
/// moves an item of HOT or WARM. One that comes to COLD takes the items that became active there since the last one into an index, each
/// by a logarithm, and out of it those that it meets there and that have left. Where memory for that was refused, or most of them have
/// left, it goes through COLD.
#[derive(Drop)]
pub struct Segments {
    pub(crate) hot: ItemList,
    pub(crate) warm: ItemList,
    pub(crate) cold: ColdList,
}

impl Model for Segments {
    ghost use Rattle.geo_lru.specs.Lists.{Lists, IsApart};

    ghost Value = { Lists };

    ghost view = { λ s. record { hot = s.hot; warm = s.warm; cold = s.cold } };

    ghost invariant = { λ s. IsApart (record { hot = s.hot; warm = s.warm; cold = s.cold }) };
}

impl Segments {
    /// Three empty lists.
    pub fn new(alloc: Global) -> Result<Segments, AllocError>
        ensures { IfOk result (λ segments. segments ≡ record { hot = []; warm = []; cold = [] }) }
    {
        Ok(Segments {
            hot: ItemList::new(alloc)?,
            warm: ItemList::new(alloc)?,
            cold: ColdList::new(alloc)?,
        })
    }

    /// An item comes.
    pub fn enter(&mut self, item: usize) -> Result<(), AllocError>
        requires { places item self.old ≡ 0 }
        ensures entered { OnOk result (self.new ≡ entered item self.old) }
        ensures unchanged { OnErr result (self.new ≡ self.old) }
    {
        self.hot.push_head(item, Access::unseen())?;
        Ok(())
    }

    /// A known item comes anew: it leaves its list, if it is in one, and comes to HOT's head as when it enters. One that is in HOT needs
    /// no memory for it.
    pub fn renew(&mut self, known: usize) -> Result<(), AllocError>
        ensures renewed { OnOk result (self.new ≡ entered known (left known self.old)) }
        ensures unchanged { OnErr result (self.new ≡ self.old) }
        ensures not_hot { OnErr result (present known self.old.hot ≡ 0) }
    {
        if self.hot.renew(known) {
            return Ok(());
        }
        self.hot.push_head(known, Access::unseen())?;
        if self.warm.remove(known) {
            return Ok(());
        }
        self.cold.remove(known);
        Ok(())
    }

    /// Notes a hit on the item. Where it has not entered, nothing changes.
    pub fn hit(&mut self, item: usize)
        ensures { self.new ≡ touched_at item self.old }
    {
        if self.hot.touch(item) {
            return;
        }
        if self.warm.touch(item) {
            return;
        }
        self.cold.touch(item);
    }

    /// The item is gone. Where it has not entered, nothing changes.
    pub fn leave(&mut self, item: usize)
        ensures { self.new ≡ left item self.old }
    {
        // What goes most often is a victim, which stands in COLD.
        if self.cold.remove(item) {
            return;
        }
        if self.warm.remove(item) {
            return;
        }
        self.hot.remove(item);
    }

    /// The item to evict next, None exactly where there is none.
    pub fn victim(&self) -> Option<usize>
        ensures victim { result ≡ victim_of self.now }
        ensures once { (item : ℕ) → places item self.now ≤ 1 }
    {
        if let Some((item, _)) = self.cold.tail() {
            return Some(item);
        }
        if let Some((item, _)) = self.warm.tail() {
            return Some(item);
        }
        let (item, _) = self.hot.tail()?;
        Some(item)
    }
}
