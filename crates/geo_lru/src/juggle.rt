//! The moves between the lists.
ghost use Rattle.std.specs.Prelude.{◌≡◌, ◌<◌, ◌^◌, ◌∷◌, length, is_some, nat_lt, unwrap_or, IsTrue, IsSome, IfOk, OnOk, OnErr};
ghost use Rattle.geo_lru.specs.Lists.{present, without, moved, count, hot_limit, warm_limit, hot_juggled, warm_juggled, cold_juggled, juggled, leaves_list, warm_leaves};

use crate::access::Access;
use crate::cold::ColdList;
use crate::list::ItemList;
use crate::segments::Segments;
use std::alloc::AllocError;

/// How much of its class HOT may be, in percent.
const HOT_PERCENT: u128 = 20;

/// How much of its class WARM may be, in percent.
const WARM_PERCENT: u128 = 40;

impl Segments {
    /// Moves the one item that is due to move, and tells whether there was one.
    ///
    /// Only a move to another list asks for memory.
    pub fn juggle(&mut self) -> Result<bool, AllocError>
        ensures told { IfOk result (λ moved. moved ≡ is_some (juggled self.old)) }
        ensures moved { OnOk result (self.new ≡ unwrap_or (juggled self.old) self.old) }
        ensures unchanged { OnErr result (self.new ≡ self.old) }
        ensures due { OnErr result (IsSome (juggled self.old)) }
        ensures elsewhere { OnErr result (IsTrue (leaves_list self.old)) }
    {
        if self.hot_is_over() {
            return self.move_hot_tail();
        }
        if self.warm_is_over() {
            return self.move_warm_tail();
        }
        self.move_cold_active()
    }

    // How many items the class has.
    fn count(&self) -> u128
        ensures count { result ≡ count self.now }
        ensures fits { result < 2 ^ 65 }
    {
        self.hot.len() as u128 + self.warm.len() as u128 + self.cold.len() as u128
    }

    // Whether HOT is longer than its limit. Multiplied out, nothing is rounded.
    fn hot_is_over(&self) -> bool
        ensures { result ≡ nat_lt (hot_limit self.now) (length self.now.hot) }
    {
        100 * self.hot.len() as u128 > HOT_PERCENT * self.count()
    }

    // Whether WARM is longer than its limit.
    fn warm_is_over(&self) -> bool
        ensures { result ≡ nat_lt (warm_limit self.now) (length self.now.warm) }
    {
        100 * self.warm.len() as u128 > WARM_PERCENT * self.count()
    }

    fn move_hot_tail(&mut self) -> Result<bool, AllocError>
        ensures told { IfOk result (λ moved. moved ≡ is_some (hot_juggled self.old)) }
        ensures moved { OnOk result (self.new ≡ unwrap_or (hot_juggled self.old) self.old) }
        ensures unchanged { OnErr result (self.new ≡ self.old) }
        ensures due { OnErr result (IsSome (hot_juggled self.old)) }
    {
        let Some((item, access)) = self.hot.tail() else {
            return Ok(false);
        };
        if access.active {
            transfer(&mut self.hot, &mut self.warm, item, access)?;
        } else {
            cool(&mut self.hot, &mut self.cold, item, access)?;
        }
        Ok(true)
    }

    fn move_warm_tail(&mut self) -> Result<bool, AllocError>
        ensures told { IfOk result (λ moved. moved ≡ is_some (warm_juggled self.old)) }
        ensures moved { OnOk result (self.new ≡ unwrap_or (warm_juggled self.old) self.old) }
        ensures unchanged { OnErr result (self.new ≡ self.old) }
        ensures due { OnErr result (IsSome (warm_juggled self.old)) }
        ensures elsewhere { OnErr result (IsTrue (warm_leaves self.old)) }
    {
        let Some((item, access)) = self.warm.tail() else {
            return Ok(false);
        };
        if access.active {
            self.warm.move_to_head(item);
        } else {
            cool(&mut self.warm, &mut self.cold, item, access)?;
        }
        Ok(true)
    }

    fn move_cold_active(&mut self) -> Result<bool, AllocError>
        ensures told { IfOk result (λ moved. moved ≡ is_some (cold_juggled self.old)) }
        ensures moved { OnOk result (self.new ≡ unwrap_or (cold_juggled self.old) self.old) }
        ensures unchanged { OnErr result (self.new ≡ self.old) }
        ensures due { OnErr result (IsSome (cold_juggled self.old)) }
    {
        let Some((item, access)) = self.cold.last_active() else {
            return Ok(false);
        };
        self.warm.push_head(item, access.moved())?;
        self.cold.take_active((item, access));
        Ok(true)
    }
}

// Moves an item from one list to the head of another. It is put there first, so that a refusal leaves both as they are.
fn transfer(
    from: &mut ItemList,
    to: &mut ItemList,
    item: usize,
    access: Access,
) -> Result<(), AllocError>
    requires { present item to.old ≡ 0 }
    ensures from { OnOk result (from.new ≡ without item from.old) }
    ensures to { OnOk result (to.new ≡ (item, moved access) ∷ to.old) }
    ensures from_kept { OnErr result (from.new ≡ from.old) }
    ensures to_kept { OnErr result (to.new ≡ to.old) }
{
    to.push_head(item, access.moved())?;
    from.remove(item);
    Ok(())
}

// The same, where the other list is COLD: an item comes there without its ACTIVE bit, so nothing has to be filed.
fn cool(
    list: &mut ItemList,
    cold: &mut ColdList,
    item: usize,
    access: Access,
) -> Result<(), AllocError>
    requires { present item cold.old ≡ 0 }
    ensures from { OnOk result (list.new ≡ without item list.old) }
    ensures to { OnOk result (cold.new ≡ (item, moved access) ∷ cold.old) }
    ensures from_kept { OnErr result (list.new ≡ list.old) }
    ensures to_kept { OnErr result (cold.new ≡ cold.old) }
{
    cold.push_idle(item, access.moved())?;
    list.remove(item);
    Ok(())
}
