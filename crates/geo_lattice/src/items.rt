//! A list of values that contracts see as a list and nothing more.
ghost use Rattle.std.specs.Prelude.{◌≡◌, List, length, IfOk};

use crate::twin::Twin;
use std::alloc::{AllocError, Global};
use std::marker::Model;

/// A `Vec` of which a contract sees its elements alone, and not how much room it has: two lists of the same elements are equal.
#[derive(Drop)]
pub struct Items<T> {
    items: Vec<T>,
}

impl<T> Model for Items<T> {
    ghost use Rattle.std.specs.Prelude.{List};

    ghost Value = { List T };

    ghost view = { λ v. v.items.items };
}

impl<T> Items<T> {
    /// The list of these elements. It takes no memory.
    pub fn of(items: Vec<T>) -> Items<T>
        ensures { result ≡ items.items }
    {
        Items { items }
    }

    /// The elements.
    pub fn as_slice(&self) -> &[T]
        ensures { result.now ≡ self.now }
    {
        self.items.as_slice()
    }

    /// The elements, given back without taking memory.
    pub fn into_vec(self) -> Vec<T>
        ensures { result.items ≡ self }
    {
        let Items { items } = self;
        items
    }
}

impl<T: Twin> Twin for Items<T> {
    fn twin(&self, alloc: Global) -> Result<Self, AllocError> {
        let mut items = Vec::with_capacity(alloc, self.items.len())?;
        for item in &self.items {
            items.push(item.twin(alloc)?)?;
        }
        Ok(Items { items })
    }
}
