//! Lists with several owners.
ghost use Rattle.std.specs.Prelude.{◌≡◌, ◌≢◌, [], IfOk, IfErr};

use geo_lattice::Twin;
use std::alloc::{AllocError, Global};
use std::marker::Model;
use std::sync::Arc;

/// A list that several owners have, in any threads, and nobody changes: a twin is one owner more, and copies nothing. A contract sees
/// its elements alone.
#[derive(Drop)]
pub struct Shared<T> {
    /// None where there is no element, which takes no memory.
    items: Option<Arc<Vec<T>, Global>>,
}

impl<T> Model for Shared<T> {
    ghost use Rattle.std.specs.Prelude.{List, [], Vec};
    ghost use Rattle.std.specs.Option.{option_map, unwrap_or};
    ghost use Rattle.std.specs.Arc.{arc_value};
    ghost use Rattle.std.specs.declared.alloc.Global.{Global};

    ghost Value = { List T };

    ghost view = { λ s. unwrap_or (option_map (λ a. (arc_value {X = Vec T Global} a).items) s.items) [] };
}

impl<T: Drop> Shared<T> {
    /// The list of these elements, which are handed back where there is no memory for several owners. One without elements takes none.
    pub fn keep(alloc: Global, items: Vec<T>) -> Result<Shared<T>, Vec<T>>
        ensures list { IfOk result (λ shared. shared ≡ items.items) }
        ensures back { IfErr result (λ back. back ≡ items) }
        ensures memory { IfErr result (λ _. items.items ≢ []) }
    {
        if items.is_empty() {
            return Ok(Shared { items: None });
        }
        match Arc::new(alloc, items) {
            Ok(items) => Ok(Shared { items: Some(items) }),
            Err(refused) => Err(refused.value),
        }
    }

    /// The list of these elements. One without elements takes no memory.
    pub fn of(alloc: Global, items: Vec<T>) -> Result<Shared<T>, AllocError>
        ensures list { IfOk result (λ shared. shared ≡ items.items) }
        ensures memory { IfErr result (λ _. items.items ≢ []) }
    {
        match Shared::keep(alloc, items) {
            Ok(shared) => Ok(shared),
            Err(_) => Err(AllocError),
        }
    }
}

impl<T> Shared<T> {
    /// The elements.
    pub fn as_slice(&self) -> &[T]
        ensures { result.now ≡ self.now }
    {
        match &self.items {
            Some(items) => items.as_slice(),
            None => &[],
        }
    }
}

impl<T: Drop> Twin for Shared<T> {
    fn twin(&self, _alloc: Global) -> Result<Self, AllocError> {
        match &self.items {
            Some(items) => Ok(Shared {
                items: Some(Arc::try_clone(items)?),
            }),
            None => Ok(Shared { items: None }),
        }
    }
}
