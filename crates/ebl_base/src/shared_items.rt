//! Lists with several owners.
ghost use Rattle.std.specs.Prelude.{◌≡◌, ◌↔◌, [], ◌∷◌, ◌++◌, length, IfOk, IsTrue};

use crate::items::{Copied, Items};
use crate::no_memory::NoMemory;
use std::alloc::Global;
use std::marker::Model;
use std::sync::Arc;

/// A list inside a public type that may have several owners, in any threads. Contracts see the list of its items.
///
/// It never changes. A copy is one owner more: it costs the same whatever the list's length, and takes no memory. The
/// empty list has no owner to count.
#[derive(Debug, Drop)]
pub struct SharedItems<T> {
    items: Option<Arc<Items<T>>>,
}

/// Bytes with several owners.
pub type SharedBytes = SharedItems<u8>;

impl<T> Model for SharedItems<T> {
    ghost use Rattle.std.specs.Prelude.{List, []};
    ghost use Rattle.std.specs.Arc.{arc_value};
    ghost use Rattle.std.specs.Option.{option_map_or};

    ghost Value = { List T };

    ghost view = { λ s. option_map_or (λ items. arc_value items) s.items [] };
}

impl<T> SharedItems<T> {
    /// The empty list, which allocates nothing.
    pub fn new() -> Self
        ensures { result ≡ [] }
    {
        SharedItems { items: None }
    }

    /// The items.
    pub fn as_slice(&self) -> &[T]
        ensures { result.now ≡ self.now }
    {
        match &self.items {
            Some(items) => items.as_slice(),
            None => &[],
        }
    }

    /// How many items the list has.
    pub fn len(&self) -> usize
        ensures { result ≡ length self.now }
    {
        self.as_slice().len()
    }

    /// Whether the list has no item.
    pub fn is_empty(&self) -> bool
        ensures { IsTrue result ↔ (self.now ≡ []) }
    {
        self.as_slice().is_empty()
    }
}

impl<T: Drop> SharedItems<T> {
    /// The list of a vector's items, which stay where they are.
    pub fn from_vec(alloc: Global, items: Vec<T>) -> Result<Self, NoMemory>
        ensures { IfOk result (λ list. list ≡ items.items) }
    {
        if items.is_empty() {
            return Ok(SharedItems::new());
        }
        match Arc::new(alloc, Items::from_vec(items)) {
            Ok(items) => Ok(SharedItems { items: Some(items) }),
            Err(_) => Err(NoMemory),
        }
    }
}

impl<T: Copied> SharedItems<T> {
    /// A list of its own with copies of these items, followed by one more.
    pub fn followed_by(&self, alloc: Global, item: T) -> Result<Self, NoMemory>
        ensures { IfOk result (λ longer. longer ≡ self.now ++ item ∷ []) }
    {
        let own = self.as_slice();
        // with room for the one more from the start, or the list would be moved, and grow by more than one
        let mut items = Vec::with_capacity(alloc, own.len().saturating_add(1))?;
        for one in own {
            items.push(one.copy(alloc)?)?;
        }
        items.push(item)?;
        SharedItems::from_vec(alloc, items)
    }
}

impl<T: Drop> Copied for SharedItems<T> {
    fn copy(&self, _alloc: Global) -> Result<Self, NoMemory> {
        match &self.items {
            Some(items) => Ok(SharedItems {
                items: Some(Arc::try_clone(items)?),
            }),
            None => Ok(SharedItems::new()),
        }
    }
}
