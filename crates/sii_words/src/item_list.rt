//! A list of items that contracts compare by its items alone.

ghost use Rattle.std.specs.Prelude.{◌≡◌, IfOk};

use std::alloc::{AllocError, Global};
use std::marker::Model;

/// A list of items. In contracts its value is the list of them, wherever they lie in memory.
#[derive(Debug, Drop)]
pub struct ItemList<T> {
    items: Vec<T>,
}

impl<T> Model for ItemList<T> {
    ghost use Rattle.std.specs.Prelude.{List};

    ghost Value = { List T };

    ghost view = { λ list. list.items.items };
}

impl<T> ItemList<T> {
    /// Makes a list of these items, in order.
    pub fn from_vec(items: Vec<T>) -> Self
        ensures { result ≡ items.items }
    {
        ItemList { items }
    }

    /// Takes the items out of the list, in order.
    pub fn into_vec(self) -> Vec<T>
        ensures { result.items ≡ self }
    {
        let ItemList { items } = self;
        items
    }

    /// The allocator that the list's memory comes from.
    pub fn allocator(&self) -> Global {
        *self.items.allocator()
    }

    /// All items, in order.
    pub fn as_slice(&self) -> &[T]
        ensures { result.now ≡ self.now }
    {
        &self.items
    }
}

impl<T: Copy> ItemList<T> {
    /// Copies the list with its items.
    ///
    /// # Errors
    ///
    /// `AllocError` if memory was refused.
    pub fn try_copy(&self) -> Result<ItemList<T>, AllocError>
        ensures { IfOk result (λ copy. copy ≡ self.now) }
    {
        let mut items = Vec::new(self.allocator());
        items.extend_from_slice(&self.items)?;
        Ok(ItemList { items })
    }
}
