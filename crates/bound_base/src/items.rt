//! A `Vec` that contracts see as the list of its elements.

ghost use Rattle.std.specs.Prelude.{◌≡◌, [], ◌∷◌, ◌++◌, length, slice_get, slice_set, ◌<◌, ◌↔◌, IsTrue, IfOk, OnOk, OnErr, OnSome};
ghost use Rattle.std.specs.Option.{option_copied, option_copied_mut};
ghost use Rattle.std.specs.Borrow.{LendsIf, sem};
ghost use Rattle.bound_base.specs.contracts.items.Items.{the_row};

use std::alloc::{AllocError, Global};
use std::marker::Model;

/// Bytes.
pub type Bytes = Items<u8>;

/// UTF-16 code units.
pub type Units = Items<u16>;

/// A list of values. Two with the same elements are equal in contracts, whatever memory they hold.
#[derive(Debug, Drop)]
pub struct Items<T> {
    items: Vec<T>,
}

impl<T> Model for Items<T> {
    ghost use Rattle.std.specs.Prelude.{List};
    ghost use Rattle.std.specs.Coded.{coded_list};

    ghost Value = { List T };

    ghost coded = { coded_list T.code };

    ghost view = { λ it. it.items.items };
}

impl<T> Items<T> {
    /// The empty list. It takes no memory.
    pub fn new(alloc: Global) -> Items<T>
        ensures { result ≡ [] }
    {
        Items {
            items: Vec::new(alloc),
        }
    }

    /// The empty list, with room for `capacity` elements.
    pub fn with_capacity(alloc: Global, capacity: usize) -> Result<Items<T>, AllocError>
        ensures { IfOk result (λ it. it ≡ []) }
    {
        Ok(Items {
            items: Vec::with_capacity(alloc, capacity)?,
        })
    }

    /// The list of the elements of `items`. It takes no memory.
    pub fn from_vec(items: Vec<T>) -> Items<T>
        ensures { result ≡ items.items }
    {
        Items { items }
    }

    /// The elements, in the memory that they had.
    pub fn into_vec(self) -> Vec<T>
        ensures { result.items ≡ self }
    {
        self.items
    }

    pub fn as_slice(&self) -> &[T]
        ensures { result.now ≡ self.now }
    {
        self.items.as_slice()
    }

    pub fn len(&self) -> usize
        ensures { result ≡ length self.now }
    {
        self.items.len()
    }

    pub fn is_empty(&self) -> bool
        ensures { IsTrue result ↔ (self.now ≡ []) }
    {
        self.items.is_empty()
    }

    /// The element at a place, counted from 0; None past the end.
    pub fn get(&self, at: usize) -> Option<&T>
        ensures value { option_copied result ≡ slice_get self.now at }
        ensures within { OnSome result (at < length self.now) }
    {
        self.items.get(at)
    }

    /// The element at a place, counted from 0, to be changed; None past the end.
    pub fn get_mut(&mut self, at: usize) -> Option<&mut T>
        ensures* writes_back { sem 𝓛 (LendsIf (the_row T.row) T.row self.entry result (λ w. slice_set self.old at w) self.old) }
        ensures value { option_copied_mut result ≡ slice_get self.old at }
    {
        self.items.get_mut(at)
    }
}

impl<T: Drop> Items<T> {
    /// Puts an element at a place in place of the one there.
    pub fn set(&mut self, at: usize, item: T)
        requires { at < length self.old }
        ensures { self.new ≡ slice_set self.old at item }
    {
        self.items[at] = item;
    }

    /// Adds an element at the end, or changes nothing where there is no memory.
    pub fn push(&mut self, item: T) -> Result<(), AllocError>
        ensures ok { OnOk result (self.new ≡ self.old ++ item ∷ []) }
        ensures err { OnErr result (self.new ≡ self.old) }
    {
        self.items.push(item)?;
        Ok(())
    }
}

impl<T: Copy> Items<T> {
    /// Adds the elements of a slice at the end, or changes nothing where there is no memory.
    pub fn extend_from_slice(&mut self, more: &[T]) -> Result<(), AllocError>
        ensures ok { OnOk result (self.new ≡ self.old ++ more.now) }
        ensures err { OnErr result (self.new ≡ self.old) }
    {
        self.items.extend_from_slice(more)?;
        Ok(())
    }
}
