//! A list with room that was reserved before, so that its pushes cannot fail.

ghost use Rattle.std.specs.Prelude.{◌≡◌, ◌+◌, ◌<◌, ◌≤◌, [], ◌∷◌, ◌++◌, length, take, remove, slice_get, slice_index_or, IsTrue, ◌↔◌, IsOk, IfNone, OnOk, OnErr, OnSome};
ghost use Rattle.std.specs.Option.{option_copied, option_to_list};

use crate::memory::NoMemory;
use std::alloc::Global;
use std::marker::Model;

/// A list of values, and how many more it takes without memory, its room. A contract sees both, so that a `push`
/// into room that is there has no error. It is the list for what must not fail when it comes: entries of a log, the
/// loans that end together. Where each push may want memory, or two lists with the same elements are to be equal,
/// take `Items`.
#[derive(Debug, Drop)]
pub struct Reserved<T> {
    items: Vec<T>,
}

impl<T> Model for Reserved<T> {
    ghost use Rattle.std.specs.Prelude.{◌-◌};
    ghost use Rattle.std.specs.Vec.{vec_len, vec_capacity};
    ghost use Rattle.bound_base.specs.Reserved.{WithRoom, with_room_code};

    ghost Value = { WithRoom T };

    ghost coded = { with_room_code T.code };

    ghost view = { λ list. record {
      items = list.items.items;
      room = vec_capacity list.items - vec_len list.items;
    } };
}

impl<T> Reserved<T> {
    /// The empty list, without room. It takes no memory.
    pub fn new(alloc: Global) -> Reserved<T>
        ensures items { result.items ≡ [] }
        ensures room { result.room ≡ 0 }
    {
        Reserved {
            items: Vec::new(alloc),
        }
    }

    /// Makes the room at least `room`, or changes nothing where there is no memory. Where it is that much already,
    /// it takes no memory.
    pub fn reserve(&mut self, room: usize) -> Result<(), NoMemory>
        ensures items { self.new.items ≡ self.old.items }
        ensures ok { OnOk result (room ≤ self.new.room) }
        ensures kept { self.old.room ≤ self.new.room }
        ensures err { OnErr result (self.new ≡ self.old) }
        ensures enough { room ≤ self.old.room → IsOk result }
    {
        self.items.reserve(room)?;
        Ok(())
    }

    /// Adds an element at the end, into room that is there.
    pub fn push(&mut self, item: T)
        requires { 0 < self.old.room }
        ensures items { self.new.items ≡ self.old.items ++ item ∷ [] }
        ensures room { self.new.room + 1 ≡ self.old.room }
    {
        self.items.push_reserved(item);
    }

    /// Removes the last element, whose place is room again; None where there is no element.
    pub fn pop(&mut self) -> Option<T>
        ensures items { self.old.items ≡ self.new.items ++ option_to_list result }
        ensures none { IfNone result (self.old.items ≡ []) }
        ensures room { self.new.room ≡ self.old.room + length (option_to_list result) }
    {
        self.items.pop()
    }

    /// Removes the element at a place, counted from 0, and moves the later ones down. Its place is room again.
    pub fn remove(&mut self, at: usize) -> T
        requires { at < length self.old.items }
        ensures value { result ≡ slice_index_or self.old.items at result }
        ensures items { self.new.items ≡ remove self.old.items at }
        ensures room { self.new.room ≡ self.old.room + 1 }
    {
        self.items.remove(at)
    }

    pub fn as_slice(&self) -> &[T]
        ensures { result.now ≡ self.now.items }
    {
        self.items.as_slice()
    }

    pub fn len(&self) -> usize
        ensures { result ≡ length self.now.items }
    {
        self.items.len()
    }

    pub fn is_empty(&self) -> bool
        ensures { IsTrue result ↔ (self.now.items ≡ []) }
    {
        self.items.is_empty()
    }

    /// How many more elements it takes without memory.
    pub fn room(&self) -> usize
        ensures { result ≡ self.now.room }
    {
        self.items.capacity() - self.items.len()
    }

    /// The element at a place, counted from 0; None past the end.
    pub fn get(&self, at: usize) -> Option<&T>
        ensures value { option_copied result ≡ slice_get self.now.items at }
        ensures within { OnSome result (at < length self.now.items) }
    {
        self.items.get(at)
    }
}

impl<T: Drop> Reserved<T> {
    /// Keeps the first `len` elements. The places of the others are room again.
    pub fn truncate(&mut self, len: usize)
        ensures items { self.new.items ≡ take len self.old.items }
        ensures room { self.new.room + length self.new.items
            ≡ self.old.room + length self.old.items }
    {
        self.items.truncate(len);
    }
}
