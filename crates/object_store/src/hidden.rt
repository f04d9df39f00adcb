//! What an object of a core type keeps beside its fields.

use managed_value::{ObjId, TypeId};

/// The count and the marks of a handle.
#[derive(Clone, Copy, Debug, PartialEq, Eq)]
pub struct HandleData {
    /// One while it isn't disposed, its open additions, and the loans of it.
    pub count: u64,
    /// The additions that aren't released.
    pub additions: u64,
    pub disposed: bool,
    /// What it holds is released with it.
    pub owned: bool,
}

/// What an object keeps beside its fields. No field shows it, and it counts nothing.
#[derive(Clone, Copy, Debug, PartialEq, Eq)]
pub enum Hidden {
    Nothing,
    Handle(HandleData),
    /// The text of an exception: a string.
    Text(ObjId),
    /// The type that an object of type Type is of.
    Of(TypeId),
}
