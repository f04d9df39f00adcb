//! Places that hold values: a root, and a path from there into the value that it holds.

use crate::names::ObjId;
use bound_base::Items;

/// Where a place begins. A frame's number is never given twice.
#[derive(Clone, Copy, Debug, PartialEq, Eq)]
pub enum Root {
    /// A local variable: its frame, and its number.
    Local(u64, u32),
    /// An argument: its frame, and its number.
    Arg(u64, u32),
    /// A static field, by its row of Field.
    Static(u32),
    /// An instance field of an object, by its number in the list of the object's fields.
    Field(ObjId, u32),
    /// An element of an array, by its index.
    Element(ObjId, u64),
    /// The value in a box.
    Boxed(ObjId),
}

/// A step from a value to a part of it.
#[derive(Clone, Copy, Debug, PartialEq, Eq)]
pub enum PathStep {
    /// To a field, by its number in the list of the value's fields.
    Field(u32),
    /// To bytes of a value that is kept as bytes: their offset, and how many.
    Range(u32, u32),
}

/// Steps from a value down to a part of it, the first step first.
pub type Path = Items<PathStep>;

/// A place: where it begins, and the path from there.
#[derive(Debug, Drop)]
pub struct Place {
    pub root: Root,
    pub path: Path,
}
