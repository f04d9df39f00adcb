//! What objects are.

use bound_base::{Bytes, Units};
use managed_value::{TypeId, Value, Values};

/// What an object is.
#[derive(Debug, Drop)]
pub enum Body0 {
    /// An object of a class: its type, and its fields, base first.
    Object(TypeId, Values),
    /// A string: its UTF-16 code units.
    Text(Units),
    /// An array: the type of its elements, the bytes of one, or 0 where they are kept as values, and how
    /// many there are. Then the elements: their bytes, one after another, or their values. The bytes
    /// are none while they are away.
    Array(TypeId, u32, u64, Bytes, Values),
    /// A delegate: its type, the object that its method is called on or none, and the method, by its row of
    /// MethodDef or as `ldftn` made it.
    Delegate(TypeId, Value, u32),
    /// A value in a box: its type, and the value.
    Box(TypeId, Value),
    /// A delegate for native code: its type, and the address of the code.
    Native(TypeId, u64),
    /// A text that is being built: its UTF-16 code units, and for how many of them there is room.
    Builder(Units, u32),
}
