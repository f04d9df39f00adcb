//! Kinds of values.

ghost use Rattle.std.specs.Prelude.{◌≡◌};
ghost use Rattle.managed_value.specs.Parts.{kind_of};

use crate::names::TypeId;

/// What a value is of, as far as another may stand in its place.
#[derive(Clone, Copy, Debug, PartialEq, Eq)]
pub enum Kind {
    Int32,
    Int64,
    NativeInt,
    /// An object, or none.
    Reference,
    /// The code of a method.
    Code,
    /// The address of a place.
    Address,
    /// A value type's value that is kept as bytes: its type, and how many bytes.
    Bytes(TypeId, usize),
    /// A value type's value that is kept field by field: its type.
    Fields(TypeId),
}
