//! What names a type, and what names an object.

/// A type. Its base is a row of TypeDef, or 0x0100_0000 + the place of a core type in the list of
/// core types; a pointer type has the base of UIntPtr.
#[derive(Clone, Copy, Debug, PartialEq, Eq)]
pub struct TypeId {
    pub base: u32,
    /// How many `[]` stand round the base.
    pub arrays: u32,
}

/// An object of the store, by its number.
#[derive(Clone, Copy, Debug, PartialEq, Eq)]
pub struct ObjId(pub u64);
