//! What tokens find.

use managed_value::TypeId;

/// What a token finds (ECMA-335 II.22).
#[derive(Clone, Copy, Debug)]
pub enum Member {
    /// A method, by its row of MethodDef.
    Method(u32),
    /// A field, by its row of Field.
    Field(u32),
    /// A member of a core type, by its place among the core members.
    Core(u32),
    /// A type.
    Named(TypeId),
}

/// A token that finds nothing, or a method whose signature is outside the grammar.
#[derive(Clone, Copy, Debug)]
pub struct Unresolved(pub u32);
