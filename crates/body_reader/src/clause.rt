//! The clauses of a method (ECMA-335 II.25.4.6).

use bound_base::Items;

/// What the handler of a clause is for.
#[derive(Clone, Copy, Debug, PartialEq, Eq)]
pub enum ClauseKind {
    /// It catches exceptions of the type with this token.
    Catch(u32),
    /// It runs whenever control leaves the protected block.
    Finally,
    /// It runs where an exception leaves the protected block.
    Fault,
}

/// A protected block and its handler. All four numbers are offsets in the code; an end is that of the first byte after.
#[derive(Clone, Copy, Debug, PartialEq, Eq)]
pub struct Clause {
    pub kind: ClauseKind,
    pub try_at: u32,
    pub try_end: u32,
    pub at: u32,
    pub end: u32,
}

/// The clauses of a method, in their order in the file.
pub type Clauses = Items<Clause>;
