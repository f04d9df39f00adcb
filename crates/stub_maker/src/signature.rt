//! Signatures and imports as the rule over the marshalling table reads them.

use crate::kinds::Passed;
use bound_base::Items;

/// A method's signature (ECMA-335 II.23.2.1).
#[derive(Drop)]
pub struct Signature {
    /// Whether it takes more arguments than it has parameters.
    pub vararg: bool,
    /// How many generic parameters it has.
    pub generic: u32,
    pub params: Items<Passed>,
    /// None where it is void.
    pub result: Option<Passed>,
}

/// An import, whatever its names (ECMA-335 II.22.22).
#[derive(Drop)]
pub struct Imported {
    /// Whether its method's ImplFlags have PreserveSig (II.23.1.11).
    pub preserves_signature: bool,
    /// Whether its method is static.
    pub is_static: bool,
    /// Its method's signature, None where that is outside the grammar.
    pub signature: Option<Signature>,
    /// Whether its charset is Unicode.
    pub unicode: bool,
    /// Whether the native error number is saved after the call.
    pub saves_error: bool,
}
