//! The signatures of metadata (ECMA-335 II.23.2).
#![tactic(auto)]

mod bad;
mod elements;
pub mod laws;
mod numbers;
mod parts;
mod prefixes;
mod reader;
mod signature;
mod types;

pub use bad::SigBad;
pub use reader::{read_field_sig, read_locals, read_method_sig, read_type_spec};
pub use signature::{I32s, Sig, TypeSig, TypeSigs, U32s};
