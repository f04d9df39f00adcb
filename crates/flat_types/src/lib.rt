//! Which value types of an assembly are kept as bytes (ECMA-335 II.10.7).
#![tactic(auto)]

mod fields;
mod flat;
mod laws;
mod structs;

pub use flat::{Flat, FlatTypes, Found};
pub use laws::{deeper_finds_the_same, kept_types_are_of_integers};
