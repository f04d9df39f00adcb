//! Reads the headers of a PE file that holds an assembly (ECMA-335 II.25), and the bytes at its
//! addresses.
#![tactic(auto)]

mod addresses;
mod fields;
mod headers;
pub mod laws;
mod sections;

pub use addresses::{at_rva, rest_at};
pub use headers::{Pe, read_pe};
pub use sections::{Section, Sections};
