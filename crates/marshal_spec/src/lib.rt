//! Marshalling descriptors: how a parameter, a result or a field crosses to native code
//! (ECMA-335 II.23.4, and what the runtimes have beside it).
#![tactic(auto)]

pub mod laws;
pub mod native_types;
mod reading;
mod spec;
mod writing;

pub use reading::read_spec;
pub use spec::{Spec, SpecBad};
pub use writing::{is_spec, write_spec};
