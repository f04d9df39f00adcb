//! The search for the handler of an exception in a method (ECMA-335 I.12.4.2).
#![tactic(auto)]

mod handlers;
pub mod laws;

pub use handlers::{Handler, next_handler};
