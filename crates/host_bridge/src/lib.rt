//! The run of a symbol: the initializers of libraries and a function, called by no import.
#![tactic(auto)]

mod calls;
pub mod laws;
mod symbol;

pub use calls::run_calls;
pub use symbol::run_symbol;
