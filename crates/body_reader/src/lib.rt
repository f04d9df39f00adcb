//! The bodies of methods: code, and the clauses of its protected blocks (ECMA-335 II.25.4), with the instructions of CIL
//! (III).
#![tactic(auto)]

mod bad;
mod body;
mod clause;
mod code;
mod decoding;
mod forms;
mod header;
mod instructions;
pub mod laws;
mod op;
mod opcodes;
mod sections;
mod targets;

pub use bad::BodyBad;
pub use body::{Body, instr, read_body, switch_target};
pub use clause::{Clause, ClauseKind, Clauses};
pub use op::{DataType, Op};
