//! A machine for RV64I and the M extension, one instruction at a time (RISC-V unprivileged ISA).
#![tactic(auto)]

mod accesses;
mod arithmetic;
mod division;
mod effect;
pub mod examples;
mod instructions;
pub mod laws;
mod multiplication;
mod outcome;
mod registers;
mod stepping;
mod words;

pub use outcome::Step;
pub use registers::Regs;
pub use stepping::step;
