//! The instruction words of RV64I and of the M extension, by the encodings of the RISC-V unprivileged ISA.
#![tactic(auto)]

mod decoding;
mod encoding;
pub mod examples;
mod fields;
mod formats;
mod instr;
pub mod laws;
mod lengths;
mod opcodes;
mod shown;

pub use decoding::decode;
pub use encoding::encode;
pub use instr::Instr;
pub use lengths::length_of;
