//! Numbers in bytes, and in `specs/` the formats that are read from bytes.
#![tactic(auto)]

pub mod elf_examples;
pub mod elf_laws;
pub mod examples;
pub mod laws;
mod numbers;

pub use numbers::{compressed, le8, le16, le32, le64, number8, number16, number32, number64};
