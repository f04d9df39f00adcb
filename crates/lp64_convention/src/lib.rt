//! How integers and addresses are passed to RISC-V code under LP64 (RISC-V ELF psABI, Integer Calling Convention).
#![tactic(auto)]

pub mod laws;
mod places;
mod widening;

pub use places::{PRESERVED_REGISTERS, Slot, is_preserved, word_place, words_of};
pub use widening::widen;
