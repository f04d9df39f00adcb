//! The functions of the C library that native code may call: memory, ranges of bytes, and texts (ISO/IEC 9899 7.22.3, 7.24).
//!
//! Where that standard leaves room:
//! - a block of no bytes is one like others, with a base of its own, and a new block holds zeros;
//! - `calloc` gives 0 also where the product of its arguments is no number of 64 bits;
//! - `realloc` always moves: the new block is placed before the old one ends, and a size of 0 is one like others;
//! - `memcpy` and `strcpy` copy as `memmove` does, also where the ranges overlap;
//! - `memcmp` and `strcmp` answer -1, 0 or 1;
//! - a range of no bytes may be anywhere;
//! - a text stands in one block, but `strcmp` goes byte by byte, and asks for none after those that decide;
//! - what it leaves undefined faults.
#![tactic(auto)]

mod allocation;
mod bytes;
mod calls;
pub mod laws;
mod refusal;
mod texts;

pub use calls::{Regs0, call};
pub use refusal::HeapBad;
