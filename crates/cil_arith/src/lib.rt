//! The numeric instructions of CIL on integers: arithmetic, conversions and comparisons (ECMA-335 III.1.5 and III.3).
//! It allocates nothing.
#![tactic(auto)]

mod arithmetic;
mod comparisons;
mod conversions;
pub mod examples;
mod int32;
mod int64;
pub mod laws;
mod num;
mod operations;
mod unary_operations;

pub use arithmetic::{binary, fits};
pub use comparisons::{comparable, compare};
pub use conversions::convert;
pub use num::{Arith, Num};
pub use operations::{BinOp, CmpOp, ConvOp, UnOp};
pub use unary_operations::unary;
