//! The integers of the evaluation stack, and the errors of their arithmetic.

ghost use Rattle.std.specs.Prelude.{◌≡◌, pos};
ghost use Rattle.cil_arith.specs.Kinds.{whole, Unsigned};
ghost use Rattle.cil_arith.specs.Conversions.{source};

use thiserror::Error;

/// An integer on the evaluation stack (ECMA-335 III.1.1.1). The instructions say whether its bits are read with a sign.
#[derive(Clone, Copy, Debug, PartialEq, Eq)]
pub enum Num {
    /// An int32.
    I32(i32),
    /// An int64.
    I64(i64),
    /// A native int, which has 64 bits.
    N(i64),
}

/// Why an operation gives no number.
#[derive(Clone, Copy, Debug, PartialEq, Eq, Error)]
pub enum Arith {
    /// The divisor is 0 (`System.DivideByZeroException`).
    #[error("division by zero")]
    DivideByZero,
    /// The result doesn't fit: a form with `.ovf` passes the range of its kind, read as the form reads its operands; a
    /// conversion the range of its target; a quotient that of its kind (`System.OverflowException`, an `ArithmeticException`).
    #[error("arithmetic overflow")]
    Overflow,
}

impl Num {
    /// The value, read with its sign.
    pub(crate) fn sign_extended(self) -> i64
        ensures { result ≡ whole self }
    {
        match self {
            Num::I32(value) => i64::from(value),
            Num::I64(value) => value,
            Num::N(value) => value,
        }
    }

    /// The bits of the number's own width, read without a sign.
    pub(crate) fn zero_extended(self) -> u64
        ensures { pos result ≡ source Unsigned self }
    {
        match self {
            Num::I32(value) => u64::from(value.cast_unsigned()),
            Num::I64(value) => value.cast_unsigned(),
            Num::N(value) => value.cast_unsigned(),
        }
    }
}
