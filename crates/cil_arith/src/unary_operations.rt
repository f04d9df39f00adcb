//! neg and not.

ghost use Rattle.std.specs.Prelude.{◌≡◌};
ghost use Rattle.std.specs.Int.{w32, w64, int_wrap};
ghost use Rattle.cil_arith.specs.Arithmetic.{unary_whole, unary_of};

use crate::num::Num;
use crate::operations::UnOp;

/// What an operation gives for a number, in the number's kind (ECMA-335 table III.3). The negative of the least number is
/// that number.
pub fn unary(op: UnOp, a: Num) -> Num
    ensures { result ≡ unary_of op a }
{
    match a {
        Num::I32(value) => Num::I32(unary_32(op, value)),
        Num::I64(value) => Num::I64(unary_64(op, value)),
        Num::N(value) => Num::N(unary_64(op, value)),
    }
}

fn unary_32(op: UnOp, value: i32) -> i32
    ensures { result ≡ int_wrap w32 (unary_whole op value) }
{
    match op {
        UnOp::Neg => value.wrapping_neg(),
        UnOp::Not => !value,
    }
}

fn unary_64(op: UnOp, value: i64) -> i64
    ensures { result ≡ int_wrap w64 (unary_whole op value) }
{
    match op {
        UnOp::Neg => value.wrapping_neg(),
        UnOp::Not => !value,
    }
}
