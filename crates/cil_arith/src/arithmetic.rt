//! The numeric instructions of two operands.

ghost use Rattle.std.specs.Prelude.{◌≡◌, Some, is_some, IsSome};
ghost use Rattle.std.specs.Int.{w32};
ghost use Rattle.cil_arith.specs.Arithmetic.{binary_of, rule, is_shift, amount_of};

use crate::comparisons::have_common_kind;
use crate::num::{Arith, Num};
use crate::operations::BinOp;
use crate::{int32, int64};

/// Whether the kinds of two numbers fit an operation (ECMA-335 tables III.2, III.5, III.6 and III.7). Two int32 do, two
/// int64, two native ints, and an int32 with a native int. Of a shift the value may be of any kind, and the amount is an
/// int32 or a native int.
pub fn fits(op: BinOp, a: Num, b: Num) -> bool
    ensures { result ≡ is_some (binary_of op a b) }
{
    if is_shift(op) {
        !matches!(b, Num::I64(_))
    } else {
        have_common_kind(a, b)
    }
}

/// What an operation gives for two numbers that fit it, in the kind in which they meet; a shift's result has the kind of
/// the value. The plain forms keep the low bits. Overflow: the result of a form with `.ovf` passes the range of that kind,
/// read as the form reads its operands, or the quotient of a division or a remainder does. DivideByZero: the divisor is 0.
pub fn binary(op: BinOp, a: Num, b: Num) -> Result<Num, Arith>
    requires { IsSome (binary_of op a b) }
    ensures { binary_of op a b ≡ Some result }
{
    match (a, b) {
        (Num::I32(a), Num::I32(b)) => int32::binary(op, a, b).map(Num::I32),
        (Num::I32(a), Num::N(b)) => {
            if is_shift(op) {
                int32::binary(op, a, low_5_bits(b)).map(Num::I32)
            } else {
                int64::binary(op, i64::from(a), b).map(Num::N)
            }
        }
        (Num::I64(a), Num::I32(b)) => int64::binary(op, a, i64::from(b)).map(Num::I64),
        (Num::I64(a), Num::I64(b)) => int64::binary(op, a, b).map(Num::I64),
        (Num::I64(a), Num::N(b)) => int64::binary(op, a, b).map(Num::I64),
        (Num::N(a), Num::I32(b)) => int64::binary(op, a, i64::from(b)).map(Num::N),
        (Num::N(a), Num::N(b)) => int64::binary(op, a, b).map(Num::N),
        (Num::I32(_) | Num::N(_), Num::I64(_)) => unreachable!(),
    }
}

fn is_shift(op: BinOp) -> bool
    ensures { result ≡ is_shift (rule op) }
{
    matches!(op, BinOp::Shl | BinOp::Shr | BinOp::ShrUn)
}

/// The part of a native int that shifts an int32.
fn low_5_bits(amount: i64) -> i32
    ensures { amount_of w32 result ≡ amount_of w32 amount }
{
    (amount.cast_unsigned() % 32) as i32
}
