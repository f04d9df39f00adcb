//! The numeric instructions of two operands at 32 bits.

ghost use Rattle.std.specs.Prelude.{◌≡◌, ◌==◌, ◌%◌, if◌then◌else◌, unsigned_abs, Ok, Err};
ghost use Rattle.std.specs.Int.{w32, cast_signed};
ghost use Rattle.std.specs.Option.{option_map_or};
ghost use Rattle.cil_arith.specs.Arithmetic.{rule, answer, amount_of};

use crate::num::Arith;
use crate::operations::BinOp;

/// What an operation gives for two numbers of 32 bits.
pub(crate) fn binary(op: BinOp, a: i32, b: i32) -> Result<i32, Arith>
    ensures { result ≡ answer (rule op) w32 a b }
{
    let unsigned_a = a.cast_unsigned();
    let unsigned_b = b.cast_unsigned();
    match op {
        BinOp::Add => Ok(a.wrapping_add(b)),
        BinOp::Sub => Ok(a.wrapping_sub(b)),
        BinOp::Mul => Ok(a.wrapping_mul(b)),
        BinOp::Div => a.checked_div(b).ok_or(division_error(b)),
        BinOp::DivUn => unsigned(unsigned_a.checked_div(unsigned_b), Arith::DivideByZero),
        BinOp::Rem => a.checked_rem(b).ok_or(division_error(b)),
        BinOp::RemUn => unsigned(unsigned_a.checked_rem(unsigned_b), Arith::DivideByZero),
        BinOp::AddOvf => a.checked_add(b).ok_or(Arith::Overflow),
        BinOp::AddOvfUn => unsigned(unsigned_a.checked_add(unsigned_b), Arith::Overflow),
        BinOp::SubOvf => a.checked_sub(b).ok_or(Arith::Overflow),
        BinOp::SubOvfUn => unsigned(unsigned_a.checked_sub(unsigned_b), Arith::Overflow),
        BinOp::MulOvf => a.checked_mul(b).ok_or(Arith::Overflow),
        BinOp::MulOvfUn => unsigned(unsigned_a.checked_mul(unsigned_b), Arith::Overflow),
        BinOp::And => Ok(a & b),
        BinOp::Or => Ok(a | b),
        BinOp::Xor => Ok(a ^ b),
        BinOp::Shl => Ok(a.wrapping_shl(amount(b))),
        BinOp::Shr => Ok(a.wrapping_shr(amount(b))),
        BinOp::ShrUn => Ok(unsigned_a.wrapping_shr(amount(b)).cast_signed()),
    }
}

/// Why a division by this divisor has no quotient.
fn division_error(divisor: i32) -> Arith
    ensures { result ≡ (if unsigned_abs divisor == 0 then Arith.DivideByZero else Arith.Overflow) }
{
    if divisor == 0 {
        Arith::DivideByZero
    } else {
        Arith::Overflow
    }
}

/// The bits of a result that is read without a sign, or the error where there is none.
fn unsigned(value: Option<u32>, error: Arith) -> Result<i32, Arith>
    ensures { result ≡ option_map_or (λ n. Ok (cast_signed w32 n)) value (Err error) }
{
    match value {
        Some(bits) => Ok(bits.cast_signed()),
        None => Err(error),
    }
}

/// A shift's amount, of which the low 5 bits count.
fn amount(bits: i32) -> u32
    ensures { result % 32 ≡ amount_of w32 bits }
{
    bits.cast_unsigned()
}
