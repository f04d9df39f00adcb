//! The conversions between integers.

ghost use Rattle.std.specs.Prelude.{◌≡◌, pos};
ghost use Rattle.cil_arith.specs.Kinds.{holds};
ghost use Rattle.cil_arith.specs.Conversions.{conversion, conversion_of, source, cut};
ghost use Rattle.cil_arith.specs.Targets.{type_of, conversion_by};

use crate::num::{Arith, Num};
use crate::operations::ConvOp;

/// What a conversion gives for a number (ECMA-335 table III.8): an int32 where the target has at most 4 bytes, an int64
/// where it has 8, or a native int. Overflow: the target of a form with `.ovf` doesn't hold the number.
pub fn convert(op: ConvOp, a: Num) -> Result<Num, Arith>
    ensures { result ≡ conversion_of op a }
{
    let (check, target) = parts(op);
    match check {
        Check::None => Ok(low_bits(target, widened(target, a))),
        Check::Signed => {
            let number = a.sign_extended();
            if holds(target, number) {
                Ok(low_bits(target, number.cast_unsigned()))
            } else {
                Err(Arith::Overflow)
            }
        }
        Check::Unsigned => {
            let number = a.zero_extended();
            if holds_unsigned(target, number) {
                Ok(low_bits(target, number))
            } else {
                Err(Arith::Overflow)
            }
        }
    }
}

/// Whether the target has to hold the number, and how that is read.
#[derive(Clone, Copy)]
enum Check {
    None,
    Signed,
    Unsigned,
}

/// What a conversion converts to.
#[derive(Clone, Copy)]
enum Target {
    I1,
    I2,
    I4,
    I8,
    I,
    U1,
    U2,
    U4,
    U8,
    U,
}

fn parts(op: ConvOp) -> (Check, Target)
    ensures { conversion_by result.0 result.1 ≡ conversion op }
{
    match op {
        ConvOp::I1 => (Check::None, Target::I1),
        ConvOp::I2 => (Check::None, Target::I2),
        ConvOp::I4 => (Check::None, Target::I4),
        ConvOp::I8 => (Check::None, Target::I8),
        ConvOp::I => (Check::None, Target::I),
        ConvOp::U1 => (Check::None, Target::U1),
        ConvOp::U2 => (Check::None, Target::U2),
        ConvOp::U4 => (Check::None, Target::U4),
        ConvOp::U8 => (Check::None, Target::U8),
        ConvOp::U => (Check::None, Target::U),
        ConvOp::OvfI1 => (Check::Signed, Target::I1),
        ConvOp::OvfI2 => (Check::Signed, Target::I2),
        ConvOp::OvfI4 => (Check::Signed, Target::I4),
        ConvOp::OvfI8 => (Check::Signed, Target::I8),
        ConvOp::OvfI => (Check::Signed, Target::I),
        ConvOp::OvfU1 => (Check::Signed, Target::U1),
        ConvOp::OvfU2 => (Check::Signed, Target::U2),
        ConvOp::OvfU4 => (Check::Signed, Target::U4),
        ConvOp::OvfU8 => (Check::Signed, Target::U8),
        ConvOp::OvfU => (Check::Signed, Target::U),
        ConvOp::OvfI1Un => (Check::Unsigned, Target::I1),
        ConvOp::OvfI2Un => (Check::Unsigned, Target::I2),
        ConvOp::OvfI4Un => (Check::Unsigned, Target::I4),
        ConvOp::OvfI8Un => (Check::Unsigned, Target::I8),
        ConvOp::OvfIUn => (Check::Unsigned, Target::I),
        ConvOp::OvfU1Un => (Check::Unsigned, Target::U1),
        ConvOp::OvfU2Un => (Check::Unsigned, Target::U2),
        ConvOp::OvfU4Un => (Check::Unsigned, Target::U4),
        ConvOp::OvfU8Un => (Check::Unsigned, Target::U8),
        ConvOp::OvfUUn => (Check::Unsigned, Target::U),
    }
}

/// The number's bits, widened to 64 by the target's sign.
fn widened(target: Target, a: Num) -> u64
    ensures { let t = type_of target in cut t (pos result) ≡ cut t (source t.reading a) }
{
    match target {
        Target::I1 | Target::I2 | Target::I4 | Target::I8 | Target::I => a
            .sign_extended()
            .cast_unsigned(),
        Target::U1 | Target::U2 | Target::U4 | Target::U8 | Target::U => a.zero_extended(),
    }
}

/// Whether a target holds a number.
fn holds(target: Target, number: i64) -> bool
    ensures { let t = type_of target in result ≡ holds t.reading t.size number }
{
    match target {
        Target::I1 => -0x80 <= number && number < 0x80,
        Target::I2 => -0x8000 <= number && number < 0x8000,
        Target::I4 => -0x8000_0000 <= number && number < 0x8000_0000,
        Target::I8 | Target::I => true,
        Target::U1 => 0 <= number && number < 0x100,
        Target::U2 => 0 <= number && number < 0x1_0000,
        Target::U4 => 0 <= number && number < 0x1_0000_0000,
        Target::U8 | Target::U => 0 <= number,
    }
}

/// Whether a target holds a number that isn't negative.
fn holds_unsigned(target: Target, number: u64) -> bool
    ensures { let t = type_of target in result ≡ holds t.reading t.size (pos number) }
{
    match target {
        Target::I1 => number < 0x80,
        Target::I2 => number < 0x8000,
        Target::I4 => number < 0x8000_0000,
        Target::I8 | Target::I => number < 0x8000_0000_0000_0000,
        Target::U1 => number < 0x100,
        Target::U2 => number < 0x1_0000,
        Target::U4 => number < 0x1_0000_0000,
        Target::U8 | Target::U => true,
    }
}

/// The target's low bits, widened by its sign to the kind that holds it.
fn low_bits(target: Target, bits: u64) -> Num
    ensures { result ≡ cut (type_of target) (pos bits) }
{
    match target {
        Target::I1 => Num::I32(i32::from(((bits % 0x100) as u8).cast_signed())),
        Target::I2 => Num::I32(i32::from(((bits % 0x1_0000) as u16).cast_signed())),
        Target::I4 | Target::U4 => Num::I32(((bits % 0x1_0000_0000) as u32).cast_signed()),
        Target::I8 | Target::U8 => Num::I64(bits.cast_signed()),
        Target::I | Target::U => Num::N(bits.cast_signed()),
        Target::U1 => Num::I32((bits % 0x100) as i32),
        Target::U2 => Num::I32((bits % 0x1_0000) as i32),
    }
}
