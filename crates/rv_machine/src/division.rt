//! Quotients and remainders (RISC-V unprivileged ISA, M extension, Division Operations).

ghost use Rattle.std.specs.Prelude.{◌≡◌, pos};
ghost use Rattle.rv_machine.specs.Words.{word, word32, signed, signed32, unsigned32, quotient};
ghost use Rattle.rv_machine.specs.Words.{remainder};

use crate::words::{extended, extended32, low32};

/// The quotient of signed words, rounded toward zero: all ones where the divisor is 0, the dividend where the least
/// number is divided by -1.
#[inline]
pub fn quotient_signed(a: u64, b: u64) -> u64
    ensures { result ≡ word (quotient (signed a) (signed b)) }
{
    if b == 0 {
        u64::MAX
    } else {
        extended(a.cast_signed().wrapping_div(b.cast_signed()))
    }
}

/// The quotient of unsigned words: all ones where the divisor is 0.
#[inline]
pub fn quotient_unsigned(a: u64, b: u64) -> u64
    ensures { result ≡ word (quotient (pos a) (pos b)) }
{
    if b == 0 { u64::MAX } else { a / b }
}

/// The remainder of signed words, with the dividend's sign: the dividend where the divisor is 0, and 0 where the least
/// number is divided by -1.
#[inline]
pub fn remainder_signed(a: u64, b: u64) -> u64
    ensures { result ≡ word (remainder (signed a) (signed b)) }
{
    if b == 0 {
        a
    } else {
        extended(a.cast_signed().wrapping_rem(b.cast_signed()))
    }
}

/// The remainder of unsigned words: the dividend where the divisor is 0.
#[inline]
pub fn remainder_unsigned(a: u64, b: u64) -> u64
    ensures { result ≡ word (remainder (pos a) (pos b)) }
{
    if b == 0 { a } else { a % b }
}

/// As `quotient_signed`, of the low 32 bits, and sign-extended.
#[inline]
pub fn quotient_signed32(a: u64, b: u64) -> u64
    ensures { result ≡ word32 (quotient (signed32 a) (signed32 b)) }
{
    let divisor = low32(b).cast_signed();
    if divisor == 0 {
        u64::MAX
    } else {
        extended(i64::from(low32(a).cast_signed().wrapping_div(divisor)))
    }
}

/// As `quotient_unsigned`, of the low 32 bits, and sign-extended.
#[inline]
pub fn quotient_unsigned32(a: u64, b: u64) -> u64
    ensures { result ≡ word32 (quotient (unsigned32 a) (unsigned32 b)) }
{
    let divisor = low32(b);
    if divisor == 0 {
        u64::MAX
    } else {
        extended32(u64::from(low32(a) / divisor))
    }
}

/// As `remainder_signed`, of the low 32 bits, and sign-extended.
#[inline]
pub fn remainder_signed32(a: u64, b: u64) -> u64
    ensures { result ≡ word32 (remainder (signed32 a) (signed32 b)) }
{
    let divisor = low32(b).cast_signed();
    if divisor == 0 {
        extended32(a)
    } else {
        extended(i64::from(low32(a).cast_signed().wrapping_rem(divisor)))
    }
}

/// As `remainder_unsigned`, of the low 32 bits, and sign-extended.
#[inline]
pub fn remainder_unsigned32(a: u64, b: u64) -> u64
    ensures { result ≡ word32 (remainder (unsigned32 a) (unsigned32 b)) }
{
    let divisor = low32(b);
    let rest = if divisor == 0 {
        low32(a)
    } else {
        low32(a) % divisor
    };
    extended32(u64::from(rest))
}
