//! Sums, shifts and comparisons (RISC-V unprivileged ISA, RV32I and RV64I, Integer Computational Instructions).

ghost use Rattle.std.specs.Prelude.{◌≡◌, ◌%◌, ◌*◌, ◌^◌, pos, ◌+ℤ◌, ◌-ℤ◌, int_lt};
ghost use Rattle.rv_machine.specs.Words.{word, word32, signed, signed32, unsigned32, flag};
ghost use Rattle.rv_machine.specs.Words.{shifted_right};

use crate::words::{extended, extended32, low32};

/// The sum of a word and a signed number.
#[inline]
pub fn offset_by(base: u64, offset: i64) -> u64
    ensures { result ≡ word (pos base +ℤ offset) }
{
    base.wrapping_add(extended(offset))
}

/// The sum of two words.
#[inline]
pub fn sum(a: u64, b: u64) -> u64
    ensures { result ≡ word (pos a +ℤ pos b) }
{
    a.wrapping_add(b)
}

/// The first word less the second.
#[inline]
pub fn difference(a: u64, b: u64) -> u64
    ensures { result ≡ word (pos a -ℤ pos b) }
{
    a.wrapping_sub(b)
}

/// The sum of a word and a signed number, in 32 bits, sign-extended.
#[inline]
pub fn offset_by32(base: u64, offset: i64) -> u64
    ensures { result ≡ word32 (pos base +ℤ offset) }
{
    extended32(base.wrapping_add(extended(offset)))
}

/// The sum of two words, in 32 bits, sign-extended.
#[inline]
pub fn sum32(a: u64, b: u64) -> u64
    ensures { result ≡ word32 (pos a +ℤ pos b) }
{
    extended32(a.wrapping_add(b))
}

/// The first word less the second, in 32 bits, sign-extended.
#[inline]
pub fn difference32(a: u64, b: u64) -> u64
    ensures { result ≡ word32 (pos a -ℤ pos b) }
{
    extended32(a.wrapping_sub(b))
}

/// 1 where a test holds, else 0.
#[inline]
pub fn flag(test: bool) -> u64
    ensures { result ≡ flag test }
{
    u64::from(test)
}

/// The first word is less than the second, both read as signed numbers.
#[inline]
pub fn is_less(a: u64, b: u64) -> bool
    ensures { result ≡ int_lt (signed a) (signed b) }
{
    a.cast_signed() < b.cast_signed()
}

/// The word, read as a signed number, is less than a number.
#[inline]
pub fn is_less_than(a: u64, number: i64) -> bool
    ensures { result ≡ int_lt (signed a) number }
{
    a.cast_signed() < number
}

/// A word shifted to the left by the low 6 bits of an amount.
#[inline]
pub fn left_shift(a: u64, amount: u64) -> u64
    ensures { result ≡ word (pos (a * 2 ^ (amount % 64))) }
{
    a << (amount % 64)
}

/// A word shifted to the right by the low 6 bits of an amount, with zeros from above.
#[inline]
pub fn logical_shift(a: u64, amount: u64) -> u64
    ensures { result ≡ word (shifted_right (pos a) (amount % 64)) }
{
    a >> (amount % 64)
}

/// The same with copies of the sign bit from above.
#[inline]
pub fn arithmetic_shift(a: u64, amount: u64) -> u64
    ensures { result ≡ word (shifted_right (signed a) (amount % 64)) }
{
    extended(a.cast_signed() >> (amount % 64))
}

/// The low 32 bits of a word shifted to the left by the low 5 bits of an amount, in 32 bits, sign-extended.
#[inline]
pub fn left_shift32(a: u64, amount: u64) -> u64
    ensures { result ≡ word32 (pos (a * 2 ^ (amount % 32))) }
{
    extended32(a << (amount % 32))
}

/// The low 32 bits of a word shifted to the right by the low 5 bits of an amount, with zeros from above, sign-extended.
#[inline]
pub fn logical_shift32(a: u64, amount: u64) -> u64
    ensures { result ≡ word32 (shifted_right (unsigned32 a) (amount % 32)) }
{
    extended32(u64::from(low32(a) >> (amount % 32)))
}

/// The same with copies of bit 31 from above.
#[inline]
pub fn arithmetic_shift32(a: u64, amount: u64) -> u64
    ensures { result ≡ word32 (shifted_right (signed32 a) (amount % 32)) }
{
    extended(i64::from(low32(a).cast_signed() >> (amount % 32)))
}
