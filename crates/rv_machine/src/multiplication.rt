//! Products (RISC-V unprivileged ISA, M extension, Multiplication Operations).

ghost use Rattle.std.specs.Prelude.{◌≡◌, pos, ◌*ℤ◌};
ghost use Rattle.rv_machine.specs.Words.{word, word32, signed, shifted_right};

use crate::words::{extended, extended32};

/// The low 64 bits of a product.
#[inline]
pub fn product(a: u64, b: u64) -> u64
    ensures { result ≡ word (pos a *ℤ pos b) }
{
    a.wrapping_mul(b)
}

/// The low 32 bits of a product, sign-extended.
#[inline]
pub fn product32(a: u64, b: u64) -> u64
    ensures { result ≡ word32 (pos a *ℤ pos b) }
{
    extended32(a.wrapping_mul(b))
}

/// The high 64 bits of the product of two signed words.
#[inline]
pub fn high_signed(a: u64, b: u64) -> u64
    ensures { result ≡ word (shifted_right (signed a *ℤ signed b) 64) }
{
    let whole = i128::from(a.cast_signed()) * i128::from(b.cast_signed());
    extended((whole >> 64) as i64)
}

/// The high 64 bits of the product of a signed word and an unsigned one.
#[inline]
pub fn high_mixed(a: u64, b: u64) -> u64
    ensures { result ≡ word (shifted_right (signed a *ℤ pos b) 64) }
{
    let whole = i128::from(a.cast_signed()) * i128::from(b);
    extended((whole >> 64) as i64)
}

/// The high 64 bits of the product of two unsigned words.
#[inline]
pub fn high_unsigned(a: u64, b: u64) -> u64
    ensures { result ≡ word (shifted_right (pos a *ℤ pos b) 64) }
{
    let whole = u128::from(a) * u128::from(b);
    (whole >> 64) as u64
}
