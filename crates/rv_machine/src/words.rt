//! Signed numbers as words.

ghost use Rattle.std.specs.Prelude.{◌≡◌, ◌%◌, ◌^◌, pos, ◌*ℤ◌};
ghost use Rattle.rv_machine.specs.Words.{word, word32};

/// A signed number as a word, sign-extended.
#[inline]
pub fn extended(number: i64) -> u64
    ensures { result ≡ word number }
{
    number.cast_unsigned()
}

/// The low 32 bits of a word, sign-extended.
#[inline]
pub fn extended32(value: u64) -> u64
    ensures { result ≡ word32 (pos value) }
{
    extended(i64::from(low32(value).cast_signed()))
}

/// The low 32 bits of a word.
#[inline]
pub fn low32(value: u64) -> u32
    ensures { result ≡ value % 2 ^ 32 }
{
    (value & 0xFFFF_FFFF) as u32
}

/// An immediate in the upper bits of 32.
#[inline]
pub fn upper(imm: i32) -> i64
    ensures { result ≡ imm *ℤ pos (2 ^ 12) }
{
    i64::from(imm) * 4096
}
