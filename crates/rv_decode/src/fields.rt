//! The fields of a word, and its immediates (RISC-V unprivileged ISA, Immediate Encoding Variants).

ghost use Rattle.std.specs.Prelude.{◌≡◌, ◌+◌, ◌^◌, ◌<◌, ◌≤◌};
ghost use Rattle.rv_decode.specs.Fields.{bits, signed};
ghost use Rattle.rv_decode.specs.Decoding.{rd_of, rs1_of, rs2_of, shamt64_of, shamt32_of, i_imm, s_imm, b_imm, u_imm, j_imm};

/// The bits of a word from bit `low` up, `width` of them.
#[inline]
pub fn field(word: u32, low: u32, width: u32) -> u32
    requires some { 0 < width }
    requires within { low + width ≤ 32 }
    requires part { width < 32 }
    ensures { result ≡ bits word low width }
{
    (word >> low) & ((1 << width) - 1)
}

/// The signed number whose two's complement of `width` bits is `value`.
#[inline]
pub fn sign_extended(value: u32, width: u32) -> i32
    requires some { 0 < width }
    requires part { width < 31 }
    requires holds { value < 2 ^ width }
    ensures { result ≡ signed width value }
{
    if value < 1 << (width - 1) {
        value as i32
    } else {
        value as i32 - (1 << width) as i32
    }
}

/// The destination register.
#[inline]
pub fn rd(word: u32) -> u8
    ensures { result ≡ rd_of word }
{
    field(word, 7, 5) as u8
}

/// The first source register.
#[inline]
pub fn rs1(word: u32) -> u8
    ensures { result ≡ rs1_of word }
{
    field(word, 15, 5) as u8
}

/// The second source register.
#[inline]
pub fn rs2(word: u32) -> u8
    ensures { result ≡ rs2_of word }
{
    field(word, 20, 5) as u8
}

/// The amount of a shift of 64 bits.
#[inline]
pub fn shamt64(word: u32) -> u8
    ensures { result ≡ shamt64_of word }
{
    field(word, 20, 6) as u8
}

/// The amount of a shift of 32 bits.
#[inline]
pub fn shamt32(word: u32) -> u8
    ensures { result ≡ shamt32_of word }
{
    field(word, 20, 5) as u8
}

/// The immediate of format I.
#[inline]
pub fn i_immediate(word: u32) -> i32
    ensures { result ≡ i_imm word }
{
    sign_extended(field(word, 20, 12), 12)
}

/// The immediate of format S.
#[inline]
pub fn s_immediate(word: u32) -> i32
    ensures { result ≡ s_imm word }
{
    sign_extended((field(word, 25, 7) << 5) + field(word, 7, 5), 12)
}

/// The distance of format B, in bytes.
#[inline]
pub fn b_immediate(word: u32) -> i32
    ensures { result ≡ b_imm word }
{
    let value = (field(word, 31, 1) << 12)
        + (field(word, 7, 1) << 11)
        + (field(word, 25, 6) << 5)
        + (field(word, 8, 4) << 1);
    sign_extended(value, 13)
}

/// The upper part of format U, without the 12 zeros below it.
#[inline]
pub fn u_immediate(word: u32) -> i32
    ensures { result ≡ u_imm word }
{
    sign_extended(field(word, 12, 20), 20)
}

/// The distance of format J, in bytes.
#[inline]
pub fn j_immediate(word: u32) -> i32
    ensures { result ≡ j_imm word }
{
    let value = (field(word, 31, 1) << 20)
        + (field(word, 12, 8) << 12)
        + (field(word, 20, 1) << 11)
        + (field(word, 21, 10) << 1);
    sign_extended(value, 21)
}
