//! The words of the formats (RISC-V unprivileged ISA, Base Instruction Formats): field behind field, the highest first.

ghost use Rattle.std.specs.Prelude.{◌≡◌, ◌+◌, ◌*◌, ◌^◌, ◌<◌};
ghost use Rattle.rv_decode.specs.Fields.{holds, twos_complement};
ghost use Rattle.rv_decode.specs.Formats.{word_if, r_type, i_type, s_type, b_type, u_type, j_type, shift64_type, shift32_type, fence_type};

use crate::fields::field;

/// The bits of `high`, and behind them `low` in `width` bits.
#[tactic(auto, using(crate::proofs::Shifts::behind))]
fn append(high: u32, low: u32, width: u32) -> u32
    requires width { width < 32 }
    requires low { low < 2 ^ width }
    requires fits { high * 2 ^ width + low < 2 ^ 32 }
    ensures { result ≡ high * 2 ^ width + low }
{
    high << width | low
}

/// The two's complement of an immediate in `width` bits; None where they don't hold it.
fn immediate_bits(imm: i32, width: u32) -> Option<u32>
    requires some { 0 < width }
    requires part { width < 31 }
    ensures { result ≡ word_if (holds width imm) (twos_complement width imm) }
{
    let magnitude = imm.unsigned_abs();
    let half = 1 << (width - 1);
    if imm < 0 {
        if magnitude > half {
            None
        } else {
            Some((1 << width) - magnitude)
        }
    } else if magnitude < half {
        Some(magnitude)
    } else {
        None
    }
}

/// The word of format R; None where a register is above 31.
#[tactic(auto, unfolding(crate::specs::Formats::r_type))]
pub fn r_word(opcode: u32, funct3: u32, funct7: u32, rd: u8, rs1: u8, rs2: u8) -> Option<u32>
    requires opcode { opcode < 128 }
    requires funct3 { funct3 < 8 }
    requires funct7 { funct7 < 128 }
    ensures { result ≡ r_type opcode funct3 funct7 rd rs1 rs2 }
{
    if rd > 31 || rs1 > 31 || rs2 > 31 {
        return None;
    }
    let word = append(funct7, u32::from(rs2), 5);
    let word = append(word, u32::from(rs1), 5);
    let word = append(word, funct3, 3);
    let word = append(word, u32::from(rd), 5);
    Some(append(word, opcode, 7))
}

/// The word of format I; None where a register is above 31 or the immediate has more than 12 bits.
#[tactic(auto, unfolding(crate::specs::Formats::i_type))]
pub fn i_word(opcode: u32, funct3: u32, rd: u8, rs1: u8, imm: i32) -> Option<u32>
    requires opcode { opcode < 128 }
    requires funct3 { funct3 < 8 }
    ensures { result ≡ i_type opcode funct3 rd rs1 imm }
{
    if rd > 31 || rs1 > 31 {
        return None;
    }
    let word = immediate_bits(imm, 12)?;
    let word = append(word, u32::from(rs1), 5);
    let word = append(word, funct3, 3);
    let word = append(word, u32::from(rd), 5);
    Some(append(word, opcode, 7))
}

/// The word of format S; None where a register is above 31 or the immediate has more than 12 bits.
#[tactic(auto, unfolding(crate::specs::Formats::s_type))]
pub fn s_word(opcode: u32, funct3: u32, rs1: u8, rs2: u8, imm: i32) -> Option<u32>
    requires opcode { opcode < 128 }
    requires funct3 { funct3 < 8 }
    ensures { result ≡ s_type opcode funct3 rs1 rs2 imm }
{
    if rs1 > 31 || rs2 > 31 {
        return None;
    }
    let imm = immediate_bits(imm, 12)?;
    let word = append(field(imm, 5, 7), u32::from(rs2), 5);
    let word = append(word, u32::from(rs1), 5);
    let word = append(word, funct3, 3);
    let word = append(word, field(imm, 0, 5), 5);
    Some(append(word, opcode, 7))
}

/// The word of format B; None where a register is above 31, or the distance is odd or has more than 13 bits.
#[tactic(auto, unfolding(crate::specs::Formats::b_type))]
pub fn b_word(opcode: u32, funct3: u32, rs1: u8, rs2: u8, offset: i32) -> Option<u32>
    requires opcode { opcode < 128 }
    requires funct3 { funct3 < 8 }
    ensures { result ≡ b_type opcode funct3 rs1 rs2 offset }
{
    if rs1 > 31 || rs2 > 31 || offset.unsigned_abs() % 2 != 0 {
        return None;
    }
    let imm = immediate_bits(offset, 13)?;
    let word = append(field(imm, 12, 1), field(imm, 5, 6), 6);
    let word = append(word, u32::from(rs2), 5);
    let word = append(word, u32::from(rs1), 5);
    let word = append(word, funct3, 3);
    let word = append(word, field(imm, 1, 4), 4);
    let word = append(word, field(imm, 11, 1), 1);
    Some(append(word, opcode, 7))
}

/// The word of format U; None where the register is above 31 or the upper part has more than 20 bits.
#[tactic(auto, unfolding(crate::specs::Formats::u_type))]
pub fn u_word(opcode: u32, rd: u8, imm: i32) -> Option<u32>
    requires { opcode < 128 }
    ensures { result ≡ u_type opcode rd imm }
{
    if rd > 31 {
        return None;
    }
    let word = immediate_bits(imm, 20)?;
    let word = append(word, u32::from(rd), 5);
    Some(append(word, opcode, 7))
}

/// The word of format J; None where the register is above 31, or the distance is odd or has more than 21 bits.
#[tactic(auto, unfolding(crate::specs::Formats::j_type))]
pub fn j_word(opcode: u32, rd: u8, offset: i32) -> Option<u32>
    requires { opcode < 128 }
    ensures { result ≡ j_type opcode rd offset }
{
    if rd > 31 || offset.unsigned_abs() % 2 != 0 {
        return None;
    }
    let imm = immediate_bits(offset, 21)?;
    let word = append(field(imm, 20, 1), field(imm, 1, 10), 10);
    let word = append(word, field(imm, 11, 1), 1);
    let word = append(word, field(imm, 12, 8), 8);
    let word = append(word, u32::from(rd), 5);
    Some(append(word, opcode, 7))
}

/// The word of a shift of 64 bits; None where a register is above 31 or the amount above 63.
#[tactic(auto, unfolding(crate::specs::Formats::shift64_type))]
pub fn shift64_word(
    opcode: u32,
    funct3: u32,
    funct6: u32,
    rd: u8,
    rs1: u8,
    shamt: u8,
) -> Option<u32>
    requires opcode { opcode < 128 }
    requires funct3 { funct3 < 8 }
    requires funct6 { funct6 < 64 }
    ensures { result ≡ shift64_type opcode funct3 funct6 rd rs1 shamt }
{
    if rd > 31 || rs1 > 31 || shamt > 63 {
        return None;
    }
    let word = append(funct6, u32::from(shamt), 6);
    let word = append(word, u32::from(rs1), 5);
    let word = append(word, funct3, 3);
    let word = append(word, u32::from(rd), 5);
    Some(append(word, opcode, 7))
}

/// The word of a shift of 32 bits; None where a register or the amount is above 31.
#[tactic(auto, unfolding(crate::specs::Formats::shift32_type))]
pub fn shift32_word(
    opcode: u32,
    funct3: u32,
    funct7: u32,
    rd: u8,
    rs1: u8,
    shamt: u8,
) -> Option<u32>
    requires opcode { opcode < 128 }
    requires funct3 { funct3 < 8 }
    requires funct7 { funct7 < 128 }
    ensures { result ≡ shift32_type opcode funct3 funct7 rd rs1 shamt }
{
    if rd > 31 || rs1 > 31 || shamt > 31 {
        return None;
    }
    let word = append(funct7, u32::from(shamt), 5);
    let word = append(word, u32::from(rs1), 5);
    let word = append(word, funct3, 3);
    let word = append(word, u32::from(rd), 5);
    Some(append(word, opcode, 7))
}

/// The word of FENCE; None where a register is above 31, or the mode, the predecessors or the successors above 15.
#[tactic(auto, unfolding(crate::specs::Formats::fence_type))]
pub fn fence_word(
    opcode: u32,
    funct3: u32,
    fm: u8,
    before: u8,
    after: u8,
    rs1: u8,
    rd: u8,
) -> Option<u32>
    requires opcode { opcode < 128 }
    requires funct3 { funct3 < 8 }
    ensures { result ≡ fence_type opcode funct3 fm before after rs1 rd }
{
    if fm > 15 || before > 15 || after > 15 || rs1 > 31 || rd > 31 {
        return None;
    }
    let word = append(u32::from(fm), u32::from(before), 4);
    let word = append(word, u32::from(after), 4);
    let word = append(word, u32::from(rs1), 5);
    let word = append(word, funct3, 3);
    let word = append(word, u32::from(rd), 5);
    Some(append(word, opcode, 7))
}
