//! The instruction of a word, by opcode, funct3, and funct7 or funct6 (RISC-V unprivileged ISA, RV32/64G Instruction Set
//! Listings).

ghost use Rattle.std.specs.Prelude.{◌≡◌, ◌↔◌, Some};
ghost use Rattle.rv_decode.specs.declared.instr.Instr.{Instr};
ghost use Rattle.rv_decode.specs.Fields.{bits};
ghost use Rattle.rv_decode.specs.Encoding.{encoding};
ghost use Rattle.rv_decode.specs.Decoding.{decoded, funct3_of, funct6_of, funct7_of, rd_of, rs1_of, rs2_of, shamt64_of, shamt32_of, i_imm, s_imm, b_imm, branch, load, store, op_imm, op_imm_32, op, op_base, op_other, op_mul, op_32, op_32_base, op_32_other, op_32_mul, jump_register, misc_mem, system};

use crate::fields::{
    b_immediate, field, i_immediate, j_immediate, rd, rs1, rs2, s_immediate, shamt32, shamt64,
    u_immediate,
};
use crate::instr::Instr;
use crate::opcodes::{
    AUIPC, BRANCH, JAL, JALR, LOAD, LUI, MISC_MEM, OP, OP_32, OP_IMM, OP_IMM_32, STORE, SYSTEM,
};

/// The instruction that has the word; None where no instruction of RV64I or M has it (RISC-V unprivileged ISA, RV32/64G
/// Instruction Set Listings).
///
/// A FENCE keeps its fields, whatever they are. Not read are FENCE.I, the instructions on control and status registers, and
/// words that only other extensions have. A hint of another extension is read as the instruction that its word is.
pub fn decode(word: u32) -> Option<Instr>
    ensures value { result ≡ decoded word }
    ensures encoded { (i : Instr) → (result ≡ Some i) ↔ (encoding i ≡ Some word) }
{
    by_opcode(word)
}

/// The instruction, by the function of its opcode.
#[tactic(auto, unfolding(crate::specs::Decoding::decoded))]
fn by_opcode(word: u32) -> Option<Instr>
    ensures { result ≡ decoded word }
{
    match field(word, 0, 7) {
        LOAD => load(word),
        MISC_MEM => misc_mem(word),
        OP_IMM => op_imm(word),
        AUIPC => Some(Instr::Auipc {
            rd: rd(word),
            imm: u_immediate(word),
        }),
        OP_IMM_32 => op_imm_32(word),
        STORE => store(word),
        OP => op(word),
        LUI => Some(Instr::Lui {
            rd: rd(word),
            imm: u_immediate(word),
        }),
        OP_32 => op_32(word),
        BRANCH => branch(word),
        JALR => jump_register(word),
        JAL => Some(Instr::Jal {
            rd: rd(word),
            offset: j_immediate(word),
        }),
        SYSTEM => system(word),
        _ => None,
    }
}

/// The field funct3, which tells the instructions of an opcode apart.
#[inline]
fn funct3(word: u32) -> u32
    ensures { result ≡ funct3_of word }
{
    field(word, 12, 3)
}

/// Opcode LOAD.
#[tactic(auto, unfolding(crate::specs::Decoding::load))]
fn load(word: u32) -> Option<Instr>
    ensures { result ≡ load (funct3_of word) (rd_of word) (rs1_of word) (i_imm word) }
{
    let (rd, rs1, imm) = (rd(word), rs1(word), i_immediate(word));
    match funct3(word) {
        0 => Some(Instr::Lb { rd, rs1, imm }),
        1 => Some(Instr::Lh { rd, rs1, imm }),
        2 => Some(Instr::Lw { rd, rs1, imm }),
        3 => Some(Instr::Ld { rd, rs1, imm }),
        4 => Some(Instr::Lbu { rd, rs1, imm }),
        5 => Some(Instr::Lhu { rd, rs1, imm }),
        6 => Some(Instr::Lwu { rd, rs1, imm }),
        _ => None,
    }
}

/// Opcode STORE.
#[tactic(auto, unfolding(crate::specs::Decoding::store))]
fn store(word: u32) -> Option<Instr>
    ensures { result ≡ store (funct3_of word) (rs1_of word) (rs2_of word) (s_imm word) }
{
    let (rs1, rs2, imm) = (rs1(word), rs2(word), s_immediate(word));
    match funct3(word) {
        0 => Some(Instr::Sb { rs1, rs2, imm }),
        1 => Some(Instr::Sh { rs1, rs2, imm }),
        2 => Some(Instr::Sw { rs1, rs2, imm }),
        3 => Some(Instr::Sd { rs1, rs2, imm }),
        _ => None,
    }
}

/// Opcode BRANCH.
#[tactic(auto, unfolding(crate::specs::Decoding::branch))]
fn branch(word: u32) -> Option<Instr>
    ensures { result ≡ branch (funct3_of word) (rs1_of word) (rs2_of word) (b_imm word) }
{
    let (rs1, rs2, offset) = (rs1(word), rs2(word), b_immediate(word));
    match funct3(word) {
        0 => Some(Instr::Beq { rs1, rs2, offset }),
        1 => Some(Instr::Bne { rs1, rs2, offset }),
        4 => Some(Instr::Blt { rs1, rs2, offset }),
        5 => Some(Instr::Bge { rs1, rs2, offset }),
        6 => Some(Instr::Bltu { rs1, rs2, offset }),
        7 => Some(Instr::Bgeu { rs1, rs2, offset }),
        _ => None,
    }
}

/// Opcode JALR.
#[tactic(auto, unfolding(crate::specs::Decoding::jump_register))]
fn jump_register(word: u32) -> Option<Instr>
    ensures { result ≡ jump_register (funct3_of word) (rd_of word) (rs1_of word) (i_imm word) }
{
    let (rd, rs1, imm) = (rd(word), rs1(word), i_immediate(word));
    match funct3(word) {
        0 => Some(Instr::Jalr { rd, rs1, imm }),
        _ => None,
    }
}

/// Opcode OP-IMM.
#[tactic(auto, unfolding(crate::specs::Decoding::op_imm))]
fn op_imm(word: u32) -> Option<Instr>
    ensures { result
        ≡ op_imm (funct3_of word) (funct6_of word) (rd_of word) (rs1_of word) (i_imm word) (shamt64_of word) }
{
    let (rd, rs1, imm, shamt) = (rd(word), rs1(word), i_immediate(word), shamt64(word));
    match funct3(word) {
        0 => Some(Instr::Addi { rd, rs1, imm }),
        1 => match field(word, 26, 6) {
            0x00 => Some(Instr::Slli { rd, rs1, shamt }),
            _ => None,
        },
        2 => Some(Instr::Slti { rd, rs1, imm }),
        3 => Some(Instr::Sltiu { rd, rs1, imm }),
        4 => Some(Instr::Xori { rd, rs1, imm }),
        5 => match field(word, 26, 6) {
            0x00 => Some(Instr::Srli { rd, rs1, shamt }),
            0x10 => Some(Instr::Srai { rd, rs1, shamt }),
            _ => None,
        },
        6 => Some(Instr::Ori { rd, rs1, imm }),
        7 => Some(Instr::Andi { rd, rs1, imm }),
        _ => None,
    }
}

/// Opcode OP-IMM-32.
#[tactic(auto, unfolding(crate::specs::Decoding::op_imm_32))]
fn op_imm_32(word: u32) -> Option<Instr>
    ensures { result
        ≡ op_imm_32 (funct3_of word) (funct7_of word) (rd_of word) (rs1_of word) (i_imm word) (shamt32_of word) }
{
    let (rd, rs1, shamt) = (rd(word), rs1(word), shamt32(word));
    match (funct3(word), field(word, 25, 7)) {
        (0, _) => Some(Instr::Addiw {
            rd,
            rs1,
            imm: i_immediate(word),
        }),
        (1, 0x00) => Some(Instr::Slliw { rd, rs1, shamt }),
        (5, 0x00) => Some(Instr::Srliw { rd, rs1, shamt }),
        (5, 0x20) => Some(Instr::Sraiw { rd, rs1, shamt }),
        _ => None,
    }
}

/// Opcode OP.
#[tactic(auto, unfolding(crate::specs::Decoding::op))]
fn op(word: u32) -> Option<Instr>
    ensures { result
        ≡ op (funct3_of word) (funct7_of word) (rd_of word) (rs1_of word) (rs2_of word) }
{
    match field(word, 25, 7) {
        0x00 => op_base(word),
        0x20 => op_other(word),
        0x01 => op_mul(word),
        _ => None,
    }
}

/// Opcode OP with funct7 0.
#[tactic(auto, unfolding(crate::specs::Decoding::op_base))]
fn op_base(word: u32) -> Option<Instr>
    ensures { result ≡ op_base (funct3_of word) (rd_of word) (rs1_of word) (rs2_of word) }
{
    let (rd, rs1, rs2) = (rd(word), rs1(word), rs2(word));
    match funct3(word) {
        0 => Some(Instr::Add { rd, rs1, rs2 }),
        1 => Some(Instr::Sll { rd, rs1, rs2 }),
        2 => Some(Instr::Slt { rd, rs1, rs2 }),
        3 => Some(Instr::Sltu { rd, rs1, rs2 }),
        4 => Some(Instr::Xor { rd, rs1, rs2 }),
        5 => Some(Instr::Srl { rd, rs1, rs2 }),
        6 => Some(Instr::Or { rd, rs1, rs2 }),
        7 => Some(Instr::And { rd, rs1, rs2 }),
        _ => None,
    }
}

/// Opcode OP with bit 30 set.
#[tactic(auto, unfolding(crate::specs::Decoding::op_other))]
fn op_other(word: u32) -> Option<Instr>
    ensures { result ≡ op_other (funct3_of word) (rd_of word) (rs1_of word) (rs2_of word) }
{
    let (rd, rs1, rs2) = (rd(word), rs1(word), rs2(word));
    match funct3(word) {
        0 => Some(Instr::Sub { rd, rs1, rs2 }),
        5 => Some(Instr::Sra { rd, rs1, rs2 }),
        _ => None,
    }
}

/// Opcode OP with funct7 1: the M extension.
#[tactic(auto, unfolding(crate::specs::Decoding::op_mul))]
fn op_mul(word: u32) -> Option<Instr>
    ensures { result ≡ op_mul (funct3_of word) (rd_of word) (rs1_of word) (rs2_of word) }
{
    let (rd, rs1, rs2) = (rd(word), rs1(word), rs2(word));
    match funct3(word) {
        0 => Some(Instr::Mul { rd, rs1, rs2 }),
        1 => Some(Instr::Mulh { rd, rs1, rs2 }),
        2 => Some(Instr::Mulhsu { rd, rs1, rs2 }),
        3 => Some(Instr::Mulhu { rd, rs1, rs2 }),
        4 => Some(Instr::Div { rd, rs1, rs2 }),
        5 => Some(Instr::Divu { rd, rs1, rs2 }),
        6 => Some(Instr::Rem { rd, rs1, rs2 }),
        7 => Some(Instr::Remu { rd, rs1, rs2 }),
        _ => None,
    }
}

/// Opcode OP-32.
#[tactic(auto, unfolding(crate::specs::Decoding::op_32))]
fn op_32(word: u32) -> Option<Instr>
    ensures { result
        ≡ op_32 (funct3_of word) (funct7_of word) (rd_of word) (rs1_of word) (rs2_of word) }
{
    match field(word, 25, 7) {
        0x00 => op_32_base(word),
        0x20 => op_32_other(word),
        0x01 => op_32_mul(word),
        _ => None,
    }
}

/// Opcode OP-32 with funct7 0.
#[tactic(auto, unfolding(crate::specs::Decoding::op_32_base))]
fn op_32_base(word: u32) -> Option<Instr>
    ensures { result ≡ op_32_base (funct3_of word) (rd_of word) (rs1_of word) (rs2_of word) }
{
    let (rd, rs1, rs2) = (rd(word), rs1(word), rs2(word));
    match funct3(word) {
        0 => Some(Instr::Addw { rd, rs1, rs2 }),
        1 => Some(Instr::Sllw { rd, rs1, rs2 }),
        5 => Some(Instr::Srlw { rd, rs1, rs2 }),
        _ => None,
    }
}

/// Opcode OP-32 with bit 30 set.
#[tactic(auto, unfolding(crate::specs::Decoding::op_32_other))]
fn op_32_other(word: u32) -> Option<Instr>
    ensures { result ≡ op_32_other (funct3_of word) (rd_of word) (rs1_of word) (rs2_of word) }
{
    let (rd, rs1, rs2) = (rd(word), rs1(word), rs2(word));
    match funct3(word) {
        0 => Some(Instr::Subw { rd, rs1, rs2 }),
        5 => Some(Instr::Sraw { rd, rs1, rs2 }),
        _ => None,
    }
}

/// Opcode OP-32 with funct7 1: the M extension.
#[tactic(auto, unfolding(crate::specs::Decoding::op_32_mul))]
fn op_32_mul(word: u32) -> Option<Instr>
    ensures { result ≡ op_32_mul (funct3_of word) (rd_of word) (rs1_of word) (rs2_of word) }
{
    let (rd, rs1, rs2) = (rd(word), rs1(word), rs2(word));
    match funct3(word) {
        0 => Some(Instr::Mulw { rd, rs1, rs2 }),
        4 => Some(Instr::Divw { rd, rs1, rs2 }),
        5 => Some(Instr::Divuw { rd, rs1, rs2 }),
        6 => Some(Instr::Remw { rd, rs1, rs2 }),
        7 => Some(Instr::Remuw { rd, rs1, rs2 }),
        _ => None,
    }
}

/// Opcode MISC-MEM.
#[tactic(auto, unfolding(crate::specs::Decoding::misc_mem))]
fn misc_mem(word: u32) -> Option<Instr>
    ensures { result
        ≡ misc_mem (funct3_of word) (bits word 28 4) (bits word 24 4) (bits word 20 4)
        (rs1_of word) (rd_of word) }
{
    match funct3(word) {
        0 => Some(Instr::Fence {
            fm: field(word, 28, 4) as u8,
            pred: field(word, 24, 4) as u8,
            succ: field(word, 20, 4) as u8,
            rs1: rs1(word),
            rd: rd(word),
        }),
        _ => None,
    }
}

/// Opcode SYSTEM: of its words, two are instructions of the base.
#[tactic(auto, unfolding(crate::specs::Decoding::system))]
fn system(word: u32) -> Option<Instr>
    ensures { result ≡ system word }
{
    match word {
        0x0000_0073 => Some(Instr::Ecall),
        0x0010_0073 => Some(Instr::Ebreak),
        _ => None,
    }
}
