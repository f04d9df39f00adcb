//! The instructions, each with its effect (RISC-V unprivileged ISA, RV32I, RV64I and M).

ghost use Rattle.std.specs.Prelude.{◌≡◌, pos, ◌+ℤ◌};
ghost use Rattle.rv_machine.specs.Words.{word};
ghost use Rattle.rv_machine.specs.Registers.{register};
ghost use Rattle.rv_machine.specs.Instructions.{effect};

use crate::arithmetic::{
    arithmetic_shift, arithmetic_shift32, difference, difference32, flag, is_less, is_less_than,
    left_shift, left_shift32, logical_shift, logical_shift32, offset_by, offset_by32, sum, sum32,
};
use crate::division::{
    quotient_signed, quotient_signed32, quotient_unsigned, quotient_unsigned32, remainder_signed,
    remainder_signed32, remainder_unsigned, remainder_unsigned32,
};
use crate::effect::Effect::{self, Branch, Jump, Load, Nothing, Set, Store, Trap};
use crate::effect::Width::{Byte, Double, Half, Word};
use crate::multiplication::{high_mixed, high_signed, high_unsigned, product, product32};
use crate::registers::Regs;
use crate::words::{extended, upper};
use rv_decode::Instr;

/// What an instruction does, by the registers and the pc before it.
#[inline]
pub fn effect_of(instr: Instr, regs: &Regs) -> Effect
    ensures { result ≡ effect instr regs.now.pc (register regs.now.x) }
{
    match instr {
        Instr::Lui { rd, imm } => Set(rd, extended(upper(imm))),
        Instr::Auipc { rd, imm } => Set(rd, offset_by(regs.pc, upper(imm))),
        Instr::Jal { rd, offset } => Jump(rd, target(regs, offset)),
        Instr::Jalr { rd, rs1, imm } => Jump(rd, address(regs, rs1, imm) & !1),
        Instr::Beq { rs1, rs2, offset } => branch(regs.x(rs1) == regs.x(rs2), regs, offset),
        Instr::Bne { rs1, rs2, offset } => branch(regs.x(rs1) != regs.x(rs2), regs, offset),
        Instr::Blt { rs1, rs2, offset } => branch(is_less(regs.x(rs1), regs.x(rs2)), regs, offset),
        Instr::Bge { rs1, rs2, offset } => branch(!is_less(regs.x(rs1), regs.x(rs2)), regs, offset),
        Instr::Bltu { rs1, rs2, offset } => branch(regs.x(rs1) < regs.x(rs2), regs, offset),
        Instr::Bgeu { rs1, rs2, offset } => branch(regs.x(rs1) >= regs.x(rs2), regs, offset),
        Instr::Lb { rd, rs1, imm } => Load(rd, address(regs, rs1, imm), Byte, true),
        Instr::Lh { rd, rs1, imm } => Load(rd, address(regs, rs1, imm), Half, true),
        Instr::Lw { rd, rs1, imm } => Load(rd, address(regs, rs1, imm), Word, true),
        Instr::Ld { rd, rs1, imm } => Load(rd, address(regs, rs1, imm), Double, true),
        Instr::Lbu { rd, rs1, imm } => Load(rd, address(regs, rs1, imm), Byte, false),
        Instr::Lhu { rd, rs1, imm } => Load(rd, address(regs, rs1, imm), Half, false),
        Instr::Lwu { rd, rs1, imm } => Load(rd, address(regs, rs1, imm), Word, false),
        Instr::Sb { rs1, rs2, imm } => Store(address(regs, rs1, imm), Byte, regs.x(rs2)),
        Instr::Sh { rs1, rs2, imm } => Store(address(regs, rs1, imm), Half, regs.x(rs2)),
        Instr::Sw { rs1, rs2, imm } => Store(address(regs, rs1, imm), Word, regs.x(rs2)),
        Instr::Sd { rs1, rs2, imm } => Store(address(regs, rs1, imm), Double, regs.x(rs2)),
        Instr::Addi { rd, rs1, imm } => Set(rd, address(regs, rs1, imm)),
        Instr::Slti { rd, rs1, imm } => Set(rd, flag(is_less_than(regs.x(rs1), i64::from(imm)))),
        Instr::Sltiu { rd, rs1, imm } => Set(rd, flag(regs.x(rs1) < immediate(imm))),
        Instr::Xori { rd, rs1, imm } => Set(rd, regs.x(rs1) ^ immediate(imm)),
        Instr::Ori { rd, rs1, imm } => Set(rd, regs.x(rs1) | immediate(imm)),
        Instr::Andi { rd, rs1, imm } => Set(rd, regs.x(rs1) & immediate(imm)),
        Instr::Slli { rd, rs1, shamt } => Set(rd, left_shift(regs.x(rs1), shamt.into())),
        Instr::Srli { rd, rs1, shamt } => Set(rd, logical_shift(regs.x(rs1), shamt.into())),
        Instr::Srai { rd, rs1, shamt } => Set(rd, arithmetic_shift(regs.x(rs1), shamt.into())),
        Instr::Add { rd, rs1, rs2 } => Set(rd, sum(regs.x(rs1), regs.x(rs2))),
        Instr::Sub { rd, rs1, rs2 } => Set(rd, difference(regs.x(rs1), regs.x(rs2))),
        Instr::Sll { rd, rs1, rs2 } => Set(rd, left_shift(regs.x(rs1), regs.x(rs2))),
        Instr::Slt { rd, rs1, rs2 } => Set(rd, flag(is_less(regs.x(rs1), regs.x(rs2)))),
        Instr::Sltu { rd, rs1, rs2 } => Set(rd, flag(regs.x(rs1) < regs.x(rs2))),
        Instr::Xor { rd, rs1, rs2 } => Set(rd, regs.x(rs1) ^ regs.x(rs2)),
        Instr::Srl { rd, rs1, rs2 } => Set(rd, logical_shift(regs.x(rs1), regs.x(rs2))),
        Instr::Sra { rd, rs1, rs2 } => Set(rd, arithmetic_shift(regs.x(rs1), regs.x(rs2))),
        Instr::Or { rd, rs1, rs2 } => Set(rd, regs.x(rs1) | regs.x(rs2)),
        Instr::And { rd, rs1, rs2 } => Set(rd, regs.x(rs1) & regs.x(rs2)),
        Instr::Addiw { rd, rs1, imm } => Set(rd, offset_by32(regs.x(rs1), i64::from(imm))),
        Instr::Slliw { rd, rs1, shamt } => Set(rd, left_shift32(regs.x(rs1), shamt.into())),
        Instr::Srliw { rd, rs1, shamt } => Set(rd, logical_shift32(regs.x(rs1), shamt.into())),
        Instr::Sraiw { rd, rs1, shamt } => Set(rd, arithmetic_shift32(regs.x(rs1), shamt.into())),
        Instr::Addw { rd, rs1, rs2 } => Set(rd, sum32(regs.x(rs1), regs.x(rs2))),
        Instr::Subw { rd, rs1, rs2 } => Set(rd, difference32(regs.x(rs1), regs.x(rs2))),
        Instr::Sllw { rd, rs1, rs2 } => Set(rd, left_shift32(regs.x(rs1), regs.x(rs2))),
        Instr::Srlw { rd, rs1, rs2 } => Set(rd, logical_shift32(regs.x(rs1), regs.x(rs2))),
        Instr::Sraw { rd, rs1, rs2 } => Set(rd, arithmetic_shift32(regs.x(rs1), regs.x(rs2))),
        Instr::Fence { .. } => Nothing,
        Instr::Ecall | Instr::Ebreak => Trap,
        Instr::Mul { rd, rs1, rs2 } => Set(rd, product(regs.x(rs1), regs.x(rs2))),
        Instr::Mulh { rd, rs1, rs2 } => Set(rd, high_signed(regs.x(rs1), regs.x(rs2))),
        Instr::Mulhsu { rd, rs1, rs2 } => Set(rd, high_mixed(regs.x(rs1), regs.x(rs2))),
        Instr::Mulhu { rd, rs1, rs2 } => Set(rd, high_unsigned(regs.x(rs1), regs.x(rs2))),
        Instr::Div { rd, rs1, rs2 } => Set(rd, quotient_signed(regs.x(rs1), regs.x(rs2))),
        Instr::Divu { rd, rs1, rs2 } => Set(rd, quotient_unsigned(regs.x(rs1), regs.x(rs2))),
        Instr::Rem { rd, rs1, rs2 } => Set(rd, remainder_signed(regs.x(rs1), regs.x(rs2))),
        Instr::Remu { rd, rs1, rs2 } => Set(rd, remainder_unsigned(regs.x(rs1), regs.x(rs2))),
        Instr::Mulw { rd, rs1, rs2 } => Set(rd, product32(regs.x(rs1), regs.x(rs2))),
        Instr::Divw { rd, rs1, rs2 } => Set(rd, quotient_signed32(regs.x(rs1), regs.x(rs2))),
        Instr::Divuw { rd, rs1, rs2 } => Set(rd, quotient_unsigned32(regs.x(rs1), regs.x(rs2))),
        Instr::Remw { rd, rs1, rs2 } => Set(rd, remainder_signed32(regs.x(rs1), regs.x(rs2))),
        Instr::Remuw { rd, rs1, rs2 } => Set(rd, remainder_unsigned32(regs.x(rs1), regs.x(rs2))),
    }
}

/// The target of a jump or a branch, a distance from pc.
#[inline]
fn target(regs: &Regs, offset: i32) -> u64
    ensures { result ≡ word (pos regs.now.pc +ℤ offset) }
{
    offset_by(regs.pc, i64::from(offset))
}

/// A branch to a distance from pc, taken where a test holds.
#[inline]
fn branch(taken: bool, regs: &Regs, offset: i32) -> Effect
    ensures { result ≡ Effect.Branch taken (word (pos regs.now.pc +ℤ offset)) }
{
    Branch(taken, target(regs, offset))
}

/// The sum of a register and an immediate.
#[inline]
fn address(regs: &Regs, rs1: u8, imm: i32) -> u64
    ensures { result ≡ word (pos (register regs.now.x rs1) +ℤ imm) }
{
    offset_by(regs.x(rs1), i64::from(imm))
}

/// An immediate as a word, sign-extended.
#[inline]
fn immediate(imm: i32) -> u64
    ensures { result ≡ word imm }
{
    extended(i64::from(imm))
}
