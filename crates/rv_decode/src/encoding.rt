//! The words of the instructions, as the manual lists them (RISC-V unprivileged ISA, RV32/64G Instruction Set Listings).

ghost use Rattle.std.specs.Prelude.{◌≡◌};
ghost use Rattle.rv_decode.specs.Encoding.{encoding};

use crate::formats::{
    b_word, fence_word, i_word, j_word, r_word, s_word, shift32_word, shift64_word, u_word,
};
use crate::instr::Instr;
use crate::opcodes::{
    AUIPC, BRANCH, JAL, JALR, LOAD, LUI, MISC_MEM, OP, OP_32, OP_IMM, OP_IMM_32, STORE,
};

/// The word of an instruction; None where a field is out of its range: a register above 31, an immediate that its bits
/// don't hold, an odd distance, a shift by 64 bits or more, or by 32 or more at the shifts of 32 bits, a field of FENCE above
/// 15 (RISC-V unprivileged ISA, RV32/64G Instruction Set Listings).
pub fn encode(i: &Instr) -> Option<u32>
    ensures { result ≡ encoding i.now }
{
    match *i {
        Instr::Lui { rd, imm } => u_word(LUI, rd, imm),
        Instr::Auipc { rd, imm } => u_word(AUIPC, rd, imm),
        Instr::Jal { rd, offset } => j_word(JAL, rd, offset),
        Instr::Jalr { rd, rs1, imm } => i_word(JALR, 0, rd, rs1, imm),
        Instr::Beq { rs1, rs2, offset } => b_word(BRANCH, 0, rs1, rs2, offset),
        Instr::Bne { rs1, rs2, offset } => b_word(BRANCH, 1, rs1, rs2, offset),
        Instr::Blt { rs1, rs2, offset } => b_word(BRANCH, 4, rs1, rs2, offset),
        Instr::Bge { rs1, rs2, offset } => b_word(BRANCH, 5, rs1, rs2, offset),
        Instr::Bltu { rs1, rs2, offset } => b_word(BRANCH, 6, rs1, rs2, offset),
        Instr::Bgeu { rs1, rs2, offset } => b_word(BRANCH, 7, rs1, rs2, offset),
        Instr::Lb { rd, rs1, imm } => i_word(LOAD, 0, rd, rs1, imm),
        Instr::Lh { rd, rs1, imm } => i_word(LOAD, 1, rd, rs1, imm),
        Instr::Lw { rd, rs1, imm } => i_word(LOAD, 2, rd, rs1, imm),
        Instr::Ld { rd, rs1, imm } => i_word(LOAD, 3, rd, rs1, imm),
        Instr::Lbu { rd, rs1, imm } => i_word(LOAD, 4, rd, rs1, imm),
        Instr::Lhu { rd, rs1, imm } => i_word(LOAD, 5, rd, rs1, imm),
        Instr::Lwu { rd, rs1, imm } => i_word(LOAD, 6, rd, rs1, imm),
        Instr::Sb { rs1, rs2, imm } => s_word(STORE, 0, rs1, rs2, imm),
        Instr::Sh { rs1, rs2, imm } => s_word(STORE, 1, rs1, rs2, imm),
        Instr::Sw { rs1, rs2, imm } => s_word(STORE, 2, rs1, rs2, imm),
        Instr::Sd { rs1, rs2, imm } => s_word(STORE, 3, rs1, rs2, imm),
        Instr::Addi { rd, rs1, imm } => i_word(OP_IMM, 0, rd, rs1, imm),
        Instr::Slti { rd, rs1, imm } => i_word(OP_IMM, 2, rd, rs1, imm),
        Instr::Sltiu { rd, rs1, imm } => i_word(OP_IMM, 3, rd, rs1, imm),
        Instr::Xori { rd, rs1, imm } => i_word(OP_IMM, 4, rd, rs1, imm),
        Instr::Ori { rd, rs1, imm } => i_word(OP_IMM, 6, rd, rs1, imm),
        Instr::Andi { rd, rs1, imm } => i_word(OP_IMM, 7, rd, rs1, imm),
        Instr::Slli { rd, rs1, shamt } => shift64_word(OP_IMM, 1, 0x00, rd, rs1, shamt),
        Instr::Srli { rd, rs1, shamt } => shift64_word(OP_IMM, 5, 0x00, rd, rs1, shamt),
        Instr::Srai { rd, rs1, shamt } => shift64_word(OP_IMM, 5, 0x10, rd, rs1, shamt),
        Instr::Add { rd, rs1, rs2 } => r_word(OP, 0, 0x00, rd, rs1, rs2),
        Instr::Sub { rd, rs1, rs2 } => r_word(OP, 0, 0x20, rd, rs1, rs2),
        Instr::Sll { rd, rs1, rs2 } => r_word(OP, 1, 0x00, rd, rs1, rs2),
        Instr::Slt { rd, rs1, rs2 } => r_word(OP, 2, 0x00, rd, rs1, rs2),
        Instr::Sltu { rd, rs1, rs2 } => r_word(OP, 3, 0x00, rd, rs1, rs2),
        Instr::Xor { rd, rs1, rs2 } => r_word(OP, 4, 0x00, rd, rs1, rs2),
        Instr::Srl { rd, rs1, rs2 } => r_word(OP, 5, 0x00, rd, rs1, rs2),
        Instr::Sra { rd, rs1, rs2 } => r_word(OP, 5, 0x20, rd, rs1, rs2),
        Instr::Or { rd, rs1, rs2 } => r_word(OP, 6, 0x00, rd, rs1, rs2),
        Instr::And { rd, rs1, rs2 } => r_word(OP, 7, 0x00, rd, rs1, rs2),
        Instr::Addiw { rd, rs1, imm } => i_word(OP_IMM_32, 0, rd, rs1, imm),
        Instr::Slliw { rd, rs1, shamt } => shift32_word(OP_IMM_32, 1, 0x00, rd, rs1, shamt),
        Instr::Srliw { rd, rs1, shamt } => shift32_word(OP_IMM_32, 5, 0x00, rd, rs1, shamt),
        Instr::Sraiw { rd, rs1, shamt } => shift32_word(OP_IMM_32, 5, 0x20, rd, rs1, shamt),
        Instr::Addw { rd, rs1, rs2 } => r_word(OP_32, 0, 0x00, rd, rs1, rs2),
        Instr::Subw { rd, rs1, rs2 } => r_word(OP_32, 0, 0x20, rd, rs1, rs2),
        Instr::Sllw { rd, rs1, rs2 } => r_word(OP_32, 1, 0x00, rd, rs1, rs2),
        Instr::Srlw { rd, rs1, rs2 } => r_word(OP_32, 5, 0x00, rd, rs1, rs2),
        Instr::Sraw { rd, rs1, rs2 } => r_word(OP_32, 5, 0x20, rd, rs1, rs2),
        Instr::Fence {
            fm,
            pred,
            succ,
            rs1,
            rd,
        } => fence_word(MISC_MEM, 0, fm, pred, succ, rs1, rd),
        Instr::Ecall => Some(0x0000_0073),
        Instr::Ebreak => Some(0x0010_0073),
        Instr::Mul { rd, rs1, rs2 } => r_word(OP, 0, 0x01, rd, rs1, rs2),
        Instr::Mulh { rd, rs1, rs2 } => r_word(OP, 1, 0x01, rd, rs1, rs2),
        Instr::Mulhsu { rd, rs1, rs2 } => r_word(OP, 2, 0x01, rd, rs1, rs2),
        Instr::Mulhu { rd, rs1, rs2 } => r_word(OP, 3, 0x01, rd, rs1, rs2),
        Instr::Div { rd, rs1, rs2 } => r_word(OP, 4, 0x01, rd, rs1, rs2),
        Instr::Divu { rd, rs1, rs2 } => r_word(OP, 5, 0x01, rd, rs1, rs2),
        Instr::Rem { rd, rs1, rs2 } => r_word(OP, 6, 0x01, rd, rs1, rs2),
        Instr::Remu { rd, rs1, rs2 } => r_word(OP, 7, 0x01, rd, rs1, rs2),
        Instr::Mulw { rd, rs1, rs2 } => r_word(OP_32, 0, 0x01, rd, rs1, rs2),
        Instr::Divw { rd, rs1, rs2 } => r_word(OP_32, 4, 0x01, rd, rs1, rs2),
        Instr::Divuw { rd, rs1, rs2 } => r_word(OP_32, 5, 0x01, rd, rs1, rs2),
        Instr::Remw { rd, rs1, rs2 } => r_word(OP_32, 6, 0x01, rd, rs1, rs2),
        Instr::Remuw { rd, rs1, rs2 } => r_word(OP_32, 7, 0x01, rd, rs1, rs2),
    }
}
