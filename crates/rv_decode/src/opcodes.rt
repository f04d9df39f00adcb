//! The major opcodes, by the names of the manual (RISC-V unprivileged ISA, RISC-V base opcode map).

pub const LOAD: u32 = 0x03;

pub const MISC_MEM: u32 = 0x0F;

pub const OP_IMM: u32 = 0x13;

pub const AUIPC: u32 = 0x17;

pub const OP_IMM_32: u32 = 0x1B;

pub const STORE: u32 = 0x23;

pub const OP: u32 = 0x33;

pub const LUI: u32 = 0x37;

pub const OP_32: u32 = 0x3B;

pub const BRANCH: u32 = 0x63;

pub const JALR: u32 = 0x67;

pub const JAL: u32 = 0x6F;

pub const SYSTEM: u32 = 0x73;
