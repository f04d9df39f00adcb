//! Instructions as `{:?}` shows them: the name and the fields, as a derived `Debug` does. It is written by hand, and the match over
//! all instructions makes plain data: the proof of one function that writes in each of so many arms takes long.

use crate::instr::Instr;
use std::fmt::{self, Formatter, Write};

impl fmt::Debug for Instr {
    fn fmt<W: Write>(&self, f: &mut Formatter<W>) -> fmt::Result {
        fields_of(self).put(f, name_of(self))
    }
}

/// The fields of an instruction, by their names.
#[derive(Drop)]
enum Fields {
    None,
    Upper {
        rd: u8,
        imm: i32,
    },
    Jump {
        rd: u8,
        offset: i32,
    },
    Immediate {
        rd: u8,
        rs1: u8,
        imm: i32,
    },
    Branch {
        rs1: u8,
        rs2: u8,
        offset: i32,
    },
    Store {
        rs1: u8,
        rs2: u8,
        imm: i32,
    },
    Shift {
        rd: u8,
        rs1: u8,
        shamt: u8,
    },
    Registers {
        rd: u8,
        rs1: u8,
        rs2: u8,
    },
    Fence {
        fm: u8,
        pred: u8,
        succ: u8,
        rs1: u8,
        rd: u8,
    },
}

impl Fields {
    fn put<W: Write>(&self, f: &mut Formatter<W>, name: &str) -> fmt::Result {
        match *self {
            Fields::None => f.write_str(name),
            Fields::Upper { rd, imm } => upper(f, name, rd, imm),
            Fields::Jump { rd, offset } => jump(f, name, rd, offset),
            Fields::Immediate { rd, rs1, imm } => with_immediate(f, name, rd, rs1, imm),
            Fields::Branch { rs1, rs2, offset } => branch(f, name, rs1, rs2, offset),
            Fields::Store { rs1, rs2, imm } => store(f, name, rs1, rs2, imm),
            Fields::Shift { rd, rs1, shamt } => shift(f, name, rd, rs1, shamt),
            Fields::Registers { rd, rs1, rs2 } => of_registers(f, name, rd, rs1, rs2),
            Fields::Fence {
                fm,
                pred,
                succ,
                rs1,
                rd,
            } => fence(f, name, fm, pred, succ, rs1, rd),
        }
    }
}

/// The name of an instruction.
fn name_of(i: &Instr) -> &'static str {
    match *i {
        Instr::Lui { .. } => "Lui",
        Instr::Auipc { .. } => "Auipc",
        Instr::Jal { .. } => "Jal",
        Instr::Jalr { .. } => "Jalr",
        Instr::Beq { .. } => "Beq",
        Instr::Bne { .. } => "Bne",
        Instr::Blt { .. } => "Blt",
        Instr::Bge { .. } => "Bge",
        Instr::Bltu { .. } => "Bltu",
        Instr::Bgeu { .. } => "Bgeu",
        Instr::Lb { .. } => "Lb",
        Instr::Lh { .. } => "Lh",
        Instr::Lw { .. } => "Lw",
        Instr::Ld { .. } => "Ld",
        Instr::Lbu { .. } => "Lbu",
        Instr::Lhu { .. } => "Lhu",
        Instr::Lwu { .. } => "Lwu",
        Instr::Sb { .. } => "Sb",
        Instr::Sh { .. } => "Sh",
        Instr::Sw { .. } => "Sw",
        Instr::Sd { .. } => "Sd",
        Instr::Addi { .. } => "Addi",
        Instr::Slti { .. } => "Slti",
        Instr::Sltiu { .. } => "Sltiu",
        Instr::Xori { .. } => "Xori",
        Instr::Ori { .. } => "Ori",
        Instr::Andi { .. } => "Andi",
        Instr::Slli { .. } => "Slli",
        Instr::Srli { .. } => "Srli",
        Instr::Srai { .. } => "Srai",
        Instr::Add { .. } => "Add",
        Instr::Sub { .. } => "Sub",
        Instr::Sll { .. } => "Sll",
        Instr::Slt { .. } => "Slt",
        Instr::Sltu { .. } => "Sltu",
        Instr::Xor { .. } => "Xor",
        Instr::Srl { .. } => "Srl",
        Instr::Sra { .. } => "Sra",
        Instr::Or { .. } => "Or",
        Instr::And { .. } => "And",
        Instr::Addiw { .. } => "Addiw",
        Instr::Slliw { .. } => "Slliw",
        Instr::Srliw { .. } => "Srliw",
        Instr::Sraiw { .. } => "Sraiw",
        Instr::Addw { .. } => "Addw",
        Instr::Subw { .. } => "Subw",
        Instr::Sllw { .. } => "Sllw",
        Instr::Srlw { .. } => "Srlw",
        Instr::Sraw { .. } => "Sraw",
        Instr::Fence { .. } => "Fence",
        Instr::Ecall => "Ecall",
        Instr::Ebreak => "Ebreak",
        Instr::Mul { .. } => "Mul",
        Instr::Mulh { .. } => "Mulh",
        Instr::Mulhsu { .. } => "Mulhsu",
        Instr::Mulhu { .. } => "Mulhu",
        Instr::Div { .. } => "Div",
        Instr::Divu { .. } => "Divu",
        Instr::Rem { .. } => "Rem",
        Instr::Remu { .. } => "Remu",
        Instr::Mulw { .. } => "Mulw",
        Instr::Divw { .. } => "Divw",
        Instr::Divuw { .. } => "Divuw",
        Instr::Remw { .. } => "Remw",
        Instr::Remuw { .. } => "Remuw",
    }
}

/// The fields of an instruction.
fn fields_of(i: &Instr) -> Fields {
    match *i {
        Instr::Lui { rd, imm } | Instr::Auipc { rd, imm } => Fields::Upper { rd, imm },
        Instr::Jal { rd, offset } => Fields::Jump { rd, offset },
        Instr::Jalr { rd, rs1, imm }
        | Instr::Lb { rd, rs1, imm }
        | Instr::Lh { rd, rs1, imm }
        | Instr::Lw { rd, rs1, imm }
        | Instr::Ld { rd, rs1, imm }
        | Instr::Lbu { rd, rs1, imm }
        | Instr::Lhu { rd, rs1, imm }
        | Instr::Lwu { rd, rs1, imm }
        | Instr::Addi { rd, rs1, imm }
        | Instr::Slti { rd, rs1, imm }
        | Instr::Sltiu { rd, rs1, imm }
        | Instr::Xori { rd, rs1, imm }
        | Instr::Ori { rd, rs1, imm }
        | Instr::Andi { rd, rs1, imm }
        | Instr::Addiw { rd, rs1, imm } => Fields::Immediate { rd, rs1, imm },
        Instr::Beq { rs1, rs2, offset }
        | Instr::Bne { rs1, rs2, offset }
        | Instr::Blt { rs1, rs2, offset }
        | Instr::Bge { rs1, rs2, offset }
        | Instr::Bltu { rs1, rs2, offset }
        | Instr::Bgeu { rs1, rs2, offset } => Fields::Branch { rs1, rs2, offset },
        Instr::Sb { rs1, rs2, imm }
        | Instr::Sh { rs1, rs2, imm }
        | Instr::Sw { rs1, rs2, imm }
        | Instr::Sd { rs1, rs2, imm } => Fields::Store { rs1, rs2, imm },
        Instr::Slli { rd, rs1, shamt }
        | Instr::Srli { rd, rs1, shamt }
        | Instr::Srai { rd, rs1, shamt }
        | Instr::Slliw { rd, rs1, shamt }
        | Instr::Srliw { rd, rs1, shamt }
        | Instr::Sraiw { rd, rs1, shamt } => Fields::Shift { rd, rs1, shamt },
        Instr::Add { rd, rs1, rs2 }
        | Instr::Sub { rd, rs1, rs2 }
        | Instr::Sll { rd, rs1, rs2 }
        | Instr::Slt { rd, rs1, rs2 }
        | Instr::Sltu { rd, rs1, rs2 }
        | Instr::Xor { rd, rs1, rs2 }
        | Instr::Srl { rd, rs1, rs2 }
        | Instr::Sra { rd, rs1, rs2 }
        | Instr::Or { rd, rs1, rs2 }
        | Instr::And { rd, rs1, rs2 }
        | Instr::Addw { rd, rs1, rs2 }
        | Instr::Subw { rd, rs1, rs2 }
        | Instr::Sllw { rd, rs1, rs2 }
        | Instr::Srlw { rd, rs1, rs2 }
        | Instr::Sraw { rd, rs1, rs2 }
        | Instr::Mul { rd, rs1, rs2 }
        | Instr::Mulh { rd, rs1, rs2 }
        | Instr::Mulhsu { rd, rs1, rs2 }
        | Instr::Mulhu { rd, rs1, rs2 }
        | Instr::Div { rd, rs1, rs2 }
        | Instr::Divu { rd, rs1, rs2 }
        | Instr::Rem { rd, rs1, rs2 }
        | Instr::Remu { rd, rs1, rs2 }
        | Instr::Mulw { rd, rs1, rs2 }
        | Instr::Divw { rd, rs1, rs2 }
        | Instr::Divuw { rd, rs1, rs2 }
        | Instr::Remw { rd, rs1, rs2 }
        | Instr::Remuw { rd, rs1, rs2 } => Fields::Registers { rd, rs1, rs2 },
        Instr::Ecall | Instr::Ebreak => Fields::None,
        Instr::Fence {
            fm,
            pred,
            succ,
            rs1,
            rd,
        } => Fields::Fence {
            fm,
            pred,
            succ,
            rs1,
            rd,
        },
    }
}

fn upper<W: Write>(f: &mut Formatter<W>, name: &str, rd: u8, imm: i32) -> fmt::Result {
    with_fields(f, name, &[("rd", i32::from(rd)), ("imm", imm)])
}

fn jump<W: Write>(f: &mut Formatter<W>, name: &str, rd: u8, offset: i32) -> fmt::Result {
    with_fields(f, name, &[("rd", i32::from(rd)), ("offset", offset)])
}

fn with_immediate<W: Write>(
    f: &mut Formatter<W>,
    name: &str,
    rd: u8,
    rs1: u8,
    imm: i32,
) -> fmt::Result {
    with_fields(
        f,
        name,
        &[("rd", i32::from(rd)), ("rs1", i32::from(rs1)), ("imm", imm)],
    )
}

fn branch<W: Write>(
    f: &mut Formatter<W>,
    name: &str,
    rs1: u8,
    rs2: u8,
    offset: i32,
) -> fmt::Result {
    with_fields(
        f,
        name,
        &[
            ("rs1", i32::from(rs1)),
            ("rs2", i32::from(rs2)),
            ("offset", offset),
        ],
    )
}

fn store<W: Write>(f: &mut Formatter<W>, name: &str, rs1: u8, rs2: u8, imm: i32) -> fmt::Result {
    with_fields(
        f,
        name,
        &[
            ("rs1", i32::from(rs1)),
            ("rs2", i32::from(rs2)),
            ("imm", imm),
        ],
    )
}

fn shift<W: Write>(f: &mut Formatter<W>, name: &str, rd: u8, rs1: u8, shamt: u8) -> fmt::Result {
    with_fields(
        f,
        name,
        &[
            ("rd", i32::from(rd)),
            ("rs1", i32::from(rs1)),
            ("shamt", i32::from(shamt)),
        ],
    )
}

fn of_registers<W: Write>(
    f: &mut Formatter<W>,
    name: &str,
    rd: u8,
    rs1: u8,
    rs2: u8,
) -> fmt::Result {
    with_fields(
        f,
        name,
        &[
            ("rd", i32::from(rd)),
            ("rs1", i32::from(rs1)),
            ("rs2", i32::from(rs2)),
        ],
    )
}

fn fence<W: Write>(
    f: &mut Formatter<W>,
    name: &str,
    fm: u8,
    pred: u8,
    succ: u8,
    rs1: u8,
    rd: u8,
) -> fmt::Result {
    let fields = [
        ("fm", i32::from(fm)),
        ("pred", i32::from(pred)),
        ("succ", i32::from(succ)),
        ("rs1", i32::from(rs1)),
        ("rd", i32::from(rd)),
    ];
    with_fields(f, name, &fields)
}

/// The name, and the fields with their values.
fn with_fields<W: Write>(f: &mut Formatter<W>, name: &str, fields: &[(&str, i32)]) -> fmt::Result {
    f.write_str(name)?;
    let mut before = " { ";
    for (field, value) in fields {
        f.write_str(before)?;
        f.write_str(field)?;
        f.write_str(": ")?;
        fmt::Display::fmt(value, f)?;
        before = ", ";
    }
    f.write_str(" }")
}
