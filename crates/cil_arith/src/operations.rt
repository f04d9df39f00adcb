//! The numeric operations, one for each that an instruction makes (ECMA-335 III.3).

/// An operation of two numbers.
#[derive(Clone, Copy, Debug, PartialEq, Eq)]
pub enum BinOp {
    /// add (III.3.1)
    Add,
    /// sub (III.3.64)
    Sub,
    /// mul (III.3.48)
    Mul,
    /// div (III.3.31)
    Div,
    /// div.un (III.3.32)
    DivUn,
    /// rem (III.3.55)
    Rem,
    /// rem.un (III.3.56)
    RemUn,
    /// add.ovf (III.3.2)
    AddOvf,
    /// add.ovf.un (III.3.2)
    AddOvfUn,
    /// sub.ovf (III.3.65)
    SubOvf,
    /// sub.ovf.un (III.3.65)
    SubOvfUn,
    /// mul.ovf (III.3.49)
    MulOvf,
    /// mul.ovf.un (III.3.49)
    MulOvfUn,
    /// and (III.3.3)
    And,
    /// or (III.3.53)
    Or,
    /// xor (III.3.67)
    Xor,
    /// shl (III.3.58)
    Shl,
    /// shr (III.3.59)
    Shr,
    /// shr.un (III.3.60)
    ShrUn,
}

/// An operation of one number.
#[derive(Clone, Copy, Debug, PartialEq, Eq)]
pub enum UnOp {
    /// neg (III.3.50)
    Neg,
    /// not (III.3.52)
    Not,
}

/// A comparison of two numbers, as an instruction that pushes its result or as a branch's condition.
#[derive(Clone, Copy, Debug, PartialEq, Eq)]
pub enum CmpOp {
    /// ceq and beq (III.3.21, III.3.5)
    Eq,
    /// bne.un (III.3.14)
    Ne,
    /// bge (III.3.6)
    Ge,
    /// bge.un (III.3.7)
    GeUn,
    /// cgt and bgt (III.3.22, III.3.8)
    Gt,
    /// cgt.un and bgt.un (III.3.23, III.3.9)
    GtUn,
    /// ble (III.3.10)
    Le,
    /// ble.un (III.3.11)
    LeUn,
    /// clt and blt (III.3.25, III.3.12)
    Lt,
    /// clt.un and blt.un (III.3.26, III.3.13)
    LtUn,
}

/// A conversion: conv (III.3.27), which keeps the low bits, conv.ovf (III.3.28) of a number that is read with its sign,
/// and conv.ovf with `.un` (III.3.29) of one that is read without it.
#[derive(Clone, Copy, Debug, PartialEq, Eq)]
pub enum ConvOp {
    /// conv.i1
    I1,
    /// conv.i2
    I2,
    /// conv.i4
    I4,
    /// conv.i8
    I8,
    /// conv.i
    I,
    /// conv.u1
    U1,
    /// conv.u2
    U2,
    /// conv.u4
    U4,
    /// conv.u8
    U8,
    /// conv.u
    U,
    /// conv.ovf.i1
    OvfI1,
    /// conv.ovf.i2
    OvfI2,
    /// conv.ovf.i4
    OvfI4,
    /// conv.ovf.i8
    OvfI8,
    /// conv.ovf.i
    OvfI,
    /// conv.ovf.u1
    OvfU1,
    /// conv.ovf.u2
    OvfU2,
    /// conv.ovf.u4
    OvfU4,
    /// conv.ovf.u8
    OvfU8,
    /// conv.ovf.u
    OvfU,
    /// conv.ovf.i1.un
    OvfI1Un,
    /// conv.ovf.i2.un
    OvfI2Un,
    /// conv.ovf.i4.un
    OvfI4Un,
    /// conv.ovf.i8.un
    OvfI8Un,
    /// conv.ovf.i.un
    OvfIUn,
    /// conv.ovf.u1.un
    OvfU1Un,
    /// conv.ovf.u2.un
    OvfU2Un,
    /// conv.ovf.u4.un
    OvfU4Un,
    /// conv.ovf.u8.un
    OvfU8Un,
    /// conv.ovf.u.un
    OvfUUn,
}
