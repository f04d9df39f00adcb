//! The instructions of CIL (ECMA-335 III).

use cil_arith::{BinOp, CmpOp, ConvOp, UnOp};

/// A type that an instruction's suffix names (III.1.1).
#[derive(Clone, Copy, Debug, PartialEq, Eq)]
pub enum DataType {
    I1,
    U1,
    I2,
    U2,
    I4,
    U4,
    I8,
    /// A native int.
    I,
    R4,
    R8,
    /// An object reference.
    Ref,
}

/// An instruction with its operand. All spellings of one instruction are one, as ldarg.0, ldarg.s and ldarg are. A prefix is an
/// instruction of its own. A branch's target is an offset in the code.
#[derive(Clone, Copy, Debug)]
pub enum Op {
    /// nop (III.3.51).
    Nop,
    /// break (III.3.16).
    Break,
    /// ldarg (III.3.38), with the number of an argument.
    LoadArgument(u16),
    /// ldarga (III.3.39), with the number of an argument.
    LoadArgumentAddress(u16),
    /// starg (III.3.61), with the number of an argument.
    StoreArgument(u16),
    /// ldloc (III.3.43), with the number of a local.
    LoadLocal(u16),
    /// ldloca (III.3.44), with the number of a local.
    LoadLocalAddress(u16),
    /// stloc (III.3.63), with the number of a local.
    StoreLocal(u16),
    /// ldnull (III.3.45).
    LoadNull,
    /// ldc.i4 (III.3.40).
    LoadInt32(i32),
    /// ldc.i8 (III.3.40).
    LoadInt64(i64),
    /// ldc.r4 (III.3.40), with the bits of a binary32.
    LoadFloat32(u32),
    /// ldc.r8 (III.3.40), with the bits of a binary64.
    LoadFloat64(u64),
    /// dup (III.3.34).
    Duplicate,
    /// pop (III.3.54).
    Pop,
    /// ret (III.3.57).
    Return,
    /// br (III.3.15), with its target.
    Branch(u32),
    /// brfalse (III.3.17), with its target.
    BranchFalse(u32),
    /// brtrue (III.3.18), with its target.
    BranchTrue(u32),
    /// beq, bge, bgt, ble, blt, bne.un and the other forms with `.un` (III.3.5 to III.3.14), with their target.
    BranchCompare(CmpOp, u32),
    /// switch (III.3.66): the number of its targets, and the offset in the code at which they begin (`switch_target`).
    Switch { count: u32, at: u32 },
    /// leave (III.3.46), with its target.
    Leave(u32),
    /// endfinally or endfault (III.3.35).
    EndFinally,
    /// endfilter (III.3.36).
    EndFilter,
    /// throw (III.4.31).
    Throw,
    /// rethrow (III.4.24).
    Rethrow,
    /// An operation of two numbers.
    Binary(BinOp),
    /// An operation of one number.
    Unary(UnOp),
    /// ceq, cgt, cgt.un, clt or clt.un (III.3.21 to III.3.26).
    Compare(CmpOp),
    /// A conversion to an integer.
    Convert(ConvOp),
    /// conv.r4 (III.3.27).
    ConvertToFloat32,
    /// conv.r8 (III.3.27).
    ConvertToFloat64,
    /// conv.r.un (III.3.27).
    ConvertUnsignedToFloat,
    /// ckfinite (III.3.24).
    CheckFinite,
    /// ldind, with the type after its dot (III.3.42).
    LoadIndirect(DataType),
    /// stind, with the type after its dot (III.3.62).
    StoreIndirect(DataType),
    /// ldlen (III.4.12).
    LoadLength,
    /// ldelem, with the type after its dot (III.4.8).
    LoadElement(DataType),
    /// stelem, with the type after its dot (III.4.27).
    StoreElement(DataType),
    /// arglist (III.3.4).
    ArgumentList,
    /// localloc (III.3.47).
    AllocateLocal,
    /// cpblk (III.3.30).
    CopyBlock,
    /// initblk (III.3.33).
    InitializeBlock,
    /// refanytype (III.4.22).
    TypedReferenceType,
    /// unaligned. (III.2.5), with its alignment.
    Unaligned(u8),
    /// volatile. (III.2.6).
    Volatile,
    /// tail. (III.2.4).
    TailCall,
    /// readonly. (III.2.3).
    ReadOnly,
    /// no. (III.2.2), with the faults that it names.
    No(u8),
    /// jmp (III.3.37), with the token of a method.
    Jump(u32),
    /// call (III.3.19), with the token of a method.
    Call(u32),
    /// calli (III.3.20), with the token of a signature.
    CallIndirect(u32),
    /// callvirt (III.4.2), with the token of a method.
    CallVirtual(u32),
    /// cpobj (III.4.4), with the token of a type.
    CopyObject(u32),
    /// ldobj (III.4.13), with the token of a type.
    LoadObject(u32),
    /// ldstr (III.4.16), with the token of a user string.
    LoadString(u32),
    /// newobj (III.4.21), with the token of a constructor.
    NewObject(u32),
    /// castclass (III.4.3), with the token of a type.
    CastClass(u32),
    /// isinst (III.4.6), with the token of a type.
    IsInstance(u32),
    /// unbox (III.4.32), with the token of a type.
    Unbox(u32),
    /// ldfld (III.4.10), with the token of a field.
    LoadField(u32),
    /// ldflda (III.4.11), with the token of a field.
    LoadFieldAddress(u32),
    /// stfld (III.4.28), with the token of a field.
    StoreField(u32),
    /// ldsfld (III.4.14), with the token of a field.
    LoadStaticField(u32),
    /// ldsflda (III.4.15), with the token of a field.
    LoadStaticFieldAddress(u32),
    /// stsfld (III.4.30), with the token of a field.
    StoreStaticField(u32),
    /// stobj (III.4.29), with the token of a type.
    StoreObject(u32),
    /// box (III.4.1), with the token of a type.
    Box(u32),
    /// newarr (III.4.20), with the token of a type.
    NewArray(u32),
    /// ldelema (III.4.9), with the token of a type.
    LoadElementAddress(u32),
    /// ldelem (III.4.7), with the token of a type.
    LoadElementOfType(u32),
    /// stelem (III.4.26), with the token of a type.
    StoreElementOfType(u32),
    /// unbox.any (III.4.33), with the token of a type.
    UnboxAny(u32),
    /// refanyval (III.4.23), with the token of a type.
    TypedReferenceValue(u32),
    /// mkrefany (III.4.19), with the token of a type.
    MakeTypedReference(u32),
    /// ldtoken (III.4.17), with the token of a type, a field or a method.
    LoadToken(u32),
    /// ldftn (III.3.41), with the token of a method.
    LoadFunction(u32),
    /// ldvirtftn (III.4.18), with the token of a method.
    LoadVirtualFunction(u32),
    /// initobj (III.4.5), with the token of a type.
    InitializeObject(u32),
    /// constrained. (III.2.1), with the token of a type.
    Constrained(u32),
    /// sizeof (III.4.25), with the token of a type.
    SizeOf(u32),
}
