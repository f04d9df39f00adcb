//! The forms of instructions: what stands after an opcode.

ghost use Rattle.std.specs.Prelude.{◌≡◌};
ghost use Rattle.body_reader.specs.Forms.{variable_op, token_op, jump_op, flags_op};

use crate::op::Op;
use cil_arith::CmpOp;

/// What stands after an opcode, and the instruction that it makes.
#[derive(Clone, Copy)]
pub enum Form {
    /// Nothing.
    Bare(Op),
    /// The number of an argument or a local, in one byte.
    ShortVariable(Variable),
    /// The number of an argument or a local, in two bytes.
    Variable(Variable),
    /// A byte.
    Flags(Flags),
    /// The number of ldc.i4.s, in one byte.
    ShortInt32,
    /// The number of ldc.i4, in four bytes.
    Int32,
    /// The number of ldc.i8, in eight bytes.
    Int64,
    /// The bits of ldc.r4, in four bytes.
    Float32,
    /// The bits of ldc.r8, in eight bytes.
    Float64,
    /// A token, in four bytes.
    Token(Token),
    /// A branch's distance, in one byte.
    ShortBranch(Jump),
    /// A branch's distance, in four bytes.
    Branch(Jump),
    /// The targets of a switch: their number, and the distance of each, in four bytes.
    Switch,
}

/// An instruction of an argument or a local.
#[derive(Clone, Copy)]
pub enum Variable {
    LoadArgument,
    LoadArgumentAddress,
    StoreArgument,
    LoadLocal,
    LoadLocalAddress,
    StoreLocal,
}

/// A prefix with a byte.
#[derive(Clone, Copy)]
pub enum Flags {
    Unaligned,
    No,
}

/// A branch.
#[derive(Clone, Copy)]
pub enum Jump {
    Branch,
    BranchFalse,
    BranchTrue,
    BranchCompare(CmpOp),
    Leave,
}

/// An instruction with a token.
#[derive(Clone, Copy)]
pub enum Token {
    Jump,
    Call,
    CallIndirect,
    CallVirtual,
    CopyObject,
    LoadObject,
    LoadString,
    NewObject,
    CastClass,
    IsInstance,
    Unbox,
    LoadField,
    LoadFieldAddress,
    StoreField,
    LoadStaticField,
    LoadStaticFieldAddress,
    StoreStaticField,
    StoreObject,
    Box,
    NewArray,
    LoadElementAddress,
    LoadElementOfType,
    StoreElementOfType,
    UnboxAny,
    TypedReferenceValue,
    MakeTypedReference,
    LoadToken,
    LoadFunction,
    LoadVirtualFunction,
    InitializeObject,
    Constrained,
    SizeOf,
}

impl Variable {
    /// The instruction, with the number of its argument or local.
    pub fn op(self, number: u16) -> Op
        ensures { result ≡ variable_op self number }
    {
        match self {
            Variable::LoadArgument => Op::LoadArgument(number),
            Variable::LoadArgumentAddress => Op::LoadArgumentAddress(number),
            Variable::StoreArgument => Op::StoreArgument(number),
            Variable::LoadLocal => Op::LoadLocal(number),
            Variable::LoadLocalAddress => Op::LoadLocalAddress(number),
            Variable::StoreLocal => Op::StoreLocal(number),
        }
    }
}

impl Flags {
    /// The prefix, with its byte.
    pub fn op(self, byte: u8) -> Op
        ensures { result ≡ flags_op self byte }
    {
        match self {
            Flags::Unaligned => Op::Unaligned(byte),
            Flags::No => Op::No(byte),
        }
    }
}

impl Jump {
    /// The branch, with its target.
    pub fn op(self, target: u32) -> Op
        ensures { result ≡ jump_op self target }
    {
        match self {
            Jump::Branch => Op::Branch(target),
            Jump::BranchFalse => Op::BranchFalse(target),
            Jump::BranchTrue => Op::BranchTrue(target),
            Jump::BranchCompare(test) => Op::BranchCompare(test, target),
            Jump::Leave => Op::Leave(target),
        }
    }
}

impl Token {
    /// The instruction, with its token.
    pub fn op(self, token: u32) -> Op
        ensures { result ≡ token_op self token }
    {
        match self {
            Token::Jump => Op::Jump(token),
            Token::Call => Op::Call(token),
            Token::CallIndirect => Op::CallIndirect(token),
            Token::CallVirtual => Op::CallVirtual(token),
            Token::CopyObject => Op::CopyObject(token),
            Token::LoadObject => Op::LoadObject(token),
            Token::LoadString => Op::LoadString(token),
            Token::NewObject => Op::NewObject(token),
            Token::CastClass => Op::CastClass(token),
            Token::IsInstance => Op::IsInstance(token),
            Token::Unbox => Op::Unbox(token),
            Token::LoadField => Op::LoadField(token),
            Token::LoadFieldAddress => Op::LoadFieldAddress(token),
            Token::StoreField => Op::StoreField(token),
            Token::LoadStaticField => Op::LoadStaticField(token),
            Token::LoadStaticFieldAddress => Op::LoadStaticFieldAddress(token),
            Token::StoreStaticField => Op::StoreStaticField(token),
            Token::StoreObject => Op::StoreObject(token),
            Token::Box => Op::Box(token),
            Token::NewArray => Op::NewArray(token),
            Token::LoadElementAddress => Op::LoadElementAddress(token),
            Token::LoadElementOfType => Op::LoadElementOfType(token),
            Token::StoreElementOfType => Op::StoreElementOfType(token),
            Token::UnboxAny => Op::UnboxAny(token),
            Token::TypedReferenceValue => Op::TypedReferenceValue(token),
            Token::MakeTypedReference => Op::MakeTypedReference(token),
            Token::LoadToken => Op::LoadToken(token),
            Token::LoadFunction => Op::LoadFunction(token),
            Token::LoadVirtualFunction => Op::LoadVirtualFunction(token),
            Token::InitializeObject => Op::InitializeObject(token),
            Token::Constrained => Op::Constrained(token),
            Token::SizeOf => Op::SizeOf(token),
        }
    }
}
