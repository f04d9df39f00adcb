//! Instructions with their operands.

ghost use Rattle.std.specs.Prelude.{◌≡◌, ◌+◌, ◌<◌, ◌≤◌, ◌^◌, length};
ghost use Rattle.body_reader.specs.Forms.{form_of};
ghost use Rattle.body_reader.specs.Instructions as definition;

use crate::decoding::{Opcode, opcode_at};
use crate::forms::Form;
use crate::op::Op;
use crate::targets::{long_target_at, short_target_at};
use byte_view::{number8, number16, number32, number64};

/// The instruction at a place, and the place of the next; None where no whole instruction begins there, or a branch's target
/// isn't in the code.
#[tactic(auto, unfolding(crate::specs::Instructions::instruction_at))]
pub fn instruction_at(code: &[u8], at: usize) -> Option<(Op, u32)>
    requires { length code.now < 2 ^ 32 }
    ensures { result ≡ definition.instruction_at code.now at }
{
    let opcode = opcode_at(code, at)?;
    let next = opcode.operand_end(code)?;
    let op = op_of(code, opcode, next)?;
    Some((op, next as u32))
}

/// The instruction of an opcode, where `next` is the place after its operand.
#[tactic(auto, unfolding(crate::specs::Instructions::op_of))]
fn op_of(code: &[u8], opcode: Opcode, next: usize) -> Option<Op>
    requires small { length code.now < 2 ^ 32 }
    requires room { opcode.at + definition.least_size (form_of opcode.form) ≤ next }
    requires within { next ≤ length code.now }
    ensures { result ≡ definition.op_of code.now (form_of opcode.form) opcode.at next }
{
    let at = opcode.at;
    let op = match opcode.form {
        Form::Bare(op) => op,
        Form::ShortVariable(variable) => variable.op(u16::from(number8(code, at))),
        Form::Variable(variable) => variable.op(number16(code, at)),
        Form::Flags(prefix) => prefix.op(number8(code, at)),
        Form::ShortInt32 => Op::LoadInt32(i32::from(number8(code, at).cast_signed())),
        Form::Int32 => Op::LoadInt32(number32(code, at).cast_signed()),
        Form::Int64 => Op::LoadInt64(number64(code, at).cast_signed()),
        Form::Float32 => Op::LoadFloat32(number32(code, at)),
        Form::Float64 => Op::LoadFloat64(number64(code, at)),
        Form::Token(token) => token.op(number32(code, at)),
        Form::ShortBranch(jump) => jump.op(short_target_at(code, next, at)? as u32),
        Form::Branch(jump) => jump.op(long_target_at(code, next, at)? as u32),
        Form::Switch => Op::Switch {
            count: number32(code, at),
            at: (at + 4) as u32,
        },
    };
    Some(op)
}
