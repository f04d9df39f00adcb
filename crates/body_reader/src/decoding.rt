//! The instruction at a place of code.

ghost use Rattle.std.specs.Prelude.{◌≡◌, ◌+◌, ◌≤◌, length, option_map, slice_get, IfSome};
ghost use Rattle.std.specs.Option.{option_flatten};
ghost use Rattle.body_reader.specs.Opcodes.{form_among, one_byte, two_bytes};
ghost use Rattle.body_reader.specs.Forms.{form_of};
ghost use Rattle.body_reader.specs.Instructions as definition;

use crate::forms::Form;
use crate::opcodes::{ONE_BYTE, TWO_BYTES};
use byte_view::le32;

/// The first byte of the opcodes of two bytes (III.1.2.1).
const PREFIX: u8 = 0xFE;

/// An opcode: what stands after it, and where.
#[derive(Clone, Copy)]
pub struct Opcode {
    pub form: Form,
    /// The place of the operand.
    pub at: usize,
}

/// The form of a byte in a table of opcodes.
fn form_in(table: &[Option<Form>], byte: u8) -> Option<Form>
    ensures { result ≡ option_flatten (slice_get table.now byte) }
{
    table.get(usize::from(byte)).copied().flatten()
}

/// The form of an opcode of one byte.
fn one_byte_form(byte: u8) -> Option<Form>
    ensures { option_map form_of result ≡ form_among one_byte byte }
{
    form_in(&ONE_BYTE, byte)
}

/// The form of an opcode of two bytes, by the second.
fn two_byte_form(byte: u8) -> Option<Form>
    ensures { option_map form_of result ≡ form_among two_bytes byte }
{
    form_in(&TWO_BYTES, byte)
}

/// The opcode at a place; None where there is none.
#[tactic(auto, unfolding(crate::specs::Instructions::form_at))]
pub fn opcode_at(code: &[u8], at: usize) -> Option<Opcode>
    ensures opcode { option_map (λ opcode. (form_of opcode.form, opcode.at)) result ≡ definition.form_at code.now at }
    ensures within { IfSome result (λ opcode. opcode.at ≤ length code.now) }
{
    let first = *code.get(at)?;
    if first != PREFIX {
        let form = one_byte_form(first)?;
        return Some(Opcode { form, at: at + 1 });
    }
    let second = *code.get(at + 1)?;
    let form = two_byte_form(second)?;
    Some(Opcode { form, at: at + 2 })
}

/// Where so many bytes from a place in the code on end; None where not all of them are there.
fn end_of(code: &[u8], at: usize, size: usize) -> Option<usize>
    requires { at ≤ length code.now }
    ensures end { result ≡ definition.end_of code.now at size }
    ensures within { IfSome result (λ end. end ≤ length code.now) }
{
    if size <= code.len() - at {
        Some(at + size)
    } else {
        None
    }
}

impl Opcode {
    /// Where the operand ends; None where it isn't whole.
    #[tactic(auto, unfolding(crate::specs::Instructions::operand_end))]
    pub fn operand_end(self, code: &[u8]) -> Option<usize>
        requires { self.at ≤ length code.now }
        ensures end { result ≡ definition.operand_end code.now (form_of self.form) self.at }
        ensures within { IfSome result (λ end. end ≤ length code.now) }
        ensures room { IfSome result (λ end. self.at + definition.least_size (form_of self.form) ≤ end) }
    {
        let size = match self.form {
            Form::Bare(_) => 0,
            Form::ShortVariable(_) | Form::Flags(_) | Form::ShortInt32 | Form::ShortBranch(_) => 1,
            Form::Variable(_) => 2,
            Form::Int32 | Form::Float32 | Form::Token(_) | Form::Branch(_) => 4,
            Form::Int64 | Form::Float64 => 8,
            Form::Switch => 4 + 4 * le32(code, self.at)? as usize,
        };
        end_of(code, self.at, size)
    }
}

/// The place after the instruction at a place; None where no whole instruction begins there.
#[tactic(auto, unfolding(crate::specs::Instructions::next_at))]
pub fn next_at(code: &[u8], at: usize) -> Option<usize>
    ensures next { result ≡ definition.next_at code.now at }
    ensures within { IfSome result (λ next. next ≤ length code.now) }
{
    opcode_at(code, at)?.operand_end(code)
}
