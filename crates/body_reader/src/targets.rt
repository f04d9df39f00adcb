//! The targets of branches (ECMA-335 III.1.7.2.2, III.3.66).

ghost use Rattle.std.specs.Prelude.{◌≡◌, ◌+◌, ◌*◌, ◌<◌, ◌≤◌, ◌^◌, length, Some, IfSome};
ghost use Rattle.byte_view.specs.Numbers.{le};
ghost use Rattle.byte_view.specs.Reading.{Reads};
ghost use Rattle.body_reader.specs.Bodies.{from_start};
ghost use Rattle.body_reader.specs.Code as definition;
ghost use Rattle.body_reader.specs.Forms.{form_of};
ghost use Rattle.body_reader.specs.Instructions as instructions;
ghost use Rattle.body_reader.specs.Refusals.{refusal};

use crate::bad::{BodyBad, must};
use crate::code::is_start;
use crate::decoding::{Opcode, opcode_at};
use crate::forms::Form;
use byte_view::{number8, number32};

/// The target of a branch by its distance, a byte, from the place of the next instruction; None where it isn't in the code.
#[tactic(auto, unfolding(crate::specs::Instructions::target_of))]
fn short_target(code: &[u8], next: usize, distance: u8) -> Option<usize>
    requires { next ≤ length code.now }
    ensures target { result ≡ instructions.target_of code.now 1 next distance }
    ensures within { IfSome result (λ target. target < length code.now) }
{
    let target = if distance < 0x80 {
        next + usize::from(distance)
    } else {
        (next + usize::from(distance)).checked_sub(0x100)?
    };
    if target < code.len() {
        Some(target)
    } else {
        None
    }
}

/// The same by a distance of four bytes.
#[tactic(auto, unfolding(crate::specs::Instructions::target_of))]
fn long_target(code: &[u8], next: usize, distance: u32) -> Option<usize>
    requires { next ≤ length code.now }
    ensures target { result ≡ instructions.target_of code.now 4 next distance }
    ensures within { IfSome result (λ target. target < length code.now) }
{
    let target = if distance < 0x8000_0000 {
        next + distance as usize
    } else {
        (next + distance as usize).checked_sub(0x1_0000_0000)?
    };
    if target < code.len() {
        Some(target)
    } else {
        None
    }
}

/// The target of a branch whose distance, a byte, stands at a place; `next` is the place of the next instruction.
pub fn short_target_at(code: &[u8], next: usize, at: usize) -> Option<usize>
    requires next { next ≤ length code.now }
    requires here { at + 1 ≤ length code.now }
    ensures target { result ≡ instructions.target_at code.now 1 next at }
    ensures within { IfSome result (λ target. target < length code.now) }
{
    short_target(code, next, number8(code, at))
}

/// The same of a distance of four bytes.
pub fn long_target_at(code: &[u8], next: usize, at: usize) -> Option<usize>
    requires next { next ≤ length code.now }
    requires here { at + 4 ≤ length code.now }
    ensures target { result ≡ instructions.target_at code.now 4 next at }
    ensures within { IfSome result (λ target. target < length code.now) }
{
    long_target(code, next, number32(code, at))
}

/// Where a switch of `count` targets, whose distances begin at a place, goes for the number `k`; None where that isn't in the
/// code.
pub fn switch_target_at(code: &[u8], count: u32, at: usize, k: u32) -> Option<usize>
    requires within { at + 4 * count ≤ length code.now }
    requires small { k < count }
    ensures target { result ≡ instructions.switch_target_at code.now count at k }
    ensures within { IfSome result (λ target. target < length code.now) }
{
    let next = at + 4 * count as usize;
    long_target_at(code, next, at + 4 * k as usize)
}

/// Whether a branch leads to an instruction.
fn is_target(starts: &[bool], target: Option<usize>) -> bool
    ensures { result ≡ definition.is_target starts.now target }
{
    match target {
        Some(at) => is_start(starts, at),
        None => false,
    }
}

/// Refuses the first branch, in code that stands in a body from `start` on, that doesn't lead to an instruction.
#[tactic(auto, unfolding(crate::specs::Code::targets_in))]
pub fn check_targets(code: &[u8], starts: &[bool], start: usize) -> Result<(), BodyBad>
    requires { start ≤ 12 }
    ensures { Reads refusal (λ _. 0) result (from_start start (definition.targets_in code.now starts.now)) }
{
    for at in 0..code.len() {
        check_offset(code, starts, start, at)?;
    }
    Ok(())
}

/// Checks the targets of the instruction at an offset, if one begins there.
fn check_offset(code: &[u8], starts: &[bool], start: usize, at: usize) -> Result<(), BodyBad>
    requires { start ≤ 12 }
    ensures { Reads refusal (λ _. 0) result
        (from_start start (definition.check_at code.now starts.now at)) }
{
    if is_start(starts, at) {
        check_instruction(code, starts, start, at)
    } else {
        Ok(())
    }
}

/// Checks the targets of the instruction at an offset.
fn check_instruction(code: &[u8], starts: &[bool], start: usize, at: usize) -> Result<(), BodyBad>
    requires { start ≤ 12 }
    ensures { Reads refusal (λ _. 0) result
        (from_start start (definition.check_form code.now starts.now (instructions.form_at code.now at))) }
{
    let Some(opcode) = opcode_at(code, at) else {
        return Ok(());
    };
    let Some(next) = opcode.operand_end(code) else {
        return Ok(());
    };
    check_opcode(code, starts, start, opcode, next)
}

/// Checks the targets of an instruction, by its opcode and the place of the next.
#[tactic(auto, using(crate::proofs::Operands::switch_size), unfolding(crate::specs::Code::check_targets))]
fn check_opcode(
    code: &[u8],
    starts: &[bool],
    start: usize,
    opcode: Opcode,
    next: usize,
) -> Result<(), BodyBad>
    requires start { start ≤ 12 }
    requires next { instructions.operand_end code.now (form_of opcode.form) opcode.at ≡ Some next }
    requires room { opcode.at + instructions.least_size (form_of opcode.form) ≤ next }
    requires within { next ≤ length code.now }
    ensures { Reads refusal (λ _. 0) result
        (from_start start (definition.check_targets code.now starts.now (form_of opcode.form) opcode.at next)) }
{
    let at = opcode.at;
    match opcode.form {
        Form::ShortBranch(_) => {
            let target = short_target_at(code, next, at);
            must(is_target(starts, target), start + at)
        }
        Form::Branch(_) => {
            let target = long_target_at(code, next, at);
            must(is_target(starts, target), start + at)
        }
        Form::Switch => check_switch(code, starts, start, at + 4, number32(code, at)),
        _ => Ok(()),
    }
}

/// Checks the targets of a switch, of which there are `count`, whose distances begin at a place.
#[tactic(auto, unfolding(crate::specs::Code::check_switch))]
fn check_switch(
    code: &[u8],
    starts: &[bool],
    start: usize,
    at: usize,
    count: u32,
) -> Result<(), BodyBad>
    requires start { start ≤ 12 }
    requires within { at + 4 * count ≤ length code.now }
    ensures { Reads refusal (λ _. 0) result
        (from_start start (definition.check_switch code.now starts.now at count)) }
{
    for k in 0..count {
        let target = switch_target_at(code, count, at, k);
        must(is_target(starts, target), start + at + 4 * k as usize)?;
    }
    Ok(())
}
