//! The body of a method (ECMA-335 II.25.4).

ghost use Rattle.std.specs.Prelude.{◌≡◌, ◌+◌, ◌*◌, ◌≤◌, ◌<◌, ◌^◌, ◌↔◌, length, slice_get, IsTrue, IsSome, Some};
ghost use Rattle.byte_view.specs.Reading.{Reads};
ghost use Rattle.body_reader.specs.Bodies.{body_of, instr_of, switch_target_of, aligned as aligned_to};
ghost use Rattle.body_reader.specs.Code.{is_start};
ghost use Rattle.body_reader.specs.Instructions.{switch_target_at};
ghost use Rattle.body_reader.specs.Refusals.{refusal};

use crate::bad::{BodyBad, must};
use crate::clause::{Clause, Clauses};
use crate::code::{Starts, is_start, read_starts};
use crate::header::read_header;
use crate::instructions::instruction_at;
use crate::op::Op;
use crate::sections::read_sections;
use crate::targets::{check_targets, switch_target_at};
use bound_base::Bytes;
use std::alloc::Global;
use std::marker::Model;

/// The body of a method: its code, which is whole instructions whose branches lead to instructions, and its clauses.
#[derive(Debug, Drop)]
pub struct Body {
    /// How many values its stack holds.
    pub max_stack: u16,
    pub code: Bytes,
    /// The token of the signature of its locals, or 0.
    pub locals: u32,
    pub clauses: Clauses,
    starts: Starts,
}

impl Model for Body {
    ghost use Rattle.std.specs.Prelude.{◌<◌, ◌^◌, length};
    ghost use Rattle.body_reader.specs.Bodies.{MethodBody, IsCode};

    ghost Value = { MethodBody };

    ghost view = { λ b. record { max_stack = b.max_stack; code = b.code; locals = b.locals; clauses = b.clauses } };

    ghost invariant = { λ b. IsCode b.code b.starts × (length b.clauses < 2 ^ 32) };
}

impl Body {
    /// How many clauses there are. They have the numbers from 0 to this one, which isn't any's.
    pub fn clause_count(&self) -> u32
        ensures { result ≡ length self.now.clauses }
    {
        self.clauses.len() as u32
    }

    /// The clause with a number.
    pub fn clause(&self, k: u32) -> Clause
        requires { k < length self.now.clauses }
        ensures { slice_get self.now.clauses k ≡ Some result }
    {
        self.clauses.as_slice()[k as usize]
    }
}

/// Reads the body that bytes begin with; what follows it isn't looked at.
///
/// `BadBody` gives the first place that is missing or wrong, part by part: the fields of the header; the instructions, which
/// fill the code end to end; the distances of branches, each of which leads to an instruction; the sections, and in them the
/// clauses, each a catch, finally or fault clause over whole instructions.
#[tactic(auto, unfolding(crate::specs::Bodies::body_of))]
pub fn read_body(alloc: Global, b: &[u8]) -> Result<Body, BodyBad>
    ensures { Reads refusal (λ body. body) result (body_of b.now) }
{
    let header = read_header(b)?;
    let rest = &b[header.start..];
    let code = if header.size < rest.len() {
        &rest[..header.size]
    } else {
        rest
    };
    let starts = read_starts(alloc, code, header.start)?;
    must(code.len() == header.size, header.start + code.len())?;
    check_targets(code, starts.as_slice(), header.start)?;
    let clauses = if header.has_sections {
        read_sections(
            alloc,
            b,
            starts.as_slice(),
            aligned(header.start + header.size),
        )?
    } else {
        Clauses::new(alloc)
    };
    // no memory has so many
    if clauses.len() > u32::MAX as usize {
        return Err(BodyBad::Memory);
    }
    let mut owned = Bytes::new(alloc);
    owned.extend_from_slice(code)?;
    Ok(Body {
        max_stack: header.max_stack,
        code: owned,
        locals: header.locals,
        clauses,
        starts,
    })
}

/// The first multiple of 4 from a place on.
fn aligned(at: usize) -> usize
    requires { at < 2 ^ 33 }
    ensures aligned { result ≡ aligned_to at }
    ensures small { result ≤ at + 3 }
{
    (at + 3) / 4 * 4
}

/// The instruction that begins at an offset of the code, and the offset of the next; None exactly where no instruction begins.
/// It takes no memory, and its time doesn't depend on the body.
pub fn instr(body: &Body, at: u32) -> Option<(Op, u32)>
    ensures instruction { result ≡ instr_of body.now at }
    ensures start { IsSome result ↔ IsTrue (is_start body.now.code at) }
{
    if !is_start(body.starts.as_slice(), at as usize) {
        return None;
    }
    instruction_at(body.code.as_slice(), at as usize)
}

/// Where the switch that begins at an offset of the code goes for the number `k`; None where no switch begins there, or it has
/// no more than `k` targets. It takes no memory, and its time doesn't depend on the body.
pub fn switch_target(body: &Body, at: u32, k: u32) -> Option<u32>
    ensures { result ≡ switch_target_of body.now at k }
{
    match instr(body, at)? {
        (Op::Switch { count, at: first }, _) if k < count => {
            switch_target_in(body.code.as_slice(), count, first, k)
        }
        _ => None,
    }
}

/// Where a switch goes whose distances begin at a place of the code.
fn switch_target_in(code: &[u8], count: u32, first: u32, k: u32) -> Option<u32>
    requires within { first + 4 * count ≤ length code.now }
    requires less { k < count }
    requires small { length code.now < 2 ^ 32 }
    ensures { result ≡ switch_target_at code.now count first k }
{
    let target = switch_target_at(code, count, first as usize, k)?;
    Some(target as u32)
}
