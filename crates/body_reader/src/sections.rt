//! The sections after the code of a method, and the clauses in them (ECMA-335 II.25.4.5, II.25.4.6).

ghost use Rattle.std.specs.Prelude.{◌≡◌, ◌+◌, ◌*◌, ◌<◌, ◌≤◌, ◌^◌, length, option_map, IfOk, IsTrue};
ghost use Rattle.byte_view.specs.Reading.{Reads};
ghost use Rattle.body_reader.specs.Clauses as definition;
ghost use Rattle.body_reader.specs.Code.{is_marked};
ghost use Rattle.body_reader.specs.Refusals.{refusal};
ghost use Rattle.body_reader.specs.View.{section_of, fields_of};

use crate::bad::{BodyBad, bad, field8, field16, must};
use crate::clause::{Clause, ClauseKind, Clauses};
use crate::code::is_start;
use byte_view::{le32, number8, number16, number32};
use std::alloc::Global;

/// The kind of a section that is a table of clauses, in the lower 6 bits of its first byte.
const TABLE: u8 = 0x01;

/// The flag of a section whose clauses are fat.
const FAT: u8 = 0x40;

/// The flag of a section that another follows.
const MORE: u8 = 0x80;

/// The size of a section's header, in bytes.
const HEADER_SIZE: usize = 4;

/// The header of a section.
#[derive(Clone, Copy)]
pub struct Section {
    pub is_fat: bool,
    pub is_last: bool,
    /// The size of the section with its header, in bytes.
    pub size: usize,
}

/// The fields of a clause.
#[derive(Clone, Copy)]
pub struct Fields {
    pub flags: u32,
    pub try_at: u32,
    pub try_size: u32,
    pub at: u32,
    pub size: u32,
    pub token: u32,
}

/// The bytes of a clause.
fn clause_size(is_fat: bool) -> usize
    ensures size { result ≡ definition.clause_size is_fat }
    ensures some { 12 ≤ result }
    ensures small { result ≤ 24 }
{
    if is_fat { 24 } else { 12 }
}

/// The clauses of the sections from a place on, over code whose instructions are marked.
pub fn read_sections(
    alloc: Global,
    b: &[u8],
    starts: &[bool],
    at: usize,
) -> Result<Clauses, BodyBad>
    requires place { at < 2 ^ 33 }
    requires code { length starts.now < 2 ^ 32 }
    ensures { Reads refusal (λ clauses. clauses) result
        (definition.sections_from (length b.now) b.now starts.now at) }
{
    let mut clauses = Clauses::new(alloc);
    let mut at = at;
    let mut most = b.len();
    while most > 0 {
        most -= 1;
        let section = section_at(b, at)?;
        let more = read_clauses(alloc, b, starts, at, section)?;
        clauses.extend_from_slice(more.as_slice())?;
        if section.is_last {
            return Ok(clauses);
        }
        at += section.size;
    }
    Err(bad(at))
}

/// The header of the section at a place.
#[tactic(auto, unfolding(crate::specs::Clauses::section_at))]
fn section_at(b: &[u8], at: usize) -> Result<Section, BodyBad>
    requires { at < 2 ^ 63 + 2 ^ 62 }
    ensures section { Reads refusal section_of result (definition.section_at b.now at) }
    ensures size { IfOk result (λ section. 4 ≤ section.size) }
    ensures small { IfOk result (λ section. section.size < 2 ^ 24) }
    ensures within { IfOk result (λ section. at + 4 ≤ length b.now) }
{
    let kind = field8(b, at)?;
    must(kind % 0x40 == TABLE, at)?;
    let is_fat = kind & FAT != 0;
    let size = section_size(b, at, is_fat)?;
    must(
        size >= HEADER_SIZE && (size - HEADER_SIZE).is_multiple_of(clause_size(is_fat)),
        at + 1,
    )?;
    Ok(Section {
        is_fat,
        is_last: kind & MORE == 0,
        size,
    })
}

/// The size of a section, after its kind.
fn section_size(b: &[u8], at: usize, is_fat: bool) -> Result<usize, BodyBad>
    requires { at < 2 ^ 63 + 2 ^ 62 }
    ensures size { Reads refusal (λ x. x) result (definition.section_size is_fat b.now at) }
    ensures small { IfOk result (λ size. size < 2 ^ 24) }
    ensures within { IfOk result (λ size. at + 4 ≤ length b.now) }
{
    if is_fat {
        let header = le32(b, at).ok_or(bad(at + 1))?;
        Ok(header as usize / 0x100)
    } else {
        small_size(b, at)
    }
}

/// The size of a small section, after which two reserved bytes stand.
#[tactic(auto, unfolding(crate::specs::Clauses::small_size))]
fn small_size(b: &[u8], at: usize) -> Result<usize, BodyBad>
    requires { at < 2 ^ 63 + 2 ^ 62 }
    ensures size { Reads refusal (λ x. x) result (definition.small_size b.now at) }
    ensures small { IfOk result (λ size. size < 2 ^ 24) }
    ensures within { IfOk result (λ size. at + 4 ≤ length b.now) }
{
    let size = field8(b, at + 1)?;
    field16(b, at + 2)?;
    Ok(usize::from(size))
}

/// The clauses of the section at a place.
fn read_clauses(
    alloc: Global,
    b: &[u8],
    starts: &[bool],
    at: usize,
    section: Section,
) -> Result<Clauses, BodyBad>
    requires within { at + 4 ≤ length b.now }
    requires size { section.size < 2 ^ 24 }
    requires header { 4 ≤ section.size }
    requires code { length starts.now < 2 ^ 32 }
    ensures { Reads refusal (λ clauses. clauses) result
        (definition.clauses_at b.now starts.now at (section_of section)) }
{
    let size = clause_size(section.is_fat);
    let count = (section.size - HEADER_SIZE) / size;
    let mut clauses = Clauses::new(alloc);
    for k in 0..count {
        let clause = clause_at(b, starts, at + HEADER_SIZE + size * k, section.is_fat)?;
        clauses.push(clause)?;
    }
    Ok(clauses)
}

/// The clause at a place.
#[tactic(auto, unfolding(crate::specs::Clauses::clause_at))]
fn clause_at(b: &[u8], starts: &[bool], at: usize, is_fat: bool) -> Result<Clause, BodyBad>
    requires place { at < 2 ^ 63 + 2 ^ 62 }
    requires code { length starts.now < 2 ^ 32 }
    ensures clause { Reads refusal (λ x. x) result (definition.clause_at is_fat b.now starts.now at) }
{
    must(at + clause_size(is_fat) <= b.len(), at)?;
    let fields = if is_fat {
        fat_fields(b, at)
    } else {
        small_fields(b, at)
    };
    clause_of(starts, fields).ok_or(bad(at))
}

/// The fields of the small clause at a place.
fn small_fields(b: &[u8], at: usize) -> Fields
    requires { at + 12 ≤ length b.now }
    ensures { fields_of result ≡ definition.small_fields b.now at }
{
    Fields {
        flags: u32::from(number16(b, at)),
        try_at: u32::from(number16(b, at + 2)),
        try_size: u32::from(number8(b, at + 4)),
        at: u32::from(number16(b, at + 5)),
        size: u32::from(number8(b, at + 7)),
        token: number32(b, at + 8),
    }
}

/// The fields of the fat clause at a place.
fn fat_fields(b: &[u8], at: usize) -> Fields
    requires { at + 24 ≤ length b.now }
    ensures { fields_of result ≡ definition.fat_fields b.now at }
{
    Fields {
        flags: number32(b, at),
        try_at: number32(b, at + 4),
        try_size: number32(b, at + 8),
        at: number32(b, at + 12),
        size: number32(b, at + 16),
        token: number32(b, at + 20),
    }
}

/// The clause that fields say; None where its blocks aren't whole instructions, or it is of another kind than catch, finally
/// and fault.
#[tactic(auto, unfolding(crate::specs::Clauses::clause_of))]
fn clause_of(starts: &[bool], fields: Fields) -> Option<Clause>
    requires { length starts.now < 2 ^ 32 }
    ensures { let f = fields_of fields in
        result ≡ definition.clause_of starts.now f (definition.kind_of f.flags f.token) }
{
    let kind = kind_of(fields)?;
    if !are_instructions(starts, fields.try_at, fields.try_size)
        || !are_instructions(starts, fields.at, fields.size)
    {
        return None;
    }
    Some(Clause {
        kind,
        try_at: fields.try_at,
        try_end: fields.try_at + fields.try_size,
        at: fields.at,
        end: fields.at + fields.size,
    })
}

/// The kind of a clause, by its flags; None for a filter, 1, and for what is no kind.
fn kind_of(fields: Fields) -> Option<ClauseKind>
    ensures { result ≡ definition.kind_of fields.flags fields.token }
{
    match fields.flags {
        0 => Some(ClauseKind::Catch(fields.token)),
        2 => Some(ClauseKind::Finally),
        4 => Some(ClauseKind::Fault),
        _ => None,
    }
}

/// Whether so many bytes from an offset on are whole instructions, at least one.
fn are_instructions(starts: &[bool], at: u32, size: u32) -> bool
    requires { length starts.now < 2 ^ 32 }
    ensures test { result ≡ definition.are_instructions starts.now at size }
    ensures within { IsTrue result → at + size ≤ length starts.now }
{
    let end = at as usize + size as usize;
    size != 0 && is_start(starts, at as usize) && is_end(starts, end)
}

/// Whether an offset is that of an instruction, or the end of the code.
fn is_end(starts: &[bool], at: usize) -> bool
    ensures test { result ≡ definition.is_end starts.now at }
    ensures within { IsTrue result → at ≤ length starts.now }
{
    is_start(starts, at) || at == starts.len()
}
