//! Parts of values: what stands at a path, and what is put there.

ghost use Rattle.std.specs.Prelude.{◌≡◌, IfOk};
ghost use Rattle.std.specs.Option.{option_map};
ghost use Rattle.managed_value.specs.declared.place.PathStep.TheVariants.{Field};
ghost use Rattle.managed_value.specs.Parts.{kind_of, part_at, part as part_at_step, bytes_in, flat_of};
ghost use Rattle.managed_value.specs.View.{shown};

use crate::kind::Kind;
use crate::names::TypeId;
use crate::place::{Path, PathStep, Place};
use crate::value::{Value, Values};
use bound_base::{Bytes, Items, NoMemory};
use std::alloc::Global;

/// The kind of a value.
pub fn kind(v: &Value) -> Kind
    ensures { result ≡ kind_of v.now }
{
    match v {
        Value::I32(_) => Kind::Int32,
        Value::I64(_) => Kind::Int64,
        Value::N(_) => Kind::NativeInt,
        Value::Null | Value::Ref(_) => Kind::Reference,
        Value::Code(_) => Kind::Code,
        Value::At(_) => Kind::Address,
        Value::Flat(ty, bytes) => Kind::Bytes(*ty, bytes.len()),
        Value::Fields(ty, _) => Kind::Fields(*ty),
    }
}

/// A copy of a value, all of its parts copied.
pub fn copy_of(alloc: Global, v: &Value) -> Result<Value, NoMemory>
    ensures { IfOk result (λ copy. copy ≡ v.now) }
{
    Ok(match v {
        Value::I32(n) => Value::I32(*n),
        Value::I64(n) => Value::I64(*n),
        Value::N(n) => Value::N(*n),
        Value::Null => Value::Null,
        Value::Ref(object) => Value::Ref(*object),
        Value::Code(method) => Value::Code(*method),
        Value::At(place) => Value::At(copy_of_place(alloc, place)?),
        Value::Flat(ty, bytes) => Value::Flat(*ty, copy_of_items(alloc, bytes.as_slice())?),
        Value::Fields(ty, parts) => {
            let mut copies = Values::new(alloc);
            for part in parts.as_slice() {
                copies.push(copy_of(alloc, part)?)?;
            }
            Value::Fields(*ty, copies)
        }
    })
}

/// A copy of a place.
pub fn copy_of_place(alloc: Global, place: &Place) -> Result<Place, NoMemory>
    ensures { IfOk result (λ copy. copy ≡ place.now) }
{
    Ok(Place {
        root: place.root,
        path: copy_of_items(alloc, place.path.as_slice())?,
    })
}

fn copy_of_items<T: Copy>(alloc: Global, items: &[T]) -> Result<Items<T>, NoMemory>
    ensures { IfOk result (λ copy. copy ≡ items.now) }
{
    let mut copy = Items::with_capacity(alloc, items.len())?;
    copy.extend_from_slice(items)?;
    Ok(copy)
}

/// The value at a path, copied; None exactly where the path leads to none.
pub fn get_at(alloc: Global, v: &Value, path: &Path) -> Result<Option<Value>, NoMemory>
    ensures { IfOk result (λ found. found ≡ part_at v.now path.now) }
{
    match part_of(v, path.as_slice()) {
        Some(part) => Ok(Some(copy_of_part(alloc, part)?)),
        None => Ok(None),
    }
}

/// A part of a value: a value in it, or bytes of one that is kept as bytes.
#[derive(Drop)]
pub enum Part<'a> {
    Whole(&'a Value),
    Bytes(TypeId, &'a [u8]),
}

/// The kind of the value that a part is.
pub fn kind_of_part(part: &Part) -> Kind
    ensures { result ≡ kind_of (shown part.now) }
{
    match part {
        Part::Whole(v) => kind(v),
        Part::Bytes(ty, bytes) => Kind::Bytes(*ty, bytes.len()),
    }
}

fn copy_of_part(alloc: Global, part: Part) -> Result<Value, NoMemory>
    ensures { IfOk result (λ copy. copy ≡ shown part.entry) }
{
    match part {
        Part::Whole(v) => copy_of(alloc, v),
        Part::Bytes(ty, bytes) => Ok(Value::Flat(ty, copy_of_items(alloc, bytes)?)),
    }
}

/// The part at a path; None where there is none.
pub fn part_of<'a>(v: &'a Value, path: &[PathStep]) -> Option<Part<'a>>
    ensures { option_map shown result ≡ part_at v.now path.now }
{
    let mut part = Part::Whole(v);
    for step in path {
        part = step_into(part, *step)?;
    }
    Some(part)
}

/// The part at a step; None where there is none.
fn step_into<'a>(part: Part<'a>, step: PathStep) -> Option<Part<'a>>
    ensures { option_map shown result ≡ part_at_step (shown part.entry) step }
{
    match (part, step) {
        (Part::Whole(v), PathStep::Field(k)) => field(v, k),
        (Part::Whole(Value::Flat(ty, bytes)), PathStep::Range(at, len)) => {
            range(*ty, bytes.as_slice(), at, len)
        }
        (Part::Bytes(ty, bytes), PathStep::Range(at, len)) => range(ty, bytes, at, len),
        _ => None,
    }
}

/// A field of a value; None where it has no such field.
fn field(v: &Value, k: u32) -> Option<Part<'_>>
    ensures { option_map shown result ≡ part_at_step v.now (Field k) }
{
    match v {
        Value::Fields(_, parts) => Some(Part::Whole(parts.get(k as usize)?)),
        _ => None,
    }
}

/// A range of bytes; None where they aren't all there.
fn range(ty: TypeId, bytes: &[u8], at: u32, len: u32) -> Option<Part<'_>>
    ensures { option_map shown result ≡ flat_of ty (bytes_in bytes.now at len) }
{
    let at = at as usize;
    let end = at + len as usize;
    if end > bytes.len() {
        return None;
    }
    Some(Part::Bytes(ty, &bytes[at..end]))
}
