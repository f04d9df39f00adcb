//! What is found of one row of TypeDef, by what is known so far.

ghost use Rattle.std.specs.Prelude.{◌≡◌, ◌+◌, ◌<◌, All, IfNone, IfOk, IfSome, is_ok, map, true, false, None};
ghost use Rattle.std.specs.Option.{option_map};
ghost use Rattle.native_layout.specs.Outlines.{IsSound, outline as spec_outline};
ghost use Rattle.stub_maker.specs.Callbacks.{back_of};
ghost use Rattle.stub_maker.specs.Described.{facts_of};
ghost use Rattle.stub_maker.specs.Facts.{all_some, field_shape, struct_shape};
ghost use Rattle.stub_maker.specs.Learned.{IsClosedAt, IsNew, IsNewCallable, IsNewOutline, callable_at, known_so_far, next, outline_at, outline_of};

use crate::callbacks::is_callable;
use crate::facts::{FieldFacts, StructFacts, invoke_signature, struct_facts};
use crate::fields::field_form;
use crate::finding::Finding;
use crate::form_outlines::outline_of_field_form;
use crate::learned::Learned;
use crate::signature::Signature;
use bound_base::{Items, NoMemory};
use native_layout::{Offsets, Outline};
use std::alloc::{AllocError, Global};

/// What is found of a row, of which it hasn't been found; None where nothing is.
pub fn finding_at(alloc: Global, known: &Learned<'_>, t: u32) -> Result<Option<Finding>, NoMemory>
    requires { t < (facts_of known.now.image).count + 1 }
    ensures new { IfOk result (λ found. IfSome found (IsNew known.now)) }
    ensures closed { IfOk result (λ found. IfNone found (IsClosedAt known.now t)) }
{
    match new_outline(alloc, known, t)? {
        Some(outline) => Ok(Some(Finding::Outlined(t, outline))),
        None => {
            if is_new_callable(alloc, known, t)? {
                Ok(Some(Finding::Callable(t)))
            } else {
                Ok(None)
            }
        }
    }
}

/// The outline of a value type that had none.
fn new_outline(alloc: Global, known: &Learned<'_>, t: u32) -> Result<Option<Outline>, NoMemory>
    requires { t < (facts_of known.now.image).count + 1 }
    ensures new { IfOk result (λ found. IfSome found (IsNewOutline known.now t)) }
    ensures closed { IfOk result (λ found. IfNone found (outline_at known.now t ≡ None → (next known.now).struct_of t ≡ None)) }
{
    if known.outline_at(t).is_some() {
        return Ok(None);
    }
    outline_found(alloc, known, t)
}

/// Whether a delegate type that hasn't been known to have rows has some.
fn is_new_callable(alloc: Global, known: &Learned<'_>, t: u32) -> Result<bool, NoMemory>
    requires { t < (facts_of known.now.image).count + 1 }
    ensures new { IfOk result (λ found. found ≡ true → IsNewCallable known.now t) }
    ensures closed { IfOk result (λ found. found ≡ false → callable_at known.now t ≡ false → (next known.now).is_callable t ≡ false) }
{
    if known.callable_at(t) {
        return Ok(false);
    }
    callable_found(alloc, known, t)
}

/// Whether a delegate type has rows, by what is known so far.
fn callable_found(alloc: Global, known: &Learned<'_>, t: u32) -> Result<bool, NoMemory>
    ensures { IfOk result (λ found. found ≡ (next known.now).is_callable t) }
{
    let invoke = invoke_signature(alloc, known.types(), known.kinds(), t)?;
    Ok(crosses(known, &invoke))
}

fn crosses(known: &Learned<'_>, invoke: &Option<Signature>) -> bool
    ensures { result ≡ is_ok (back_of (known_so_far known.now) invoke.now) }
{
    is_callable(known, invoke.as_ref())
}

/// The outline of a value type, by what is known so far.
fn outline_found(alloc: Global, known: &Learned<'_>, t: u32) -> Result<Option<Outline>, NoMemory>
    ensures value { IfOk result (λ found. found ≡ outline_of ((next known.now).struct_of t)) }
    ensures sound { IfOk result (λ found. IfSome found IsSound) }
{
    match struct_facts(alloc, known.types(), known.kinds(), t)? {
        Some(facts) => outline_by(alloc, known, &facts),
        None => Ok(None),
    }
}

/// The outline of a struct; None where a field has no row in the table or isn't known yet.
fn outline_by(
    alloc: Global,
    known: &Learned<'_>,
    facts: &StructFacts,
) -> Result<Option<Outline>, NoMemory>
    ensures value { IfOk result (λ found. found ≡ outline_of (struct_shape (known_so_far known.now) facts.now)) }
    ensures sound { IfOk result (λ found. IfSome found IsSound) }
{
    let fields = facts.fields.as_slice();
    match field_outlines(alloc, known, fields)? {
        Some(outlines) => Ok(Some(Outline::structure(
            alloc,
            facts.pack,
            facts.least,
            facts.explicit,
            outlines.as_slice(),
            &offsets_of(alloc, fields)?,
        )?)),
        None => Ok(None),
    }
}

fn field_outlines(
    alloc: Global,
    known: &Learned<'_>,
    fields: &[FieldFacts],
) -> Result<Option<Items<Outline>>, NoMemory>
    ensures value { IfOk result (λ found. found ≡ option_map (map spec_outline) (all_some (map (field_shape (known_so_far known.now)) fields.now))) }
    ensures sound { IfOk result (λ found. IfSome found (All IsSound)) }
{
    let mut outlines = Items::new(alloc);
    for field in fields {
        match field_outline(known, *field) {
            Some(outline) => outlines.push(outline)?,
            None => return Ok(None),
        }
    }
    Ok(Some(outlines))
}

fn field_outline(known: &Learned<'_>, field: FieldFacts) -> Option<Outline>
    ensures value { result ≡ option_map spec_outline (field_shape (known_so_far known.now) field) }
    ensures sound { IfSome result IsSound }
{
    let form = field_form(known, field.unicode, field.kind, field.descriptor)?;
    outline_of_field_form(known, form)
}

/// The offsets that are written for fields.
pub fn offsets_of(alloc: Global, fields: &[FieldFacts]) -> Result<Offsets, AllocError>
    ensures { IfOk result (λ offsets. offsets ≡ map (λ f. f.offset) fields.now) }
{
    let offsets = written_offsets(alloc, fields)?;
    Ok(Items::from_vec(offsets))
}

fn written_offsets(alloc: Global, fields: &[FieldFacts]) -> Result<Vec<Option<u32>>, AllocError>
    ensures { IfOk result (λ offsets. offsets.items ≡ map (λ f. f.offset) fields.now) }
{
    fields.iter().map(|f| f.offset).collect(alloc)
}
