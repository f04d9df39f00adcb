//! The members that have a name and a spelling: methods and fields of the file by their rows, and core members.

ghost use Rattle.std.specs.Prelude.{◌≡◌, ◌++◌, ◌∷◌, map, IfOk, OnOk};
ghost use Rattle.type_members.specs.CoreMembers.{core_member_at};
ghost use Rattle.type_members.specs.Spelled.{counted};
ghost use Rattle.type_members.specs.Found as definition;
ghost use Rattle.type_members.specs.View.{view_member};

use crate::core_members::{CoreMember, CorePart, MemberKind, core_member};
use crate::spelling::{spell_id, spell_sig, spell_type};
use crate::table_numbers::{FIELDS, METHOD_DEFS, ROW_LIMIT};
use bound_base::{Items, NoMemory};
use managed_value::TypeId;
use sig_reader::{Sig, SigBad, read_field_sig, read_method_sig};
use std::alloc::{AllocError, Global};
use type_model::Types;

/// What a field's signature begins with (ECMA-335 II.23.2.4).
const FIELD: u64 = 0x06;

/// A managed pointer (II.23.1.16).
const BY_REF: u64 = 0x10;

/// The spelling of the signature in a blob; None where it is none.
pub fn blob_words(alloc: Global, types: &Types, blob: &[u8]) -> Result<Option<Items<u64>>, NoMemory>
    ensures { IfOk result (λ words. words ≡ definition.blob_words types.now blob.now) }
{
    let mut words = Items::new(alloc);
    match read_method_sig(alloc, blob) {
        Ok(sig) => {
            words.push(0)?;
            spell_sig(types, &sig, &mut words)?;
            return Ok(Some(words));
        }
        Err(SigBad::BadSig(_)) => {}
        Err(SigBad::Memory) => return Err(NoMemory),
    }
    match read_field_sig(alloc, blob) {
        Ok(sig) => {
            words.push(FIELD)?;
            spell_type(types, &sig, &mut words)?;
            Ok(Some(words))
        }
        Err(SigBad::BadSig(_)) => Ok(None),
        Err(SigBad::Memory) => Err(NoMemory),
    }
}

/// The spelling of a method's signature.
pub fn method_words(alloc: Global, types: &Types, sig: &Sig) -> Result<Items<u64>, NoMemory>
    ensures { IfOk result (λ words. words ≡ definition.method_words types.now sig.now) }
{
    let mut words = Items::new(alloc);
    words.push(0)?;
    spell_sig(types, sig, &mut words)?;
    Ok(words)
}

/// Whether a method of the file has a name and a spelling.
pub fn is_method(
    alloc: Global,
    types: &Types,
    name: &[u8],
    words: &[u64],
    n: u32,
) -> Result<bool, NoMemory>
    ensures { IfOk result (λ is. is ≡ definition.is_method types.now name.now words.now n) }
{
    let image = types.image();
    if image.text(image.cell(METHOD_DEFS, u64::from(n), 3)) != name {
        return Ok(false);
    }
    let Some(sig) = types.method_sig(n) else {
        return Ok(false);
    };
    let mut own = Items::new(alloc);
    own.push(0)?;
    spell_sig(types, sig, &mut own)?;
    Ok(own.as_slice() == words)
}

/// Whether a field of the file has a name and a spelling.
pub fn is_field(
    alloc: Global,
    types: &Types,
    name: &[u8],
    words: &[u64],
    f: u32,
) -> Result<bool, NoMemory>
    ensures { IfOk result (λ is. is ≡ definition.is_field types.now name.now words.now f) }
{
    let image = types.image();
    if image.text(image.cell(FIELDS, u64::from(f), 1)) != name {
        return Ok(false);
    }
    let Some(sig) = types.field_sig(f) else {
        return Ok(false);
    };
    let mut own = Items::new(alloc);
    own.push(FIELD)?;
    spell_type(types, sig, &mut own)?;
    Ok(own.as_slice() == words)
}

/// Whether the core member of a place has an owner, a name and a spelling.
pub fn is_core_member(
    alloc: Global,
    owner: u32,
    name: &[u8],
    words: &[u64],
    place: u32,
) -> Result<bool, NoMemory>
    ensures { IfOk result (λ is. is ≡ definition.is_core_member owner name.now words.now (core_member_at place)) }
{
    let Some(known) = core_member(place) else {
        return Ok(false);
    };
    if u32::from(known.owner) != owner || known.name.as_bytes() != name {
        return Ok(false);
    }
    let mut own = Items::new(alloc);
    spell_core(known, &mut own)?;
    Ok(own.as_slice() == words)
}

/// Spells a core member, after what is spelled already.
pub fn spell_core(known: &CoreMember, words: &mut Items<u64>) -> Result<(), AllocError>
    ensures { OnOk result (words.new ≡ words.old ++ definition.core_words (view_member known.now)) }
{
    match known.kind {
        MemberKind::Static => spell_core_method(0, known, words),
        MemberKind::Instance | MemberKind::Virtual => spell_core_method(1, known, words),
        MemberKind::StaticField | MemberKind::InstanceField => {
            words.push(FIELD)?;
            spell_part(known.result, words)
        }
    }
}

fn spell_core_method(
    has_this: u64,
    known: &CoreMember,
    words: &mut Items<u64>,
) -> Result<(), AllocError>
    ensures { OnOk result (words.new ≡ words.old ++ 0 ∷ has_this ∷ 0 ∷ 0
        ∷ definition.part_words known.now.result ++ counted (map definition.part_words known.now.params.now)) }
{
    words.push(0)?;
    words.push(has_this)?;
    words.push(0)?;
    words.push(0)?;
    spell_part(known.result, words)?;
    spell_all_parts(known.params, words)
}

fn spell_all_parts(parts: &[CorePart], words: &mut Items<u64>) -> Result<(), AllocError>
    ensures { OnOk result (words.new ≡ words.old ++ counted (map definition.part_words parts.now)) }
{
    words.push(parts.len() as u64)?;
    for part in parts {
        spell_part(*part, words)?;
    }
    Ok(())
}

fn spell_part(part: CorePart, words: &mut Items<u64>) -> Result<(), AllocError>
    ensures { OnOk result (words.new ≡ words.old ++ definition.part_words part) }
{
    match part {
        CorePart::Of(place) => spell_id(core_id(place, 0), words),
        CorePart::ArrayOf(place) => spell_id(core_id(place, 1), words),
        CorePart::RefTo(place) => {
            words.push(BY_REF)?;
            spell_id(core_id(place, 0), words)
        }
    }
}

/// A core type, or an array of it.
fn core_id(place: u8, arrays: u32) -> TypeId
    ensures { result ≡ definition.core_array place arrays }
{
    TypeId {
        base: ROW_LIMIT + u32::from(place),
        arrays,
    }
}
