//! The signatures that the rows of TypeSpec, Field and MethodDef name.

ghost use Rattle.std.specs.Prelude.{◌≡◌, map, IfOk};
ghost use Rattle.type_model.specs.Module.{rows};
ghost use Rattle.type_model.specs.Rows.{type_specs, fields, method_defs};
ghost use Rattle.sig_reader.specs.Reading.{type_spec_sig, field_sig, method_sig};
ghost use Rattle.type_model.specs.TypeIds.{spec_sig_in};
ghost use Rattle.type_model.specs.Types.{field_sig_in};
ghost use Rattle.type_model.specs.Members.{sig_in};

use crate::module::Module;
use crate::pool::{Pool, share_offsets};
use crate::table_numbers::{FIELDS, METHOD_DEFS, TYPE_SPECS};
use bound_base::{Items, NoMemory};
use sig_reader::{Sig, SigBad, TypeSig, read_field_sig, read_method_sig, read_type_spec};
use std::alloc::Global;

/// The types in the blobs of TypeSpec.
pub fn spec_sigs(alloc: Global, image: &Module) -> Result<Pool<TypeSig>, NoMemory>
    ensures { IfOk result (λ sigs. sigs ≡ map (spec_sig_in image.now) (rows image.now type_specs)) }
{
    let shared = share_offsets(alloc, image.rows(TYPE_SPECS), 0, image.blob_heap_size())?;
    let mut values = Items::with_capacity(alloc, shared.offsets.len())?;
    for at in shared.offsets.as_slice() {
        values.push(type_in(alloc, image.blob(*at))?)?;
    }
    Ok(Pool::of(shared.places, values))
}

/// The signatures of fields.
pub fn field_sigs(alloc: Global, image: &Module) -> Result<Pool<TypeSig>, NoMemory>
    ensures { IfOk result (λ sigs. sigs ≡ map (field_sig_in image.now) (rows image.now fields)) }
{
    let shared = share_offsets(alloc, image.rows(FIELDS), 2, image.blob_heap_size())?;
    let mut values = Items::with_capacity(alloc, shared.offsets.len())?;
    for at in shared.offsets.as_slice() {
        values.push(field_type_in(alloc, image.blob(*at))?)?;
    }
    Ok(Pool::of(shared.places, values))
}

/// The signatures of methods.
pub fn method_sigs(alloc: Global, image: &Module) -> Result<Pool<Sig>, NoMemory>
    ensures { IfOk result (λ sigs. sigs ≡ map (sig_in image.now) (rows image.now method_defs)) }
{
    let shared = share_offsets(alloc, image.rows(METHOD_DEFS), 4, image.blob_heap_size())?;
    let mut values = Items::with_capacity(alloc, shared.offsets.len())?;
    for at in shared.offsets.as_slice() {
        values.push(method_in(alloc, image.blob(*at))?)?;
    }
    Ok(Pool::of(shared.places, values))
}

/// The type in a blob, None where it is no type.
fn type_in(alloc: Global, blob: &[u8]) -> Result<Option<TypeSig>, NoMemory>
    ensures { IfOk result (λ sig. sig ≡ type_spec_sig blob.now) }
{
    match read_type_spec(alloc, blob) {
        Ok(sig) => Ok(Some(sig)),
        Err(SigBad::BadSig(_)) => Ok(None),
        Err(SigBad::Memory) => Err(NoMemory),
    }
}

/// The field's signature in a blob, None outside the grammar.
fn field_type_in(alloc: Global, blob: &[u8]) -> Result<Option<TypeSig>, NoMemory>
    ensures { IfOk result (λ sig. sig ≡ field_sig blob.now) }
{
    match read_field_sig(alloc, blob) {
        Ok(sig) => Ok(Some(sig)),
        Err(SigBad::BadSig(_)) => Ok(None),
        Err(SigBad::Memory) => Err(NoMemory),
    }
}

/// The method's signature in a blob, None outside the grammar.
fn method_in(alloc: Global, blob: &[u8]) -> Result<Option<Sig>, NoMemory>
    ensures { IfOk result (λ sig. sig ≡ method_sig blob.now) }
{
    match read_method_sig(alloc, blob) {
        Ok(sig) => Ok(Some(sig)),
        Err(SigBad::BadSig(_)) => Ok(None),
        Err(SigBad::Memory) => Err(NoMemory),
    }
}
