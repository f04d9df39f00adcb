//! The signatures of methods, and imports, as the marshalling table reads them.

ghost use Rattle.std.specs.Prelude.{◌≡◌, ◌+◌, IfOk, map, option_map, bit_and, ◌==◌, not};
ghost use Rattle.std.specs.List.{enumerate_from};
ghost use Rattle.sig_reader.specs.declared.signature.TypeSig.{out-TypeSig};
ghost use Rattle.type_model.specs.Members.{method as spec_method};
ghost use Rattle.type_model.specs.MemberViews.{view_import, view_marshalled, view_method};
ghost use Rattle.stub_maker.specs.Described.{AreKinds, descriptor_of as spec_descriptor_of, imported_by, is_unicode_import as spec_is_unicode_import, is_void as spec_is_void, passed_at as spec_passed_at, passed_result as spec_passed_result, referred_step, signature_by as spec_signature_by, signature_of as spec_signature_of};

use crate::kinds::{Descriptor, Passed};
use crate::kinds_of_types::{FIRST_CORE, Kinds, sig_kind};
use crate::signature::{Imported, Signature};
use bound_base::{Items, NoMemory};
use sig_reader::{Sig, TypeSig};
use std::alloc::Global;
use type_model::{Import, Marshalled, MethodRow, Types};

/// The core type Void.
const VOID: u32 = FIRST_CORE + 17;

/// An import as the table reads it; None exactly where its method is no row.
pub fn imported(
    alloc: Global,
    types: &Types,
    kinds: &Kinds,
    import: &Import<'_>,
) -> Result<Option<Imported>, NoMemory>
    requires { AreKinds types.now kinds.now }
    ensures { IfOk result (λ imported. imported ≡ option_map (imported_by types.now (view_import import.now)) (spec_method types.now import.now.method)) }
{
    match types.method(import.method) {
        None => Ok(None),
        Some(method) => Ok(Some(import_by(alloc, types, kinds, import, &method)?)),
    }
}

/// An import, by its method.
fn import_by(
    alloc: Global,
    types: &Types,
    kinds: &Kinds,
    import: &Import<'_>,
    method: &MethodRow<'_>,
) -> Result<Imported, NoMemory>
    requires { AreKinds types.now kinds.now }
    ensures { IfOk result (λ imported. imported ≡ imported_by types.now (view_import import.now) (view_method method.now)) }
{
    Ok(Imported {
        preserves_signature: method.impl_flags & 0x80 != 0,
        is_static: method.flags & 0x10 != 0,
        signature: signature_of(alloc, types, kinds, import.method)?,
        unicode: import.flags & 0x6 == 0x4,
        saves_error: import.flags & 0x40 != 0,
    })
}

/// A method's signature; None where it is outside the grammar.
#[tactic(auto, unfolding(crate::specs::Described::signature_of))]
pub fn signature_of(
    alloc: Global,
    types: &Types,
    kinds: &Kinds,
    method: u32,
) -> Result<Option<Signature>, NoMemory>
    requires { AreKinds types.now kinds.now }
    ensures { IfOk result (λ signature. signature ≡ spec_signature_of types.now method) }
{
    match types.method_sig(method) {
        None => Ok(None),
        Some(sig) => Ok(Some(signature_by(alloc, types, kinds, method, sig)?)),
    }
}

/// A method's signature, as it is read.
fn signature_by(
    alloc: Global,
    types: &Types,
    kinds: &Kinds,
    method: u32,
    sig: &Sig,
) -> Result<Signature, NoMemory>
    requires { AreKinds types.now kinds.now }
    ensures { IfOk result (λ signature. signature ≡ spec_signature_by types.now method sig.now) }
{
    Ok(Signature {
        vararg: sig.vararg,
        generic: sig.generic,
        params: passed_params(alloc, types, kinds, method, sig.params.as_slice())?,
        result: passed_result(types, kinds, method, &sig.result),
    })
}

/// The parameters of a method.
fn passed_params(
    alloc: Global,
    types: &Types,
    kinds: &Kinds,
    method: u32,
    sigs: &[TypeSig],
) -> Result<Items<Passed>, NoMemory>
    requires { AreKinds types.now kinds.now }
    ensures { IfOk result (λ params. params ≡ map (λ numbered. spec_passed_at types.now method numbered.0 numbered.1) (enumerate_from 1 sigs.now)) }
{
    let mut params = Items::new(alloc);
    for (index, sig) in sigs.iter().enumerate() {
        let place = place_of(index)?;
        params.push(passed_at(types, kinds, method, place, sig))?;
    }
    Ok(params)
}

/// The place of a parameter, by its index. No memory holds more parameters than 32 bits count.
pub fn place_of(index: usize) -> Result<u32, NoMemory>
    ensures { IfOk result (λ place. place ≡ index + 1) }
{
    if index < u32::MAX as usize {
        Ok(index as u32 + 1)
    } else {
        Err(NoMemory)
    }
}

/// A method's result; None where it is Void.
pub fn passed_result(types: &Types, kinds: &Kinds, method: u32, sig: &TypeSig) -> Option<Passed>
    requires { AreKinds types.now kinds.now }
    ensures { result ≡ spec_passed_result types.now method sig.now }
{
    if is_void(types, sig) {
        None
    } else {
        Some(passed_at(types, kinds, method, 0, sig))
    }
}

fn is_void(types: &Types, sig: &TypeSig) -> bool
    ensures { result ≡ spec_is_void types.now sig.now }
{
    match types.type_of(sig) {
        Some(id) => id.base == VOID && id.arrays == 0,
        None => false,
    }
}

/// A place of a method's signature: 0 is the result, and parameters count from 1.
#[tactic(auto, unfolding(crate::specs::Described::passed_at))]
pub fn passed_at(types: &Types, kinds: &Kinds, method: u32, place: u32, sig: &TypeSig) -> Passed
    requires { AreKinds types.now kinds.now }
    ensures { result ≡ spec_passed_at types.now method place sig.now }
{
    let (reference, to) = referred(sig);
    Passed {
        reference,
        kind: sig_kind(types, kinds, to),
        flags: types.mark(method, place),
        descriptor: descriptor_of(types.spec(method, place)),
    }
}

/// Whether a type of a signature is by reference, and what it refers to.
fn referred(sig: &TypeSig) -> (bool, &TypeSig)
    ensures reference { result.0 ≡ (referred_step sig.now (out-TypeSig sig.now)).0 }
    ensures to { result.1.now ≡ (referred_step sig.now (out-TypeSig sig.now)).1 }
{
    match sig {
        TypeSig::ByRef(to) => (true, to.get()),
        _ => (false, sig),
    }
}

pub fn descriptor_of(marshalled: Marshalled) -> Descriptor
    ensures { result ≡ spec_descriptor_of (view_marshalled marshalled) }
{
    match marshalled {
        Marshalled::Nothing => Descriptor::Nothing,
        Marshalled::Unread => Descriptor::Unread,
        Marshalled::Is(spec) => Descriptor::Is(spec),
    }
}
