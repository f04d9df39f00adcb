//! The stub of an import of an assembly. Its parameters are read one after another, up to the first that has no row, so that
//! an import that is outside costs no more than what stands before the reason.

ghost use Rattle.std.specs.Prelude.{◌≡◌, ◌+◌, ◌&&◌, ◌==◌, bit_and, nat_lt, not};
ghost use Rattle.sig_reader.specs.declared.signature.Sig.{out-Sig};
ghost use Rattle.type_model.specs.MemberViews.{view_import, view_method};
ghost use Rattle.stub_maker.specs.Crossing.{IsReturned, IsStep};
ghost use Rattle.stub_maker.specs.Described.{AreKinds, imported_by, is_unicode_import as spec_is_unicode_import, passed_at as spec_passed_at, passed_params, signature_by};
ghost use Rattle.stub_maker.specs.Rules.{each_from, step_of as spec_step_of, stub_of as spec_stub_of, stub_of_passed};

use crate::crossing::{returned, step_of};
use crate::entries::ShapedTypes;
use crate::imports::{outside_as_whole, stub_with};
use crate::kinds_of_types::Kinds;
use crate::refused::{Param, StubBad, Why};
use crate::signatures::{passed_at, passed_result, place_of};
use crate::steps::number_of;
use crate::stub::{Step, Steps, Stub};
use crate::table::Column;
use sig_reader::{Sig, TypeSig};
use std::alloc::Global;
use type_model::{Import, MethodRow, Types};

/// The stub of an import, by its method.
#[tactic(auto, unfolding(crate::specs::Described::signature_of))]
pub fn stub_of_method<K: ShapedTypes>(
    alloc: Global,
    types: &Types,
    kinds: &Kinds,
    known: &K,
    import: &Import<'_>,
    method: &MethodRow<'_>,
) -> Result<Stub, StubBad>
    requires { AreKinds types.now kinds.now }
    ensures { IsReturned result
        (spec_stub_of (K.known known.now) (imported_by types.now (view_import import.now) (view_method method.now))) }
{
    if method.impl_flags & 0x80 == 0 {
        return Err(outside_as_whole(Why::PreserveSig));
    }
    match types.method_sig(import.method) {
        None => Err(outside_as_whole(Why::Type0)),
        Some(sig) => {
            if method.flags & 0x10 != 0 && is_plain(sig) {
                stub_of_sig(alloc, types, kinds, known, import, sig)
            } else {
                Err(outside_as_whole(Why::Type0))
            }
        }
    }
}

/// Whether a signature can be passed at all: it has a fixed number of parameters, and isn't generic.
fn is_plain(sig: &Sig) -> bool
    ensures { result ≡ (not (out-Sig sig.now).vararg && not (nat_lt 0 (out-Sig sig.now).generic)) }
{
    !sig.vararg && sig.generic == 0
}

fn is_unicode_import(flags: u32) -> bool
    ensures { result ≡ spec_is_unicode_import flags }
{
    flags & 0x6 == 0x4
}

/// The stub of an import whose signature can be passed.
fn stub_of_sig<K: ShapedTypes>(
    alloc: Global,
    types: &Types,
    kinds: &Kinds,
    known: &K,
    import: &Import<'_>,
    sig: &Sig,
) -> Result<Stub, StubBad>
    requires { AreKinds types.now kinds.now }
    ensures { IsReturned result
        (stub_of_passed (K.known known.now) (spec_is_unicode_import import.now.flags) (not (bit_and import.now.flags 0x40 == 0))
        (signature_by types.now import.now.method sig.now)) }
{
    let unicode = is_unicode_import(import.flags);
    let method = import.method;
    let steps = steps_of_sigs(
        alloc,
        types,
        kinds,
        known,
        unicode,
        method,
        sig.params.as_slice(),
    )?;
    let given = passed_result(types, kinds, method, &sig.result);
    let result = returned(alloc, known, unicode, Column::Returned, given)?;
    Ok(stub_with(alloc, steps, result, import.flags & 0x40 != 0)?)
}

/// The step of each parameter in order, or the first parameter that has none.
fn steps_of_sigs<K: ShapedTypes>(
    alloc: Global,
    types: &Types,
    kinds: &Kinds,
    known: &K,
    unicode: bool,
    method: u32,
    sigs: &[TypeSig],
) -> Result<Steps, StubBad>
    requires { AreKinds types.now kinds.now }
    ensures { IsReturned result
        (each_from (spec_step_of (K.known known.now) unicode) 0 (passed_params types.now method sigs.now)) }
{
    let mut steps = Steps::new(alloc);
    for (index, sig) in sigs.iter().enumerate() {
        let step = step_of_sig(alloc, types, kinds, known, unicode, method, index, sig)?;
        steps.push(step)?;
    }
    Ok(steps)
}

/// The step of the parameter at an index.
fn step_of_sig<K: ShapedTypes>(
    alloc: Global,
    types: &Types,
    kinds: &Kinds,
    known: &K,
    unicode: bool,
    method: u32,
    index: usize,
    sig: &TypeSig,
) -> Result<Step, StubBad>
    requires { AreKinds types.now kinds.now }
    ensures { IsStep (Param.Arg index) result
        (spec_step_of (K.known known.now) unicode index (spec_passed_at types.now method (index + 1) sig.now)) }
{
    let passed = passed_at(types, kinds, method, place_of(index)?, sig);
    step_of(alloc, known, unicode, number_of(index)?, passed)
}
