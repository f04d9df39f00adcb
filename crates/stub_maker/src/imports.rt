//! The stub of an import.

ghost use Rattle.std.specs.Prelude.{◌≡◌, All, IfOk};
ghost use Rattle.stub_maker.specs.Crossing.{IsReturned};
ghost use Rattle.stub_maker.specs.Rules.{is_plain_signature as spec_is_plain, stub_by, stub_of as spec_stub_of, stub_of_signature as spec_stub_of_signature};
ghost use Rattle.stub_maker.specs.Sized.{IsSizedStep, IsSizedStub};

use crate::crossing::returned;
use crate::entries::ShapedTypes;
use crate::refused::{Param, StubBad, Why};
use crate::signature::{Imported, Signature};
use crate::steps::{ended, read_back, steps_of};
use crate::stub::{Res, Steps, Stub};
use crate::table::Column;
use bound_base::NoMemory;
use std::alloc::Global;

/// Whether a signature can be passed at all: it has a fixed number of parameters, and isn't generic.
pub fn is_plain_signature(signature: &Signature) -> bool
    ensures { result ≡ spec_is_plain signature.now }
{
    !signature.vararg && signature.generic == 0
}

pub fn outside_as_whole(why: Why) -> StubBad
    ensures { result ≡ StubBad.Outside Param.Whole why }
{
    StubBad::Outside {
        param: Param::Whole,
        why,
    }
}

/// The stub of an import, or what of it has no row in the marshalling table and why: that its signature isn't preserved, then
/// its method and its signature as a whole, then the first parameter from the left, then the result.
pub fn stub_of<K: ShapedTypes>(alloc: Global, known: &K, import: &Imported) -> Result<Stub, StubBad>
    ensures stub { IsReturned result (spec_stub_of (K.known known.now) import.now) }
    ensures sized { IfOk result IsSizedStub }
{
    if !import.preserves_signature {
        return Err(outside_as_whole(Why::PreserveSig));
    }
    match &import.signature {
        None => Err(outside_as_whole(Why::Type0)),
        Some(signature) => {
            if import.is_static && is_plain_signature(signature) {
                stub_of_signature(alloc, known, import, signature)
            } else {
                Err(outside_as_whole(Why::Type0))
            }
        }
    }
}

/// The stub of an import whose signature can be passed.
fn stub_of_signature<K: ShapedTypes>(
    alloc: Global,
    known: &K,
    import: &Imported,
    signature: &Signature,
) -> Result<Stub, StubBad>
    ensures { IsReturned result (spec_stub_of_signature (K.known known.now) import.now signature.now) }
{
    let steps = steps_of(alloc, known, import.unicode, signature.params.as_slice())?;
    let result = returned(
        alloc,
        known,
        import.unicode,
        Column::Returned,
        signature.result,
    )?;
    Ok(stub_with(alloc, steps, result, import.saves_error)?)
}

/// The stub of these steps and this way in which the result is returned.
pub fn stub_with(
    alloc: Global,
    steps: Steps,
    returned: Res,
    saves_error: bool,
) -> Result<Stub, NoMemory>
    requires { All IsSizedStep steps }
    ensures { IfOk result (λ stub. stub ≡ stub_by saves_error steps returned) }
{
    let back = read_back(alloc, steps.as_slice())?;
    let ends = ended(alloc, steps.as_slice())?;
    Ok(Stub {
        steps,
        back,
        ends,
        result: returned,
        errno: saves_error,
    })
}
