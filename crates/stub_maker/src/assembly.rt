//! The stubs of an assembly's imports, how callbacks by its delegate types cross, and the shapes of its types.

ghost use Rattle.std.specs.Prelude.{◌≡◌, IfOk};
ghost use Rattle.type_model.specs.MemberViews.{view_import};
ghost use Rattle.stub_maker.specs.Crossing.{IsReturned};
ghost use Rattle.stub_maker.specs.Described.{AreKinds, back_of_delegate, known_of, shape_of_type, stub_of_import};
ghost use Rattle.stub_maker.specs.Sized.{IsSized, IsSizedBack, IsSizedStub};

use crate::backs::back_of;
use crate::bare_shapes::bare_shape;
use crate::entries::ShapedTypes;
use crate::facts::invoke_signature;
use crate::file_types::FileTypes;
use crate::import_stubs::stub_of_method;
use crate::imports::outside_as_whole;
use crate::kinds_of_types::{Kinds, type_kind};
use crate::refused::{StubBad, Why};
use crate::stub::{Back, Stub};
use managed_value::TypeId;
use native_layout::Shape;
use std::alloc::Global;
use type_model::{Import, Types};

/// The stub of an import, or what of it has no row in the marshalling table and why.
pub fn make_stub(alloc: Global, known: &FileTypes<'_>, import: &Import<'_>) -> Result<Stub, StubBad>
    ensures stub { IsReturned result (stub_of_import known.now (view_import import.now)) }
    ensures sized { IfOk result IsSizedStub }
{
    stub_by(alloc, known.types(), known.kinds(), known, import)
}

/// How a callback by a delegate type of the file crosses, or what of it has no row in the marshalling table and why.
pub fn make_back(alloc: Global, known: &FileTypes<'_>, delegate: TypeId) -> Result<Back, StubBad>
    ensures back { IsReturned result (back_of_delegate known.now delegate) }
    ensures sized { IfOk result IsSizedBack }
{
    back_by(alloc, known.types(), known.kinds(), known, delegate)
}

/// The shape that a type has without a descriptor and under the charset Ansi, as a field has it; or why it has none.
pub fn shape_of(alloc: Global, known: &FileTypes<'_>, t: TypeId) -> Result<Shape, StubBad>
    ensures shape { IsReturned result (shape_of_type known.now t) }
    ensures sized { IfOk result IsSized }
{
    shape_by(alloc, known.types(), known.kinds(), known, t)
}

/// The stub of an import, by what is known of the assembly's types.
#[tactic(auto, unfolding(crate::specs::Described::stub_of_import))]
fn stub_by<K: ShapedTypes>(
    alloc: Global,
    types: &Types,
    kinds: &Kinds,
    known: &K,
    import: &Import<'_>,
) -> Result<Stub, StubBad>
    requires kinds { AreKinds types.now kinds.now }
    requires known { K.known known.now ≡ known_of types.now }
    ensures stub { IsReturned result (stub_of_import types.now (view_import import.now)) }
    ensures sized { IfOk result IsSizedStub }
{
    match types.method(import.method) {
        None => Err(outside_as_whole(Why::Type0)),
        Some(method) => stub_of_method(alloc, types, kinds, known, import, &method),
    }
}

/// How a callback by a delegate type crosses, by what is known of the assembly's types.
#[tactic(auto, unfolding(crate::specs::Described::back_of_delegate))]
fn back_by<K: ShapedTypes>(
    alloc: Global,
    types: &Types,
    kinds: &Kinds,
    known: &K,
    delegate: TypeId,
) -> Result<Back, StubBad>
    requires kinds { AreKinds types.now kinds.now }
    requires known { K.known known.now ≡ known_of types.now }
    ensures back { IsReturned result (back_of_delegate types.now delegate) }
    ensures sized { IfOk result IsSizedBack }
{
    let signature = invoke_signature(alloc, types, kinds, delegate.base)?;
    back_of(alloc, known, signature.as_ref())
}

/// The shape of a type without a descriptor, by what is known of the assembly's types.
#[tactic(auto, unfolding(crate::specs::Described::shape_of_type))]
fn shape_by<K: ShapedTypes>(
    alloc: Global,
    types: &Types,
    kinds: &Kinds,
    known: &K,
    t: TypeId,
) -> Result<Shape, StubBad>
    requires kinds { AreKinds types.now kinds.now }
    requires known { K.known known.now ≡ known_of types.now }
    ensures shape { IsReturned result (shape_of_type types.now t) }
    ensures sized { IfOk result IsSized }
{
    bare_shape(alloc, known, type_kind(types, kinds, t))
}
