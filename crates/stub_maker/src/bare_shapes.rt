//! The shapes of types that have no descriptor.

ghost use Rattle.std.specs.Prelude.{◌≡◌, false, IfOk};
ghost use Rattle.stub_maker.specs.Crossing.{IsChosen, IsReturned};
ghost use Rattle.stub_maker.specs.Described.{bare, bare_shape as spec_bare_shape};
ghost use Rattle.stub_maker.specs.Rules.{entry_in, refusal};
ghost use Rattle.stub_maker.specs.Sized.{IsSized};

use crate::entries::{Found, KnownTypes, ShapedTypes, one_entry};
use crate::kinds::{Descriptor, Kind, TypeKind};
use crate::refused::{Param, StubBad, Why};
use crate::table::Column;
use native_layout::Shape;
use std::alloc::Global;

/// The shape that a field has of a type without a descriptor, under the charset Ansi; or why it has none.
pub fn bare_shape<K: ShapedTypes>(
    alloc: Global,
    known: &K,
    kind: TypeKind,
) -> Result<Shape, StubBad>
    ensures shape { IsReturned result (spec_bare_shape (K.known known.now) kind) }
    ensures sized { IfOk result IsSized }
{
    match kind {
        TypeKind::One(kind) => bare_one(alloc, known, kind),
        TypeKind::Array(base, element) => Err(outside(bare_array(known, base, element))),
    }
}

fn outside(why: Why) -> StubBad
    ensures { result ≡ StubBad.Outside Param.Whole why }
{
    StubBad::Outside {
        param: Param::Whole,
        why,
    }
}

/// The shape of a type that is no array.
fn bare_one<K: ShapedTypes>(alloc: Global, known: &K, kind: Kind) -> Result<Shape, StubBad>
    ensures { IsReturned result (spec_bare_shape (K.known known.now) (TypeKind.One kind)) }
{
    match bare_entry(known, kind) {
        Err(why) => Err(outside(why)),
        Ok(found) => {
            if found.contents.laid_out {
                Ok(known.shape(alloc, found.form)?)
            } else {
                Err(outside(Why::Layout))
            }
        }
    }
}

/// The entry of a type that is no array. One that has none without a descriptor has none at all.
fn bare_entry<K: KnownTypes>(known: &K, kind: Kind) -> Result<Found, Why>
    ensures { IsChosen (K.known known.now) result (entry_in (K.known known.now) false Column.Field (bare (TypeKind.One kind))) }
{
    match one_entry(known, false, Column::Field, kind, Descriptor::Nothing) {
        Some(found) => Ok(found),
        None => Err(Why::Type0),
    }
}

/// Why an array has no shape: its elements may stand in place, which a descriptor would say, or they may not.
fn bare_array<K: KnownTypes>(known: &K, base: u32, element: Kind) -> Why
    ensures { result ≡ refusal (K.known known.now) false Column.Field (bare (TypeKind.Array base element)) }
{
    let in_place = one_entry(
        known,
        false,
        Column::InlineElement,
        element,
        Descriptor::Nothing,
    );
    if in_place.is_some() {
        Why::Descriptor
    } else {
        Why::Type0
    }
}
