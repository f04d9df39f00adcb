//! How a field of a value type looks in native memory.

ghost use Rattle.std.specs.Prelude.{◌≡◌, is_some};
ghost use Rattle.std.specs.Option.{option_and_then, option_map};
ghost use Rattle.stub_maker.specs.Shapes.{element_by, entry_by, shape_by};
ghost use Rattle.stub_maker.specs.Entries.{shape_of_field_form};

use crate::entries::{KnownTypes, described, one_entry};
use crate::kinds::{Descriptor, FieldForm, Kind, TypeKind};
use crate::table::{Column, Row};
use marshal_spec::Spec;
use native_layout::Shape;

/// The form of a field, by its descriptor and the charset of the type that declares it; None where it has no row in the table.
pub fn field_form<K: KnownTypes>(
    known: &K,
    unicode: bool,
    kind: TypeKind,
    descriptor: Descriptor,
) -> Option<FieldForm>
    ensures form { option_and_then (shape_of_field_form (K.known known.now)) result ≡ option_map (λ e. e.shape) (entry_by (K.known known.now) unicode Column.Field kind descriptor) }
    ensures row { is_some result ≡ is_some (entry_by (K.known known.now) unicode Column.Field kind descriptor) }
{
    match kind {
        TypeKind::One(kind) => one_in_field(known, unicode, kind, descriptor),
        TypeKind::Array(base, element) => array_in_field(known, unicode, base, element, descriptor),
    }
}

/// The form of a field that is no array.
fn one_in_field<K: KnownTypes>(
    known: &K,
    unicode: bool,
    kind: Kind,
    descriptor: Descriptor,
) -> Option<FieldForm>
    ensures form { option_and_then (shape_of_field_form (K.known known.now)) result ≡ option_map (λ e. e.shape) (entry_by (K.known known.now) unicode Column.Field (TypeKind.One kind) descriptor) }
    ensures row { is_some result ≡ is_some (entry_by (K.known known.now) unicode Column.Field (TypeKind.One kind) descriptor) }
{
    let found = one_entry(known, unicode, Column::Field, kind, descriptor)?;
    Some(FieldForm::One(found.form))
}

/// The form of a field that is an array, which must be in place.
fn array_in_field<K: KnownTypes>(
    known: &K,
    unicode: bool,
    base: u32,
    element: Kind,
    descriptor: Descriptor,
) -> Option<FieldForm>
    ensures form { option_and_then (shape_of_field_form (K.known known.now)) result ≡ shape_by (K.known known.now) unicode Row.InlineArrays (TypeKind.Array base element) descriptor }
    ensures row { is_some result ≡ is_some (shape_by (K.known known.now) unicode Row.InlineArrays (TypeKind.Array base element) descriptor) }
{
    match descriptor {
        Descriptor::Is(Spec::ByValArray(count, code)) => {
            if 1 <= count {
                inline_array(known, unicode, base, element, count, code)
            } else {
                None
            }
        }
        _ => None,
    }
}

/// The form of an array in place, by the code of its elements' descriptor.
fn inline_array<K: KnownTypes>(
    known: &K,
    unicode: bool,
    base: u32,
    element: Kind,
    count: u32,
    code: Option<u8>,
) -> Option<FieldForm>
    ensures form { option_and_then (shape_of_field_form (K.known known.now)) result ≡ option_map (λ s. Shape.InlineArray base s count) (element_by (K.known known.now) unicode Column.InlineElement element code) }
    ensures row { is_some result ≡ is_some (element_by (K.known known.now) unicode Column.InlineElement element code) }
{
    let found = one_entry(
        known,
        unicode,
        Column::InlineElement,
        element,
        described(code),
    )?;
    Some(FieldForm::InlineArray {
        base,
        element: found.form,
        count,
    })
}
