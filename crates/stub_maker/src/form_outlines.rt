//! Outlines of forms, by what has been found of the types that they name.

ghost use Rattle.std.specs.Prelude.{◌≡◌, IfSome};
ghost use Rattle.std.specs.Option.{option_map};
ghost use Rattle.native_layout.specs.Outlines.{IsSound, outline as spec_outline};
ghost use Rattle.stub_maker.specs.Shapes.{shape_of_form};
ghost use Rattle.stub_maker.specs.Entries.{shape_of_field_form};
ghost use Rattle.stub_maker.specs.Learned.{contents_by as spec_contents_by, known_so_far};

use crate::entries::Contents;
use crate::kinds::{FieldForm, Form};
use crate::learned::Learned;
use native_layout::{MOST_NESTING, MOST_PARTS, Outline};

/// The outline of a form, None where its type has no row in the table or isn't known yet.
pub fn outline_of_form(known: &Learned<'_>, form: Form) -> Option<Outline>
    ensures value { result ≡ option_map spec_outline (shape_of_form (known_so_far known.now) form) }
    ensures sound { IfSome result IsSound }
{
    match form {
        Form::Int(width, _) => Some(Outline::integer(width.bytes())),
        Form::Native(_) => Some(Outline::native()),
        Form::Bool(width) => Some(Outline::boolean(width.bytes())),
        Form::Char(width) => Some(Outline::character(width.bytes())),
        Form::Text(_) => Some(Outline::pointer()),
        Form::InlineText(encoding, count) => Some(Outline::inline_text(encoding, count)),
        Form::Struct(t) => known.outline_at(t),
        Form::Thunk(t) => {
            if known.callable_at(t) {
                Some(Outline::pointer())
            } else {
                None
            }
        }
    }
}

/// The outline of a field's form.
pub fn outline_of_field_form(known: &Learned<'_>, form: FieldForm) -> Option<Outline>
    ensures value { result ≡ option_map spec_outline (shape_of_field_form (known_so_far known.now) form) }
    ensures sound { IfSome result IsSound }
{
    match form {
        FieldForm::One(form) => outline_of_form(known, form),
        FieldForm::InlineArray { element, count, .. } => {
            let element = outline_of_form(known, element)?;
            Some(Outline::inline_array(element, count))
        }
    }
}

/// What the rule over the table asks of a shape with this outline.
pub fn contents_by(outline: Outline) -> Contents
    ensures { result ≡ spec_contents_by outline }
{
    Contents {
        flat: outline.flat,
        pointers: outline.pointers,
        laid_out: outline.stands && outline.nesting <= MOST_NESTING && outline.parts <= MOST_PARTS,
    }
}
