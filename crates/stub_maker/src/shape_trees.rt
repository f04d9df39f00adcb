//! The shapes of a file's types, made as trees.

ghost use Rattle.std.specs.Prelude.{◌≡◌, ◌+◌, IfOk, map};
ghost use Rattle.std.specs.Option.{option_map};
ghost use Rattle.native_layout.specs.Shapes.{nesting};
ghost use Rattle.stub_maker.specs.Described.{known_of};
ghost use Rattle.stub_maker.specs.Facts.{all_some, field_shape};
ghost use Rattle.stub_maker.specs.Shapes.{shape_of_form};
ghost use Rattle.stub_maker.specs.Trees.{IsTree, deepest_of};

use crate::entries::{KnownTypes, ShapedTypes};
use crate::facts::{FieldFacts, StructFacts, struct_facts};
use crate::fields::field_form;
use crate::file_types::FileTypes;
use crate::kinds::{FieldForm, Form};
use crate::learning::offsets_of;
use bound_base::NoMemory;
use native_layout::{MOST_NESTING, Shape, Shapes, StructShape};
use sqlite_items::Boxed;
use std::alloc::Global;

impl<'a> ShapedTypes for FileTypes<'a> {
    fn shape(&self, alloc: Global, form: Form) -> Result<Shape, NoMemory> {
        // A form that is laid out has a shape, and that is at most so deep.
        Ok(form_tree(alloc, self, form, MOST_NESTING)?.unwrap())
    }
}

/// The shape of a form, made at most `left` levels deep; None exactly where it has none or is deeper.
#[cycle(trees)]
fn form_tree(
    alloc: Global,
    known: &FileTypes<'_>,
    form: Form,
    left: u32,
) -> Result<Option<Shape>, NoMemory>
    ensures { IfOk result (λ found. IsTree nesting left found (shape_of_form (known_of known.now) form)) }
{
    Ok(match form {
        Form::Int(width, signed) => Some(Shape::Int(width.bytes(), signed)),
        Form::Native(signed) => Some(Shape::Native(signed)),
        Form::Bool(width) => Some(Shape::Bool(width.bytes())),
        Form::Char(width) => Some(Shape::Char(width.bytes())),
        Form::Text(encoding) => Some(Shape::Text(encoding)),
        Form::InlineText(encoding, count) => Some(Shape::InlineText(encoding, count)),
        Form::Struct(t) if left > 0 => struct_tree(alloc, known, t, left - 1)?,
        Form::Struct(_) => None,
        Form::Thunk(t) if known.is_callable(t) => Some(Shape::Thunk(t)),
        Form::Thunk(_) => None,
    })
}

/// The shape of a value type whose parts are at most `left` levels deep.
#[cycle(trees)]
fn struct_tree(
    alloc: Global,
    known: &FileTypes<'_>,
    t: u32,
    left: u32,
) -> Result<Option<Shape>, NoMemory>
    ensures { IfOk result (λ found. IsTree nesting (left + 1) found (option_map Shape.Struct ((known_of known.now).struct_of t))) }
{
    if !known.has_shape(t) {
        return Ok(None);
    }
    match struct_facts(alloc, known.types(), known.kinds(), t)? {
        None => Ok(None),
        Some(facts) => match field_trees(alloc, known, facts.fields.as_slice(), left)? {
            None => Ok(None),
            Some(fields) => Ok(Some(Shape::Struct(struct_of(alloc, &facts, fields)?))),
        },
    }
}

fn struct_of(alloc: Global, facts: &StructFacts, fields: Shapes) -> Result<StructShape, NoMemory>
    ensures { IfOk result (λ s. s ≡ record { ty = facts.now.ty; pack = facts.now.pack; least = facts.now.least; explicit = facts.now.explicit; fields = fields; offsets = map (λ f. f.offset) facts.now.fields }) }
{
    let offsets = offsets_of(alloc, facts.fields.as_slice())?;
    Ok(StructShape {
        ty: facts.ty,
        pack: facts.pack,
        least: facts.least,
        explicit: facts.explicit,
        fields,
        offsets,
    })
}

#[cycle(trees)]
fn field_trees(
    alloc: Global,
    known: &FileTypes<'_>,
    fields: &[FieldFacts],
    left: u32,
) -> Result<Option<Shapes>, NoMemory>
    ensures { IfOk result (λ found. IsTree deepest_of left found (all_some (map (field_shape (known_of known.now)) fields.now))) }
{
    let mut shapes = Shapes::new(alloc);
    for field in fields {
        match field_tree(alloc, known, *field, left)? {
            Some(shape) => shapes.push(shape)?,
            None => return Ok(None),
        }
    }
    Ok(Some(shapes))
}

#[cycle(trees)]
fn field_tree(
    alloc: Global,
    known: &FileTypes<'_>,
    field: FieldFacts,
    left: u32,
) -> Result<Option<Shape>, NoMemory>
    ensures { IfOk result (λ found. IsTree nesting left found (field_shape (known_of known.now) field)) }
{
    match field_form(known, field.unicode, field.kind, field.descriptor) {
        None => Ok(None),
        Some(FieldForm::One(form)) => form_tree(alloc, known, form, left),
        Some(
            FieldForm::InlineArray {
                base,
                element,
                count,
            },
        ) => match form_tree(alloc, known, element, left)? {
            None => Ok(None),
            Some(shape) => Ok(Some(Shape::InlineArray(base, Boxed::new(alloc, shape)?, count))),
        },
    }
}
