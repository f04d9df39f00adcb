//! How a type crosses: its entry in the marshalling table.

ghost use Rattle.std.specs.Prelude.{◌≡◌, ◌≢◌, IfOk, Some, None, is_some, if◌then◌else◌};
ghost use Rattle.std.specs.Option.{option_and_then, option_map};
ghost use Rattle.stub_maker.specs.Shapes.{Known, behind_pointer, crosses as spec_crosses, described as spec_described, entry_by, entry_if as spec_entry_if, first_entry, one_by, shape_of_form};
ghost use Rattle.stub_maker.specs.Table.{admits as spec_admits, cell_at as table_cell, rows};
ghost use Rattle.stub_maker.specs.Forms.{is_plain as is_plain_code, when};
ghost use Rattle.stub_maker.specs.Entries.{IsFound, IsLaidForm, contents_of, pointed, row_form as spec_row_form, text_form as spec_text_form, without_descriptor as spec_without};
ghost use Rattle.stub_maker.specs.Sized.{IsInOrder};

use crate::forms::{bool_width_by, char_width_by, encoding_by, encoding_of, is_plain, sign_by};
use crate::kinds::{Descriptor, Form, Kind, TypeKind, Width};
use crate::table::{Cell, Column, Row, cell_at};
use bound_base::NoMemory;
use marshal_spec::Spec;
use native_layout::Shape;
use std::alloc::Global;

/// What the rule over the table asks of a shape.
#[derive(Clone, Copy, Debug, PartialEq, Eq)]
pub struct Contents {
    /// It has the same bytes on both sides.
    pub flat: bool,
    /// A text or a delegate stands in it.
    pub pointers: bool,
    /// It can be laid out.
    pub laid_out: bool,
}

/// A kind's row in the table, and its form there; None where the row doesn't take the descriptor.
#[derive(Clone, Copy, Debug, PartialEq, Eq)]
pub struct RowForm {
    pub row: Row,
    pub form: Option<Form>,
}

/// An entry of the table: of an array behind a pointer it has the form of the elements.
#[derive(Clone, Copy, Debug, PartialEq, Eq)]
pub struct Found {
    pub cell: Cell,
    pub form: Form,
    pub contents: Contents,
}

/// What is known of the value types and the delegate types of a file.
pub trait KnownTypes {
    ghost known: { Self → Known };

    /// What stands in the shape of a form; None where its type has no row in the table.
    fn contents(&self, form: Form) -> Option<Contents>
        ensures { result ≡ contents_of (known self.now) form };

    ghost in_order: { (x : Self) → IsInOrder (known x) };
}

/// What is known of the types of a file, so that their shapes can be made.
pub trait ShapedTypes: KnownTypes {
    /// The shape of a form that has one and is laid out.
    fn shape(&self, alloc: Global, form: Form) -> Result<Shape, NoMemory>
        requires { IsLaidForm (Self.known self.now) form }
        ensures { IfOk result (λ shape. shape_of_form (Self.known self.now) form ≡ Some shape) };
}

/// Whether a cell lets a type cross whose shape is flat, or whose shape holds pointers.
pub fn admits(cell: Cell, is_flat: bool, has_pointers: bool) -> bool
    ensures { result ≡ spec_admits cell is_flat has_pointers }
{
    match cell {
        Cell::Outside => false,
        Cell::PlainValue | Cell::PlainPlace => !has_pointers,
        Cell::FlatPart => is_flat,
        _ => true,
    }
}

fn text_form(unicode: bool, descriptor: Descriptor) -> RowForm
    ensures { result ≡ spec_text_form unicode descriptor }
{
    match descriptor {
        Descriptor::Is(Spec::ByValText(count)) => RowForm {
            row: Row::InlineTexts,
            form: if 1 <= count {
                Some(Form::InlineText(encoding_of(unicode), count))
            } else {
                None
            },
        },
        _ => RowForm {
            row: Row::Texts,
            form: encoding_by(unicode, descriptor).map(|encoding| Form::Text(encoding)),
        },
    }
}

fn without_descriptor(descriptor: Descriptor, form: Form) -> Option<Form>
    ensures { result ≡ spec_without descriptor form }
{
    match descriptor {
        Descriptor::Nothing => Some(form),
        _ => None,
    }
}

/// The form of a type that takes no descriptor but the one with this code.
fn plain_form(code: u8, descriptor: Descriptor, form: Form) -> Option<Form>
    ensures { result ≡ when (is_plain_code code descriptor) (Some form) }
{
    if is_plain(code, descriptor) {
        Some(form)
    } else {
        None
    }
}

/// The row of a kind, and its form there.
fn row_form(unicode: bool, kind: Kind, descriptor: Descriptor) -> RowForm
    ensures { result ≡ spec_row_form unicode kind descriptor }
{
    let (row, form) = match kind {
        Kind::Integer(width, signed) => (
            Row::Integers,
            sign_by(width, signed, descriptor).map(|sign| Form::Int(width, sign)),
        ),
        Kind::NativeInteger(signed) => (
            Row::Integers,
            sign_by(Width::Eight, signed, descriptor).map(|sign| Form::Native(sign)),
        ),
        Kind::Boolean => (
            Row::Booleans,
            bool_width_by(descriptor).map(|width| Form::Bool(width)),
        ),
        Kind::Character => (
            Row::Characters,
            char_width_by(unicode, descriptor).map(|width| Form::Char(width)),
        ),
        Kind::Pointer => (
            Row::Pointers,
            without_descriptor(descriptor, Form::Native(true)),
        ),
        Kind::Text => return text_form(unicode, descriptor),
        Kind::Struct(ty) => (Row::Structs, plain_form(0x1B, descriptor, Form::Struct(ty))),
        Kind::Delegate(ty) => (
            Row::Delegates,
            plain_form(0x26, descriptor, Form::Thunk(ty)),
        ),
        Kind::Handle => (
            Row::Handles,
            without_descriptor(descriptor, Form::Native(true)),
        ),
        Kind::Other => (Row::Integers, None),
    };
    RowForm { row, form }
}

/// The entry of a form in a cell.
fn entry_if<K: KnownTypes>(known: &K, cell: Cell, form: Option<Form>) -> Option<Found>
    ensures { IsFound (K.known known.now) result (spec_entry_if cell (option_and_then (shape_of_form (K.known known.now)) form)) }
{
    let form = form?;
    let contents = known.contents(form)?;
    if admits(cell, contents.flat, contents.pointers) {
        Some(Found {
            cell,
            form,
            contents,
        })
    } else {
        None
    }
}

/// How a type that is no array crosses in a column.
pub fn one_entry<K: KnownTypes>(
    known: &K,
    unicode: bool,
    column: Column,
    kind: Kind,
    descriptor: Descriptor,
) -> Option<Found>
    ensures { IsFound (K.known known.now) result (first_entry (λ r. one_by (K.known known.now) unicode r kind descriptor) column rows) }
{
    let row_form = row_form(unicode, kind, descriptor);
    entry_if(known, cell_at(row_form.row, column), row_form.form)
}

pub fn described(code: Option<u8>) -> Descriptor
    ensures { result ≡ spec_described code }
{
    match code {
        None => Descriptor::Nothing,
        Some(code) => Descriptor::Is(Spec::Plain(code)),
    }
}

/// The row of an array behind a pointer.
fn array_row(is_flat: bool) -> Row
    ensures { result ≡ (if is_flat then Row.FlatArrays else Row.OtherArrays) }
{
    if is_flat {
        Row::FlatArrays
    } else {
        Row::OtherArrays
    }
}

/// How an array behind a pointer crosses in a column, by its element and that one's descriptor.
fn pointed_entry<K: KnownTypes>(
    known: &K,
    unicode: bool,
    column: Column,
    element: Kind,
    descriptor: Descriptor,
) -> Option<Found>
    ensures { IsFound (K.known known.now) result (pointed column (option_map (λ e. e.shape) (first_entry (λ r. one_by (K.known known.now) unicode r element descriptor) Column.Element rows))) }
{
    let found = one_entry(known, unicode, Column::Element, element, descriptor)?;
    let row = array_row(found.contents.flat);
    entry_if(known, cell_at(row, column), Some(found.form))
}

/// How a type crosses in a column of parameters or results.
pub fn entry<K: KnownTypes>(
    known: &K,
    unicode: bool,
    column: Column,
    kind: TypeKind,
    descriptor: Descriptor,
) -> Option<Found>
    requires { column ≢ Column.Field }
    ensures { IsFound (K.known known.now) result (entry_by (K.known known.now) unicode column kind descriptor) }
{
    match kind {
        TypeKind::One(kind) => one_entry(known, unicode, column, kind, descriptor),
        TypeKind::Array(_, element) => array_entry(known, unicode, column, element, descriptor),
    }
}

/// How an array behind a pointer crosses in a column, by its element.
fn array_entry<K: KnownTypes>(
    known: &K,
    unicode: bool,
    column: Column,
    element: Kind,
    descriptor: Descriptor,
) -> Option<Found>
    ensures { IsFound (K.known known.now) result (pointed column (behind_pointer (K.known known.now) unicode element descriptor)) }
{
    match descriptor {
        Descriptor::Nothing => {
            pointed_entry(known, unicode, column, element, Descriptor::Nothing)
        },
        Descriptor::Is(Spec::LpArray(code, _, _, _)) => {
            pointed_entry(known, unicode, column, element, described(code))
        },
        _ => None,
    }
}

/// Whether a type crosses in a column under a descriptor.
fn has_entry<K: KnownTypes>(
    known: &K,
    unicode: bool,
    column: Column,
    kind: TypeKind,
    descriptor: Descriptor,
) -> bool
    requires { column ≢ Column.Field }
    ensures { result ≡ is_some (entry_by (K.known known.now) unicode column kind descriptor) }
{
    entry(known, unicode, column, kind, descriptor).is_some()
}

/// Whether a type crosses in a column of parameters or results under some descriptor.
pub fn crosses<K: KnownTypes>(known: &K, unicode: bool, column: Column, kind: TypeKind) -> bool
    requires { column ≢ Column.Field }
    ensures { result ≡ spec_crosses (K.known known.now) unicode column kind }
{
    has_entry(known, unicode, column, kind, Descriptor::Nothing)
        || has_entry(
            known,
            unicode,
            column,
            kind,
            Descriptor::Is(Spec::ByValText(1)),
        )
        || has_entry(
            known,
            unicode,
            column,
            kind,
            Descriptor::Is(Spec::ByValArray(1, None)),
        )
        || has_entry(
            known,
            unicode,
            column,
            kind,
            Descriptor::Is(Spec::LpArray(Some(4), None, None, None)),
        )
        || has_entry(
            known,
            unicode,
            column,
            kind,
            Descriptor::Is(Spec::LpArray(Some(6), None, None, None)),
        )
}
