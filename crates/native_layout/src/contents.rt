//! What stands in a shape.

ghost use Rattle.std.specs.Prelude.{◌≡◌, ◌+◌, ◌^◌, true, false, min, sum, map};
ghost use Rattle.std.specs.List.{list_all, list_any};
ghost use Rattle.native_layout.specs.Shapes.{in_order, measure, flat, pointers_in, texts_in, parts_of};

use crate::shapes::Shape;

/// How deep a shape may be: a struct and an array in place are one level above the deepest of their parts.
pub const MOST_NESTING: u32 = 64;

/// The most scalar parts that a struct may have; a shape with more is counted as one with one more.
pub const MOST_PARTS: u64 = 1 << 20;

/// Whether a shape is flat: an integer, a character of two bytes, or a struct of nothing but integers and such structs.
/// A pointer of a program counts as an integer of 8 bytes. No pointer that plhost writes stands in a flat shape.
pub fn is_flat(shape: &Shape) -> bool
    ensures value { result ≡ flat shape.now }
    ensures pointers { result ≡ true → pointers_in shape.now ≡ false }
{
    match shape {
        Shape::Char(width) => *width == 2,
        _ => is_integral(shape),
    }
}

/// Whether a pointer that plhost writes stands in a shape: to a text, or to the code of a delegate.
#[cycle(pointers)]
pub fn has_pointer_cells(shape: &Shape) -> bool
    ensures { result ≡ pointers_in shape.now }
{
    match shape {
        Shape::Text(_) | Shape::Thunk(_) => true,
        Shape::InlineArray(_, element, _) => has_pointer_cells(element.get()),
        Shape::Struct(s) => any_has_pointer_cells(s.fields.as_slice()),
        _ => false,
    }
}

/// Whether each width in a shape is one that its kind has: 1, 2, 4 or 8 of an integer, 1 or 4 of a bool, 1 or 2 of a
/// character.
#[cycle(order)]
pub fn is_in_order(shape: &Shape) -> bool
    ensures { result ≡ in_order shape.now }
{
    match shape {
        Shape::Int(width, _) => matches!(*width, 1 | 2 | 4 | 8),
        Shape::Bool(width) => matches!(*width, 1 | 4),
        Shape::Char(width) => matches!(*width, 1 | 2),
        Shape::InlineArray(_, element, _) => is_in_order(element.get()),
        Shape::Struct(s) => are_in_order(s.fields.as_slice()),
        _ => true,
    }
}

/// Whether a pointer to a text stands in a shape.
#[cycle(texts)]
pub fn has_texts(shape: &Shape) -> bool
    ensures { result ≡ texts_in shape.now }
{
    match shape {
        Shape::Text(_) => true,
        Shape::InlineArray(_, element, _) => has_texts(element.get()),
        Shape::Struct(s) => any_has_texts(s.fields.as_slice()),
        _ => false,
    }
}

/// How many scalars, texts and delegates stand in a shape, an array's element as often as its count; where they are more
/// than `MOST_PARTS`, one more than that.
#[cycle(parts)]
pub fn scalar_parts(shape: &Shape) -> u64
    ensures { result ≡ min (parts_of shape.now) (MOST_PARTS + 1) }
{
    match shape {
        Shape::InlineArray(_, element, count) => {
            let parts = u64::from(*count) * scalar_parts(element.get());
            parts.min(MOST_PARTS + 1)
        }
        Shape::Struct(s) => sum_of_parts(s.fields.as_slice()),
        _ => 1,
    }
}

/// Whether a shape is an integer, or a struct of nothing else.
#[cycle(integral)]
pub fn is_integral(shape: &Shape) -> bool
    ensures value { result ≡ (measure shape.now).integral }
    ensures pointers { result ≡ true → pointers_in shape.now ≡ false }
{
    match shape {
        Shape::Int(..) | Shape::Native(_) => true,
        Shape::Struct(s) => are_integral(s.fields.as_slice()),
        _ => false,
    }
}

/// Whether each shape is an integer, or a struct of nothing else.
#[cycle(integral)]
pub fn are_integral(shapes: &[Shape]) -> bool
    ensures value { result ≡ list_all (λ m. m.integral) (map measure shapes.now) }
    ensures pointers { result ≡ true → list_any (λ f. f) (map pointers_in shapes.now) ≡ false }
{
    for shape in shapes {
        if !is_integral(shape) {
            return false;
        }
    }
    true
}

#[cycle(pointers)]
fn any_has_pointer_cells(shapes: &[Shape]) -> bool
    ensures { result ≡ list_any (λ f. f) (map pointers_in shapes.now) }
{
    for shape in shapes {
        if has_pointer_cells(shape) {
            return true;
        }
    }
    false
}

#[cycle(texts)]
fn any_has_texts(shapes: &[Shape]) -> bool
    ensures { result ≡ list_any (λ f. f) (map texts_in shapes.now) }
{
    for shape in shapes {
        if has_texts(shape) {
            return true;
        }
    }
    false
}

#[cycle(parts)]
fn sum_of_parts(shapes: &[Shape]) -> u64
    ensures { result ≡ min (sum (map parts_of shapes.now)) (MOST_PARTS + 1) }
{
    let mut sum = 0;
    for shape in shapes {
        sum = (sum + scalar_parts(shape)).min(MOST_PARTS + 1);
    }
    sum
}

#[cycle(order)]
fn are_in_order(shapes: &[Shape]) -> bool
    ensures { result ≡ list_all (λ f. f) (map in_order shapes.now) }
{
    for shape in shapes {
        if !is_in_order(shape) {
            return false;
        }
    }
    true
}
