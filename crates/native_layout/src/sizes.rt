//! Sizes and alignments of shapes whose structs can be laid out. They take no memory.

ghost use Rattle.std.specs.Prelude.{◌≡◌, ◌<◌, ◌≤◌, ◌^◌, IsTrue, length};
ghost use Rattle.std.specs.List.{list_all};
ghost use Rattle.native_layout.specs.Struct.{at_offsets, in_sequence, is_align, is_packing, largest, struct_measure, written};
ghost use Rattle.native_layout.specs.Shapes.{extents_of, in_order, measure, measured, stands};
ghost use Rattle.native_layout.specs.Placed.{FieldsTake, HasSize, StandsInOrder, Take, greatest_end};

use crate::extent::{Extent, inline_text, scalar};
use crate::offsets::offset_at;
use crate::placing::{aligned, field_align};
use crate::shapes::{Offsets, Shape, StructShape};

/// The size of a shape in bytes.
pub fn size_of(shape: &Shape) -> u64
    requires order { IsTrue (in_order shape.now) }
    requires stands { IsTrue (stands shape.now) }
    requires fits { (measure shape.now).extent.size < 2 ^ 64 }
    ensures { result ≡ (measure shape.now).extent.size }
{
    extent(shape).size
}

/// The alignment of a shape in bytes: 1, 2, 4 or 8.
pub fn align_of(shape: &Shape) -> u64
    requires order { IsTrue (in_order shape.now) }
    requires stands { IsTrue (stands shape.now) }
    ensures value { result ≡ (measure shape.now).extent.align }
    ensures align { IsTrue (is_align result) }
{
    extent(shape).align
}

#[cycle(extent)]
fn extent(shape: &Shape) -> Extent
    requires order { IsTrue (in_order shape.now) }
    requires stands { IsTrue (stands shape.now) }
    ensures { HasSize (measure shape.now) result }
{
    match shape {
        Shape::InlineArray(_, element, count) => {
            let e = extent(element.get());
            Extent {
                size: u64::from(*count).saturating_mul(e.size),
                align: e.align,
            }
        }
        Shape::Struct(s) => struct_extent(s),
        Shape::Int(width, _) | Shape::Bool(width) | Shape::Char(width) => scalar(*width),
        Shape::Native(_) | Shape::Text(_) | Shape::Thunk(_) => scalar(8),
        Shape::InlineText(enc, count) => inline_text(*enc, *count),
    }
}

#[cycle(extent)]
fn struct_extent(s: &StructShape) -> Extent
    requires { StandsInOrder s.now }
    ensures { HasSize (struct_measure (measured s.now)) result }
{
    let fields = fields_extent(s);
    Extent {
        size: u64::from(s.least).max(aligned(fields.size, fields.align)),
        align: fields.align,
    }
}

/// The greatest end of a field, and the greatest alignment.
#[cycle(extent)]
fn fields_extent(s: &StructShape) -> Extent
    requires { StandsInOrder s.now }
    ensures { FieldsTake (measured s.now) result }
{
    if s.explicit {
        explicit_extent(s.fields.as_slice(), s.pack, &s.offsets)
    } else {
        sequential_extent(s.fields.as_slice(), s.pack)
    }
}

#[cycle(extent)]
fn sequential_extent(shapes: &[Shape], pack: u16) -> Extent
    requires order { IsTrue (list_all in_order shapes.now) }
    requires stands { IsTrue (list_all stands shapes.now) }
    requires packing { IsTrue (is_packing pack) }
    requires within { greatest_end 0 (in_sequence pack 0 (extents_of shapes.now)) ≤ largest }
    ensures { Take pack (extents_of shapes.now) (in_sequence pack 0 (extents_of shapes.now)) result }
{
    let mut end = 0u64;
    let mut align = 1u64;
    for shape in shapes {
        let e = extent(shape);
        let at = field_align(pack, e);
        end = aligned(end, at) + e.size;
        align = align.max(at);
    }
    Extent { size: end, align }
}

#[cycle(extent)]
fn explicit_extent(shapes: &[Shape], pack: u16, offsets: &Offsets) -> Extent
    requires order { IsTrue (list_all in_order shapes.now) }
    requires stands { IsTrue (list_all stands shapes.now) }
    requires packing { IsTrue (is_packing pack) }
    requires within { greatest_end 0 (at_offsets (written offsets.now (length shapes.now)) (extents_of shapes.now)) ≤ largest }
    ensures { Take pack (extents_of shapes.now) (at_offsets (written offsets.now (length shapes.now)) (extents_of shapes.now)) result }
{
    let mut end = 0u64;
    let mut align = 1u64;
    for (k, shape) in shapes.iter().enumerate() {
        let e = extent(shape);
        let start = u64::from(offset_at(offsets, k).unwrap_or(0));
        end = end.max(start + e.size);
        align = align.max(field_align(pack, e));
    }
    Extent { size: end, align }
}
