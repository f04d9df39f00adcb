//! Where the fields of a struct lie (ECMA-335 II.10.7).

ghost use Rattle.std.specs.Prelude.{◌≡◌, IsTrue, map, IfOk, ◌*◌};
ghost use Rattle.std.specs.List.{list_all};
ghost use Rattle.native_layout.specs.Struct.{is_align};
ghost use Rattle.native_layout.specs.Shapes.{in_order, measure, struct_in_order, stands};
ghost use Rattle.native_layout.specs.Answer.{Answers, layout_of};
ghost use Rattle.native_layout.specs.Placed.{IsMeasured, Measures};
ghost use Rattle.native_layout.specs.Ruled.{rules_by};

use crate::contents::are_integral;
use crate::extent::{COUNTED, Extent, counted, inline_text, scalar};
use crate::fields::{LayoutRules, place};
use crate::offsets::told;
use crate::refused::LayoutBad;
use crate::shapes::{Layout, Shape, StructShape};
use bound_base::NoMemory;
use std::alloc::Global;

/// Where the fields of a struct lie, and its size and alignment.
///
/// Fields lie one after another, each at the least multiple of its alignment that isn't before the end of the one before,
/// or at the offsets that are written for them. The size is the greatest end, rounded up to the alignment, or the least
/// size where that is greater. `Outside` names the first field that breaks the first broken rule: a struct within that
/// can't be laid out; no fields (0); a packing that is neither 0 nor a power of two up to 128 (0); no offset where each
/// field must have one; a byte in common with another field in a struct that isn't flat; a size above 2^20 (0).
#[cycle(layout)]
pub fn layout(alloc: Global, s: &StructShape) -> Result<Layout, LayoutBad>
    requires { IsTrue (struct_in_order s.now) }
    ensures value { Answers result (layout_of s.now) }
    ensures align { IfOk result (λ l. IsTrue (is_align l.align)) }
{
    let extents = extents_of(alloc, s.fields.as_slice())?;
    place(alloc, rules_of(s), &s.offsets, extents.as_slice())
}

/// Whether each struct in a shape can be laid out.
pub fn can_be_laid_out(alloc: Global, shape: &Shape) -> Result<bool, NoMemory>
    requires { IsTrue (in_order shape.now) }
    ensures { IfOk result (λ can. can ≡ stands shape.now) }
{
    match extent_of(alloc, shape) {
        Ok(_) => Ok(true),
        Err(LayoutBad::Outside(_)) => Ok(false),
        Err(LayoutBad::Memory) => Err(NoMemory),
    }
}

/// What the layout of a struct asks beside its fields.
fn rules_of(s: &StructShape) -> LayoutRules
    ensures { result ≡ rules_by s.now }
{
    LayoutRules {
        pack: s.pack,
        least: s.least,
        explicit: s.explicit,
        overlap: s.explicit && are_integral(s.fields.as_slice()),
    }
}

#[cycle(layout)]
fn extents_of(alloc: Global, shapes: &[Shape]) -> Result<Vec<Extent>, LayoutBad>
    requires { IsTrue (list_all in_order shapes.now) }
    ensures { Measures (map measure shapes.now) result }
{
    let mut extents = Vec::new(alloc);
    for (k, shape) in shapes.iter().enumerate() {
        match extent_of(alloc, shape) {
            Ok(e) => extents.push(e)?,
            Err(LayoutBad::Outside(_)) => return Err(LayoutBad::Outside(told(k))),
            Err(LayoutBad::Memory) => return Err(LayoutBad::Memory),
        }
    }
    Ok(extents)
}

#[cycle(layout)]
fn extent_of(alloc: Global, shape: &Shape) -> Result<Extent, LayoutBad>
    requires { IsTrue (in_order shape.now) }
    ensures { IsMeasured (measure shape.now) result }
{
    match shape {
        Shape::InlineArray(_, element, count) => {
            let e = extent_of(alloc, element.get())?;
            Ok(Extent {
                size: (u64::from(*count) * e.size).min(COUNTED),
                align: e.align,
            })
        }
        Shape::Struct(s) => {
            let l = layout(alloc, s)?;
            Ok(Extent {
                size: l.size,
                align: l.align,
            })
        }
        Shape::Int(width, _) | Shape::Bool(width) | Shape::Char(width) => Ok(scalar(*width)),
        Shape::Native(_) | Shape::Text(_) | Shape::Thunk(_) => Ok(scalar(8)),
        Shape::InlineText(enc, count) => Ok(counted(inline_text(*enc, *count))),
    }
}
