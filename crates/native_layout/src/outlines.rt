//! What is asked of a shape, told without its parts.

ghost use Rattle.std.specs.Prelude.{◌≡◌, ◌&&◌, ◌+◌, ◌^◌, min, All, Bool, IfOk, IfSome, IsTrue, List, ℕ, map, sum};
ghost use Rattle.std.specs.List.{list_all, list_any};
ghost use Rattle.native_layout.specs.Struct.{greatest, is_align};
ghost use Rattle.native_layout.specs.Outlines.{ExtendsStruct, IsCounted, IsSound, OutlinesArray, OutlinesStruct, outline};

use crate::contents::{MOST_NESTING, MOST_PARTS};
use crate::extent::{Extent, counted, inline_text, scalar};
use crate::fields::{LayoutRules, place};
use crate::refused::LayoutBad;
use crate::shapes::{Enc, Offsets, Shape};
use bound_base::NoMemory;
use std::alloc::{AllocError, Global};

/// The extent that is told of what can't be laid out.
const NO_EXTENT: Extent = Extent { size: 0, align: 1 };

/// What is asked of a shape, told without its parts, so that it is small however large the shape is.
#[derive(Clone, Copy, Debug, PartialEq, Eq)]
pub struct Outline {
    /// How many bytes it takes, more than 2^32 told as 2^32, and where it may lie; no bytes where it can't be laid out.
    pub extent: Extent,
    /// Whether it is an integer, or a struct of nothing else.
    pub integral: bool,
    /// Whether it is flat, as `is_flat` has it.
    pub flat: bool,
    /// Whether a pointer that plhost writes stands in it, as `has_pointer_cells` has it.
    pub pointers: bool,
    /// Whether each struct in it can be laid out.
    pub stands: bool,
    /// How deep it is, what is deeper than `MOST_NESTING` told as one more than that.
    pub nesting: u32,
    /// How many scalars, texts and delegates stand in it, as `scalar_parts` has it.
    pub parts: u64,
}

impl Outline {
    /// The outline of an integer of some bytes.
    pub fn integer(width: u8) -> Outline
        requires { IsTrue (is_align width) }
        ensures value { (signed : Bool) → result ≡ outline (Shape.Int width signed) }
        ensures sound { IsSound result }
    {
        outline_of_scalar(scalar(width), true)
    }

    /// The outline of an integer whose type is nint, nuint, a pointer or an enum of these.
    pub fn native() -> Outline
        ensures value { (signed : Bool) → result ≡ outline (Shape.Native signed) }
        ensures sound { IsSound result }
    {
        outline_of_scalar(scalar(8), true)
    }

    /// The outline of a bool of some bytes.
    pub fn boolean(width: u8) -> Outline
        requires { IsTrue (is_align width) }
        ensures value { result ≡ outline (Shape.Bool width) }
        ensures sound { IsSound result }
    {
        outline_of_scalar(scalar(width), false)
    }

    /// The outline of a character of some bytes.
    pub fn character(width: u8) -> Outline
        requires { IsTrue (is_align width) }
        ensures value { result ≡ outline (Shape.Char width) }
        ensures sound { IsSound result }
    {
        Outline {
            flat: width == 2,
            ..outline_of_scalar(scalar(width), false)
        }
    }

    /// The outline of a pointer to a text, and of one to a delegate's code.
    pub fn pointer() -> Outline
        ensures text { (encoding : Enc) → result ≡ outline (Shape.Text encoding) }
        ensures thunk { (ty : ℕ) → result ≡ outline (Shape.Thunk ty) }
        ensures sound { IsSound result }
    {
        Outline {
            pointers: true,
            ..outline_of_scalar(scalar(8), false)
        }
    }

    /// The outline of a text of `count` units in place.
    pub fn inline_text(enc: Enc, count: u32) -> Outline
        ensures value { result ≡ outline (Shape.InlineText enc count) }
        ensures sound { IsSound result }
    {
        outline_of_scalar(counted(inline_text(enc, count)), false)
    }

    /// The outline of an array in place of `count` such elements.
    pub fn inline_array(element: Outline, count: u32) -> Outline
        requires { IsSound element }
        ensures value { OutlinesArray element count result }
        ensures sound { IsSound result }
    {
        Outline {
            extent: counted(Extent {
                size: u64::from(count) * element.extent.size,
                align: element.extent.align,
            }),
            integral: false,
            flat: false,
            pointers: element.pointers,
            stands: element.stands,
            nesting: element.nesting.min(MOST_NESTING) + 1,
            parts: (u64::from(count) * element.parts).min(MOST_PARTS + 1),
        }
    }

    /// The outline of a struct of such fields under the rules that `StructShape` has.
    pub fn structure(
        alloc: Global,
        pack: u16,
        least: u32,
        explicit: bool,
        fields: &[Outline],
        offsets: &Offsets,
    ) -> Result<Outline, NoMemory>
        requires { All IsSound fields.now }
        ensures value { IfOk result (OutlinesStruct pack least explicit fields.now offsets.now) }
        ensures sound { IfOk result IsSound }
    {
        let integral = are_integral(fields);
        let rules = LayoutRules {
            pack,
            least,
            explicit,
            overlap: explicit && integral,
        };
        let extent = struct_extent(alloc, rules, fields, offsets)?;
        Ok(Outline {
            extent: extent.unwrap_or(NO_EXTENT),
            integral,
            flat: integral,
            pointers: any_has_pointers(fields),
            stands: extent.is_some(),
            nesting: deepest(fields).min(MOST_NESTING) + 1,
            parts: sum_of_parts(fields),
        })
    }
}

/// The outline of one scalar, or a text in place, without pointers.
fn outline_of_scalar(extent: Extent, integral: bool) -> Outline
    ensures { result ≡ record { extent = extent; integral = integral; flat = integral; pointers = Bool.false; stands = Bool.true; nesting = 1; parts = 1 } }
{
    Outline {
        extent,
        integral,
        flat: integral,
        pointers: false,
        stands: true,
        nesting: 1,
        parts: 1,
    }
}

/// The extent of a struct, None where it can't be laid out.
fn struct_extent(
    alloc: Global,
    rules: LayoutRules,
    fields: &[Outline],
    offsets: &Offsets,
) -> Result<Option<Extent>, NoMemory>
    requires sound { All IsSound fields.now }
    requires overlap { rules.overlap ≡ (rules.explicit && list_all (λ o. o.integral) fields.now) }
    ensures value { IfOk result (ExtendsStruct rules offsets.now fields.now) }
    ensures counted { IfOk result (λ found. IfSome found IsCounted) }
{
    if !all_stand(fields) {
        return Ok(None);
    }
    let extents = extents_of(alloc, fields)?;
    match place(alloc, rules, offsets, extents.as_slice()) {
        Ok(laid) => Ok(Some(Extent {
            size: laid.size,
            align: laid.align,
        })),
        Err(LayoutBad::Outside(_)) => Ok(None),
        Err(LayoutBad::Memory) => Err(NoMemory),
    }
}

fn extents_of(alloc: Global, fields: &[Outline]) -> Result<Vec<Extent>, AllocError>
    ensures { IfOk result (λ v. v.items ≡ map (λ o. o.extent) fields.now) }
{
    fields.iter().map(|f| f.extent).collect(alloc)
}

fn all_stand(fields: &[Outline]) -> bool
    ensures { result ≡ list_all (λ o. o.stands) fields.now }
{
    fields.iter().all(|f| f.stands)
}

fn are_integral(fields: &[Outline]) -> bool
    ensures { result ≡ list_all (λ o. o.integral) fields.now }
{
    fields.iter().all(|f| f.integral)
}

fn any_has_pointers(fields: &[Outline]) -> bool
    ensures { result ≡ list_any (λ o. o.pointers) fields.now }
{
    fields.iter().any(|f| f.pointers)
}

/// The greatest depth of a field, 0 where there is none.
fn deepest(fields: &[Outline]) -> u32
    ensures { result ≡ greatest 0 (map (λ o. o.nesting) fields.now) }
{
    let mut deepest = 0u32;
    for field in fields {
        deepest = deepest.max(field.nesting);
    }
    deepest
}

fn sum_of_parts(fields: &[Outline]) -> u64
    requires { All IsSound fields.now }
    ensures { result ≡ min (sum (map (λ o. o.parts) fields.now)) (MOST_PARTS + 1) }
{
    let mut sum = 0;
    for field in fields {
        sum = (sum + field.parts).min(MOST_PARTS + 1);
    }
    sum
}
