//! Where a field may lie: alignments, packings, and fields one after another.

ghost use Rattle.std.specs.Prelude.{◌≡◌, ◌+◌, ◌≤◌, ◌<◌, ◌^◌, All, IsTrue, map, IfOk, IfErr, Ok, Err, Some};
ghost use Rattle.native_layout.specs.Struct.{aligned as aligned_of, field_align as field_align_of, greatest, is_align, is_packing as is_packing_of};
ghost use Rattle.native_layout.specs.Placed.{IsSequence};

use crate::extent::Extent;
use crate::refused::LayoutBad;
use crate::shapes::Offsets;
use std::alloc::Global;

/// The greatest size of a struct, in bytes.
pub const LARGEST_STRUCT: u64 = 1 << 20;

/// Where fields lie.
#[derive(Drop)]
pub struct Placed {
    /// Some of each field's offset.
    pub offsets: Offsets,
    /// The greatest end of a field.
    pub end: u64,
}

/// Whether it is a packing: 0, or a power of two up to 128 (ECMA-335 II.22.8).
pub fn is_packing(pack: u16) -> bool
    ensures { result ≡ is_packing_of pack }
{
    matches!(pack, 0 | 1 | 2 | 4 | 8 | 16 | 32 | 64 | 128)
}

/// The least multiple of `align` that isn't below `n`.
pub fn aligned(n: u64, align: u64) -> u64
    requires some { IsTrue (is_align align) }
    requires room { n + 8 < 2 ^ 64 }
    ensures { result ≡ aligned_of n align }
{
    (n + (align - 1)) / align * align
}

/// The alignment of a field in a struct of a packing.
pub fn field_align(pack: u16, e: Extent) -> u64
    requires packing { IsTrue (is_packing_of pack) }
    requires align { IsTrue (is_align e.align) }
    ensures value { result ≡ field_align_of pack e }
    ensures align { IsTrue (is_align result) }
{
    let packing = if pack == 0 { 8 } else { u64::from(pack) };
    packing.min(e.align)
}

/// The alignment of a struct: the greatest of its fields.
pub fn greatest_align(pack: u16, extents: &[Extent]) -> u64
    requires packing { IsTrue (is_packing_of pack) }
    requires aligns { All (λ e. IsTrue (is_align e.align)) extents.now }
    ensures value { result ≡ greatest 1 (map (field_align_of pack) extents.now) }
    ensures align { IsTrue (is_align result) }
{
    let mut greatest = 1u64;
    for e in extents {
        greatest = greatest.max(field_align(pack, *e));
    }
    greatest
}

/// Places fields one after another. `Outside(0)` says that they need more than the greatest size.
pub fn in_sequence(alloc: Global, pack: u16, extents: &[Extent]) -> Result<Placed, LayoutBad>
    requires packing { IsTrue (is_packing_of pack) }
    requires aligns { All (λ e. IsTrue (is_align e.align)) extents.now }
    ensures { IsSequence pack extents.now result }
{
    let mut offsets = Offsets::new(alloc);
    let mut end = 0;
    for e in extents {
        let start = aligned(end, field_align(pack, *e));
        if e.size > LARGEST_STRUCT - start {
            return Err(LayoutBad::Outside(0));
        }
        offsets.push(Some(start as u32))?;
        end = start + e.size;
    }
    Ok(Placed { offsets, end })
}
