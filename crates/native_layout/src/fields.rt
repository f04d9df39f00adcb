//! Where fields of known extents lie (ECMA-335 II.10.7).

ghost use Rattle.std.specs.Prelude.{◌≡◌, ◌≤◌, ◌^◌, ◌==◌, All, IsTrue, IfOk, None, true, false, length, if◌then◌else◌};
ghost use Rattle.native_layout.specs.Struct.{first_overlap as first_overlap_of, is_align, is_packing as is_packing_of};
ghost use Rattle.native_layout.specs.Answer.{Answers, Passes};
ghost use Rattle.native_layout.specs.Placed.{finished};
ghost use Rattle.native_layout.specs.Ruled.{AnswersInSequence, AnswersRuled};

use crate::extent::{Extent, Range};
use crate::offsets::{greatest_end, ranges_at, told, written};
use crate::overlap::first_overlap;
use crate::placing::{LARGEST_STRUCT, Placed, aligned, greatest_align, in_sequence, is_packing};
use crate::refused::LayoutBad;
use crate::shapes::{Layout, Offsets};
use std::alloc::Global;

/// What the layout of a struct asks beside the extents and the offsets of its fields.
#[derive(Clone, Copy, Debug, PartialEq, Eq)]
pub struct LayoutRules {
    /// The greatest alignment that a field is given; 0 stands for 8 (PackingSize, II.22.8).
    pub pack: u16,
    /// The least size in bytes (ClassSize, II.22.8).
    pub least: u32,
    /// Whether each field lies at the offset that is written for it (II.22.16), and not after the one before.
    pub explicit: bool,
    /// Whether fields may have bytes in common: they lie at written offsets, and each is an integer or a struct of
    /// nothing else.
    pub overlap: bool,
}

/// Where fields of these extents lie, none of which is or holds a struct that can't be laid out.
pub fn place(
    alloc: Global,
    rules: LayoutRules,
    offsets: &Offsets,
    extents: &[Extent],
) -> Result<Layout, LayoutBad>
    requires aligns { All (λ e. IsTrue (is_align e.align)) extents.now }
    requires sizes { All (λ e. e.size ≤ 2 ^ 32) extents.now }
    ensures value { AnswersRuled rules offsets.now extents.now result }
    ensures align { IfOk result (λ l. IsTrue (is_align l.align)) }
    ensures size { IfOk result (λ l. l.size ≤ LARGEST_STRUCT) }
{
    if extents.is_empty() || !is_packing(rules.pack) {
        return Err(LayoutBad::Outside(0));
    }
    if rules.explicit {
        explicit(alloc, rules, offsets, extents)
    } else {
        sequential(alloc, rules, extents)
    }
}

fn sequential(alloc: Global, rules: LayoutRules, extents: &[Extent]) -> Result<Layout, LayoutBad>
    requires aligns { All (λ e. IsTrue (is_align e.align)) extents.now }
    requires some { (length extents.now == 0) ≡ false }
    requires packing { is_packing_of rules.pack ≡ true }
    requires sequential { rules.explicit ≡ false }
    ensures value { AnswersInSequence rules extents.now result }
    ensures align { IfOk result (λ l. IsTrue (is_align l.align)) }
    ensures size { IfOk result (λ l. l.size ≤ LARGEST_STRUCT) }
{
    let align = greatest_align(rules.pack, extents);
    let placed = in_sequence(alloc, rules.pack, extents)?;
    finish(placed, align, rules.least)
}

fn explicit(
    alloc: Global,
    rules: LayoutRules,
    offsets: &Offsets,
    extents: &[Extent],
) -> Result<Layout, LayoutBad>
    requires aligns { All (λ e. IsTrue (is_align e.align)) extents.now }
    requires sizes { All (λ e. e.size ≤ 2 ^ 32) extents.now }
    requires some { (length extents.now == 0) ≡ false }
    requires packing { is_packing_of rules.pack ≡ true }
    requires explicit { rules.explicit ≡ true }
    ensures value { AnswersRuled rules offsets.now extents.now result }
    ensures align { IfOk result (λ l. IsTrue (is_align l.align)) }
    ensures size { IfOk result (λ l. l.size ≤ LARGEST_STRUCT) }
{
    let align = greatest_align(rules.pack, extents);
    let offsets = written(alloc, offsets, extents.len())?;
    let ranges = ranges_at(alloc, offsets.as_slice(), extents)?;
    without_overlap(alloc, rules.overlap, ranges.as_slice())?;
    let end = greatest_end(ranges.as_slice());
    finish(Placed { offsets, end }, align, rules.least)
}

/// `Outside` names the first field that overlaps another one where none may.
fn without_overlap(alloc: Global, overlap: bool, ranges: &[Range]) -> Result<(), LayoutBad>
    ensures { Passes (if overlap then None else first_overlap_of ranges.now) result }
{
    if overlap {
        return Ok(());
    }
    match first_overlap(alloc, ranges)? {
        Some(field) => Err(LayoutBad::Outside(told(field))),
        None => Ok(()),
    }
}

fn finish(placed: Placed, align: u64, least: u32) -> Result<Layout, LayoutBad>
    requires align { IsTrue (is_align align) }
    requires room { placed.end ≤ 2 ^ 34 }
    ensures value { Answers result (finished placed.offsets placed.end align least) }
    ensures align { IfOk result (λ l. IsTrue (is_align l.align)) }
    ensures size { IfOk result (λ l. l.size ≤ LARGEST_STRUCT) }
{
    let size = u64::from(least).max(aligned(placed.end, align));
    if size > LARGEST_STRUCT {
        return Err(LayoutBad::Outside(0));
    }
    Ok(Layout {
        offsets: placed.offsets,
        size,
        align,
    })
}
