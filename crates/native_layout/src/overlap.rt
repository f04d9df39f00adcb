//! Fields with bytes in common, found by their sorted starts and ends.

ghost use Rattle.std.specs.Prelude.{◌≡◌, ◌+◌, ◌-◌, ◌<◌, ◌&&◌, nat_lt, nat_le, IfOk, map, filter};
ghost use Rattle.std.specs.List.{count_by};
ghost use Rattle.std.specs.List.Sorted.{IsNonDecreasing};
ghost use Rattle.native_layout.specs.Struct.{first_overlap as first_overlap_of};
ghost use Rattle.native_layout.specs.Placed.{AreSorted, is_filled};

use crate::extent::Range;
use std::alloc::{AllocError, Global};

/// The first of some ranges that has a byte in common with another one.
pub fn first_overlap(alloc: Global, ranges: &[Range]) -> Result<Option<usize>, AllocError>
    ensures { IfOk result (λ first. first ≡ first_overlap_of ranges.now) }
{
    let starts = sorted_starts(alloc, ranges)?;
    let ends = sorted_ends(alloc, ranges)?;
    Ok(first_sharing(ranges, starts.as_slice(), ends.as_slice()))
}

fn first_sharing(ranges: &[Range], starts: &[u64], ends: &[u64]) -> Option<usize>
    requires starts { AreSorted (λ r. r.start) ranges.now starts.now }
    requires ends { AreSorted (λ r. r.end) ranges.now ends.now }
    ensures { result ≡ first_overlap_of ranges.now }
{
    for (k, range) in ranges.iter().enumerate() {
        if overlaps_another(*range, starts, ends) {
            return Some(k);
        }
    }
    None
}

/// Whether more than one of the fields, itself counted, has a byte in common with this one: those that start before its
/// end, less those that end by its start.
fn overlaps_another(range: Range, starts: &[u64], ends: &[u64]) -> bool
    requires starts { IsNonDecreasing starts.now }
    requires ends { IsNonDecreasing ends.now }
    ensures { result ≡ (nat_lt range.start range.end
        && nat_lt (count_by (λ x. nat_le x range.start) ends.now + 1) (count_by (λ x. nat_le x (range.end - 1)) starts.now)) }
{
    range.start < range.end
        && count_up_to(ends, range.start) + 1 < count_up_to(starts, range.end - 1)
}

/// How many of some numbers in order are at most a number.
fn count_up_to(numbers: &[u64], most: u64) -> usize
    requires { IsNonDecreasing numbers.now }
    ensures { result ≡ count_by (λ x. nat_le x most) numbers.now }
{
    numbers.partition_point(|x| *x <= most)
}

fn sorted_starts(alloc: Global, ranges: &[Range]) -> Result<Vec<u64>, AllocError>
    ensures { IfOk result (λ v. AreSorted (λ r. r.start) ranges.now v.items) }
{
    let mut starts = starts_of(alloc, ranges)?;
    starts.sort_unstable();
    Ok(starts)
}

fn sorted_ends(alloc: Global, ranges: &[Range]) -> Result<Vec<u64>, AllocError>
    ensures { IfOk result (λ v. AreSorted (λ r. r.end) ranges.now v.items) }
{
    let mut ends = ends_of(alloc, ranges)?;
    ends.sort_unstable();
    Ok(ends)
}

/// The starts of the ranges that have bytes.
fn starts_of(alloc: Global, ranges: &[Range]) -> Result<Vec<u64>, AllocError>
    ensures { IfOk result (λ v. v.items ≡ map (λ r. r.start) (filter is_filled ranges.now)) }
{
    ranges
        .iter()
        .filter(|r| r.start < r.end)
        .map(|r| r.start)
        .collect(alloc)
}

/// The ends of the ranges that have bytes.
fn ends_of(alloc: Global, ranges: &[Range]) -> Result<Vec<u64>, AllocError>
    ensures { IfOk result (λ v. v.items ≡ map (λ r. r.end) (filter is_filled ranges.now)) }
{
    ranges
        .iter()
        .filter(|r| r.start < r.end)
        .map(|r| r.end)
        .collect(alloc)
}
