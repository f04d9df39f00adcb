//! Fields at the offsets that are written for them.

ghost use Rattle.std.specs.Prelude.{◌≡◌, ◌≤◌, ◌<◌, ◌^◌, unwrap_or, All, length, IfOk};
ghost use Rattle.native_layout.specs.Struct.{offset_at as offset_of, at_offsets};
ghost use Rattle.native_layout.specs.Answer.{told as told_of};
ghost use Rattle.native_layout.specs.Placed.{IsWritten, greatest_end as greatest_end_of};

use crate::extent::{Extent, Range};
use crate::refused::LayoutBad;
use crate::shapes::Offsets;
use std::alloc::{AllocError, Global};

/// The number of a field, as far as 32 bits tell it.
pub fn told(field: usize) -> u32
    ensures { result ≡ told_of field }
{
    field.min(u32::MAX as usize) as u32
}

/// The offsets that are written for the first `count` fields. `Outside` names the first field without one.
pub fn written(alloc: Global, offsets: &Offsets, count: usize) -> Result<Offsets, LayoutBad>
    ensures { IsWritten offsets.now count result }
{
    let mut all = Offsets::new(alloc);
    for k in 0..count {
        match offset_at(offsets, k) {
            Some(offset) => all.push(Some(offset))?,
            None => return Err(LayoutBad::Outside(told(k))),
        }
    }
    Ok(all)
}

/// The bytes of fields at their offsets.
pub fn ranges_at(
    alloc: Global,
    offsets: &[Option<u32>],
    extents: &[Extent],
) -> Result<Vec<Range>, AllocError>
    requires each { length offsets.now ≡ length extents.now }
    requires sizes { All (λ e. e.size ≤ 2 ^ 32) extents.now }
    ensures { IfOk result (λ v. v.items ≡ at_offsets offsets.now extents.now) }
{
    let mut ranges = Vec::new(alloc);
    for (k, e) in extents.iter().enumerate() {
        let start = u64::from(offsets[k].unwrap_or(0));
        ranges.push(Range {
            start,
            end: start + e.size,
        })?;
    }
    Ok(ranges)
}

/// The greatest end of a range, 0 where there is none.
pub fn greatest_end(ranges: &[Range]) -> u64
    ensures { result ≡ greatest_end_of 0 ranges.now }
{
    let mut end = 0u64;
    for range in ranges {
        end = end.max(range.end);
    }
    end
}

/// The offset that is written for a field.
pub fn offset_at(offsets: &Offsets, k: usize) -> Option<u32>
    ensures value { result ≡ offset_of offsets.now k }
    ensures small { unwrap_or (offset_of offsets.now k) 0 < 2 ^ 32 }
{
    let offset = (*offsets.get(k)?)?;
    Some(offset)
}
