//! The heaps and their entries (ECMA-335 II.24.2.3 and II.24.2.4).

ghost use Rattle.std.specs.Prelude.{◌≡◌, ◌<◌, ◌≤◌, length, IfOk, IsErr};
ghost use Rattle.std.specs.Option.{option_copied};
ghost use Rattle.byte_view.specs.Heaps.{blob_at, units_of};
ghost use Rattle.byte_view.specs.Streams.{heap_of};
ghost use Rattle.meta_tables.specs.View.{IsWithin, AreWithin, view_ranges, view_streams};
ghost use Rattle.meta_tables.specs.Cells.{AreHeapsOf};

use crate::streams::{Range, Streams};
use bound_base::{NoMemory, Units};
use byte_view::{compressed, number16};
use std::alloc::Global;

/// The bytes of the heaps; a missing heap is empty.
#[derive(Clone, Copy, Debug)]
pub struct Heaps<'a> {
    pub strings: &'a [u8],
    pub user_strings: &'a [u8],
    pub guids: &'a [u8],
    pub blobs: &'a [u8],
}

/// The heaps of the streams; a missing heap is empty.
pub fn heaps_in(image: &[u8], streams: Streams) -> Heaps<'_>
    requires { AreWithin image.now (view_streams streams) }
    ensures { AreHeapsOf image.now (view_streams streams) result }
{
    Heaps {
        strings: heap(image, streams.strings),
        user_strings: heap(image, streams.user_strings),
        guids: heap(image, streams.guids),
        blobs: heap(image, streams.blobs),
    }
}

/// A heap's bytes; a missing heap is empty.
fn heap(image: &[u8], range: Option<Range>) -> &[u8]
    requires { IsWithin image.now (view_ranges range) }
    ensures { result.now ≡ heap_of image.now (view_ranges range) }
{
    match range {
        Some(range) => &image[range.start..range.end],
        None => &[],
    }
}

/// The bytes of the entry at a place of `#Blob` or `#US`: a compressed length, and so many bytes.
#[tactic(auto, unfolding(byte_view::specs::Heaps::blob_at))]
pub fn entry_at(heap: &[u8], at: usize) -> Option<&[u8]>
    ensures { option_copied result ≡ blob_at heap.now at }
{
    let (size, width) = compressed(heap, at)?;
    if at > heap.len() {
        return None;
    }
    let rest = &heap[at..];
    if rest.len() < width || rest.len() - width < size as usize {
        return None;
    }
    Some(&rest[width..width + size as usize])
}

/// Bytes as UTF-16 units, lowest byte first; an odd last byte belongs to none.
pub fn units(alloc: Global, bytes: &[u8]) -> Result<Units, NoMemory>
    ensures units { IfOk result (λ units. units ≡ units_of bytes.now) }
    ensures memory { IsErr result → 1 ≤ length (units_of bytes.now) }
{
    let mut units = Units::new(alloc);
    for at in 0..bytes.len() / 2 {
        units.push(number16(bytes, 2 * at))?;
    }
    Ok(units)
}
