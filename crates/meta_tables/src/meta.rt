//! The metadata of an image: its heaps, and the rows of its tables.

ghost use Rattle.std.specs.Prelude.{◌≡◌, ◌+◌, ◌≤◌, length, take, IfOk, IsOk, IsErr, IsSomeAnd};
ghost use Rattle.std.specs.Option.{option_copied};
ghost use Rattle.bound_base.specs.Image.{refusal};
ghost use Rattle.byte_view.specs.Reading.{Reads, WantsMemory};
ghost use Rattle.byte_view.specs.Assembly.{header_in, metadata};
ghost use Rattle.byte_view.specs.Cells.{rows_in};
ghost use Rattle.byte_view.specs.Heaps.{text_at as text_of, blob_at, user_string_at};
ghost use Rattle.byte_view.specs.Metadata.{row_of, row_place};

use crate::cells::check_cells;
use crate::columns::rows_at;
use crate::fields::text_at;
use crate::heaps::{Heaps, entry_at, heaps_in, units};
use crate::layout::{Layout, read_layout};
use crate::rows::{row_in, row_start};
use crate::streams::read_streams;
use bound_base::{BadImage, NoMemory, Units};
use std::alloc::Global;
use std::marker::Model;

/// The heaps and tables of an image's metadata, over the image's bytes (ECMA-335 II.24.2).
#[derive(Drop)]
pub struct Meta<'a> {
    heaps: Heaps<'a>,
    /// The image up to the end of the `#~` stream.
    stream: &'a [u8],
    layout: Layout,
}

impl<'a> Model for Meta<'a> {
    ghost use Rattle.byte_view.specs.Metadata.{Metadata};
    ghost use Rattle.meta_tables.specs.Shapes.{IsLaidOut};
    ghost use Rattle.meta_tables.specs.Cells.{metadata_of};

    ghost Value = { Metadata };

    ghost view = { λ m. metadata_of m.heaps m.stream.now m.layout };

    ghost invariant = { λ m. IsLaidOut m.stream.now m.layout };
}

/// Reads the metadata that lies at the file offset `at` and has `size` bytes.
///
/// An image is refused for its first part that is broken, from the metadata root to the cells of
/// the checked tables (ECMA-335 II.24.2 and II.22), at the file offset of the first field that is
/// missing or wrong; and with `BadImage::Memory` where there is no memory for the places of the
/// tables, which are asked for once the streams and the header of `#~` are sound.
pub fn read_meta(alloc: Global, bytes: &[u8], at: u64, size: u32) -> Result<Meta<'_>, BadImage>
    requires { at + size ≤ length bytes.now }
    ensures reads { Reads refusal (λ m. m) result (metadata bytes.now at size) }
    ensures memory { WantsMemory refusal result
        → IsOk (header_in (take (at + size) bytes.now) at) }
{
    let at = at as usize;
    let image = &bytes[..at + size as usize];
    let (tables, streams) = read_streams(image, at)?;
    let stream = &image[..tables.end];
    let layout = read_layout(alloc, stream, tables.start)?;
    let heaps = heaps_in(image, streams);
    check_cells(stream, &layout, &heaps)?;
    Ok(Meta {
        heaps,
        stream,
        layout,
    })
}

impl Meta<'_> {
    /// The bytes of `#Strings` (ECMA-335 II.24.2.3); none where the heap is missing.
    pub fn string_heap(&self) -> &[u8]
        ensures { result.now ≡ self.now.strings }
    {
        self.heaps.strings
    }

    /// The bytes of `#US` (ECMA-335 II.24.2.4); none where the heap is missing.
    pub fn user_string_heap(&self) -> &[u8]
        ensures { result.now ≡ self.now.user_strings }
    {
        self.heaps.user_strings
    }

    /// The bytes of `#Blob` (ECMA-335 II.24.2.4); none where the heap is missing.
    pub fn blob_heap(&self) -> &[u8]
        ensures { result.now ≡ self.now.blobs }
    {
        self.heaps.blobs
    }

    /// The number of rows of a table, 0 where there is no such table.
    pub fn rows(&self, table: u8) -> u32
        ensures { result ≡ rows_in self.now table }
    {
        rows_at(self.layout.rows.as_slice(), table)
    }

    /// The numbers of a row, counted from 1, column after column, and 0 for those that its table
    /// doesn't have (ECMA-335 II.22). None exactly outside 1 to `rows`.
    pub fn row(&self, table: u8, n: u32) -> Option<[u32; 9]>
        ensures { result ≡ row_of self.now table n }
    {
        if n == 0 {
            return None;
        }
        if n > rows_at(self.layout.rows.as_slice(), table) {
            return None;
        }
        Some(row_in(self.stream, &self.layout, table, n - 1))
    }

    /// The file offset at which a row begins, counted from 1 (ECMA-335 II.24.2.6). None exactly
    /// outside 1 to `rows`.
    pub fn row_place(&self, table: u8, n: u32) -> Option<u64>
        ensures { result ≡ row_place self.now table n }
    {
        if n < 1 || rows_at(self.layout.rows.as_slice(), table) < n {
            return None;
        }
        Some(row_start(self.stream, &self.layout, table, n - 1) as u64)
    }

    /// The bytes at an offset of `#Strings` up to a zero (ECMA-335 II.24.2.3). None where no zero
    /// follows.
    pub fn string(&self, at: u32) -> Option<&[u8]>
        ensures { option_copied result ≡ text_of self.now.strings at }
    {
        text_at(self.heaps.strings, at as usize)
    }

    /// The bytes of the entry at an offset of `#Blob` (ECMA-335 II.24.2.4). None where the heap
    /// holds no whole entry there.
    pub fn blob(&self, at: u32) -> Option<&[u8]>
        ensures { option_copied result ≡ blob_at self.now.blobs at }
    {
        entry_at(self.heaps.blobs, at as usize)
    }

    /// The UTF-16 units of the entry at an offset of `#US` (ECMA-335 II.24.2.4): its bytes by two,
    /// an odd last byte left out. None where the heap holds no whole entry there; an error where
    /// there is no memory for the units, of which there is at least one then.
    pub fn user_string(&self, alloc: Global, at: u32) -> Result<Option<Units>, NoMemory>
        ensures units { IfOk result (λ units. units ≡ user_string_at self.now.user_strings at) }
        ensures memory { IsErr result
            → IsSomeAnd (user_string_at self.now.user_strings at) (λ units. 1 ≤ length units) }
    {
        match entry_at(self.heaps.user_strings, at as usize) {
            Some(entry) => Ok(Some(units(alloc, entry)?)),
            None => Ok(None),
        }
    }
}
