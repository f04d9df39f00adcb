//! Rows of a table, as numbers (ECMA-335 II.24.2.6). `stream` is the file up to the end of the `#~`
//! stream.

ghost use Rattle.std.specs.Prelude.{◌≡◌, ◌+◌, ◌*◌, ◌^◌, ◌<◌, ◌≤◌, map, length, slice_index};
ghost use Rattle.std.specs.List.{sum_by};
ghost use Rattle.byte_view.specs.Numbers.{le};
ghost use Rattle.byte_view.specs.Columns.{table_numbers, row_width};
ghost use Rattle.byte_view.specs.Metadata.{row_at, row_start as start_of_row};
ghost use Rattle.meta_tables.specs.View.{bytes_of};
ghost use Rattle.meta_tables.specs.Shapes.{view_shape, shape_of, view_layout, HasShapes, IsLaidOut, cells_at};

use crate::columns::Width;
use crate::layout::{Layout, Shape};
use byte_view::{number8, number16, number32};

/// The number in a cell that is there.
#[tactic(auto, using(crate::proofs::Numbers::le_none))]
fn cell(stream: &[u8], at: usize, width: Width) -> u32
    requires { at + bytes_of width ≤ length stream.now }
    ensures { result ≡ le stream.now at (bytes_of width) }
{
    match width {
        Width::None => 0,
        Width::One => u32::from(number8(stream, at)),
        Width::Two => u32::from(number16(stream, at)),
        Width::Four => number32(stream, at),
    }
}

/// The numbers of a row that is there.
pub fn row_from(stream: &[u8], start: usize, widths: &[Width; 9]) -> [u32; 9]
    requires { start + sum_by bytes_of widths.now ≤ length stream.now }
    ensures { result ≡ cells_at stream.now start (map bytes_of widths.now) }
{
    let mut cells = [0; 9];
    let mut place = start;
    for column in 0..9 {
        let width = widths[column];
        cells[column] = cell(stream, place, width);
        place += width.bytes();
    }
    cells
}

/// The shape of a table's rows.
pub fn shape_in(layout: &Layout, table: u8) -> Shape
    requires shapes { HasShapes layout.now }
    requires table { table < table_numbers }
    ensures { view_shape result ≡ shape_of layout.now.heap_sizes layout.now.rows.items table }
{
    let shapes = layout.shapes.as_slice();
    shapes[table as usize]
}

/// Where a table's rows begin.
pub fn start_in(layout: &Layout, table: u8) -> usize
    requires { table < length layout.now.starts.items }
    ensures { result ≡ slice_index layout.now.starts.items table }
{
    let starts = layout.starts.as_slice();
    starts[table as usize]
}

/// Where row `row` of rows from `start` on begins, counted from 0.
fn row_after(start: usize, row: u32, row_width: usize) -> usize
    requires { start + row * row_width < 2 ^ 63 }
    ensures { result ≡ start + row * row_width }
{
    start + row as usize * row_width
}

/// The file offset at which a row begins, counted from 0; the row ends in the stream.
pub fn row_start(stream: &[u8], layout: &Layout, table: u8, row: u32) -> usize
    requires layout { IsLaidOut stream.now layout.now }
    requires row { row < slice_index layout.now.rows.items table }
    ensures place { result ≡ start_of_row (view_layout layout.now) table row }
    ensures within { result + row_width layout.now.heap_sizes layout.now.rows.items table
        ≤ length stream.now }
{
    let shape = shape_in(layout, table);
    let start = start_in(layout, table);
    row_after(start, row, shape.row_width)
}

/// A row of a table, counted from 0.
pub fn row_in(stream: &[u8], layout: &Layout, table: u8, row: u32) -> [u32; 9]
    requires layout { IsLaidOut stream.now layout.now }
    requires row { row < slice_index layout.now.rows.items table }
    ensures { result ≡ row_at stream.now (view_layout layout.now) table row }
{
    let shape = shape_in(layout, table);
    let place = row_start(stream, layout, table, row);
    row_from(stream, place, &shape.widths)
}
