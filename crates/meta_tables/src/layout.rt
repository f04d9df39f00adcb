//! How the `#~` stream is laid out: its header, the row counts, and the tables one after another
//! (ECMA-335 II.24.2.6). `image` is the file up to the end of the stream, which begins at `start`.

ghost use Rattle.std.specs.Prelude.{◌≡◌, ◌||◌, not, ◌+◌, ◌<◌, ◌≤◌, ◌*◌, ◌^◌, sum_by, map, length, slice_get, IfOk, IsOk};
ghost use Rattle.std.specs.List.{range_with_len};
ghost use Rattle.bound_base.specs.Image.{refusal};
ghost use Rattle.byte_view.specs.Reading.{Reads, WantsMemory, each, listed};
ghost use Rattle.byte_view.specs.Columns.{is_table as names_table, table_numbers};
ghost use Rattle.byte_view.specs.Layout.{is_present, present_below as presents, count_place as place_of_count, row_count, start_of, header, layout};
ghost use Rattle.meta_tables.specs.View.{bytes_of, view_column};
ghost use Rattle.meta_tables.specs.Shapes.{view_shape, shape_of, width_at, cell_widths, view_layout, HasShapes, tests_valid};

use crate::columns::{Column, Width, columns, rows_at, width_of};
use crate::fields::{bad, field32};
use bound_base::{BadImage, Part};
use byte_view::{number8, number64};
use std::alloc::Global;

/// How many table numbers there are, up to the last table.
const TABLE_NUMBERS: u8 = 45;

/// The rows of a table: the width of each of nine columns, and of a row, in bytes.
#[derive(Clone, Copy, Debug)]
pub struct Shape {
    pub widths: [Width; 9],
    pub row_width: usize,
}

/// HeapSizes, and of each table by its number the row count, the file offset of its rows, and their
/// shape.
#[derive(Debug, Drop)]
pub struct Layout {
    pub heap_sizes: u8,
    pub rows: Vec<u32>,
    pub starts: Vec<usize>,
    pub shapes: Vec<Shape>,
}

/// The layout of the stream, or the first field of it that is missing or wrong. Memory is wanted
/// only where the stream's header is sound.
#[tactic(auto, unfolding(byte_view::specs::Layout::layout))]
pub fn read_layout(alloc: Global, image: &[u8], start: usize) -> Result<Layout, BadImage>
    requires { start ≤ length image.now }
    ensures reads { Reads refusal view_layout result (layout image.now start) }
    ensures shapes { IfOk result HasShapes }
    ensures memory { WantsMemory refusal result → IsOk (header image.now start) }
{
    if image.len() - start < 24 {
        return Err(bad(Part::Tables, start));
    }
    let heap_sizes = number8(image, start + 6);
    let valid = number64(image, start + 8);
    check_valid(valid, start + 8)?;
    let rows = row_counts(alloc, image, start, valid)?;
    let (starts, shapes) = lay_out(alloc, image, start, valid, heap_sizes, rows.as_slice())?;
    Ok(Layout {
        heap_sizes,
        rows,
        starts,
        shapes,
    })
}

/// Whether a table is there: its bit of Valid is set.
fn is_there(valid: u64, table: u8) -> bool
    requires { table < 64 }
    ensures { result ≡ is_present valid table }
{
    valid & (1 << table) != 0
}

/// Whether a number is that of a table.
pub fn is_table(table: u8) -> bool
    ensures { result ≡ names_table table }
{
    !columns(table).is_empty()
}

/// Whether a bit of Valid is clear, or a table's.
fn is_valid(valid: u64, table: u8) -> bool
    requires { table < 64 }
    ensures { result ≡ (names_table table || not (is_present valid table)) }
{
    is_table(table) || !is_there(valid, table)
}

/// Refuses Valid where it has a bit that is no table's.
fn check_valid(valid: u64, at: usize) -> Result<(), BadImage>
    ensures reads { Reads refusal (λ _. 0) result (each (tests_valid valid at) 64) }
    ensures memory { ¬ WantsMemory refusal result }
{
    for table in 0..64 {
        if !is_valid(valid, table) {
            return Err(bad(Part::Tables, at));
        }
    }
    Ok(())
}

/// How many of the tables below one are there.
#[tactic(auto, unfolding(byte_view::specs::Layout::present_below), using(crate::proofs::Valid::present_below_next))]
fn present_below(valid: u64, table: u8) -> usize
    requires { table < 64 }
    ensures count { result ≡ presents valid table }
    ensures few { result ≤ table }
{
    let mut count = 0;
    for below in 0..table {
        if is_there(valid, below) {
            count += 1;
        }
    }
    count
}

/// Where a table's row count stands: the counts of the tables that are there, one after another.
fn count_place(start: usize, valid: u64, table: u8) -> usize
    requires table { table < 64 }
    requires start { start < 2 ^ 63 }
    ensures place { result ≡ place_of_count start valid table }
    ensures small { result ≤ start + 276 }
{
    start + 24 + 4 * present_below(valid, table)
}

/// The row count of a table, 0 where it isn't there.
fn row_count_of(image: &[u8], start: usize, valid: u64, table: u8) -> Result<u32, BadImage>
    requires table { table < 64 }
    requires start { start < 2 ^ 63 }
    ensures reads { Reads refusal (λ x. x) result (row_count image.now start valid table) }
    ensures memory { ¬ WantsMemory refusal result }
{
    if is_there(valid, table) {
        field32(Part::Tables, image, count_place(start, valid, table))
    } else {
        Ok(0)
    }
}

/// The row counts of all tables.
fn row_counts(alloc: Global, image: &[u8], start: usize, valid: u64) -> Result<Vec<u32>, BadImage>
    requires { start < 2 ^ 63 }
    ensures { Reads refusal (λ rows. rows.items) result
        (listed (row_count image.now start valid) table_numbers) }
{
    let mut rows = Vec::new(alloc);
    for table in 0..TABLE_NUMBERS {
        rows.push(row_count_of(image, start, valid, table)?)?;
    }
    Ok(rows)
}

/// The width of a column by its place in its table; none after the last.
fn cell_width(heap_sizes: u8, rows: &[u32], columns: &[Column], at: usize) -> Width
    ensures { bytes_of result
        ≡ width_at heap_sizes rows.now (slice_get (map view_column columns.now) at) }
{
    match columns.get(at) {
        Some(column) => width_of(heap_sizes, rows, *column),
        None => Width::None,
    }
}

/// The widths of a table's columns.
fn widths_of(heap_sizes: u8, rows: &[u32], table: u8) -> [Width; 9]
    ensures { map bytes_of result ≡ cell_widths heap_sizes rows.now table }
{
    let columns = columns(table);
    let mut widths = [Width::None; 9];
    for at in 0..9 {
        widths[at] = cell_width(heap_sizes, rows, columns, at);
    }
    widths
}

/// The bytes of a row.
fn total(widths: &[Width; 9]) -> usize
    ensures sum { result ≡ sum_by bytes_of widths.now }
    ensures small { result ≤ 36 }
{
    let mut total = 0;
    for width in widths.iter() {
        total += width.bytes();
    }
    total
}

/// The shape of a table's rows, by HeapSizes and the row count of each table.
pub fn shape_rows(heap_sizes: u8, rows: &[u32], table: u8) -> Shape
    ensures shape { view_shape result ≡ shape_of heap_sizes rows.now table }
    ensures small { result.row_width ≤ 36 }
{
    let widths = widths_of(heap_sizes, rows, table);
    Shape {
        widths,
        row_width: total(&widths),
    }
}

/// The bytes of a table's rows.
fn rows_size(count: u32, row_width: usize) -> usize
    requires { row_width ≤ 36 }
    ensures size { result ≡ count * row_width }
    ensures small { result ≤ 36 * 2 ^ 32 }
{
    count as usize * row_width
}

/// Where each table's rows begin, and their shapes.
#[tactic(auto, unfolding(byte_view::specs::Layout::table_start))]
fn lay_out(
    alloc: Global,
    image: &[u8],
    start: usize,
    valid: u64,
    heap_sizes: u8,
    rows: &[u32],
) -> Result<(Vec<usize>, Vec<Shape>), BadImage>
    requires { start ≤ length image.now }
    ensures starts { Reads refusal (λ x. x.0.items) result
        (listed (start_of image.now start valid heap_sizes rows.now) table_numbers) }
    ensures shapes { IfOk result (λ x. map view_shape x.1.items
        ≡ map (shape_of heap_sizes rows.now) (range_with_len 0 table_numbers)) }
{
    let mut starts = Vec::new(alloc);
    let mut shapes = Vec::new(alloc);
    let mut at = count_place(start, valid, TABLE_NUMBERS);
    for table in 0..TABLE_NUMBERS {
        let shape = shape_rows(heap_sizes, rows, table);
        let end = at + rows_size(rows_at(rows, table), shape.row_width);
        if end > image.len() {
            let count_at = count_place(start, valid, table);
            return Err(bad(Part::Tables, count_at));
        }
        starts.push(at)?;
        shapes.push(shape)?;
        at = end;
    }
    Ok((starts, shapes))
}
