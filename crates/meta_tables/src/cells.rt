//! What a cell of a checked table must hold (ECMA-335 II.22).

ghost use Rattle.std.specs.Prelude.{◌≡◌, ◌+◌, ◌*◌, ◌/◌, ◌%◌, ◌^◌, ◌<◌, ◌≤◌, ◌||◌, ◌==◌, nat_lt, nat_le, map, length, slice_index, slice_get};
ghost use Rattle.std.specs.List.{sum_by};
ghost use Rattle.bound_base.specs.Image.{refusal};
ghost use Rattle.byte_view.specs.Columns.{table_numbers};
ghost use Rattle.byte_view.specs.Reading.{Reads, WantsMemory, each};
ghost use Rattle.byte_view.specs.Cells.{check_table as table_check, check_cells as cells_check};
ghost use Rattle.meta_tables.specs.View.{bytes_of, view_column};
ghost use Rattle.meta_tables.specs.Shapes.{view_layout, IsLaidOut};
ghost use Rattle.meta_tables.specs.Cells.{sizes_of, is_row_by, sound_by, tests_row, metadata_of};

use crate::columns::{Column, Tags, Width, columns, rows_at};
use crate::fields::bad;
use crate::heaps::Heaps;
use crate::layout::Layout;
use crate::rows::{row_from, shape_in, start_in};
use bound_base::{BadImage, Part};

/// The tables whose cells are checked: Module, TypeRef, TypeDef, Field, MethodDef, Param,
/// InterfaceImpl, MemberRef, FieldMarshal, ClassLayout, FieldLayout, StandAloneSig, MethodImpl,
/// ModuleRef, TypeSpec, ImplMap, FieldRVA, AssemblyRef and NestedClass.
pub static CHECKED_TABLES: [u8; 19] = [
    0x00, 0x01, 0x02, 0x04, 0x06, 0x08, 0x09, 0x0A, 0x0D, 0x0F, 0x10, 0x11, 0x19, 0x1A, 0x1B, 0x1C,
    0x1D, 0x23, 0x29,
];

/// Refuses the first cell of the checked tables that isn't sound.
pub fn check_cells(stream: &[u8], layout: &Layout, heaps: &Heaps<'_>) -> Result<(), BadImage>
    requires { IsLaidOut stream.now layout.now }
    ensures reads { Reads refusal (λ _. 0) result
        (cells_check (view_layout layout.now) (metadata_of heaps.now stream.now layout.now)) }
    ensures memory { ¬ WantsMemory refusal result }
{
    for table in CHECKED_TABLES.iter() {
        check_table(stream, layout, heaps, *table)?;
    }
    Ok(())
}

/// Refuses the first cell of a table that isn't sound.
fn check_table(stream: &[u8], layout: &Layout, heaps: &Heaps<'_>, table: u8) -> Result<(), BadImage>
    requires layout { IsLaidOut stream.now layout.now }
    requires table { table < table_numbers }
    ensures reads { Reads refusal (λ _. 0) result
        (table_check (view_layout layout.now) (metadata_of heaps.now stream.now layout.now) table) }
    ensures memory { ¬ WantsMemory refusal result }
{
    let rows = layout.rows.as_slice();
    let columns = columns(table);
    let shape = shape_in(layout, table);
    let mut place = start_in(layout, table);
    let mut before = [0; 9];
    for _ in 0..rows_at(rows, table) {
        let row = row_from(stream, place, &shape.widths);
        check_row(heaps, rows, columns, &shape.widths, place, &before, &row)?;
        before = row;
        place += shape.row_width;
    }
    Ok(())
}

/// Refuses the first cell of a row that isn't sound; `before` is the row before, zeros at the
/// first.
fn check_row(
    heaps: &Heaps<'_>,
    rows: &[u32],
    columns: &[Column],
    widths: &[Width; 9],
    start: usize,
    before: &[u32; 9],
    row: &[u32; 9],
) -> Result<(), BadImage>
    requires columns { length columns.now ≤ 9 }
    requires start { start < 2 ^ 63 }
    ensures reads { Reads refusal (λ _. 0) result
        (each (tests_row (sizes_of heaps.now rows.now) (map view_column columns.now)
        (map bytes_of widths.now) start before.now row.now) (length columns.now)) }
    ensures memory { ¬ WantsMemory refusal result }
{
    let mut place = start;
    for column in 0..columns.len() {
        if !is_sound(heaps, rows, columns[column], before[column], row[column]) {
            return Err(bad(Part::Cell, place));
        }
        place += widths[column].bytes();
    }
    Ok(())
}

/// Whether a cell holds what its column may hold, with the same cell of the row before.
#[tactic(auto, unfolding(crate::specs::Cells::sound_by))]
pub fn is_sound(heaps: &Heaps<'_>, rows: &[u32], column: Column, before: u32, value: u32) -> bool
    ensures { result ≡ sound_by (sizes_of heaps.now rows.now) (view_column column) before value }
{
    match column {
        Column::Number(_) => true,
        Column::String => value == 0 || (value as usize) < heaps.strings.len(),
        Column::Guid => 16 * value as usize <= heaps.guids.len(),
        Column::Blob => value == 0 || (value as usize) < heaps.blobs.len(),
        Column::Row(table) => value <= rows_at(rows, table),
        Column::Run(table) => 1 <= value
            && value as u64 <= rows_at(rows, table) as u64 + 1
            && before <= value,
        Column::Coded(index) => value == 0 || names_row(rows, index.tags(), value),
    }
}

/// Whether a coded index names a row of its tag's table.
fn names_row(rows: &[u32], tags: Tags, value: u32) -> bool
    requires { tags.bits ≤ 5 }
    ensures { result ≡ is_row_by rows.now
        (slice_get tags.tables.now (value % 2 ^ tags.bits)) (value / 2 ^ tags.bits) }
{
    let tag_values = power_of_two(tags.bits);
    let tag = value % tag_values;
    match tags.tables.get(tag as usize) {
        Some(table) => is_row(rows, *table, value / tag_values),
        None => false,
    }
}

fn power_of_two(bits: u32) -> u32
    requires { bits ≤ 5 }
    ensures power { result ≡ 2 ^ bits }
    ensures positive { 1 ≤ result }
{
    1 << bits
}

/// Whether a number is that of a row of a tag's table, from 1.
fn is_row(rows: &[u32], table: Option<u8>, row: u32) -> bool
    ensures { result ≡ is_row_by rows.now (Some table) row }
{
    match table {
        Some(table) => 1 <= row && row <= rows_at(rows, table),
        None => false,
    }
}
