//! Whether a plan of an assembly fits.

ghost use Rattle.std.specs.Prelude.{◌≡◌, ◌+◌, ◌*◌, ◌^◌, ◌<◌, ◌≤◌, ◌↔◌, nat_lt, map, length, slice_index, IsTrue};
ghost use Rattle.std.specs.List.{list_all};
ghost use Rattle.byte_view.specs.Columns.{table_numbers};
ghost use Rattle.byte_view.specs.Cells.{checked_tables};
ghost use Rattle.meta_tables.specs.View.{bytes_of, view_column};
ghost use Rattle.meta_tables.specs.Cells.{sizes_of};
ghost use Rattle.image_kit.specs.AssemblyFile.{heap_sizes, row_counts, rows_among, assembly_end};
ghost use Rattle.image_kit.specs.AssemblyReads.{Fits, all_below, is_given_once, has_few_rows, fits_columns, fits_table, row_before as row_before_in, is_sound_row, are_sound_rows, is_sound_table, is_only_body, are_only_bodies};

use crate::assembly_plan::{AssemblyPlan, MethodBody, TablePlan};
use crate::plan_tables::{
    IndexSizes, bodies_size, rounded4, row_of, rows_of, tables_size, times_given, times_with_body,
};
use meta_tables::columns::{Column, Width, columns};
use meta_tables::{CHECKED_TABLES, Heaps, is_sound, is_table, shape_rows};

/// The most bytes that a file may have: 64 MiB.
const FILE_LIMIT: u64 = 67_108_864;

const METHOD_DEF: u8 = 0x06;

/// The one GUID.
const GUIDS: [u8; 16] = [0; 16];

impl AssemblyPlan {
    /// Each table is a metadata table that is given once, each number fits its column, the cells of the checked tables are
    /// sound, each body is that of a method that has no other, and the file isn't too large.
    pub fn fits(&self) -> bool
        ensures { IsTrue result ↔ Fits self.now }
    {
        if !have_few_rows(self) {
            return false;
        }
        let sizes = IndexSizes::of(self);
        if !are_given_once(self) {
            return false;
        }
        if !tables_fit(self, &sizes) {
            return false;
        }
        if !cells_are_sound(self, &sizes) {
            return false;
        }
        if !bodies_are_alone(self) {
            return false;
        }
        let _token = self.entry;
        is_small(self, &sizes)
    }
}

fn have_few_rows(p: &AssemblyPlan) -> bool
    ensures { result ≡ all_below (has_few_rows p.now.tables) table_numbers }
{
    for table in 0..45u8 {
        if rows_of(p.tables.as_slice(), table).len() as u64 > FILE_LIMIT {
            return false;
        }
    }
    true
}

fn are_given_once(p: &AssemblyPlan) -> bool
    ensures { result ≡ list_all (λ table. is_given_once p.now.tables table.number) p.now.tables }
{
    let tables = p.tables.as_slice();
    tables
        .iter()
        .all(|table| is_given_once_in(tables, table.number))
}

fn is_given_once_in(tables: &[TablePlan], number: u8) -> bool
    ensures { result ≡ is_given_once tables.now number }
{
    is_table(number) && times_given(tables, number) == 1
}

/// Whether each number of each row fits its column.
fn tables_fit(p: &AssemblyPlan, sizes: &IndexSizes) -> bool
    requires heap_sizes { sizes.now.heap_sizes ≡ heap_sizes p.now }
    requires rows { sizes.now.rows ≡ row_counts p.now }
    ensures { result ≡ all_below (fits_table p.now) table_numbers }
{
    for table in 0..45u8 {
        let shape = shape_rows(sizes.heap_sizes, &sizes.rows, table);
        if !rows_fit(&shape.widths, rows_of(p.tables.as_slice(), table)) {
            return false;
        }
    }
    true
}

fn rows_fit(widths: &[Width; 9], rows: &[[u32; 9]]) -> bool
    ensures { result ≡ list_all (fits_columns (map bytes_of widths.now)) rows.now }
{
    rows.iter().all(|row| row_fits(widths, row))
}

fn row_fits(widths: &[Width; 9], row: &[u32; 9]) -> bool
    ensures { result ≡ fits_columns (map bytes_of widths.now) row.now }
{
    for column in 0..9 {
        if !number_fits(widths[column], row[column]) {
            return false;
        }
    }
    true
}

fn number_fits(width: Width, number: u32) -> bool
    ensures { result ≡ nat_lt number (256 ^ bytes_of width) }
{
    match width {
        Width::None => number < 1,
        Width::One => number < 256,
        Width::Two => number < 65536,
        Width::Four => true,
    }
}

/// Whether each cell of the checked tables holds what its column may hold.
fn cells_are_sound(p: &AssemblyPlan, sizes: &IndexSizes) -> bool
    requires rows { sizes.now.rows ≡ row_counts p.now }
    ensures { result ≡ list_all (is_sound_table p.now) checked_tables }
{
    CHECKED_TABLES
        .iter()
        .all(|table| table_is_sound(p, sizes, *table))
}

fn table_is_sound(p: &AssemblyPlan, sizes: &IndexSizes, table: u8) -> bool
    requires rows { sizes.now.rows ≡ row_counts p.now }
    ensures { result ≡ is_sound_table p.now table }
{
    let heaps = Heaps {
        strings: p.strings.as_slice(),
        user_strings: p.user.as_slice(),
        guids: &GUIDS,
        blobs: p.blobs.as_slice(),
    };
    rows_are_sound(
        &heaps,
        &sizes.rows,
        columns(table),
        rows_of(p.tables.as_slice(), table),
    )
}

fn rows_are_sound(heaps: &Heaps<'_>, counts: &[u32], columns: &[Column], rows: &[[u32; 9]]) -> bool
    requires { length columns.now ≤ 9 }
    ensures { result ≡ are_sound_rows (sizes_of heaps.now counts.now)
        (map view_column columns.now) rows.now }
{
    for at in 0..rows.len() {
        let before = row_before(rows, at);
        let row = row_of(rows, at);
        if !row_is_sound(heaps, counts, columns, &before, &row) {
            return false;
        }
    }
    true
}

/// The row before, zeros at the first.
fn row_before(rows: &[[u32; 9]], at: usize) -> [u32; 9]
    requires { at < length rows.now }
    ensures { result ≡ row_before_in rows.now at }
{
    if at == 0 {
        [0; 9]
    } else {
        row_of(rows, at - 1)
    }
}

fn row_is_sound(
    heaps: &Heaps<'_>,
    counts: &[u32],
    columns: &[Column],
    before: &[u32; 9],
    row: &[u32; 9],
) -> bool
    requires { length columns.now ≤ 9 }
    ensures { result ≡ is_sound_row (sizes_of heaps.now counts.now)
        (map view_column columns.now) before.now row.now }
{
    for column in 0..columns.len() {
        if !is_sound(heaps, counts, columns[column], before[column], row[column]) {
            return false;
        }
    }
    true
}

fn bodies_are_alone(p: &AssemblyPlan) -> bool
    ensures { result ≡ are_only_bodies p.now }
{
    let methods = rows_of(p.tables.as_slice(), METHOD_DEF).len();
    let bodies = p.bodies.as_slice();
    bodies
        .iter()
        .all(|body| is_body_of_one(bodies, methods, body.method))
}

fn is_body_of_one(bodies: &[MethodBody], methods: usize, method: u32) -> bool
    ensures { result ≡ is_only_body bodies.now methods method }
{
    1 <= method && method as usize <= methods && times_with_body(bodies, method) == 1
}

/// Whether the file has at most 64 MiB.
fn is_small(p: &AssemblyPlan, sizes: &IndexSizes) -> bool
    requires heap_sizes { sizes.now.heap_sizes ≡ heap_sizes p.now }
    requires rows { sizes.now.rows ≡ row_counts p.now }
    ensures { IsTrue result ↔ (assembly_end p.now ≤ 67108864) }
{
    let bodies = bodies_size(p.bodies.as_slice());
    let tables = tables_size(sizes);
    let strings = p.strings.len() as u64;
    let user = p.user.len() as u64;
    let blobs = p.blobs.len() as u64;
    if bodies > FILE_LIMIT
        || tables > FILE_LIMIT
        || strings > FILE_LIMIT
        || user > FILE_LIMIT
        || blobs > FILE_LIMIT
    {
        return false;
    }
    let heaps = rounded4(strings as u32) + rounded4(user as u32) + 16 + rounded4(blobs as u32);
    let section = 72 + bodies as u32 + 108 + rounded4(tables as u32) + heaps;
    u64::from(512 + section + (512 - section % 512) % 512) <= FILE_LIMIT
}
