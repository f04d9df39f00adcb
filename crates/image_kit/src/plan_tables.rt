//! The tables and bodies of a plan, by their numbers.

ghost use Rattle.std.specs.Prelude.{◌≡◌, ◌+◌, ◌-◌, ◌*◌, ◌%◌, ◌^◌, ◌<◌, ◌≤◌, ◌==◌, min, length, [], slice_index, slice_index_or, slice_set, unwrap_or, nat_lt, count_by, IsTrue, if◌then◌else◌};
ghost use Rattle.byte_view.specs.Columns.{table_numbers};
ghost use Rattle.byte_view.specs.Layout.{table_start};
ghost use Rattle.image_kit.specs.AssemblyFile.{rounded, rows_among, counts_among, row_counts, heap_sizes, valid, bodies_rva, body_rva, bodies_size as size_of_bodies};
ghost use Rattle.image_kit.specs.AssemblyReads.{all_below, has_few_rows};

use crate::assembly_plan::{AssemblyPlan, MethodBody, TablePlan};
use meta_tables::shape_rows;

/// The rows of the table of a number; none where the plan doesn't give it.
#[tactic(auto, unfolding(crate::specs::AssemblyFile::rows_among))]
pub(crate) fn rows_of(tables: &[TablePlan], number: u8) -> &[[u32; 9]]
    ensures { result.now ≡ rows_among tables.now number }
{
    for table in tables {
        if table.number == number {
            return table.rows.as_slice();
        }
    }
    &[]
}

/// A row, counted from 0.
pub(crate) fn row_of(rows: &[[u32; 9]], at: usize) -> [u32; 9]
    requires { at < length rows.now }
    ensures { result ≡ slice_index_or rows.now at [] }
{
    rows[at]
}

/// How many tables of a number there are.
pub(crate) fn times_given(tables: &[TablePlan], number: u8) -> usize
    ensures { result ≡ count_by (λ other. other.number == number) tables.now }
{
    tables.iter().filter(|other| other.number == number).count()
}

/// How many bodies of a method there are.
pub(crate) fn times_with_body(bodies: &[MethodBody], method: u32) -> usize
    ensures { result ≡ count_by (λ other. other.method == method) bodies.now }
{
    bodies.iter().filter(|other| other.method == method).count()
}

/// A size, up to a multiple of four.
pub(crate) fn rounded4(size: u32) -> u32
    requires { size ≤ 67108864 }
    ensures { result ≡ rounded 4 size }
{
    size + (4 - size % 4) % 4
}

/// The address of the body of a method, by the row of MethodDef, from 1.
#[tactic(auto, unfolding(crate::specs::AssemblyFile::body_rva))]
pub(crate) fn body_address(bodies: &[MethodBody], method: u32) -> Option<u32>
    requires { size_of_bodies bodies.now ≤ 67108864 }
    ensures { result ≡ body_rva bodies_rva bodies.now method }
{
    let mut at: u32 = 0x2048;
    for body in bodies {
        if body.method == method {
            return Some(at);
        }
        at += rounded4(body.bytes.len() as u32);
    }
    None
}

/// The size of the bodies, each up to a multiple of four; 2^64 - 1 where it is larger.
pub(crate) fn bodies_size(bodies: &[MethodBody]) -> u64
    ensures { result ≡ min (size_of_bodies bodies.now) (2 ^ 64 - 1) }
{
    let mut size: u64 = 0;
    for body in bodies {
        let len = body.bytes.len() as u64;
        size = size.saturating_add(len).saturating_add((4 - len % 4) % 4);
    }
    size
}

/// HeapSizes, and the row count of each table, by which columns have their widths (ECMA-335 II.24.2.6).
#[derive(Clone, Copy)]
pub(crate) struct IndexSizes {
    pub heap_sizes: u8,
    pub rows: [u32; 45],
}

impl IndexSizes {
    pub(crate) fn of(p: &AssemblyPlan) -> IndexSizes
        requires { IsTrue (all_below (has_few_rows p.now.tables) table_numbers) }
        ensures heap_sizes { result.heap_sizes ≡ heap_sizes p.now }
        ensures rows { result.rows ≡ row_counts p.now }
    {
        IndexSizes {
            heap_sizes: heap_bit(p.strings.len(), 1) + heap_bit(p.blobs.len(), 4),
            rows: counts_of(p.tables.as_slice()),
        }
    }
}

/// A heap's bit of HeapSizes, set where the heap has 2^16 bytes or more.
fn heap_bit(len: usize, bit: u8) -> u8
    ensures value { result ≡ (if nat_lt len 65536 then 0 else bit) }
    ensures small { result ≤ bit }
{
    if len < 65536 { 0 } else { bit }
}

fn counts_of(tables: &[TablePlan]) -> [u32; 45]
    requires { IsTrue (all_below (has_few_rows tables.now) table_numbers) }
    ensures { result ≡ counts_among tables.now }
{
    let mut counts = [0; 45];
    for table in 0..45 {
        counts[table] = rows_of(tables, table as u8).len() as u32;
    }
    counts
}

/// The size of the stream of the tables.
#[tactic(auto, unfolding(byte_view::specs::Layout::table_start))]
pub(crate) fn tables_size(sizes: &IndexSizes) -> u64
    ensures size { result ≡ table_start 0 valid sizes.now.heap_sizes sizes.now.rows table_numbers }
    ensures bound { result < 2 ^ 48 }
{
    let mut size: u64 = 176;
    for table in 0..45u8 {
        let shape = shape_rows(sizes.heap_sizes, &sizes.rows, table);
        size += rows_size(sizes.rows[table as usize], shape.row_width);
    }
    size
}

/// The bytes of the rows of a table.
fn rows_size(count: u32, row_width: usize) -> u64
    requires { row_width ≤ 36 }
    ensures size { result ≡ count * row_width }
    ensures bound { result ≤ 36 * 2 ^ 32 }
{
    u64::from(count) * row_width as u64
}
