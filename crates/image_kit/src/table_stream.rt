//! The stream of the tables (ECMA-335 II.24.2.6).

ghost use Rattle.std.specs.Prelude.{◌≡◌, ◌+◌, ◌<◌, ◌≤◌, ◌++◌, map, length, slice_index, slice_set, unwrap_or, OnOk};
ghost use Rattle.byteorder.specs.Endian.{little_bytes};
ghost use Rattle.byte_view.specs.Columns.{table_numbers};
ghost use Rattle.meta_tables.specs.View.{bytes_of};
ghost use Rattle.image_kit.specs.AssemblyFile.{pieces, rows_among, row_counts, heap_sizes, bodies_rva, body_rva, bodies_size, written_row, row_bytes, table_bytes, count_bytes, tables_header, tables_stream};

use crate::assembly_plan::{AssemblyPlan, MethodBody};
use crate::plan_tables::{IndexSizes, body_address, row_of, rows_of};
use crate::put::{put32, put64};
use bound_base::Bytes;
use meta_tables::columns::Width;
use meta_tables::{is_table, shape_rows};
use std::alloc::AllocError;

/// The bits of all metadata tables.
const VALID: u64 = 0x1FFF_3FB7_FF57;

const METHOD_DEF: u8 = 0x06;

/// The header of the stream, the row counts, and the tables.
#[tactic(auto, unfolding(crate::specs::AssemblyFile::tables_stream))]
pub(crate) fn put_tables_stream(
    out: &mut Bytes,
    p: &AssemblyPlan,
    sizes: &IndexSizes,
) -> Result<(), AllocError>
    requires heap_sizes { sizes.now.heap_sizes ≡ heap_sizes p.now }
    requires rows { sizes.now.rows ≡ row_counts p.now }
    requires bodies { bodies_size p.now.bodies ≤ 67108864 }
    requires methods { length (rows_among p.now.tables 6) ≤ 67108864 }
    ensures { OnOk result (out.new ≡ out.old ++ tables_stream p.now) }
{
    put_tables_header(out, sizes.heap_sizes)?;
    put_row_counts(out, &sizes.rows)?;
    put_tables(out, p, sizes)
}

#[tactic(auto, unfolding(crate::specs::AssemblyFile::tables_header))]
fn put_tables_header(out: &mut Bytes, heap_sizes: u8) -> Result<(), AllocError>
    ensures { OnOk result (out.new ≡ out.old ++ tables_header heap_sizes) }
{
    put32(out, 0)?;
    out.extend_from_slice(&[2, 0, heap_sizes, 1])?;
    put64(out, VALID)?;
    put64(out, 0)
}

fn put_row_counts(out: &mut Bytes, rows: &[u32; 45]) -> Result<(), AllocError>
    ensures { OnOk result (out.new ≡ out.old ++ pieces (count_bytes rows.now) table_numbers) }
{
    for table in 0..45u8 {
        put_row_count(out, rows, table)?;
    }
    Ok(())
}

fn put_row_count(out: &mut Bytes, rows: &[u32; 45], table: u8) -> Result<(), AllocError>
    requires { table < table_numbers }
    ensures { OnOk result (out.new ≡ out.old ++ count_bytes rows.now table) }
{
    if is_table(table) {
        put32(out, rows[table as usize])
    } else {
        Ok(())
    }
}

fn put_tables(out: &mut Bytes, p: &AssemblyPlan, sizes: &IndexSizes) -> Result<(), AllocError>
    requires heap_sizes { sizes.now.heap_sizes ≡ heap_sizes p.now }
    requires rows { sizes.now.rows ≡ row_counts p.now }
    requires bodies { bodies_size p.now.bodies ≤ 67108864 }
    requires methods { length (rows_among p.now.tables 6) ≤ 67108864 }
    ensures { OnOk result (out.new ≡ out.old ++ pieces (table_bytes p.now) table_numbers) }
{
    for table in 0..45u8 {
        put_table(out, p, sizes, table)?;
    }
    Ok(())
}

/// The rows of a table.
#[tactic(auto, unfolding(crate::specs::AssemblyFile::table_bytes))]
fn put_table(
    out: &mut Bytes,
    p: &AssemblyPlan,
    sizes: &IndexSizes,
    table: u8,
) -> Result<(), AllocError>
    requires heap_sizes { sizes.now.heap_sizes ≡ heap_sizes p.now }
    requires rows { sizes.now.rows ≡ row_counts p.now }
    requires bodies { bodies_size p.now.bodies ≤ 67108864 }
    requires methods { length (rows_among p.now.tables 6) ≤ 67108864 }
    ensures { OnOk result (out.new ≡ out.old ++ table_bytes p.now table) }
{
    let shape = shape_rows(sizes.heap_sizes, &sizes.rows, table);
    for at in 0..rows_of(p.tables.as_slice(), table).len() {
        let row = row_to_write(p, table, at);
        put_row(out, &shape.widths, &row)?;
    }
    Ok(())
}

/// A row of a table, counted from 0: the plan's, with the address of its body in a method that has one.
#[tactic(auto, unfolding(crate::specs::AssemblyFile::written_row))]
fn row_to_write(p: &AssemblyPlan, table: u8, at: usize) -> [u32; 9]
    requires row { at < length (rows_among p.now.tables table) }
    requires bodies { bodies_size p.now.bodies ≤ 67108864 }
    requires methods { length (rows_among p.now.tables 6) ≤ 67108864 }
    ensures { result ≡ written_row p.now table at }
{
    let row = row_of(rows_of(p.tables.as_slice(), table), at);
    if table == METHOD_DEF {
        with_address(p.bodies.as_slice(), at as u32 + 1, row)
    } else {
        row
    }
}

/// A row of MethodDef, with the address of the method's body where it has one.
fn with_address(bodies: &[MethodBody], method: u32, row: [u32; 9]) -> [u32; 9]
    requires { bodies_size bodies.now ≤ 67108864 }
    ensures { result ≡ slice_set row 0
        (unwrap_or (body_rva bodies_rva bodies.now method) (slice_index row 0)) }
{
    let mut row = row;
    row[0] = body_address(bodies, method).unwrap_or(row[0]);
    row
}

/// The numbers of a row, in cells of these widths.
#[tactic(auto, unfolding(crate::specs::AssemblyFile::row_bytes))]
fn put_row(out: &mut Bytes, widths: &[Width; 9], row: &[u32; 9]) -> Result<(), AllocError>
    ensures { OnOk result (out.new ≡ out.old ++ row_bytes (map bytes_of widths.now) row.now) }
{
    for column in 0..9 {
        put_cell(out, widths[column], row[column])?;
    }
    Ok(())
}

/// The lowest bytes of a number, as many as the cell has.
fn put_cell(out: &mut Bytes, width: Width, number: u32) -> Result<(), AllocError>
    ensures { OnOk result (out.new ≡ out.old ++ little_bytes (bytes_of width) number) }
{
    let bytes = number.to_le_bytes();
    match width {
        Width::None => Ok(()),
        Width::One => out.extend_from_slice(&bytes[..1]),
        Width::Two => out.extend_from_slice(&bytes[..2]),
        Width::Four => out.extend_from_slice(&bytes),
    }
}
