//! Copies of a file's bytes, headers and rows.

ghost use Rattle.std.specs.Prelude.{◌≡◌, map, IfOk};
ghost use Rattle.std.specs.List.{range_with_len};
ghost use Rattle.byte_view.specs.Columns.{table_numbers};
ghost use Rattle.byte_view.specs.Metadata.{table_of};
ghost use Rattle.pe_reader.specs.Pe.{headers_of};
ghost use Rattle.type_model.specs.Module.{kept_rows, is_kept as is_kept_table};

use crate::table::Table;
use bound_base::{Bytes, Items, NoMemory};
use meta_tables::Meta;
use pe_reader::Pe;
use std::alloc::Global;

/// How many numbers of tables there are (ECMA-335 II.22).
const TABLE_COUNT: u8 = 45;

/// The tables that types are read from: TypeRef, TypeDef, Field, MethodDef, Param, InterfaceImpl, MemberRef, FieldMarshal,
/// ClassLayout, FieldLayout, StandAloneSig, MethodImpl, ModuleRef, TypeSpec, ImplMap, FieldRVA and NestedClass.
static KEPT_TABLES: [u8; 17] = [
    0x01, 0x02, 0x04, 0x06, 0x08, 0x09, 0x0A, 0x0D, 0x0F, 0x10, 0x11, 0x19, 0x1A, 0x1B, 0x1C, 0x1D,
    0x29,
];

/// Copies bytes.
pub fn copy(alloc: Global, bytes: &[u8]) -> Result<Bytes, NoMemory>
    ensures { IfOk result (λ copy. copy ≡ bytes.now) }
{
    let mut copy = Bytes::new(alloc);
    copy.extend_from_slice(bytes)?;
    Ok(copy)
}

/// Copies what the headers tell.
pub fn copy_headers(alloc: Global, pe: &Pe) -> Result<Pe, NoMemory>
    ensures { IfOk result (λ copy. headers_of copy ≡ headers_of pe.now) }
{
    let mut sections = Items::new(alloc);
    sections.extend_from_slice(pe.sections.as_slice())?;
    Ok(Pe {
        meta_at: pe.meta_at,
        meta_size: pe.meta_size,
        entry: pe.entry,
        cli_at: pe.cli_at,
        sections,
    })
}

/// Copies the rows of the tables that types are read from; the others have none.
#[tactic(auto, using(crate::proofs::RowCopies::range_more))]
pub fn copy_tables(alloc: Global, meta: &Meta<'_>) -> Result<Items<Table>, NoMemory>
    ensures { IfOk result (λ tables.
        tables ≡ map (kept_rows meta.now) (range_with_len 0 table_numbers)) }
{
    let mut tables = Items::with_capacity(alloc, TABLE_COUNT as usize)?;
    for table in 0..TABLE_COUNT {
        tables.push(copy_kept(alloc, meta, table)?)?;
    }
    Ok(tables)
}

/// Copies the rows of a table, if types are read from it.
fn copy_kept(alloc: Global, meta: &Meta<'_>, table: u8) -> Result<Table, NoMemory>
    ensures { IfOk result (λ rows. rows ≡ kept_rows meta.now table) }
{
    if is_kept(table) {
        copy_rows(alloc, meta, table)
    } else {
        Ok(Table::of(Items::new(alloc)))
    }
}

/// Whether types are read from a table.
fn is_kept(table: u8) -> bool
    ensures { result ≡ is_kept_table table }
{
    KEPT_TABLES.iter().any(|kept| *kept == table)
}

/// Copies the rows of a table.
#[tactic(auto, using(crate::proofs::RowCopies::row_next, crate::proofs::RowCopies::row_there, crate::proofs::RowCopies::take_whole))]
fn copy_rows(alloc: Global, meta: &Meta<'_>, table: u8) -> Result<Table, NoMemory>
    ensures { IfOk result (λ rows. rows ≡ table_of meta.now table) }
{
    let mut rows = Items::with_capacity(alloc, meta.rows(table) as usize)?;
    for n in 0..meta.rows(table) {
        match meta.row(table, n + 1) {
            Some(row) => rows.push(row)?,
            None => {}
        }
    }
    Ok(Table::of(rows))
}
