//! An assembly as its types are read from it: a copy of the file, of its heaps and of its rows.

ghost use Rattle.std.specs.Prelude.{◌≡◌, ◌<◌, ◌≤◌, ◌+◌, ◌-◌, ◌^◌, ◌==◌, ℕ, find, slice_index, length, IfOk};
ghost use Rattle.pe_reader.specs.Pe.{headers_of};
ghost use Rattle.std.specs.Option.{option_copied};
ghost use Rattle.byte_view.specs.Headers.{bytes_at as bytes_of_range, bytes_from};
ghost use Rattle.type_model.specs.Module.{module_of, rows as rows_in, row as row_of, cell as cell_of, first_with as first_row_with, row_count as rows_of, text as text_of, blob as blob_of};
ghost use Rattle.type_model.specs.Rows.{run_end as end_of_run, field_marshals, class_layouts, field_layouts, impl_maps, field_rvas, encloser as encloser_of, owner_of_field as field_owner, owner_of_method as method_owner};
ghost use Rattle.type_model.specs.FirstRows.{TellsFirst};
ghost use Rattle.type_model.specs.HeldRows.{HoldsFirstRows, HoldsOwners};
ghost use Rattle.type_model.specs.TypeIds.{is_row as is_row_of};

use crate::copies::{copy, copy_headers, copy_tables};
use crate::first_rows::{FirstRows, counts_not_above, first_rows, number_at};
use crate::table::{Row, Table, rows_of};
use crate::table_numbers::{
    CLASS_LAYOUTS, FIELD_LAYOUTS, FIELD_MARSHALS, FIELD_RVAS, IMPL_MAPS, NESTED_CLASSES, ROW_LIMIT,
    TYPE_DEFS,
};
use bound_base::{Bytes, Items, NoMemory};
use meta_tables::{Meta, entry_at, text_at};
use pe_reader::{Pe, at_rva, rest_at};
use sqlite_items::Boxed;
use std::alloc::Global;
use std::marker::Model;

/// An assembly of which the headers and the metadata were read.
#[derive(Drop)]
pub struct Module {
    file: Bytes,
    pe: Pe,
    heaps: Heaps,
    tables: Items<Table>,
    index: Boxed<Index>,
}

/// Copies of the heaps (ECMA-335 II.24.2.3, II.24.2.4).
#[derive(Drop)]
struct Heaps {
    strings: Bytes,
    user_strings: Bytes,
    blobs: Bytes,
}

/// Where rows of tables are found by what they say. It stands behind a pointer, as other large parts of an assembly do: a
/// proof goes through all fields of what a function holds by value, at each of its steps.
#[derive(Drop)]
struct Index {
    firsts: FirstRows,
    /// How many runs of fields, and of methods, begin at a row or before.
    field_owners: Items<u32>,
    method_owners: Items<u32>,
}

impl Model for Module {
    ghost use Rattle.type_model.specs.Module.{Module as ModuleValue};
    ghost use Rattle.type_model.specs.HeldRows.{HoldsFirstRows, HoldsOwners};
    ghost use Rattle.pe_reader.specs.Pe.{headers_of};

    ghost Value = { ModuleValue };

    ghost view = { λ m. record {
      bytes = m.file;
      headers = headers_of m.pe;
      strings = m.heaps.strings;
      user_strings = m.heaps.user_strings;
      blobs = m.heaps.blobs;
      tables = m.tables;
    } };

    ghost invariant = { λ m.
        HoldsFirstRows m.tables m.index.firsts × HoldsOwners m.tables m.index.field_owners m.index.method_owners };
}

impl Module {
    /// Copies the file, its heaps and its rows.
    pub fn of(alloc: Global, bytes: &[u8], pe: &Pe, meta: &Meta<'_>) -> Result<Module, NoMemory>
        ensures { IfOk result (λ m. m ≡ module_of bytes.now (headers_of pe.now) meta.now) }
    {
        let tables = copy_tables(alloc, meta)?;
        let index = Boxed::new(alloc, index_of(alloc, &tables)?)?;
        let heaps = copy_heaps(alloc, meta)?;
        Ok(Module {
            file: copy(alloc, bytes)?,
            pe: copy_headers(alloc, pe)?,
            heaps,
            tables,
            index,
        })
    }

    /// The token of the entry point.
    pub fn entry_token(&self) -> u32
        ensures { result ≡ self.now.headers.entry }
    {
        self.pe.entry
    }

    /// The file offset of the CLI header.
    pub fn cli_header(&self) -> u64
        ensures { result ≡ self.now.headers.cli_at }
    {
        self.pe.cli_at
    }

    /// The rows of a table.
    pub fn rows(&self, table: u8) -> &[Row]
        ensures rows { result.now ≡ rows_in self.now table }
        ensures few { length result.now < 2 ^ 32 }
    {
        rows_of(&self.tables, table)
    }

    /// How many rows a table has.
    pub fn row_count(&self, table: u8) -> u32
        ensures { result ≡ rows_of self.now table }
    {
        self.rows(table).len() as u32
    }

    /// A row by its number, from 1.
    pub fn row(&self, table: u8, n: u64) -> Option<&Row>
        ensures { option_copied result ≡ row_of self.now table n }
    {
        if n == 0 {
            return None;
        }
        self.rows(table).get(n as usize - 1)
    }

    /// The number in a cell, by its row's number from 1; 0 where there is no such row.
    #[tactic(auto, unfolding(crate::specs::Module::cell))]
    pub fn cell(&self, table: u8, n: u64, column: usize) -> u32
        requires { column < 9 }
        ensures { result ≡ cell_of self.now table n column }
    {
        match self.row(table, n) {
            Some(row) => row[column],
            None => 0,
        }
    }

    /// The first row of FieldMarshal that describes a field or a parameter, by its coded index.
    pub fn marshal_row(&self, parent: u64) -> Option<&Row>
        ensures { option_copied result ≡ first_row_with self.now field_marshals 0 parent }
    {
        self.row_by(
            &self.index.get().firsts.field_marshals,
            FIELD_MARSHALS,
            parent,
        )
    }

    /// The first row of ClassLayout of a type.
    pub fn class_layout_row(&self, t: u32) -> Option<&Row>
        ensures { option_copied result ≡ first_row_with self.now class_layouts 2 t }
    {
        self.row_by(
            &self.index.get().firsts.class_layouts,
            CLASS_LAYOUTS,
            u64::from(t),
        )
    }

    /// The first row of FieldLayout of a field.
    pub fn field_layout_row(&self, f: u32) -> Option<&Row>
        ensures { option_copied result ≡ first_row_with self.now field_layouts 1 f }
    {
        self.row_by(
            &self.index.get().firsts.field_layouts,
            FIELD_LAYOUTS,
            u64::from(f),
        )
    }

    /// The first row of ImplMap that forwards a method, by its coded index.
    pub fn forwarding_row(&self, member: u64) -> Option<&Row>
        ensures { option_copied result ≡ first_row_with self.now impl_maps 1 member }
    {
        self.row_by(&self.index.get().firsts.impl_maps, IMPL_MAPS, member)
    }

    /// The first row of FieldRVA of a field.
    pub fn field_rva_row(&self, f: u32) -> Option<&Row>
        ensures { option_copied result ≡ first_row_with self.now field_rvas 1 f }
    {
        self.row_by(
            &self.index.get().firsts.field_rvas,
            FIELD_RVAS,
            u64::from(f),
        )
    }

    /// The type that encloses a nested one, by the first row of NestedClass that names it; 0 for a type that isn't nested.
    pub fn encloser(&self, t: u32) -> u32
        ensures { result ≡ encloser_of self.now t }
    {
        match self.row_by(
            &self.index.get().firsts.nested_classes,
            NESTED_CLASSES,
            u64::from(t),
        ) {
            Some(row) => row[1],
            None => 0,
        }
    }

    /// The first row of a table that has a value in a column, by what is kept of that column.
    #[tactic(auto, using(crate::proofs::RowsByNumber::first_found))]
    fn row_by(&self, firsts: &Items<u32>, table: u8, value: u64) -> Option<&Row>
        ensures { (column : ℕ) → TellsFirst (rows_in self.now table) column firsts.now
            → option_copied result ≡ first_row_with self.now table column value }
    {
        let number = number_at(firsts, value, 0);
        self.row(table, u64::from(number))
    }

    /// Whether a token may name a row of a table: one that is there, and has 24 bits.
    pub fn is_row(&self, table: u8, n: u32) -> bool
        ensures { result ≡ is_row_of self.now table n }
    {
        1 <= n && n <= self.row_count(table) && n < ROW_LIMIT
    }

    /// Where a run of rows ends that a row of TypeDef or MethodDef begins: at the next row's, or after the last row.
    #[tactic(auto, unfolding(crate::specs::Rows::run_end))]
    pub fn run_end(&self, table: u8, n: u32, column: usize, of: u8) -> u64
        requires { column < 9 }
        ensures end { result ≡ end_of_run self.now table n column of }
        ensures small { result ≤ 2 ^ 32 }
    {
        if n < self.row_count(table) {
            u64::from(self.cell(table, u64::from(n) + 1, column))
        } else {
            u64::from(self.row_count(of)) + 1
        }
    }

    /// The row of TypeDef whose run of fields has a row; 0 for a row before the first run.
    #[tactic(auto, unfolding(crate::specs::Rows::owner))]
    pub fn owner_of_field(&self, f: u32) -> u32
        ensures { result ≡ field_owner self.now f }
    {
        number_at(
            &self.index.get().field_owners,
            u64::from(f),
            self.row_count(TYPE_DEFS),
        )
    }

    /// The row of TypeDef whose run of methods has a row; 0 for a row before the first run.
    #[tactic(auto, unfolding(crate::specs::Rows::owner))]
    pub fn owner_of_method(&self, n: u32) -> u32
        ensures { result ≡ method_owner self.now n }
    {
        number_at(
            &self.index.get().method_owners,
            u64::from(n),
            self.row_count(TYPE_DEFS),
        )
    }

    /// The text at an offset of `#Strings`, empty where no whole entry is there.
    #[tactic(auto, unfolding(crate::specs::Module::text))]
    pub fn text(&self, at: u32) -> &[u8]
        ensures { result.now ≡ text_of self.now at }
    {
        text_at(self.heaps.strings.as_slice(), at as usize).unwrap_or(&[])
    }

    /// The bytes at an offset of `#Blob`, none where no whole entry is there.
    #[tactic(auto, unfolding(crate::specs::Module::blob))]
    pub fn blob(&self, at: u32) -> &[u8]
        ensures { result.now ≡ blob_of self.now at }
    {
        entry_at(self.heaps.blobs.as_slice(), at as usize).unwrap_or(&[])
    }

    /// The bytes of `#US` (ECMA-335 II.24.2.4).
    pub fn user_string_heap(&self) -> &[u8]
        ensures { result.now ≡ self.now.user_strings }
    {
        self.heaps.user_strings.as_slice()
    }

    /// How many bytes `#Blob` has.
    pub fn blob_heap_size(&self) -> usize {
        self.heaps.blobs.len()
    }

    /// The bytes from an address to the end of its section's raw data.
    pub fn rest_at(&self, rva: u32) -> Option<&[u8]>
        ensures { option_copied result ≡ bytes_from self.now.bytes self.now.headers.sections rva }
    {
        rest_at(self.file.as_slice(), &self.pe, rva)
    }

    /// So many bytes from an address on.
    pub fn bytes_at(&self, rva: u32, len: u32) -> Option<&[u8]>
        ensures { option_copied result
            ≡ bytes_of_range self.now.bytes self.now.headers.sections rva len }
    {
        at_rva(self.file.as_slice(), &self.pe, rva, len)
    }
}

/// Copies the heaps.
fn copy_heaps(alloc: Global, meta: &Meta<'_>) -> Result<Heaps, NoMemory>
    ensures strings { IfOk result (λ heaps. heaps.strings ≡ meta.now.strings) }
    ensures user_strings { IfOk result (λ heaps. heaps.user_strings ≡ meta.now.user_strings) }
    ensures blobs { IfOk result (λ heaps. heaps.blobs ≡ meta.now.blobs) }
{
    let strings = copy(alloc, meta.string_heap())?;
    let user_strings = copy(alloc, meta.user_string_heap())?;
    let blobs = copy(alloc, meta.blob_heap())?;
    Ok(Heaps {
        strings,
        user_strings,
        blobs,
    })
}

/// Finds where rows of tables are found.
fn index_of(alloc: Global, tables: &Items<Table>) -> Result<Index, NoMemory>
    ensures firsts { IfOk result (λ index. HoldsFirstRows tables.now index.firsts) }
    ensures owners { IfOk result (λ index. HoldsOwners tables.now index.field_owners index.method_owners) }
{
    let firsts = first_rows(alloc, tables)?;
    let field_owners = counts_not_above(alloc, rows_of(tables, TYPE_DEFS), 4)?;
    let method_owners = counts_not_above(alloc, rows_of(tables, TYPE_DEFS), 5)?;
    Ok(Index {
        firsts,
        field_owners,
        method_owners,
    })
}
