//! Plans of assemblies, line after line, and the files that are made of them.

use bound_base::{Bytes, Items};
use image_kit::{AssemblyPlan, MethodBody, TablePlan, assembly};
use std::alloc::{AllocError, Global};

/// What the lines so far have planned.
#[derive(Drop)]
pub struct Draft {
    rows: Vec<PlannedRow>,
    strings: Vec<u8>,
    user: Vec<u8>,
    blobs: Vec<u8>,
    bodies: Vec<MethodBody>,
    entry: u32,
}

/// A row of a table.
#[derive(Clone, Copy)]
struct PlannedRow {
    table: u8,
    cells: [u32; 9],
}

impl Draft {
    pub fn new(alloc: Global) -> Draft {
        Draft {
            rows: Vec::new(alloc),
            strings: Vec::new(alloc),
            user: Vec::new(alloc),
            blobs: Vec::new(alloc),
            bodies: Vec::new(alloc),
            entry: 0,
        }
    }

    /// Plans what a line's words say, and tells whether they are of a plan: `plan_row` with a table and the row's numbers (zeros
    /// for those that are missing), `plan_names` with the entries of `#Strings` after the empty one, `plan_user` and `plan_blobs`
    /// with a heap, `plan_body` with a row of MethodDef and the bytes, `plan_entry` with a token.
    pub fn plan(&mut self, alloc: Global, words: &[&str]) -> anyhow::Result<bool> {
        match *words {
            ["plan_user", bytes] => self.user = hex::decode(alloc, bytes)?,
            ["plan_blobs", bytes] => self.blobs = hex::decode(alloc, bytes)?,
            ["plan_body", method, bytes] => self.bodies.push(MethodBody {
                method: method.parse::<u32>()?,
                bytes: Items::from_vec(hex::decode(alloc, bytes)?),
            })?,
            ["plan_entry", token] => self.entry = u32::from_str_radix(token, 16)?,
            ["plan_row", table, ..] => {
                let table = u8::from_str_radix(table, 16)?;
                let cells = numbers(words)?;
                self.rows.push(PlannedRow { table, cells })?;
            }
            ["plan_names", ..] => self.strings = names(alloc, words)?,
            _ => return Ok(false),
        }
        Ok(true)
    }

    /// The plan.
    fn into_plan(self, alloc: Global) -> Result<AssemblyPlan, AllocError> {
        let tables = tables_of(alloc, &self.rows)?;
        Ok(AssemblyPlan {
            tables,
            strings: Items::from_vec(self.strings),
            user: Items::from_vec(self.user),
            blobs: Items::from_vec(self.blobs),
            bodies: Items::from_vec(self.bodies),
            entry: self.entry,
        })
    }

    /// The file of the plan; None where it doesn't fit.
    pub fn file(self, alloc: Global) -> anyhow::Result<Option<Bytes>> {
        let plan = self.into_plan(alloc)?;
        if plan.fits() {
            Ok(Some(assembly(alloc, &plan)?))
        } else {
            Ok(None)
        }
    }
}

/// The numbers after a verb and a table.
fn numbers(words: &[&str]) -> anyhow::Result<[u32; 9]> {
    let mut cells = [0; 9];
    for (cell, word) in cells.iter_mut().zip(words.iter().skip(2)) {
        *cell = word.parse::<u32>()?;
    }
    Ok(cells)
}

/// The empty name, and the names after a verb, each with a zero.
fn names(alloc: Global, words: &[&str]) -> Result<Vec<u8>, AllocError> {
    let mut heap = Vec::new(alloc);
    heap.push(0)?;
    for name in words.iter().skip(1) {
        heap.extend_from_slice(name.as_bytes())?;
        heap.push(0)?;
    }
    Ok(heap)
}

/// The rows, table after table.
fn tables_of(alloc: Global, rows: &[PlannedRow]) -> Result<Items<TablePlan>, AllocError> {
    let mut tables = Items::new(alloc);
    for number in 0..=u8::MAX {
        let mut of_table = Items::new(alloc);
        for row in rows {
            if row.table == number {
                of_table.push(row.cells)?;
            }
        }
        if !of_table.is_empty() {
            tables.push(TablePlan {
                number,
                rows: of_table,
            })?;
        }
    }
    Ok(tables)
}
