//! Rows by the numbers in a column: which is the first that has a number, and how many have none above it.

ghost use Rattle.std.specs.Prelude.{◌≡◌, ◌≤◌, ◌<◌, ◌+◌, ◌^◌, ◌==◌, ℕ, [], length, count_by, slice_index, slice_index_or, sum, take, IfOk};
ghost use Rattle.type_model.specs.FirstRows.{TellsFirst, TellsNotAbove};
ghost use Rattle.type_model.specs.HeldRows.{HoldsFirstRows};

use crate::table::{Row, Table, rows_of};
use crate::table_numbers::{
    CLASS_LAYOUTS, FIELD_LAYOUTS, FIELD_MARSHALS, FIELD_RVAS, IMPL_MAPS, NESTED_CLASSES,
};
use bound_base::{Items, NoMemory};
use std::alloc::{AllocError, Global};

/// The first row that names each thing, of the tables that are asked what they say of one.
#[derive(Drop)]
pub struct FirstRows {
    /// By the coded index of a field or a parameter (ECMA-335 II.22.17).
    pub field_marshals: Items<u32>,
    /// By a type (II.22.8).
    pub class_layouts: Items<u32>,
    /// By a field (II.22.16).
    pub field_layouts: Items<u32>,
    /// By the coded index of a method (II.22.22).
    pub impl_maps: Items<u32>,
    /// By a field (II.22.18).
    pub field_rvas: Items<u32>,
    /// By a nested type (II.22.32).
    pub nested_classes: Items<u32>,
}

/// Finds the first rows of a file's tables.
pub fn first_rows(alloc: Global, tables: &Items<Table>) -> Result<FirstRows, NoMemory>
    ensures { IfOk result (λ firsts. HoldsFirstRows tables.now firsts) }
{
    Ok(FirstRows {
        field_marshals: first_by(alloc, rows_of(tables, FIELD_MARSHALS), 0)?,
        class_layouts: first_by(alloc, rows_of(tables, CLASS_LAYOUTS), 2)?,
        field_layouts: first_by(alloc, rows_of(tables, FIELD_LAYOUTS), 1)?,
        impl_maps: first_by(alloc, rows_of(tables, IMPL_MAPS), 1)?,
        field_rvas: first_by(alloc, rows_of(tables, FIELD_RVAS), 1)?,
        nested_classes: first_by(alloc, rows_of(tables, NESTED_CLASSES), 0)?,
    })
}

/// The first of the rows that has a number in a column, for each number; 0 for a number that none has. Rows are counted from 1,
/// and gone over from the last to the first.
fn first_by(alloc: Global, rows: &[Row], column: usize) -> Result<Items<u32>, NoMemory>
    requires column { column < 9 }
    requires few { length rows.now < 2 ^ 32 }
    ensures { IfOk result (λ firsts. TellsFirst rows.now column firsts) }
{
    let size = highest(rows, column) as usize + 1;
    let mut firsts = vec![in alloc; 0; size]?;
    let mut left = rows.len();
    while left > 0 {
        let number = left as u32;
        left -= 1;
        firsts[rows[left][column] as usize] = number;
    }
    Ok(Items::from_vec(firsts))
}

/// The number at a place of a table, counted from 0; another one past its end.
pub fn number_at(numbers: &Items<u32>, at: u64, past: u32) -> u32
    ensures { result ≡ slice_index_or numbers.now at past }
{
    numbers.as_slice().get(at as usize).copied().unwrap_or(past)
}

/// How many of the rows have a number in a column that isn't above a value, for each value up to the highest number.
pub fn counts_not_above(alloc: Global, rows: &[Row], column: usize) -> Result<Items<u32>, NoMemory>
    requires column { column < 9 }
    requires few { length rows.now < 2 ^ 32 }
    ensures { IfOk result (λ counts. TellsNotAbove rows.now column counts) }
{
    let counts = counts_of(alloc, rows, column)?;
    Ok(Items::from_vec(added_up(counts)))
}

/// The highest number in a column; 0 without rows.
fn highest(rows: &[Row], column: usize) -> u32
    requires { column < 9 }
    ensures { (k : ℕ) → k < length rows.now
        → slice_index (slice_index_or rows.now k []) column ≤ result }
{
    let mut highest = 0;
    for row in rows {
        highest = highest.max(row[column]);
    }
    highest
}

/// How many of the rows have each number in a column, up to the highest.
fn counts_of(alloc: Global, rows: &[Row], column: usize) -> Result<Vec<u32>, AllocError>
    requires column { column < 9 }
    requires few { length rows.now < 2 ^ 32 }
    ensures counts { IfOk result (λ counts. (value : ℕ) → slice_index counts.items value
        ≡ count_by (λ row. slice_index row column == value) rows.now) }
    ensures highest { IfOk result (λ counts. (k : ℕ) → k < length rows.now
        → slice_index (slice_index_or rows.now k []) column < length counts.items) }
{
    let size = highest(rows, column) as usize + 1;
    let mut counts = vec![in alloc; 0; size]?;
    for row in rows {
        counts[row[column] as usize] += 1;
    }
    Ok(counts)
}

/// The sums of the numbers up to each.
fn added_up(mut counts: Vec<u32>) -> Vec<u32>
    requires { sum counts.items < 2 ^ 32 }
    ensures size { length result.items ≡ length counts.items }
    ensures sums { (k : ℕ) → k < length counts.items
        → slice_index result.items k ≡ sum (take (k + 1) counts.items) }
{
    let mut total = 0;
    for count in counts.iter_mut() {
        total += *count;
        *count = total;
    }
    counts
}
