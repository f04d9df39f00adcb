//! The rows of a table of metadata.

ghost use Rattle.std.specs.Prelude.{◌≡◌, ◌<◌, ◌^◌, length};
ghost use Rattle.type_model.specs.HeldRows.{table_rows};

use bound_base::Items;
use std::marker::Model;

/// The numbers of a row, column after column.
pub type Row = [u32; 9];

/// The rows of a table; fewer than 2^32, so that a number of 32 bits names each.
#[derive(Drop)]
pub struct Table {
    rows: Items<Row>,
}

impl Model for Table {
    ghost use Rattle.std.specs.Prelude.{ℕ, List, length, ◌<◌, ◌^◌};

    ghost Value = { List (List ℕ) };

    ghost view = { λ t. t.rows };

    ghost invariant = { λ t. length t.rows < 2 ^ 32 };
}

impl Table {
    /// The table of some rows.
    pub fn of(rows: Items<Row>) -> Table
        requires { length rows < 2 ^ 32 }
        ensures { result ≡ rows }
    {
        Table { rows }
    }

    pub fn rows(&self) -> &[Row]
        ensures rows { result.now ≡ self.now }
        ensures few { length result.now < 2 ^ 32 }
    {
        self.rows.as_slice()
    }

    /// How many rows it has.
    pub fn len(&self) -> u32
        ensures { result ≡ length self.now }
    {
        self.rows.len() as u32
    }
}

/// The rows of a table, by its number; none where it isn't there.
pub fn rows_of(tables: &Items<Table>, table: u8) -> &[Row]
    ensures rows { result.now ≡ table_rows tables.now table }
    ensures few { length result.now < 2 ^ 32 }
{
    match tables.get(table as usize) {
        Some(table) => table.rows(),
        None => &[],
    }
}
