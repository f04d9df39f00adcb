//! What an assembly's file is made from.

use bound_base::{Bytes, Items};

/// The rows of one metadata table (ECMA-335 II.22).
#[derive(Debug, Drop)]
pub struct TablePlan {
    /// The number of the table.
    pub number: u8,
    /// The rows, each with its numbers column after column, and 0 for the columns that the table doesn't have.
    pub rows: Items<[u32; 9]>,
}

/// The body of a method, with its header (ECMA-335 II.25.4).
#[derive(Debug, Drop)]
pub struct MethodBody {
    /// The row of MethodDef, from 1.
    pub method: u32,
    /// The body as it stands in the file.
    pub bytes: Bytes,
}

/// Metadata and bodies, of which the file of an assembly is made.
///
/// A plan fits where each table is one of the metadata tables and is given once, each number fits its column (one that
/// the table doesn't have is 0), the cells of the tables that are checked when a file is read hold what they may, each body is
/// that of a row of MethodDef that has no other, and the file has at most 67,108,864 bytes.
#[derive(Debug, Drop)]
pub struct AssemblyPlan {
    /// The tables, in any order. One that isn't given has no rows.
    pub tables: Items<TablePlan>,
    /// The heap `#Strings`, as it stands in the file.
    pub strings: Bytes,
    /// The heap `#US`.
    pub user: Bytes,
    /// The heap `#Blob`. The heap `#GUID` isn't planned: it has one GUID, number 1, of zeros.
    pub blobs: Bytes,
    /// The bodies, each of a method of its own.
    pub bodies: Items<MethodBody>,
    /// The token of the entry point, or 0.
    pub entry: u32,
}
