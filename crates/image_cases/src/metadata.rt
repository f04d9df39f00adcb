//! What is read of metadata, in a range of a file.

use crate::hexadecimal::print_bytes;
use meta_tables::{Meta, read_meta};
use std::io;

/// What is asked of metadata: whether it is read, the rows of a table, a row and its place by table and number, or an entry
/// by its offset in a heap.
#[derive(Clone, Copy)]
pub enum Question {
    Whether,
    Rows(u8),
    Row(u8, u32),
    Place(u8, u32),
    Text(u32),
    Blob(u32),
    UserString(u32),
}

/// The question of a line's words; None where they are none.
pub fn question_of(words: &[&str]) -> anyhow::Result<Option<Question>> {
    Ok(Some(match *words {
        ["metadata"] => Question::Whether,
        ["rows", table] => Question::Rows(table_of(table)?),
        ["row", table, n] => Question::Row(table_of(table)?, n.parse::<u32>()?),
        ["place", table, n] => Question::Place(table_of(table)?, n.parse::<u32>()?),
        ["string", offset] => Question::Text(offset.parse::<u32>()?),
        ["blob", offset] => Question::Blob(offset.parse::<u32>()?),
        ["user_string", offset] => Question::UserString(offset.parse::<u32>()?),
        _ => return Ok(None),
    }))
}

/// A table's number, in hexadecimal.
fn table_of(word: &str) -> anyhow::Result<u8> {
    Ok(u8::from_str_radix(word, 16)?)
}

/// Prints the answer of the metadata in a range of a file, or why there is none.
pub fn print_metadata(
    rt: &(impl Print + AllocGlobal),
    file: &[u8],
    at: u64,
    size: u32,
    question: Question,
) -> io::Result<()> {
    let len = file.len() as u64;
    if len < u64::from(size) || len - u64::from(size) < at {
        return println!(rt; "outside the file");
    }
    match read_meta(rt.alloc(), file, at, size) {
        Ok(meta) => print_answer(rt, &meta, question),
        Err(bad) => println!(rt; "{bad}"),
    }
}

fn print_answer(
    rt: &(impl Print + AllocGlobal),
    meta: &Meta,
    question: Question,
) -> io::Result<()> {
    match question {
        Question::Whether => println!(rt; "read"),
        Question::Rows(table) => println!(rt; "rows {}", meta.rows(table)),
        Question::Row(table, n) => match meta.row(table, n) {
            Some(row) => println!(rt; "row {row:?}"),
            None => println!(rt; "none"),
        },
        Question::Place(table, n) => match meta.row_place(table, n) {
            Some(place) => println!(rt; "place {place}"),
            None => println!(rt; "none"),
        },
        Question::Text(offset) => print_bytes(rt, meta.string(offset)),
        Question::Blob(offset) => print_bytes(rt, meta.blob(offset)),
        Question::UserString(offset) => match meta.user_string(rt.alloc(), offset) {
            Ok(Some(units)) => println!(rt; "units {:?}", units.as_slice()),
            Ok(None) => println!(rt; "none"),
            Err(_) => println!(rt; "out of memory"),
        },
    }
}
