//! Reads cases, one a line of stdin, and prints what `pe_reader` and `meta_tables` answer. A line
//! is a verb and its words; bytes and tables are in hexadecimal, other numbers in decimal. A line
//! that has none of the verbs is printed as it is.
#![tactic(auto)]

mod assembly_plans;
mod headers;
mod hexadecimal;
mod metadata;

use assembly_plans::Draft;
use headers::{print_bytes_at, print_headers, print_rest_at};
use hexadecimal::{print_bytes, put_over};
use metadata::{Question, print_metadata, question_of};
use std::alloc::Global;
use std::io::{BufRead, BufReader};

/// What the cases so far have made: a file, and the range of its metadata.
#[derive(Drop)]
struct Case {
    draft: Draft,
    file: Vec<u8>,
    at: u64,
    size: u32,
}

fn main(rt: HostRuntime) -> anyhow::Result<()> {
    let mut case = Case {
        draft: Draft::new(rt.alloc()),
        file: Vec::new(rt.alloc()),
        at: 0,
        size: 0,
    };
    for line in BufReader::new(rt.alloc(), rt.reader())?.lines(rt.alloc()) {
        let line = line?;
        let words: Vec<&str> = line.split_whitespace().collect(rt.alloc())?;
        if !make(&rt, &mut case, &words)?
            && !change(rt.alloc(), &mut case, &words)?
            && !ask_headers(&rt, &case, &words)?
        {
            ask_metadata(&rt, &case, &words, line.as_str())?;
        }
    }
    Ok(())
}

/// Plans an assembly or makes the file of the plan where the verb does, and tells whether it does.
fn make(rt: &(impl Print + AllocGlobal), case: &mut Case, words: &[&str]) -> anyhow::Result<bool> {
    if words != ["plan_file"].as_slice() {
        return case.draft.plan(rt.alloc(), words);
    }
    let draft = std::mem::replace(&mut case.draft, Draft::new(rt.alloc()));
    match draft.file(rt.alloc())? {
        Some(file) => {
            case.file = file.into_vec();
            println!(rt; "file of {} bytes", case.file.len())?;
        }
        None => println!(rt; "doesn't fit")?,
    }
    Ok(true)
}

/// Changes the file or the range where the verb does, and tells whether it does.
fn change(alloc: Global, case: &mut Case, words: &[&str]) -> anyhow::Result<bool> {
    match *words {
        ["zeros", len] => case.file = vec![in alloc; 0u8; len.parse::<usize>()?]?,
        ["put", at, bytes] => {
            let piece = hex::decode(alloc, bytes)?;
            put_over(&mut case.file, at.parse::<usize>()?, &piece);
        }
        ["cut", len] => case.file.truncate(len.parse::<usize>()?),
        ["range", at, size] => {
            case.at = at.parse::<u64>()?;
            case.size = size.parse::<u32>()?;
        }
        _ => return Ok(false),
    }
    Ok(true)
}

/// Prints what is read of the headers where the verb asks for that, and tells whether it does.
fn ask_headers(
    rt: &(impl Print + AllocGlobal),
    case: &Case,
    words: &[&str],
) -> anyhow::Result<bool> {
    match *words {
        ["headers"] => print_headers(rt, &case.file)?,
        ["file"] => print_bytes(rt, Some(&case.file))?,
        ["headers_with", at, bytes] => {
            let file = patched(rt.alloc(), &case.file, at, bytes)?;
            print_headers(rt, &file)?;
        }
        ["bytes", rva, len] => {
            print_bytes_at(rt, &case.file, rva.parse::<u32>()?, len.parse::<u32>()?)?;
        }
        ["rest", rva] => print_rest_at(rt, &case.file, rva.parse::<u32>()?)?,
        _ => return Ok(false),
    }
    Ok(true)
}

/// Prints what is read of the metadata, or the line where the verb is none.
fn ask_metadata(
    rt: &(impl Print + AllocGlobal),
    case: &Case,
    words: &[&str],
    line: &str,
) -> anyhow::Result<()> {
    if let ["metadata_with", place, bytes] = *words {
        let file = patched(rt.alloc(), &case.file, place, bytes)?;
        print_metadata(rt, &file, case.at, case.size, Question::Whether)?;
        return Ok(());
    }
    match question_of(words)? {
        Some(question) => print_metadata(rt, &case.file, case.at, case.size, question)?,
        None => println!(rt; "{line}")?,
    }
    Ok(())
}

/// A file with other bytes at a place.
fn patched(alloc: Global, file: &[u8], at: &str, bytes: &str) -> anyhow::Result<Vec<u8>> {
    let piece = hex::decode(alloc, bytes)?;
    let mut copy = file.to_vec(alloc)?;
    put_over(&mut copy, at.parse::<usize>()?, &piece);
    Ok(copy)
}
