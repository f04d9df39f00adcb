//! Reads cases, one a line of stdin, and prints what `elf_reader` and `image_kit` answer. A line is a verb and its words;
//! bytes are in hexadecimal, numbers in decimal. A line that has none of the verbs is printed as it is.
#![tactic(auto)]

mod plans;
mod readings;

use bound_base::Bytes;
use image_kit::{LibraryPlan, NamedPlace};
use plans::{empty_plan, instruction, odd_jump, write};
use readings::{print_cuts, print_name_lengths, print_patched, print_read, put_over};
use std::alloc::Global;
use std::io::{BufRead, BufReader};

/// What the cases so far have made: a file, and the plan of the next one.
#[derive(Drop)]
struct Case {
    file: Vec<u8>,
    plan: LibraryPlan,
}

fn main(rt: HostRuntime) -> anyhow::Result<()> {
    let mut case = Case {
        file: Vec::new(rt.alloc()),
        plan: empty_plan(rt.alloc()),
    };
    for line in BufReader::new(rt.alloc(), rt.reader())?.lines(rt.alloc()) {
        let line = line?;
        let words: Vec<&str> = line.split_whitespace().collect(rt.alloc())?;
        if !change(rt.alloc(), &mut case, &words)? {
            answer(&rt, &mut case, &words, line.as_str())?;
        }
    }
    Ok(())
}

/// Changes the file or the plan where the verb does, and tells whether it does.
fn change(alloc: Global, case: &mut Case, words: &[&str]) -> anyhow::Result<bool> {
    match *words {
        ["file", bytes] => case.file = hex::decode(alloc, bytes)?,
        ["put", at, bytes] => {
            let piece = hex::decode(alloc, bytes)?;
            put_over(&mut case.file, at.parse::<usize>()?, &piece);
        }
        ["fill", len, byte] => case
            .file
            .resize(len.parse::<usize>()?, byte.parse::<u8>()?)?,
        ["code", word] => case.plan.code.push(instruction(word)?)?,
        ["odd"] => case.plan.code.push(odd_jump())?,
        ["name", bytes, offset] => {
            let name = Bytes::from_vec(hex::decode(alloc, bytes)?);
            let offset = offset.parse::<u64>()?;
            case.plan.names.push(NamedPlace { name, offset })?;
        }
        ["bytes", bytes] => case.plan.bytes = Bytes::from_vec(hex::decode(alloc, bytes)?),
        _ => return Ok(false),
    }
    Ok(true)
}

/// Prints what a call answers, or the line where the verb is none.
fn answer(
    rt: &(impl Print + AllocGlobal),
    case: &mut Case,
    words: &[&str],
    line: &str,
) -> anyhow::Result<()> {
    match *words {
        ["read"] => print_read(rt, &case.file)?,
        ["names"] => print_name_lengths(rt, &case.file)?,
        ["cuts"] => print_cuts(rt, &case.file)?,
        ["wrong", at, bytes] => {
            let piece = hex::decode(rt.alloc(), bytes)?;
            print_patched(rt, &case.file, at.parse::<usize>()?, &piece)?;
        }
        ["write"] => {
            if let Some(file) = write(rt, &case.plan)? {
                case.file = file;
            }
            case.plan = empty_plan(rt.alloc());
        }
        _ => println!(rt; "{line}")?,
    }
    Ok(())
}
