//! Reads cases, one a line, and prints what the public calls of the lowest crates answer to each. The first word of a case says
//! what is called; a line that begins with `#` is printed as it is.
#![tactic(auto)]

mod arithmetic;
mod instructions;
mod numbers;
mod outside;
mod registers;
mod scripts;
mod tables;
mod texts;

use anyhow::bail;
use outside::Outside;
use std::io::{BufRead, BufReader};

fn main(rt: HostRuntime) -> anyhow::Result<()> {
    let mut outside = Outside::new(&rt)?;
    for line in BufReader::new(rt.alloc(), rt.reader())?.lines(rt.alloc()) {
        let line = line?;
        if line.as_str().starts_with('#') {
            println!(rt; "{line}")?;
            continue;
        }
        let words: Vec<&str> = line.as_str().split_whitespace().collect(rt.alloc())?;
        print_case(&rt, &mut outside, words.as_slice())?;
    }
    Ok(())
}

/// Prints what one case gives, by the first group of calls that knows it.
fn print_case(rt: &HostRuntime, outside: &mut Outside, words: &[&str]) -> anyhow::Result<()> {
    if texts::print(rt, words)?
        || numbers::print(rt, words)?
        || arithmetic::print(rt, words)?
        || registers::print(rt, words)?
        || instructions::print(rt, words)?
        || tables::print(rt, words)?
        || outside.print(rt, words)?
        || scripts::print(rt, words)?
    {
        return Ok(());
    }
    bail!("a case that no group knows")
}
