//! Reads cases, one a line of stdin, and prints what the crates of signatures, descriptors, values,
//! layouts, texts and graphs answer. The first word of a case says what is called; bytes are in hexadecimal, `-` where
//! there are none. A line that begins with `#` is printed as it is.
#![tactic(auto)]

mod bodies;
mod descriptors;
mod graphs;
mod hexadecimal;
mod layouts;
mod signatures;
mod texts;
mod values;

use anyhow::bail;
use std::io::{BufRead, BufReader};

fn main(rt: HostRuntime) -> anyhow::Result<()> {
    for line in BufReader::new(rt.alloc(), rt.reader())?.lines(rt.alloc()) {
        let line = line?;
        if line.as_str().starts_with('#') {
            println!(rt; "{line}")?;
            continue;
        }
        let words: Vec<&str> = line.as_str().split_whitespace().collect(rt.alloc())?;
        print_case(&rt, words.as_slice())?;
    }
    Ok(())
}

/// Prints what one case gives, by the first group of calls that knows it.
fn print_case(rt: &HostRuntime, words: &[&str]) -> anyhow::Result<()> {
    if bodies::print(rt, words)?
        || signatures::print(rt, words)?
        || descriptors::print(rt, words)?
        || values::print(rt, words)?
        || layouts::print(rt, words)?
        || texts::print(rt, words)?
        || graphs::print(rt, words)?
    {
        return Ok(());
    }
    bail!("a case that no group knows")
}
