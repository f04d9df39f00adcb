//! Which words are a line of the grammar, and what they ask for.

use anyhow::Context;
use host_run::{Command, RunWords, read_words};
use std::alloc::Global;

/// The words of a row after its first, parted by one space each.
pub fn words_of(alloc: Global, row: &str) -> anyhow::Result<Vec<String>> {
    let mut words = Vec::new(alloc);
    for word in row.split(' ').skip(1) {
        words.push(String::from_str(alloc, word)?)?;
    }
    Ok(words)
}

/// Prints the command of a row's words with its parts, or `outside`.
pub fn print_command(rt: &(impl Print + AllocGlobal), row: &str) -> anyhow::Result<()> {
    let words = words_of(rt.alloc(), row)?;
    print!(rt; "{row} = ")?;
    match read_words(rt.alloc(), words.as_slice())? {
        None => println!(rt; "outside")?,
        Some(Command::Imports(file)) => println!(rt; "imports {}", file.as_str())?,
        Some(Command::Stubs(file)) => println!(rt; "stubs {}", file.as_str())?,
        Some(Command::Native(lib, symbol, values)) => println!(rt;
            "native {} {} {:?}",
            lib.as_str(),
            symbol.as_str(),
            values.as_slice()
        )?,
        Some(Command::Run(run)) => print_run(rt, &run)?,
        Some(Command::Drill(number)) => println!(rt; "drill {number}")?,
    }
    Ok(())
}

fn print_run(rt: &impl Print, run: &RunWords) -> anyhow::Result<()> {
    print!(rt; "run {}", run.file.as_str())?;
    for lib in run.libs.as_slice() {
        print!(rt; " lib {}", lib.as_str())?;
    }
    println!(rt;
        " fuel {} {} {} {}",
        run.fuel, run.report, run.log, run.before
    )?;
    Ok(())
}

/// Prints whether `run` takes a program of so many words of so many bytes, for each pair of numbers of a row.
pub fn print_program(rt: &(impl Print + AllocGlobal), rest: &str) -> anyhow::Result<()> {
    let alloc = rt.alloc();
    let mut line = words_of(alloc, "words run a.dll --")?;
    let mut numbers = rest.split(' ');
    while let Some(count) = numbers.next() {
        let length = numbers.next().context("a number is missing")?;
        let text = word_of(alloc, length.parse::<u32>()?)?;
        for _ in 0..count.parse::<u32>()? {
            line.push(text.clone()?)?;
        }
    }
    let takes = read_words(alloc, line.as_slice())?.is_some();
    println!(rt; "program {rest} = {takes}")?;
    Ok(())
}

/// A word of so many bytes.
fn word_of(alloc: Global, length: u32) -> anyhow::Result<String> {
    let mut word = String::new(alloc);
    for _ in 0..length {
        word.push('w')?;
    }
    Ok(word)
}
