//! Answers rows of stdin with what the public calls of `host_run` give over files and streams in memory. A row begins with
//! a word that says what it is; its other words are parted by one space each.
//!
//! - `# TEXT` is printed as it stands.
//! - `hold NAME` names the file that is held from here on; `gone` holds none.
//! - `bytes HEX` makes the file's bytes these, `zeros N` so many zeros, `library SYMBOL SPARE WORD..` a library of
//!   instruction words in hexadecimal under one symbol, with so many zero bytes after them.
//! - `keep` keeps the file's bytes, and `again` makes them the file's again.
//! - `set AT HEX` writes bytes into it, `cut N` keeps its front.
//! - `fail read N`, `fail out N`, `fail err N` make that call fail, counted from 0, and `room out N`, `room err N` bound a
//!   stream, for the next call alone.
//! - `host WORD..` prints the status and what out and err got, in hexadecimal what doesn't show; `fronts WORD..` does the same for each proper front
//!   of the file, twice, and prints how many had the status of the first.
//! - `words WORD..` prints the command that the words ask for; `program COUNT LENGTH ..` whether `run` takes a program of so
//!   many words of so many bytes, for each pair.
#![tactic(auto)]

mod calls;
mod images;
mod setting;
mod words;

use setting::Setting;

fn main(rt: HostRuntime) -> anyhow::Result<()> {
    let mut setting = Setting::new(rt.alloc());
    for row in rt.lines(rt.alloc()) {
        answer(&rt, &mut setting, row?.as_str())?;
    }
    Ok(())
}

fn answer(rt: &(impl Print + AllocGlobal), setting: &mut Setting, row: &str) -> anyhow::Result<()> {
    let (kind, rest) = row.split_once(' ').unwrap_or((row, ""));
    match kind {
        "#" => println!(rt; "{row}")?,
        "host" => calls::print_call(rt, setting, row)?,
        "fronts" => calls::print_fronts(rt, setting, row)?,
        "words" => words::print_command(rt, row)?,
        "program" => words::print_program(rt, rest)?,
        _ => setting.change(rt.alloc(), kind, rest)?,
    }
    Ok(())
}
