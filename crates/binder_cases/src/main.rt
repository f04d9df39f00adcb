//! Reads cases, one a line of stdin, and prints what `elf_binder` answers. A line is a verb and its words; bytes and numbers
//! are in hexadecimal. A line that has none of the verbs is printed as it is.
#![tactic(auto)]

mod bindings;
mod hexadecimal;
mod names;

use bindings::{Libraries, bind_copies, print_patched, put_over};
use elf_binder::{Module, address_of, is_defined};
use elf_reader::Symbols;
use hexadecimal::number;
use names::{print_exports, print_found, symbol};
use std::alloc::Global;
use std::io::{BufRead, BufReader};

/// What the cases so far have made: a file, libraries that are bound, symbols of the next module, and modules.
#[derive(Drop)]
struct Case {
    file: Vec<u8>,
    libraries: Option<Libraries>,
    symbols: Symbols,
    modules: Vec<Module>,
}

fn main(rt: HostRuntime) -> anyhow::Result<()> {
    let mut case = Case {
        file: Vec::new(rt.alloc()),
        libraries: None,
        symbols: Symbols::new(rt.alloc()),
        modules: Vec::new(rt.alloc()),
    };
    for line in BufReader::new(rt.alloc(), rt.reader())?.lines(rt.alloc()) {
        let line = line?;
        let words: Vec<&str> = line.split_whitespace().collect(rt.alloc())?;
        if !change(rt.alloc(), &mut case, &words)? {
            answer(&rt, &mut case, &words, line.as_str())?;
        }
    }
    Ok(())
}

/// Changes the file, the symbols or the modules where the verb does, and tells whether it does.
fn change(alloc: Global, case: &mut Case, words: &[&str]) -> anyhow::Result<bool> {
    match *words {
        ["file", bytes] => case.file = hex::decode(alloc, bytes)?,
        ["put", at, bytes] => {
            let piece = hex::decode(alloc, bytes)?;
            put_over(&mut case.file, number(at)? as usize, &piece);
        }
        ["symbol", name, value, binding, kind, visibility, section] => {
            let kinds = [number(binding)?, number(kind)?, number(visibility)?];
            let symbol = symbol(alloc, name, number(value)?, kinds, number(section)?)?;
            case.symbols.push(symbol)?;
        }
        ["module", name, base] => {
            let symbols = case.symbols.as_slice();
            let module = Module::new(alloc, name.as_bytes(), number(base)?, symbols)?;
            case.modules.push(module)?;
            case.symbols = Symbols::new(alloc);
        }
        _ => return Ok(false),
    }
    Ok(true)
}

/// Prints what a call answers, or the line where the verb is none.
fn answer(
    rt: &(impl Print + AllocGlobal),
    case: &mut Case,
    words: &[&str],
    line: &str,
) -> anyhow::Result<()> {
    match *words {
        ["wrong", at, bytes] => {
            let piece = hex::decode(rt.alloc(), bytes)?;
            print_patched(rt, &case.file, number(at)? as usize, &piece)?;
        }
        ["bind", ..] => case.libraries = bind_copies(rt, &case.file, &words[1..])?,
        ["defined"] => {
            for symbol in case.symbols.as_slice() {
                println!(rt; "{}", is_defined(symbol))?;
            }
            case.symbols = Symbols::new(rt.alloc());
        }
        ["exports", name] => print_exports(rt, &case.modules, name.as_bytes())?,
        ["exports"] => print_exports(rt, &case.modules, b"")?,
        ["address", name] => print_found(rt, address_of(&case.modules, name.as_bytes()))?,
        _ => match &case.libraries {
            Some(libraries) => libraries.answer(rt, words, line)?,
            None => println!(rt; "{line}")?,
        },
    }
    Ok(())
}
