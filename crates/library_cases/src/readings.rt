//! What is read of a library file.

use elf_reader::{Elf, ElfBad, Load, Relocation, Symbol, read_elf};
use std::alloc::{AllocError, Global};
use std::io;

/// Writes a piece over the bytes from a place on.
pub fn put_over(file: &mut [u8], at: usize, piece: &[u8]) {
    for (to, from) in file.iter_mut().skip(at).zip(piece) {
        *to = *from;
    }
}

/// Prints a line for each load, symbol and relocation, or the refusal.
pub fn print_read(rt: &(impl Print + AllocGlobal), file: &[u8]) -> io::Result<()> {
    match read_elf(rt.alloc(), file) {
        Ok(elf) => print_library(rt, &elf),
        Err(bad) => println!(rt; "{bad}"),
    }
}

/// Prints how long the name of each symbol is, or the refusal.
pub fn print_name_lengths(rt: &(impl Print + AllocGlobal), file: &[u8]) -> io::Result<()> {
    match read_elf(rt.alloc(), file) {
        Ok(elf) => {
            for symbol in elf.symbols.as_slice() {
                println!(rt; "a name of {} bytes", symbol.name.len())?;
            }
            Ok(())
        }
        Err(bad) => println!(rt; "{bad}"),
    }
}

/// Prints what is read of the file with a piece of it changed: the refusal, or that it is whole.
pub fn print_patched(
    rt: &(impl Print + AllocGlobal),
    file: &[u8],
    at: usize,
    piece: &[u8],
) -> anyhow::Result<()> {
    let mut patched = file.to_vec(rt.alloc())?;
    put_over(&mut patched, at, piece);
    match read_elf(rt.alloc(), &patched) {
        Ok(_) => println!(rt; "whole")?,
        Err(bad) => println!(rt; "{bad}")?,
    }
    Ok(())
}

/// Prints each length to which the file is cut and isn't then refused twice alike, and its whole length.
pub fn print_cuts(rt: &(impl Print + AllocGlobal), file: &[u8]) -> io::Result<()> {
    for len in 0..file.len() {
        if !is_refused_twice_alike(rt.alloc(), &file[..len]) {
            println!(rt; "not refused twice alike at {len} bytes")?;
        }
    }
    println!(rt; "cut at each place before {}", file.len())
}

/// A file is refused twice for the same field.
fn is_refused_twice_alike(alloc: Global, file: &[u8]) -> bool {
    let first = read_elf(alloc, file).err();
    let again = read_elf(alloc, file).err();
    matches!(first, Some(ElfBad::BadElf { .. })) && first == again
}

fn print_library(rt: &impl Print, elf: &Elf) -> io::Result<()> {
    for load in elf.loads.as_slice() {
        print_load(rt, load)?;
    }
    for symbol in elf.symbols.as_slice() {
        print_symbol(rt, symbol)?;
    }
    for relocation in elf.relocs.as_slice() {
        print_relocation(rt, relocation)?;
    }
    let (addr, size) = elf.init_array;
    println!(rt;
        "init {} array {addr} {size} at {}",
        elf.init, elf.init_array_at
    )
}

fn print_load(rt: &impl Print, load: &Load) -> io::Result<()> {
    print!(rt; "load at {}: {} {}", load.at, load.file_at, load.file_size)?;
    println!(rt; " -> {} {} {:?}", load.vaddr, load.size, load.rights)
}

fn print_symbol(rt: &impl Print, symbol: &Symbol) -> io::Result<()> {
    print!(rt; "symbol {} {}", symbol.value, symbol.binding)?;
    print!(rt;
        " {} {} {} ",
        symbol.kind, symbol.visibility, symbol.section
    )?;
    for byte in symbol.name.as_slice() {
        print!(rt; "{byte:02x}")?;
    }
    println!(rt; "")
}

fn print_relocation(rt: &impl Print, relocation: &Relocation) -> io::Result<()> {
    print!(rt; "relocation at {}: {}", relocation.at, relocation.offset)?;
    println!(rt;
        " {} {} {}",
        relocation.kind, relocation.symbol, relocation.addend
    )
}
