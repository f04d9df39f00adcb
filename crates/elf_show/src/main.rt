//! Prints what is read of a library that comes on stdin, a line for each load, symbol and relocation.
#![tactic(auto)]

use elf_reader::{Elf, ElfBad, Load, Relocation, Symbol, read_elf};
use std::io::{self, Read};

fn main(rt: HostRuntime) -> io::Result<()> {
    let mut bytes = Vec::new(rt.alloc());
    rt.reader().read_to_end(&mut bytes)?;
    match read_elf(rt.alloc(), bytes.as_slice()) {
        Ok(elf) => print_library(&rt, &elf),
        Err(ElfBad::BadElf { part, at }) => println!(rt; "bad library: {part} at {at}"),
        Err(ElfBad::Memory) => println!(rt; "out of memory"),
    }
}

fn print_library(rt: &impl Print, elf: &Elf) -> io::Result<()> {
    for load in elf.loads.as_slice().iter() {
        print_load(rt, load)?;
    }
    for symbol in elf.symbols.as_slice().iter() {
        print_symbol(rt, symbol)?;
    }
    for relocation in elf.relocs.as_slice().iter() {
        print_relocation(rt, relocation)?;
    }
    let (addr, size) = elf.init_array;
    println!(rt; "init {} array {addr} {size}", elf.init)
}

fn print_load(rt: &impl Print, load: &Load) -> io::Result<()> {
    let rights = load.rights;
    println!(rt;
        "load {} {} {} {} {} {} {}",
        load.file_at, load.vaddr, load.file_size, load.size, rights.r, rights.w, rights.x
    )
}

fn print_symbol(rt: &impl Print, symbol: &Symbol) -> io::Result<()> {
    print!(rt;
        "symbol {} {} {} {} {} ",
        symbol.value, symbol.binding, symbol.kind, symbol.visibility, symbol.section
    )?;
    for byte in symbol.name.as_slice().iter() {
        print!(rt; "{byte:02x}")?;
    }
    println!(rt; "")
}

fn print_relocation(rt: &impl Print, relocation: &Relocation) -> io::Result<()> {
    println!(rt;
        "relocation {} {} {} {}",
        relocation.offset, relocation.kind, relocation.symbol, relocation.addend
    )
}
