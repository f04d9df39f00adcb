//! Copies of a library that are bound under several names.

ghost use Rattle.std.specs.Prelude.{◌≡◌, ◌≤◌, length, IfOk};
ghost use Rattle.elf_binder.specs.Refusals.{AreRead};

use crate::hexadecimal::number;
use crate::names::print_found;
use bound_base::{Bytes, Items};
use elf_binder::{BindBad, Bound, bind};
use elf_reader::{Elf, ElfBad, read_elf};
use native_memory::{DATA_RIGHTS, Kind, Memory};
use std::alloc::{AllocError, Global};

/// Libraries that are bound, and memory with them.
#[derive(Drop)]
pub struct Libraries {
    bound: Bound,
    memory: Memory,
}

/// How many libraries can be bound.
const LIMIT: usize = 16;

/// Writes a piece over the bytes from a place on.
pub fn put_over(file: &mut [u8], at: usize, piece: &[u8]) {
    for (to, from) in file.iter_mut().skip(at).zip(piece) {
        *to = *from;
    }
}

/// Binds copies of a file, one under each name. Where that is refused the refusal is printed.
pub fn bind_copies(
    rt: &(impl Print + AllocGlobal),
    file: &[u8],
    names: &[&str],
) -> anyhow::Result<Option<Libraries>> {
    let mut files = Items::new(rt.alloc());
    let mut texts = Items::new(rt.alloc());
    for name in names {
        files.push(Bytes::from_vec(file.to_vec(rt.alloc())?))?;
        texts.push(Bytes::from_vec(name.as_bytes().to_vec(rt.alloc())?))?;
    }
    let mut memory = started(rt.alloc())?;
    match bound(rt.alloc(), files.as_slice(), texts.as_slice(), &mut memory)? {
        Ok(bound) => Ok(Some(Libraries { bound, memory })),
        Err(bad) => {
            println!(rt; "{bad}")?;
            Ok(None)
        }
    }
}

/// Prints why the file, with a piece of it changed, isn't bound alone.
pub fn print_patched(
    rt: &(impl Print + AllocGlobal),
    file: &[u8],
    at: usize,
    piece: &[u8],
) -> anyhow::Result<()> {
    let mut patched = file.to_vec(rt.alloc())?;
    put_over(&mut patched, at, piece);
    if bind_copies(rt, &patched, &["changed"])?.is_some() {
        println!(rt; "bound")?;
    }
    Ok(())
}

/// Memory with the blocks that stand before libraries: the number of the last error, and a stack of 1 MiB.
fn started(alloc: Global) -> anyhow::Result<Memory> {
    let mut memory = Memory::new(alloc, 0x1000_0000);
    memory.place(4, DATA_RIGHTS, Kind::Errno)?;
    memory.place(0x10_0000, DATA_RIGHTS, Kind::Stack)?;
    Ok(memory)
}

/// Libraries under their names, read and bound.
fn bound(
    alloc: Global,
    files: &[Bytes],
    names: &[Bytes],
    memory: &mut Memory,
) -> anyhow::Result<Result<Bound, BindBad>> {
    let elfs = read_all(alloc, files)?;
    if names.len() != files.len() || files.len() > LIMIT {
        anyhow::bail!("so many libraries can't be bound");
    }
    Ok(bind(alloc, elfs.as_slice(), files, names, memory))
}

/// Each library as it is read.
fn read_all(alloc: Global, files: &[Bytes]) -> Result<Items<Elf>, ElfBad>
    ensures read { IfOk result (λ elfs. AreRead elfs files.now) }
    ensures count { IfOk result (λ elfs. length elfs ≡ length files.now) }
{
    let mut elfs = Items::new(alloc);
    for file in files {
        elfs.push(read_elf(alloc, file.as_slice())?)?;
    }
    Ok(elfs)
}

impl Libraries {
    /// Prints what is asked of the libraries or of memory, or the line where the verb is none.
    pub fn answer(&self, rt: &impl Print, words: &[&str], line: &str) -> anyhow::Result<()> {
        match *words {
            ["block", addr] => match self.memory.block_at(number(addr)?) {
                Some((size, rights, kind)) => println!(rt; "{size:x} {rights:?} {kind:?}")?,
                None => println!(rt; "none")?,
            },
            ["word", addr] => print_found(rt, word_at(&self.memory, number(addr)?))?,
            ["inits"] => {
                for address in self.bound.inits() {
                    println!(rt; "{address:x}")?;
                }
            }
            ["library", name] => println!(rt; "{:?}", self.bound.library(name.as_bytes()))?,
            ["library"] => println!(rt; "{:?}", self.bound.library(b""))?,
            ["function", library, name] => {
                let library = (number(library)? % 256) as u32;
                print_found(rt, self.bound.symbol(library, name.as_bytes()))?;
            }
            _ => println!(rt; "{line}")?,
        }
        Ok(())
    }
}

fn word_at(memory: &Memory, addr: u64) -> Option<u64> {
    let mut word = [0; 8];
    match memory.read(addr, &mut word) {
        Ok(()) => Some(u64::from_le_bytes(word)),
        Err(_) => None,
    }
}
