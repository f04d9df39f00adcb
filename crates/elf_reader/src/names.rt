//! The names of symbols. A name ends at the first zero after its start; one pass over the file finds where.

ghost use Rattle.std.specs.Prelude.{◌≡◌, ◌+◌, ◌<◌, ◌≤◌, ◌==◌, length, map, position, IfOk};
ghost use Rattle.std.specs.Option.{option_copied};
ghost use Rattle.byte_view.specs.ElfSymbols as definition;
ghost use Rattle.elf_reader.specs.Elf.{load_of};
ghost use Rattle.elf_reader.specs.Loads.{AreSound};
ghost use Rattle.elf_reader.specs.Names.{IsFirstZero, AreOf};

use crate::elf::Load;
use crate::loads::range_from;
use std::alloc::{AllocError, Global};

/// The size of a block, in bytes.
const BLOCK: usize = 64;

/// The first zeros of a file: for each block of it, the place of the first zero from the block's start on, or the size
/// of the file where there is none.
#[derive(Debug, Drop)]
pub struct Zeros {
    pub from_block: Vec<usize>,
}

/// Finds the zeros, in one pass over the file from its end.
pub fn find_zeros(alloc: Global, bytes: &[u8]) -> Result<Zeros, AllocError>
    ensures { IfOk result (λ zeros. AreOf bytes.now zeros.from_block.items) }
{
    let mut from_block = vec![in alloc; bytes.len(); bytes.len() / BLOCK + 1]?;
    let mut next = bytes.len();
    for at in (0..bytes.len()).rev() {
        if bytes[at] == 0 {
            next = at;
        }
        if at % BLOCK == 0 {
            from_block[at / BLOCK] = next;
        }
    }
    Ok(Zeros { from_block })
}

impl Zeros {
    /// The place of the first zero from `at` on, or the size of the file where there is none.
    fn first_from(&self, bytes: &[u8], at: usize) -> usize
        requires zeros { AreOf bytes.now self.now.from_block.items }
        requires within { at ≤ length bytes.now }
        ensures { IsFirstZero bytes.now at result }
    {
        let block = at / BLOCK + 1;
        let end = bytes.len().min(block * BLOCK);
        match zero_in(&bytes[at..end]) {
            Some(n) => at + n,
            None if end < bytes.len() => self.from_block[block],
            None => bytes.len(),
        }
    }
}

/// The place of the first zero.
fn zero_in(bytes: &[u8]) -> Option<usize>
    ensures { result ≡ position (λ byte. byte == 0) bytes.now }
{
    bytes.iter().position(|byte| *byte == 0)
}

/// The text at an address, `offset` past another, with its zero in the same load. The zeros are those of the file.
pub fn name_at<'a>(
    bytes: &'a [u8],
    loads: &[Load],
    zeros: &Zeros,
    addr: u64,
    offset: u64,
) -> Option<&'a [u8]>
    requires sound { AreSound (length bytes.now) loads.now }
    requires zeros { AreOf bytes.now zeros.now.from_block.items }
    ensures { option_copied result
        ≡ definition.name_at bytes.now (map load_of loads.now) (addr + offset) }
{
    let range = range_from(bytes, loads, addr, offset)?;
    let end = zeros.first_from(bytes, range.start);
    if end < range.end {
        Some(&bytes[range.start..end])
    } else {
        None
    }
}
