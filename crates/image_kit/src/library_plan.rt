//! What a library file is made from.

ghost use Rattle.std.specs.Prelude.{◌≡◌, ◌-◌, ◌^◌, ◌↔◌, min, length, IsTrue, IsSome, All, Contains};
ghost use Rattle.rv_decode.specs.Encoding.{encoding};
ghost use Rattle.image_kit.specs.LibraryFile.{code_size as size_of_code, string_table, file_end};
ghost use Rattle.image_kit.specs.LibraryReads.{Fits};

use bound_base::{Bytes, Items};
use rv_decode::{Instr, encode, length_of};

/// A name of a place in a library's code.
#[derive(Debug, Drop)]
pub struct NamedPlace {
    /// The name, without a zero byte.
    pub name: Bytes,
    /// Its distance from the first instruction, in bytes. The sum with the code's address is taken modulo 2^64.
    pub offset: u64,
}

/// Code with names, and bytes after it, of which a library file is made.
///
/// A plan fits where each instruction encodes, no name holds a zero byte, and the file has at most 67,108,864 bytes.
#[derive(Debug, Drop)]
pub struct LibraryPlan {
    /// The instructions, one after another.
    pub code: Items<Instr>,
    /// Names of functions in the code, each a global symbol.
    pub names: Items<NamedPlace>,
    /// What follows the code directly.
    pub bytes: Bytes,
}

/// The most bytes that a file may have: 64 MiB.
const FILE_LIMIT: u64 = 67_108_864;

impl LibraryPlan {
    /// Each instruction encodes, no name holds a zero byte, and the file isn't too large.
    pub fn fits(&self) -> bool
        ensures { IsTrue result ↔ Fits self.now }
    {
        if !all_encode(self.code.as_slice()) {
            return false;
        }
        if !names_have_no_zero(self.names.as_slice()) {
            return false;
        }
        self.file_size() <= FILE_LIMIT
    }

    /// The size of the file, or 2^64 - 1 where it is larger.
    fn file_size(&self) -> u64
        ensures { result ≡ min (file_end self.now) (2 ^ 64 - 1) }
    {
        let names = self.names.len() as u64;
        names
            .saturating_mul(28)
            .saturating_add(424)
            .saturating_add(code_size(self.code.as_slice()))
            .saturating_add(self.bytes.len() as u64)
            .saturating_add(strings_size(self.names.as_slice()))
    }
}

fn all_encode(code: &[Instr]) -> bool
    ensures { IsTrue result ↔ All (λ instr. IsSome (encoding instr)) code.now }
{
    code.iter().all(|instr| encode(instr).is_some())
}

fn names_have_no_zero(names: &[NamedPlace]) -> bool
    ensures { IsTrue result ↔ All (λ place. ¬ Contains place.name 0) names.now }
{
    for place in names {
        if has_zero(place.name.as_slice()) {
            return false;
        }
    }
    true
}

fn has_zero(name: &[u8]) -> bool
    ensures { IsTrue result ↔ Contains name.now 0 }
{
    name.contains(&0)
}

/// How many bytes the instructions take; 2^64 - 1 where it is more.
pub(crate) fn code_size(code: &[Instr]) -> u64
    ensures { result ≡ min (size_of_code code.now) (2 ^ 64 - 1) }
{
    let mut size: u64 = 0;
    for instr in code {
        size = size.saturating_add(length_of(encode(instr).unwrap_or(0)));
    }
    size
}

/// The size of the names, each with a zero after it, and of the empty string before them; 2^64 - 1 where it is larger.
#[tactic(auto, unfolding(crate::specs::LibraryFile::string_table))]
pub(crate) fn strings_size(names: &[NamedPlace]) -> u64
    ensures { result ≡ min (length (string_table names.now)) (2 ^ 64 - 1) }
{
    let mut size: u64 = 1;
    for place in names {
        size = size
            .saturating_add(place.name.len() as u64)
            .saturating_add(1);
    }
    size
}
