//! The libraries that are bound, each with its name and the file from which it was read.

ghost use Rattle.std.specs.Prelude.{◌≡◌, ◌<◌, ◌≤◌, length, map, slice_get, Some};
ghost use Rattle.elf_reader.specs.Elf.{library_of};
ghost use Rattle.elf_binder.specs.Binding.{sources_from};
ghost use Rattle.elf_binder.specs.Sources.{source_of};

use crate::refusal::BindBad;
use bound_base::Bytes;
use elf_reader::{Elf, ElfPart};
use std::marker::Model;

/// A library that is bound.
#[derive(Clone, Copy)]
pub struct Source<'a> {
    /// Its number, from 0.
    pub number: u32,
    /// Its name.
    pub name: &'a [u8],
    /// Its file.
    pub file: &'a [u8],
    /// What was read from the file.
    pub elf: &'a Elf,
}

/// The libraries that are bound, at most 16: three slices of one length, seen as one list.
#[derive(Drop)]
pub struct Sources<'a> {
    elfs: &'a [Elf],
    files: &'a [Bytes],
    names: &'a [Bytes],
}

impl<'a> Model for Sources<'a> {
    ghost use Rattle.std.specs.Prelude.{◌≡◌, ◌≤◌, List, length, map};
    ghost use Rattle.elf_reader.specs.Elf.{library_of};
    ghost use Rattle.elf_binder.specs.Loading as loading;
    ghost use Rattle.elf_binder.specs.Binding.{sources_from};

    ghost Value = { List loading.Source };

    ghost view = { λ s. sources_from 0 (map library_of s.elfs.now) s.files.now s.names.now };

    ghost invariant = { λ s. (length s.files.now ≡ length s.elfs.now)
        × (length s.names.now ≡ length s.elfs.now) × (length s.elfs.now ≤ 16) };
}

impl<'a> Sources<'a> {
    /// Each library with the file from which it was read, and its name.
    pub fn joined(elfs: &'a [Elf], files: &'a [Bytes], names: &'a [Bytes]) -> Sources<'a>
        requires files { length files.now ≡ length elfs.now }
        requires names { length names.now ≡ length elfs.now }
        requires few { length elfs.now ≤ 16 }
        ensures { result ≡ sources_from 0 (map library_of elfs.now) files.now names.now }
    {
        Sources { elfs, files, names }
    }

    /// How many they are.
    pub fn len(&self) -> usize
        ensures count { result ≡ length self.now }
        ensures few { result ≤ 16 }
    {
        self.elfs.len()
    }

    /// The library of a number.
    pub fn at(&self, number: usize) -> Source<'a>
        requires { number < length self.now }
        ensures { slice_get self.now number ≡ Some (source_of result) }
    {
        source_at(self.elfs, self.files, self.names, number)
    }
}

/// The library of a number, from each of the three slices.
fn source_at<'a>(
    elfs: &'a [Elf],
    files: &'a [Bytes],
    names: &'a [Bytes],
    number: usize,
) -> Source<'a>
    requires elf { number < length elfs.now }
    requires file { number < length files.now }
    requires name { number < length names.now }
    requires few { number < 16 }
    ensures { slice_get (sources_from 0 (map library_of elfs.now) files.now names.now) number
        ≡ Some (source_of result) }
{
    let file = files[number].as_slice();
    let name = names[number].as_slice();
    Source {
        number: number as u32,
        name,
        file,
        elf: &elfs[number],
    }
}

/// The refusal of a library: its part that is broken, and the file offset of the field that is wrong.
pub fn broken(source: &Source<'_>, part: ElfPart, at: u64) -> BindBad
    ensures { result ≡ BindBad.BadLib source.now.number part at }
{
    BindBad::BadLib {
        which: source.number,
        part,
        at,
    }
}
