//! Where relocations may write: in one writable load of their own library.

ghost use Rattle.std.specs.Prelude.{◌≡◌, ◌<◌, nat_le, true, false};
ghost use Rattle.std.specs.List.Sorted.{IsNonDecreasingBy, IsPartitionPoint};
ghost use Rattle.byte_view.specs.ElfLoads.{end_of};
ghost use Rattle.elf_reader.specs.Elf.{load_of};
ghost use Rattle.elf_binder.specs.Relocating.{is_target, is_writable};
ghost use Rattle.elf_binder.specs.Sources.{source_of, load_end, IsRead};

use crate::source::Source;
use elf_reader::Load;

/// One writable load of the library has the addresses, as they are before the base is added.
pub fn is_writable(source: &Source<'_>, at: u64, len: u64) -> bool
    requires read { IsRead (source_of source.now) }
    requires some { 0 < len }
    ensures { result ≡ is_writable (source_of source.now).library.loads at len }
{
    let loads = source.elf.loads.as_slice();
    match loads.get(count_ending_by(loads, at)) {
        Some(load) => is_target(load, at, len),
        None => false,
    }
}

/// How many of the loads, which end in order, end by an address.
fn count_ending_by(loads: &[Load], addr: u64) -> usize
    requires { IsNonDecreasingBy load_end loads.now }
    ensures { IsPartitionPoint (λ load. nat_le (load_end load) addr ≡ true)
        (λ load. nat_le (load_end load) addr ≡ false) loads.now result }
{
    loads.partition_point(|load| ends_by(load, addr))
}

/// The load ends at an address, or before it.
fn ends_by(load: &Load, addr: u64) -> bool
    ensures { result ≡ nat_le (load_end load.now) addr }
{
    load.vaddr <= addr && load.size <= addr - load.vaddr
}

/// The load is writable, and has the addresses.
fn is_target(load: &Load, at: u64, len: u64) -> bool
    ensures { result ≡ is_target at len (load_of load.now) }
{
    load.rights.w
        && load.vaddr <= at
        && at - load.vaddr <= load.size
        && len <= load.size - (at - load.vaddr)
}
