//! The loads of a library, and the bytes at its addresses (System V gABI, 'Program Header').

ghost use Rattle.std.specs.Prelude.{◌≡◌, ◌+◌, ◌*◌, ◌<◌, ◌≤◌, ◌^◌, length, map, find, option_map, slice_range, nat_le, IfOk, IfSome, true, false};
ghost use Rattle.std.specs.List.Sorted.{IsNonDecreasingBy, IsPartitionPoint};
ghost use Rattle.byte_view.specs.ElfLoads as definition;
ghost use Rattle.byte_view.specs.ElfSymbols as symbols;
ghost use Rattle.byte_view.specs.Reading.{Reads};
ghost use Rattle.elf_reader.specs.Elf.{dynamic_entry, load_of};
ghost use Rattle.elf_reader.specs.Loads.{AreSound, file_end};
ghost use Rattle.elf_reader.specs.Refusals.{broken_part, refusal, part_place};

use crate::elf::{Load, Loads};
use crate::entry::Entry;
use crate::fields::{broken, must};
use crate::headers::{HEADER_SIZE, Headers, header_type};
use crate::part::{Broken, ElfBad, ElfPart};
use bound_base::Rights;
use byte_view::{number32, number64};
use std::alloc::Global;

/// `p_type` of a load.
const PT_LOAD: u32 = 1;

/// `p_type` of thread-local storage.
const PT_TLS: u32 = 7;

/// The address at or past which no load may end.
const ADDRESS_LIMIT: u64 = 0x1_0000_0000;

/// The bits of `p_flags`.
const READABLE: u32 = 4;

const WRITABLE: u32 = 2;

const EXECUTABLE: u32 = 1;

/// A range of the file.
#[derive(Clone, Copy, Debug)]
pub struct Range {
    pub start: usize,
    pub end: usize,
}

impl Load {
    /// Whether the bytes that the file has end at an address, or before it.
    fn ends_by(&self, addr: u64) -> bool
        ensures { result ≡ nat_le (file_end self.now) addr }
    {
        self.vaddr <= addr && self.file_size <= addr - self.vaddr
    }

    /// Whether the file has each of the `len` bytes from an address on, in this load.
    #[tactic(auto, unfolding(byte_view::specs::ElfLoads::holds_range))]
    fn holds(&self, addr: u64, len: u64) -> bool
        ensures { result ≡ definition.holds_range addr len (load_of self.now) }
    {
        if addr < self.vaddr || addr - self.vaddr > self.file_size {
            return false;
        }
        len <= self.file_size - (addr - self.vaddr)
    }
}

/// The loads among the program headers: each lies in the file, below 2^32 in memory, and after the load before.
pub fn read_loads(alloc: Global, bytes: &[u8], headers: Headers) -> Result<Loads, ElfBad>
    requires { 0 < headers.count → headers.start + 56 * headers.count ≤ length bytes.now }
    ensures loads { Reads refusal (map load_of) result
        (definition.loads bytes.now headers.start headers.count) }
    ensures sound { IfOk result (AreSound (length bytes.now)) }
{
    let mut loads = Loads::new(alloc);
    let mut end = 0;
    for k in 0..headers.count {
        let at = headers.start + HEADER_SIZE * k;
        if header_type(bytes, at) == PT_LOAD {
            let load = load_at(bytes, end, at)?;
            end = load.vaddr + load.size;
            loads.push(load)?;
        }
    }
    Ok(loads)
}

/// The load of the header at `at`, where the load before ends at the address `end`.
#[tactic(auto, unfolding(byte_view::specs::ElfLoads::load_at))]
fn load_at(bytes: &[u8], end: u64, at: usize) -> Result<Load, Broken>
    requires { at + 56 ≤ length bytes.now }
    ensures load { Reads broken_part load_of result (definition.load_at bytes.now end at) }
    ensures in_file { IfOk result (λ load. load.file_at + load.file_size ≤ length bytes.now) }
    ensures sizes { IfOk result (λ load. load.file_size ≤ load.size) }
    ensures after { IfOk result (λ load. end ≤ load.vaddr) }
    ensures low { IfOk result (λ load. load.vaddr + load.size < 2 ^ 32) }
{
    let file_at = number64(bytes, at + 8);
    let vaddr = number64(bytes, at + 16);
    let file_size = number64(bytes, at + 32);
    let size = number64(bytes, at + 40);
    let file_len = bytes.len() as u64;
    let is_in_file = file_at <= file_len && file_size <= file_len - file_at;
    must(is_in_file, ElfPart::Load, at + 8)?;
    must(file_size <= size, ElfPart::Load, at + 32)?;
    let is_low = vaddr < ADDRESS_LIMIT && size < ADDRESS_LIMIT - vaddr;
    must(end <= vaddr && is_low, ElfPart::Load, at + 16)?;
    Ok(Load {
        at: at as u64,
        file_at,
        file_size,
        vaddr,
        size,
        rights: rights_at(bytes, at),
    })
}

/// The rights that `p_flags` of the header at `at` gives.
fn rights_at(bytes: &[u8], at: usize) -> Rights
    requires { at + 56 ≤ length bytes.now }
    ensures r { result.r ≡ definition.has_flag 4 bytes.now at }
    ensures w { result.w ≡ definition.has_flag 2 bytes.now at }
    ensures x { result.x ≡ definition.has_flag 1 bytes.now at }
{
    let flags = number32(bytes, at + 4);
    Rights {
        r: flags & READABLE != 0,
        w: flags & WRITABLE != 0,
        x: flags & EXECUTABLE != 0,
    }
}

/// Asks that no program header is of thread-local storage.
pub fn without_tls(bytes: &[u8], headers: Headers) -> Result<(), Broken>
    requires { 0 < headers.count → headers.start + 56 * headers.count ≤ length bytes.now }
    ensures { Reads broken_part (λ _. 0) result
        (definition.without_tls bytes.now headers.start headers.count) }
{
    for k in 0..headers.count {
        let at = headers.start + HEADER_SIZE * k;
        must(header_type(bytes, at) != PT_TLS, ElfPart::Tls, at)?;
    }
    Ok(())
}

/// The load whose bytes in the file hold each of the `len` bytes from an address on.
fn load_that_holds(loads: &[Load], size: usize, addr: u64, len: u64) -> Option<Load>
    requires sound { AreSound size loads.now }
    requires some { 0 < len }
    ensures first { option_map load_of result
        ≡ find (definition.holds_range addr len) (map load_of loads.now) }
    ensures in_file { IfSome result (λ load. load.file_at + load.file_size ≤ size) }
    ensures low { IfSome result (λ load. load.vaddr + load.file_size < 2 ^ 32) }
    ensures from { IfSome result (λ load. load.vaddr ≤ addr) }
    ensures to { IfSome result (λ load. addr + len ≤ load.vaddr + load.file_size) }
{
    let before = count_ending_by(loads, addr);
    let load = *loads.get(before)?;
    if load.holds(addr, len) {
        Some(load)
    } else {
        None
    }
}

/// How many of the loads, which end in order, end by an address.
fn count_ending_by(loads: &[Load], addr: u64) -> usize
    requires { IsNonDecreasingBy file_end loads.now }
    ensures { IsPartitionPoint (λ load. nat_le (file_end load) addr ≡ true)
        (λ load. nat_le (file_end load) addr ≡ false) loads.now result }
{
    loads.partition_point(|load| load.ends_by(addr))
}

/// Where the file has the `len` bytes from an address on; None where no load holds them all.
#[tactic(auto, unfolding(byte_view::specs::ElfLoads::file_place))]
pub fn file_place(loads: &[Load], size: usize, addr: u64, len: u64) -> Option<usize>
    requires sound { AreSound size loads.now }
    requires some { 0 < len }
    ensures place { result ≡ definition.file_place (map load_of loads.now) addr len }
    ensures within { IfSome result (λ at. at + len ≤ size) }
{
    let load = load_that_holds(loads, size, addr, len)?;
    Some((load.file_at + (addr - load.vaddr)) as usize)
}

/// Where the file has the bytes from an address, `offset` past another, to the end of its load.
#[tactic(auto, unfolding(byte_view::specs::ElfLoads::bytes_from))]
pub fn range_from(bytes: &[u8], loads: &[Load], addr: u64, offset: u64) -> Option<Range>
    requires { AreSound (length bytes.now) loads.now }
    ensures bytes { option_map (λ range. slice_range bytes.now range.start range.end) result
        ≡ definition.bytes_from bytes.now (map load_of loads.now) (addr + offset) }
    ensures some { IfSome result (λ range. range.start < range.end) }
    ensures within { IfSome result (λ range. range.end ≤ length bytes.now) }
{
    let first = addr.checked_add(offset)?;
    let load = load_that_holds(loads, bytes.len(), first, 1)?;
    Some(Range {
        start: (load.file_at + (first - load.vaddr)) as usize,
        end: (load.file_at + load.file_size) as usize,
    })
}

/// Where a table of `len` bytes stands in the file, whose address is `offset` past the value of an entry. The part is
/// refused at that value where the table isn't in a load; a table of no bytes stands anywhere.
#[tactic(auto, unfolding(byte_view::specs::ElfSymbols::table_place))]
pub fn table_place(
    part: ElfPart,
    size: usize,
    loads: &[Load],
    entry: Entry,
    offset: u64,
    len: u64,
) -> Result<usize, Broken>
    requires { AreSound size loads.now }
    ensures place { Reads broken_part (λ x. x) result
        (symbols.table_place (part_place part) (map load_of loads.now) (dynamic_entry entry)
        (entry.value + offset) len) }
    ensures within { IfOk result (λ at. at + len ≤ size) }
{
    if len == 0 {
        return Ok(0);
    }
    let Some(addr) = entry.value.checked_add(offset) else {
        return Err(broken(part, entry.at + 8));
    };
    file_place(loads, size, addr, len).ok_or(broken(part, entry.at + 8))
}
