//! Native memory: the live blocks of an address space, in order of their bases.

ghost use Rattle.std.specs.Prelude.{◌≡◌, ◌+◌, ◌-◌, ◌*◌, ◌^◌, ◌<◌, ◌≤◌, max, length, is_some};
ghost use Rattle.std.specs.Prelude.{Some, None, IfOk, IfErr, OnOk, OnErr, OnSome, IfNone, IfSome};
ghost use Rattle.std.specs.Prelude.{MatchOption, option_map, if◌then◌else◌, true, false};
ghost use Rattle.std.specs.Option.{option_copied};
ghost use Rattle.bound_base.specs.declared.limits.Rights.{Rights};
ghost use Rattle.native_memory.specs.AddressSpace.{empty, live_bytes, heap_blocks, listed};
ghost use Rattle.native_memory.specs.AddressSpace.{block_of};
ghost use Rattle.native_memory.specs.Ranges.{covers, may_read, right_of, right_to};
ghost use Rattle.native_memory.specs.Ranges.{bytes_at, rest_at, word_at, written_at, counted};
ghost use Rattle.native_memory.specs.Placement.{placed, placed_at, ended, Does, FailsToPlace};
ghost use Rattle.native_memory.specs.Placement.{base_of, block_with, heap_contents, described};
ghost use Rattle.native_memory.specs.Placement.{stands_at};
ghost use Rattle.native_memory.specs.Placement.{has_room, with_behind};
ghost use Rattle.native_memory.specs.InPlace.{adopted, lent_at, taken_back, are_all_here};
ghost use Rattle.native_memory.specs.InPlace.{is_in_place_at, waits_at};
ghost use Rattle.native_memory.specs.Search.{Picks, IsWritable};
ghost use Rattle.native_memory.specs.Sound.{HasItsBytes, IsSound};
ghost use Rattle.native_memory.specs.Laws.{LieApart};

use crate::access::Access;
use crate::block::LiveBlock;
use crate::faults::{Fault, PlaceBad};
use crate::kind::Kind;
use crate::placement::{filled_up, new_contents, next_after, next_behind};
use crate::search::{last_at, last_not_above};
use crate::steps::Steps;
use bound_base::{Bytes, Rights};
use byteorder::{ByteOrder, LittleEndian};
use std::alloc::Global;
use std::collections::VecDeque;
use std::marker::Model;
use std::sync::ledger::Ledger;

/// The live blocks of one address space.
#[derive(Drop)]
pub struct Memory {
    blocks: VecDeque<LiveBlock>,
    limit: u64,
    next: u64,
    edge: u64,
    live: u64,
    written: u64,
}

impl Model for Memory {
    ghost use Rattle.native_memory.specs.AddressSpace.{AddressSpace, NativeMemory, space_with};
    ghost use Rattle.native_memory.specs.Sound.{IsKept};

    ghost Value = { NativeMemory };

    ghost view = { λ m.
        record { space = space_with m.limit m.next m.edge m.blocks.items; written = m.written } };

    ghost invariant = { λ m. IsKept (space_with m.limit m.next m.edge m.blocks.items) m.live };
}

/// The lowest address that a block may have.
const LOWEST: u64 = 65_536;

impl Memory {
    /// Memory without blocks, of which at most `limit` bytes may live at once. It allocates nothing.
    pub fn new(alloc: Global, limit: u64) -> Memory
        ensures space { result.space ≡ empty limit }
        ensures written { result.written ≡ 0 }
    {
        Memory {
            blocks: VecDeque::new(alloc),
            limit,
            next: LOWEST,
            edge: LOWEST,
            live: 0,
            written: 0,
        }
    }

    /// The live bytes.
    pub fn live(&self) -> u64
        ensures { result ≡ live_bytes self.now.space }
    {
        self.live
    }

    /// Where `place` will put the next block: 65,536 at first.
    pub fn next(&self) -> u64
        ensures { result ≡ self.now.space.next }
    {
        self.next
    }

    /// Where the newest block ends, which counts as one byte long where it has none: 65,536 at first. `place_at` may go on
    /// from here.
    pub fn edge(&self) -> u64
        ensures { result ≡ self.now.space.edge }
    {
        self.edge
    }

    /// How many bytes all writes so far put, up to 2^64 - 1.
    pub fn written(&self) -> u64
        ensures { result ≡ self.now.written }
    {
        self.written
    }

    /// The number of live heap blocks.
    pub fn heap(&self) -> u64
        ensures { result ≡ heap_blocks self.now.space }
    {
        let mut count = 0;
        for at in 0..self.blocks.len() {
            if self.blocks[at].is_heap() {
                count += 1;
            }
        }
        count
    }

    /// Each in-place block has its bytes.
    pub fn all_here(&self) -> bool
        ensures { result ≡ are_all_here self.now.space }
    {
        for at in 0..self.blocks.len() {
            if !self.blocks[at].is_here() {
                return false;
            }
        }
        true
    }

    /// Places a block at the next address, and gives its base. It holds zeros; an in-place block has no bytes yet.
    ///
    /// There is no room, and the error is `Room`, where the new block would bring the live bytes above the limit or the next
    /// address above 2^46, and nowhere else. `Memory` is for want of memory where there is room. With either nothing changes.
    pub fn place(&mut self, size: u64, rights: Rights, kind: Kind) -> Result<u64, PlaceBad>
        ensures base { IfOk result (λ base. base ≡ self.old.space.next) }
        ensures ok { OnOk result (placed self.old.space size rights kind ≡ Some self.new.space) }
        ensures err { IfErr result (λ bad.
            FailsToPlace bad (placed self.old.space size rights kind)) }
        ensures unchanged { OnErr result (self.new ≡ self.old) }
        ensures written { self.new.written ≡ self.old.written }
    {
        let base = self.next;
        let Some(next) = next_after(base, size) else {
            return Err(PlaceBad::Room);
        };
        if size > self.limit - self.live {
            return Err(PlaceBad::Room);
        }
        let contents = new_contents(*self.blocks.allocator(), size, kind)?;
        self.push(base, size, rights, kind, contents, next)?;
        Ok(base)
    }

    /// Places a segment at an address that isn't below `edge`: it begins with `bytes`, and zeros fill it up. The next address is
    /// then at least 16 bytes after its end, and a multiple of 16.
    ///
    /// The errors are those of `place`.
    pub fn place_at(
        &mut self,
        base: u64,
        bytes: &[u8],
        size: u64,
        rights: Rights,
    ) -> Result<(), PlaceBad>
        requires behind { self.old.space.edge ≤ base }
        requires fits { length bytes.now ≤ size }
        ensures ok { OnOk result
            (placed_at self.old.space base bytes.now size rights ≡ Some self.new.space) }
        ensures err { IfErr result (λ bad.
            FailsToPlace bad (placed_at self.old.space base bytes.now size rights)) }
        ensures unchanged { OnErr result (self.new ≡ self.old) }
        ensures written { self.new.written ≡ self.old.written }
    {
        let Some(next) = next_behind(base, size) else {
            return Err(PlaceBad::Room);
        };
        if size > self.limit - self.live {
            return Err(PlaceBad::Room);
        }
        let contents = filled_up(*self.blocks.allocator(), bytes, size)?;
        self.push(base, size, rights, Kind::Segment, Some(contents), next)?;
        Ok(())
    }

    /// Ends the block that has this base, and tells whether there was one. Where there was none nothing changes.
    pub fn end(&mut self, base: u64) -> bool
        ensures done { Does result (ended self.old.space base) self.old.space self.new.space }
        ensures written { self.new.written ≡ self.old.written }
    {
        let Some(at) = self.at_base(base) else {
            return false;
        };
        match self.blocks.remove(at) {
            Some(gone) => {
                self.live -= gone.size();
                true
            }
            None => false,
        }
    }

    /// Gives the in-place block with this base its bytes, which are moved and not copied. Where no in-place block stands
    /// there that is without bytes and has their length, it hands them back, and nothing changes.
    pub fn adopt(&mut self, base: u64, body: Bytes) -> Option<Bytes>
        ensures done { IfNone result (adopted self.old.space base body ≡ Some self.new.space) }
        ensures refused { OnSome result (adopted self.old.space base body ≡ None) }
        ensures unchanged { OnSome result (self.new ≡ self.old) }
        ensures back { IfSome result (λ back. back ≡ body) }
        ensures written { self.new.written ≡ self.old.written }
    {
        let len = body.len() as u64;
        match self.waiting(base, len) {
            Some(at) => {
                let _ = self.blocks[at].replace(Some(body.into_vec()));
                None
            }
            None => Some(body),
        }
    }

    /// Takes the bytes of the in-place block with this base, which are moved and not copied. None exactly where no in-place
    /// block with bytes stands there, and then nothing changes.
    pub fn take_back(&mut self, base: u64) -> Option<Bytes>
        ensures bytes { result ≡ lent_at self.old.space base }
        ensures taken { OnSome result (self.new.space ≡ taken_back self.old.space base) }
        ensures unchanged { IfNone result (self.new ≡ self.old) }
        ensures written { self.new.written ≡ self.old.written }
    {
        let at = self.in_place(base)?;
        if !self.blocks[at].has_contents() {
            return None;
        }
        let contents = self.blocks[at].replace(None)?;
        Some(Bytes::from_vec(contents))
    }

    /// The blocks lie one after another, no two share an address, each lies between 65,536 and the next address, and the live
    /// bytes are within the limit. The contract is the law; the call does nothing.
    pub fn blocks_lie_apart(&self)
        ensures sound { IsSound self.now.space }
        ensures apart { LieApart self.now.space }
    {
        let _blocks = &self.blocks;
    }

    /// Reads the bytes of a range. A range of no bytes never faults.
    ///
    /// Else one live block has to cover the whole range, be readable, and have its bytes, which an in-place block may lack.
    /// Where there is no such block it faults, and `into` is as it was.
    pub fn read(&self, addr: u64, into: &mut [u8]) -> Result<(), Fault>
        ensures ok { OnOk result
            (bytes_at may_read self.now.space addr (length into.old) ≡ Some into.new) }
        ensures err { OnErr result
            (bytes_at may_read self.now.space addr (length into.old) ≡ None) }
        ensures unchanged { OnErr result (into.new ≡ into.old) }
        ensures fault { IfErr result (λ fault.
            fault ≡ record { addr = addr; len = length into.old; write = false }) }
    {
        let len = into.len() as u64;
        match self.bytes_at(addr, len, Access::Read) {
            Some(bytes) => {
                into.copy_from_slice(bytes);
                Ok(())
            }
            None => Err(Fault {
                addr,
                len,
                write: false,
            }),
        }
    }

    /// The bytes of a range, lent. None exactly where a read of it would fault.
    pub fn contents(&self, addr: u64, len: u64) -> Option<&[u8]>
        ensures value { option_copied result ≡ bytes_at may_read self.now.space addr len }
        ensures len { IfSome result (λ bytes. length bytes.now ≡ len) }
    {
        self.bytes_at(addr, len, Access::Read)
    }

    /// The bytes from an address to the end of the live block in which it lies, lent. None exactly where a read of one byte
    /// there would fault.
    pub fn rest(&self, addr: u64) -> Option<&[u8]>
        ensures { option_copied result ≡ rest_at self.now.space addr }
    {
        let at = self.covering(addr, 1)?;
        self.blocks[at].rest(addr)
    }

    /// The word at an address, lowest byte first. Its four bytes have to lie in one live block that may be executed and has
    /// its bytes; else it faults.
    pub fn fetch(&self, pc: u64) -> Result<u32, Fault>
        ensures ok { IfOk result (λ word. word_at self.now.space pc ≡ Some word) }
        ensures err { OnErr result (word_at self.now.space pc ≡ None) }
        ensures fault { IfErr result (λ fault.
            fault ≡ record { addr = pc; len = 4; write = false }) }
    {
        match self.bytes_at(pc, 4, Access::Execute) {
            Some(bytes) => Ok(LittleEndian::read_u32(bytes)),
            None => Err(Fault {
                addr: pc,
                len: 4,
                write: false,
            }),
        }
    }

    /// Writes bytes from an address on. A range of no bytes never faults.
    ///
    /// Else one live block has to cover the whole range, be writable, and have its bytes, which an in-place block may lack.
    /// Where there is no such block it faults, and nothing changes.
    pub fn write(&mut self, addr: u64, from: &[u8]) -> Result<(), Fault>
        ensures ok { OnOk result
            (written_at self.old.space addr from.now ≡ Some self.new.space) }
        ensures err { OnErr result (written_at self.old.space addr from.now ≡ None) }
        ensures unchanged { OnErr result (self.new ≡ self.old) }
        ensures written { OnOk result
            (self.new.written ≡ counted self.old.written (length from.now)) }
        ensures fault { IfErr result (λ fault.
            fault ≡ record { addr = addr; len = length from.now; write = true }) }
    {
        let len = from.len() as u64;
        let written = self.written.saturating_add(len);
        if len == 0 {
            return Ok(());
        }
        match self.writable(addr, len) {
            Some(at) => {
                self.blocks[at].write(addr, from);
                self.written = written;
                Ok(())
            }
            None => Err(Fault {
                addr,
                len,
                write: true,
            }),
        }
    }

    /// A read of the range, or a write, wouldn't fault.
    pub fn holds(&self, addr: u64, len: u64, write: bool) -> bool
        ensures { result ≡ is_some (bytes_at (right_to write) self.now.space addr len) }
    {
        let access = if write { Access::Write } else { Access::Read };
        self.bytes_at(addr, len, access).is_some()
    }

    /// The base of the live block in which the address lies, None where it lies in none. A step is an entry of the list of
    /// blocks that is read: among n blocks there are p with 2^p at most 2n + 1.
    pub fn find<L: Ledger>(&self, addr: u64, steps: &mut Steps<L>) -> Option<u64>
        ensures base { result ≡ base_of self.now.space addr }
        ensures cost { 2 ^ (steps.new - steps.old) ≤ 2 * length self.now.space.blocks + 1 }
        ensures count { steps.old ≤ steps.new }
        ensures read { 0 < length self.now.space.blocks → steps.old < steps.new }
    {
        let it = last_not_above(&self.blocks, addr, steps)?;
        if addr - it.base < it.size {
            Some(it.base)
        } else {
            None
        }
    }

    /// The size, rights and kind of the live block with this base, None where there is none.
    pub fn block_at(&self, base: u64) -> Option<(u64, Rights, Kind)>
        ensures { result ≡ option_map described (block_with self.now.space base) }
    {
        let at = self.at_base(base)?;
        let block = &self.blocks[at];
        Some((block.size(), block.rights(), block.kind()))
    }

    /// The bytes of the live heap block with this base, lent, whatever its rights. None where no live heap block has it.
    pub fn heap_contents(&self, base: u64) -> Option<&[u8]>
        ensures { option_copied result ≡ heap_contents self.now.space base }
    {
        let at = self.at_base(base)?;
        self.blocks[at].heap_contents()
    }

    /// The bytes of a range that one live block with the right covers.
    fn bytes_at(&self, addr: u64, len: u64, access: Access) -> Option<&[u8]>
        ensures value { option_copied result
            ≡ bytes_at (right_of access) self.now.space addr len }
        ensures len { IfSome result (λ bytes. length bytes.now ≡ len) }
    {
        if len == 0 {
            return Some(&[]);
        }
        let at = self.covering(addr, len)?;
        self.blocks[at].part(addr, len, access)
    }

    /// The place of the block that covers a range, where it may be written.
    fn writable(&self, addr: u64, len: u64) -> Option<usize>
        requires { 0 < len }
        ensures { IsWritable self.now.space addr len result }
    {
        let at = self.covering(addr, len)?;
        if self.blocks[at].part(addr, len, Access::Write).is_some() {
            Some(at)
        } else {
            None
        }
    }

    /// The place of the block that covers a range.
    fn covering(&self, addr: u64, len: u64) -> Option<usize>
        requires { 0 < len }
        ensures { Picks (covers addr len) self.now.space.blocks result }
    {
        let it = last_at(&self.blocks, addr)?;
        let start = addr - it.base;
        if start <= it.size && len <= it.size - start {
            Some(it.at)
        } else {
            None
        }
    }

    /// The place of the block with a base.
    fn at_base(&self, base: u64) -> Option<usize>
        ensures { Picks (stands_at base) self.now.space.blocks result }
    {
        let it = last_at(&self.blocks, base)?;
        if it.base == base { Some(it.at) } else { None }
    }

    /// The place of the in-place block with a base.
    fn in_place(&self, base: u64) -> Option<usize>
        ensures { Picks (is_in_place_at base) self.now.space.blocks result }
    {
        let at = self.at_base(base)?;
        if self.blocks[at].is_in_place() {
            Some(at)
        } else {
            None
        }
    }

    /// The place of that block, where it has this size and is without bytes.
    fn waiting(&self, base: u64, len: u64) -> Option<usize>
        ensures { Picks (waits_at base len) self.now.space.blocks result }
    {
        let at = self.in_place(base)?;
        let block = &self.blocks[at];
        if !block.has_contents() && block.size() == len {
            Some(at)
        } else {
            None
        }
    }

    /// Adds a block after the others. There is room for it.
    fn push(
        &mut self,
        base: u64,
        size: u64,
        rights: Rights,
        kind: Kind,
        contents: Option<Vec<u8>>,
        next: u64,
    ) -> Result<(), PlaceBad>
        requires behind { self.old.space.edge ≤ base }
        requires room { has_room self.old.space size next ≡ true }
        requires end { base + max size 1 ≤ next }
        requires whole { HasItsBytes size kind (listed contents) }
        ensures ok { OnOk result
            (let block = block_of base size rights kind (listed contents) in
            self.new.space ≡ with_behind self.old.space block next) }
        ensures err { OnErr result (self.new ≡ self.old) }
        ensures memory { IfErr result (λ bad. bad ≡ PlaceBad.Memory) }
        ensures written { self.new.written ≡ self.old.written }
    {
        let block = LiveBlock::new(*self.blocks.allocator(), base, size, rights, kind, contents)?;
        self.blocks.push_back(block)?;
        self.live += size;
        self.edge = base + size.max(1);
        self.next = next;
        Ok(())
    }
}
