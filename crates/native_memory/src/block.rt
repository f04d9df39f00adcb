//! A live block: a small entry, and its contents beside it.

ghost use Rattle.std.specs.Prelude.{◌≡◌, ◌+◌, ◌-◌, ◌≤◌, true, drop, length, is_some, option_map};
ghost use Rattle.std.specs.Prelude.{IfOk, IfSome, None, if◌then◌else◌};
ghost use Rattle.std.specs.Option.{option_copied};
ghost use Rattle.native_memory.specs.AddressSpace.{is_heap, listed, block_of};
ghost use Rattle.native_memory.specs.Ranges.{covers, may_read, right_of, open_bytes, part};
ghost use Rattle.native_memory.specs.Ranges.{overwritten, write_in};
ghost use Rattle.native_memory.specs.InPlace.{is_in_place, is_here};
ghost use Rattle.native_memory.specs.Sound.{IsWhole};

use crate::access::Access;
use crate::kind::Kind;
use bound_base::Rights;
use std::alloc::{AllocError, Global};
use std::marker::Model;
use std::mem::replace;

/// A live block. The list of blocks moves these entries when a block ends, so they are small.
#[derive(Drop)]
pub struct LiveBlock {
    base: u64,
    size: u64,
    body: Box<Body>,
}

/// What a block is, and its bytes, unless it is an in-place block whose bytes are elsewhere.
#[derive(Drop)]
struct Body {
    rights: Rights,
    kind: Kind,
    contents: Option<Vec<u8>>,
}

impl Model for LiveBlock {
    ghost use Rattle.native_memory.specs.AddressSpace.{Block, block_of, listed};

    ghost Value = { Block };

    ghost view = { λ it. let body = it.body.value in
        block_of it.base it.size body.rights body.kind (listed body.contents) };
}

impl LiveBlock {
    /// A block with these contents.
    pub fn new(
        alloc: Global,
        base: u64,
        size: u64,
        rights: Rights,
        kind: Kind,
        contents: Option<Vec<u8>>,
    ) -> Result<LiveBlock, AllocError>
        ensures { IfOk result (λ it. it ≡ block_of base size rights kind (listed contents)) }
    {
        let body = Box::new(
            alloc,
            Body {
                rights,
                kind,
                contents,
            },
        )?;
        Ok(LiveBlock { base, size, body })
    }

    pub fn base(&self) -> u64
        ensures { result ≡ self.now.base }
    {
        self.base
    }

    pub fn size(&self) -> u64
        ensures { result ≡ self.now.size }
    {
        self.size
    }

    pub fn rights(&self) -> Rights
        ensures { result ≡ self.now.rights }
    {
        self.body.rights
    }

    pub fn kind(&self) -> Kind
        ensures { result ≡ self.now.kind }
    {
        self.body.kind
    }

    pub fn is_heap(&self) -> bool
        ensures { result ≡ is_heap self.now }
    {
        self.body.kind == Kind::Heap
    }

    pub fn is_in_place(&self) -> bool
        ensures { result ≡ is_in_place self.now.kind }
    {
        self.body.kind == Kind::InPlace
    }

    pub fn has_contents(&self) -> bool
        ensures { result ≡ is_some self.now.contents }
    {
        self.body.contents.is_some()
    }

    /// It has its contents, unless it is an in-place block whose contents are elsewhere.
    pub fn is_here(&self) -> bool
        ensures { result ≡ is_here self.now }
    {
        !self.is_in_place() || self.has_contents()
    }

    /// The bytes of a range that the block covers. None where its contents are elsewhere, or it may not be used so.
    pub fn part(&self, addr: u64, len: u64, access: Access) -> Option<&[u8]>
        requires covers { covers addr len self.now ≡ true }
        requires whole { IsWhole self.now }
        ensures value { option_copied result
            ≡ option_map (part addr len self.now) (open_bytes (right_of access) self.now) }
        ensures len { IfSome result (λ bytes. length bytes.now ≡ len) }
    {
        if !access.is_allowed(self.body.rights) {
            return None;
        }
        match &self.body.contents {
            Some(bytes) => {
                let start = (addr - self.base) as usize;
                Some(&bytes[start..start + len as usize])
            }
            None => None,
        }
    }

    /// The bytes from an address of the block to its end. None where its contents are elsewhere, or it may not be read.
    pub fn rest(&self, addr: u64) -> Option<&[u8]>
        requires covers { covers addr 1 self.now ≡ true }
        requires whole { IsWhole self.now }
        ensures { option_copied result
            ≡ option_map (drop (addr - self.now.base)) (open_bytes may_read self.now) }
    {
        if !self.body.rights.r {
            return None;
        }
        match &self.body.contents {
            Some(bytes) => Some(&bytes[(addr - self.base) as usize..]),
            None => None,
        }
    }

    /// The bytes of a heap block, whatever its rights. None of another block.
    pub fn heap_contents(&self) -> Option<&[u8]>
        ensures { option_copied result ≡ (if is_heap self.now then self.now.contents else None) }
    {
        if !self.is_heap() {
            return None;
        }
        match &self.body.contents {
            Some(bytes) => Some(bytes.as_slice()),
            None => None,
        }
    }

    /// Puts bytes over the contents, from an address of the block on.
    pub fn write(&mut self, addr: u64, from: &[u8])
        requires covers { covers addr (length from.now) self.old ≡ true }
        requires whole { IsWhole self.old }
        ensures { self.new ≡ write_in addr from.now self.old }
    {
        let at = (addr - self.base) as usize;
        match &mut self.body.contents {
            Some(bytes) => overwrite(bytes, at, from),
            None => {}
        }
    }

    /// Puts other contents in the place of those that were there, which it returns.
    pub fn replace(&mut self, contents: Option<Vec<u8>>) -> Option<Vec<u8>>
        ensures new { self.new ≡ record self.old { contents = listed contents } }
        ensures old { listed result ≡ self.old.contents }
    {
        replace(&mut self.body.contents, contents)
    }
}

fn overwrite(bytes: &mut Vec<u8>, at: usize, from: &[u8])
    requires { at + length from.now ≤ length bytes.old.items }
    ensures { bytes.new.items ≡ overwritten bytes.old.items at from.now }
{
    bytes[at..at + from.len()].copy_from_slice(from);
}
