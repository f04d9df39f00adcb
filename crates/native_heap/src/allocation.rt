//! Memory management (ISO/IEC 9899 7.22.3), on heap blocks.

ghost use Rattle.std.specs.Prelude.{◌≡◌, ◌≤◌, length, take, false, is_some};
ghost use Rattle.std.specs.Prelude.{Some, IfOk, IfErr, IsSome, OnErr};
ghost use Rattle.native_memory.specs.Placement.{block_with, heap_block};
ghost use Rattle.native_memory.specs.Sound.{IsSound};
ghost use Rattle.native_heap.specs.Outcome.{FailsBy};
ghost use Rattle.native_heap.specs.Allocation.{malloc, calloc, realloc, free, heap_placed, moved};
ghost use Rattle.native_heap.specs.Allocation.{malloc_takes, calloc_takes, realloc_takes};

use crate::refusal::HeapBad;
use native_memory::{DATA_RIGHTS, Kind, Memory, PlaceBad};
use std::alloc::Global;

/// A heap block of so many bytes, or 0 where there is no room. It never faults.
#[tactic(auto, unfolding(crate::specs::Allocation::malloc))]
pub fn malloc(memory: &mut Memory, size: u64) -> Result<u64, HeapBad>
    ensures ok { IfOk result (λ answer.
        malloc memory.old.space size ≡ Some (answer, memory.new.space)) }
    ensures err { IfErr result (λ bad.
        FailsBy bad (malloc memory.old.space size) (malloc_takes memory.old.space size)) }
    ensures unchanged { OnErr result (memory.new ≡ memory.old) }
{
    match memory.place(size, DATA_RIGHTS, Kind::Heap) {
        Ok(base) => Ok(base),
        Err(PlaceBad::Room) => Ok(0),
        Err(PlaceBad::Memory) => Err(HeapBad::Memory),
    }
}

/// A heap block of `count` times `size` bytes, or 0 where there is no room or that is no number of 64 bits. It never faults.
#[tactic(auto, unfolding(crate::specs::Allocation::calloc))]
pub fn calloc(memory: &mut Memory, count: u64, size: u64) -> Result<u64, HeapBad>
    ensures ok { IfOk result (λ answer.
        calloc memory.old.space count size ≡ Some (answer, memory.new.space)) }
    ensures err { IfErr result (λ bad.
        FailsBy bad (calloc memory.old.space count size)
        (calloc_takes memory.old.space count size)) }
    ensures unchanged { OnErr result (memory.new ≡ memory.old) }
{
    match count.checked_mul(size) {
        Some(bytes) => malloc(memory, bytes),
        None => Ok(0),
    }
}

/// A heap block of so many bytes in place of the one at `p`, with the bytes that are common to both, or 0 where there is no
/// room, and then that one lives on. At 0 as `malloc`. It faults where `p` isn't 0 or the base of a live heap block, whatever
/// that block's rights.
#[tactic(auto, unfolding(crate::specs::Allocation::realloc))]
pub fn realloc(alloc: Global, memory: &mut Memory, p: u64, size: u64) -> Result<u64, HeapBad>
    ensures ok { IfOk result (λ answer.
        realloc memory.old.space p size ≡ Some (answer, memory.new.space)) }
    ensures err { IfErr result (λ bad.
        FailsBy bad (realloc memory.old.space p size)
        (realloc_takes memory.old.space p size)) }
    ensures unchanged { OnErr result (memory.new ≡ memory.old) }
{
    if p == 0 {
        return malloc(memory, size);
    }
    memory.blocks_lie_apart();
    let Some(bytes) = memory.heap_contents(p) else {
        return Err(HeapBad::Fault);
    };
    let front = Vec::from_slice(alloc, front(bytes, size))?;
    replace(memory, p, size, &front)
}

/// The first bytes, up to so many.
fn front(bytes: &[u8], size: u64) -> &[u8]
    ensures value { result.now ≡ take size bytes.now }
    ensures within { length result.now ≤ size }
{
    let size = size as usize;
    if size < bytes.len() {
        &bytes[..size]
    } else {
        bytes
    }
}

/// Places a heap block with bytes at its front, and then ends the block at `p`. Where there is no room it answers 0, and that
/// one lives on.
fn replace(memory: &mut Memory, p: u64, size: u64, front: &[u8]) -> Result<u64, HeapBad>
    requires sound { IsSound memory.old.space }
    requires live { IsSome (block_with memory.old.space p) }
    requires fits { length front.now ≤ size }
    ensures ok { IfOk result (λ answer.
        moved memory.old.space p front.now (heap_placed memory.old.space size)
        ≡ Some (answer, memory.new.space)) }
    ensures err { IfErr result (λ bad.
        FailsBy bad (moved memory.old.space p front.now (heap_placed memory.old.space size))
        (is_some (moved memory.old.space p front.now (heap_placed memory.old.space size)))) }
    ensures unchanged { OnErr result (memory.new ≡ memory.old) }
{
    match memory.place(size, DATA_RIGHTS, Kind::Heap) {
        Ok(base) => {
            memory.write(base, front)?;
            memory.end(p);
            Ok(base)
        }
        Err(PlaceBad::Room) => Ok(0),
        Err(PlaceBad::Memory) => Err(HeapBad::Memory),
    }
}

/// Ends the heap block at `p`, and nothing at 0. It answers `p`. It faults where `p` isn't 0 or the base of a live heap block.
#[tactic(auto, unfolding(crate::specs::Allocation::free))]
pub fn free(memory: &mut Memory, p: u64) -> Result<u64, HeapBad>
    ensures ok { IfOk result (λ answer.
        free memory.old.space p ≡ Some (answer, memory.new.space)) }
    ensures err { IfErr result (λ bad. FailsBy bad (free memory.old.space p) false) }
    ensures unchanged { OnErr result (memory.new ≡ memory.old) }
{
    if p == 0 {
        return Ok(p);
    }
    if !is_heap_base(memory, p) || !memory.end(p) {
        return Err(HeapBad::Fault);
    }
    Ok(p)
}

/// A live heap block has this base.
fn is_heap_base(memory: &Memory, p: u64) -> bool
    ensures { result ≡ is_some (heap_block memory.now.space p) }
{
    match memory.block_at(p) {
        Some((_, _, Kind::Heap)) => true,
        _ => false,
    }
}
