//! Copying, comparing and filling ranges of bytes (ISO/IEC 9899 7.24).

ghost use Rattle.std.specs.Prelude.{◌≡◌, false, is_some, Some, IfOk, IfErr, OnErr};
ghost use Rattle.native_heap.specs.Outcome.{FailsBy};
ghost use Rattle.native_heap.specs.Bytes.{memmove, memset, memcmp, sign};

use crate::refusal::HeapBad;
use native_memory::Memory;
use std::alloc::Global;
use std::cmp::Ordering;

/// Copies a range of `len` bytes, also to one that overlaps it, and answers `to`. It faults where the one can't be read or the
/// other can't be written; that is found before any memory is taken.
#[tactic(auto, using(crate::proofs::Writing::writing), unfolding(crate::specs::Bytes::memmove))]
pub fn memmove(
    alloc: Global,
    memory: &mut Memory,
    to: u64,
    from: u64,
    len: u64,
) -> Result<u64, HeapBad>
    ensures ok { IfOk result (λ answer.
        memmove memory.old.space to from len ≡ Some (answer, memory.new.space)) }
    ensures err { IfErr result (λ bad.
        FailsBy bad (memmove memory.old.space to from len)
        (is_some (memmove memory.old.space to from len))) }
    ensures unchanged { OnErr result (memory.new ≡ memory.old) }
{
    let Some(bytes) = memory.contents(from, len) else {
        return Err(HeapBad::Fault);
    };
    if !memory.holds(to, len, true) {
        return Err(HeapBad::Fault);
    }
    let bytes = Vec::from_slice(alloc, bytes)?;
    memory.write(to, &bytes)?;
    Ok(to)
}

/// Fills a range of `len` bytes with the lowest byte of a word, and answers `to`. It faults where the range can't be written;
/// that is found before any memory is taken.
#[tactic(auto, using(crate::proofs::Writing::writing), unfolding(crate::specs::Bytes::memset))]
pub fn memset(alloc: Global, memory: &mut Memory, to: u64, c: u64, len: u64) -> Result<u64, HeapBad>
    ensures ok { IfOk result (λ answer.
        memset memory.old.space to c len ≡ Some (answer, memory.new.space)) }
    ensures err { IfErr result (λ bad.
        FailsBy bad (memset memory.old.space to c len)
        (is_some (memset memory.old.space to c len))) }
    ensures unchanged { OnErr result (memory.new ≡ memory.old) }
{
    if !memory.holds(to, len, true) {
        return Err(HeapBad::Fault);
    }
    let bytes = vec![in alloc; (c % 256) as u8; len as usize]?;
    memory.write(to, &bytes)?;
    Ok(to)
}

/// Compares two ranges of `len` bytes by the first bytes that differ. It faults where one of them can't be read.
#[tactic(auto, unfolding(crate::specs::Bytes::memcmp))]
pub fn memcmp(memory: &Memory, a: u64, b: u64, len: u64) -> Result<u64, HeapBad>
    ensures ok { IfOk result (λ answer.
        memcmp memory.now.space a b len ≡ Some (answer, memory.now.space)) }
    ensures err { IfErr result (λ bad. FailsBy bad (memcmp memory.now.space a b len) false) }
{
    match (memory.contents(a, len), memory.contents(b, len)) {
        (Some(left), Some(right)) => Ok(sign(left.cmp(right))),
        _ => Err(HeapBad::Fault),
    }
}

/// The word of a comparison: -1, 0 or 1.
pub fn sign(order: Ordering) -> u64
    ensures { result ≡ sign order }
{
    match order {
        Ordering::Less => u64::MAX,
        Ordering::Equal => 0,
        Ordering::Greater => 1,
    }
}
