//! Texts that end with a zero (ISO/IEC 9899 7.24).

ghost use Rattle.std.specs.Prelude.{◌≡◌, ◌<◌, ◌+◌, ◌^◌, ◌∷◌, [], false, is_some, length, position};
ghost use Rattle.std.specs.Prelude.{Some, IfOk, IfErr, OnErr, IfSome, OnSome, MatchOption};
ghost use Rattle.std.specs.Option.{option_copied};
ghost use Rattle.native_heap.specs.Outcome.{FailsBy};
ghost use Rattle.native_heap.specs.Texts.{is_zero, text_at, strlen, strcpy, strcmp, readable_from};

use crate::bytes::sign;
use crate::refusal::HeapBad;
use native_memory::Memory;
use std::alloc::Global;

/// How many bytes stand before the first zero. It faults where there is none from `s` to the end of its block, or that can't be
/// read.
#[tactic(auto, unfolding(crate::specs::Texts::strlen))]
pub fn strlen(memory: &Memory, s: u64) -> Result<u64, HeapBad>
    ensures ok { IfOk result (λ answer.
        strlen memory.now.space s ≡ Some (answer, memory.now.space)) }
    ensures err { IfErr result (λ bad. FailsBy bad (strlen memory.now.space s) false) }
{
    match text(memory, s) {
        Some(text) => Ok(text.len() as u64),
        None => Err(HeapBad::Fault),
    }
}

/// Copies a text and its zero, also over itself, and answers `to`. It faults where there is no text at `from`, or the copy can't
/// be written; that is found before any memory is taken.
#[tactic(auto, using(crate::proofs::Writing::writing), unfolding(crate::specs::Texts::strcpy))]
pub fn strcpy(alloc: Global, memory: &mut Memory, to: u64, from: u64) -> Result<u64, HeapBad>
    ensures ok { IfOk result (λ answer.
        strcpy memory.old.space to from ≡ Some (answer, memory.new.space)) }
    ensures err { IfErr result (λ bad.
        FailsBy bad (strcpy memory.old.space to from)
        (is_some (strcpy memory.old.space to from))) }
    ensures unchanged { OnErr result (memory.new ≡ memory.old) }
{
    let Some(text) = text(memory, from) else {
        return Err(HeapBad::Fault);
    };
    if !memory.holds(to, text.len() as u64 + 1, true) {
        return Err(HeapBad::Fault);
    }
    let mut bytes = Vec::with_capacity(alloc, text.len() + 1)?;
    bytes.extend_from_slice(text)?;
    bytes.push(0)?;
    memory.write(to, &bytes)?;
    Ok(to)
}

/// Compares two texts by the first bytes that differ. It goes byte by byte, and faults where one that is needed can't be read.
#[tactic(auto, unfolding(crate::specs::Texts::strcmp))]
pub fn strcmp(memory: &Memory, a: u64, b: u64) -> Result<u64, HeapBad>
    ensures ok { IfOk result (λ answer.
        strcmp memory.now.space a b ≡ Some (answer, memory.now.space)) }
    ensures err { IfErr result (λ bad. FailsBy bad (strcmp memory.now.space a b) false) }
{
    let mut left = a;
    let mut right = b;
    loop {
        let (Some(x), Some(y)) = (byte(memory, left), byte(memory, right)) else {
            return Err(HeapBad::Fault);
        };
        if x != y {
            return Ok(sign(x.cmp(&y)));
        }
        if x == 0 {
            return Ok(0);
        }
        left += 1;
        right += 1;
    }
}

/// The text at an address, without its zero: it stands in one block. None where that has no zero from there on, or can't be read.
#[tactic(auto, unfolding(crate::specs::Texts::text_at))]
fn text(memory: &Memory, s: u64) -> Option<&[u8]>
    ensures { option_copied result ≡ text_at memory.now.space s }
{
    let rest = memory.rest(s)?;
    let len = zero_in(rest)?;
    Some(&rest[..len])
}

/// The place of the first zero.
fn zero_in(bytes: &[u8]) -> Option<usize>
    ensures place { result ≡ position is_zero bytes.now }
    ensures within { IfSome result (λ at. at < length bytes.now) }
{
    bytes.iter().position(|byte| *byte == 0)
}

/// The byte at an address, None where it can't be read: the first of those that are readable from there on.
fn byte(memory: &Memory, addr: u64) -> Option<u8>
    ensures value { MatchOption result (readable_from memory.now.space addr ≡ [])
        (λ byte. readable_from memory.now.space addr
        ≡ byte ∷ readable_from memory.now.space (addr + 1)) }
    ensures low { OnSome result (addr < 2 ^ 46) }
{
    memory.blocks_lie_apart();
    let bytes = memory.contents(addr, 1)?;
    Some(bytes[0])
}
