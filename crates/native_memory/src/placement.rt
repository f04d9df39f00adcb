//! Where the next block stands, and what a new block holds.

ghost use Rattle.std.specs.Prelude.{◌≡◌, ◌+◌, ◌-◌, ◌*◌, ◌/◌, ◌^◌, ◌<◌, ◌≤◌, length, replicate};
ghost use Rattle.std.specs.Prelude.{IfOk};
ghost use Rattle.native_memory.specs.AddressSpace.{listed};
ghost use Rattle.native_memory.specs.Placement.{up_to_16, within_top, new_contents, filled_up};

use crate::kind::Kind;
use std::alloc::{AllocError, Global};

/// No address of a block is at or above it.
const TOP: u64 = 1 << 46;

/// The next address after a block placed at the next address: on by its size rounded up to 16, and by 16. None past 2^46.
pub fn next_after(base: u64, size: u64) -> Option<u64>
    ensures { result ≡ within_top (base + up_to_16 size + 16) }
{
    if base > TOP || size > TOP {
        return None;
    }
    within_top(base + up_to_16(size) + 16)
}

/// The next address after a block placed elsewhere: its end rounded up to 16, and 16 on. None past 2^46.
pub fn next_behind(base: u64, size: u64) -> Option<u64>
    ensures { result ≡ within_top (up_to_16 (base + size) + 16) }
{
    if base > TOP || size > TOP {
        return None;
    }
    within_top(up_to_16(base + size) + 16)
}

/// What a new block holds: zeros, and nothing yet in an in-place block.
pub fn new_contents(alloc: Global, size: u64, kind: Kind) -> Result<Option<Vec<u8>>, AllocError>
    ensures { IfOk result (λ contents. listed contents ≡ new_contents size kind) }
{
    if kind == Kind::InPlace {
        return Ok(None);
    }
    Ok(Some(zeros(alloc, size as usize)?))
}

/// Bytes with zeros after them, up to a length.
pub fn filled_up(alloc: Global, bytes: &[u8], size: u64) -> Result<Vec<u8>, AllocError>
    requires { length bytes.now ≤ size }
    ensures { IfOk result (λ contents. contents.items ≡ filled_up bytes.now size) }
{
    let mut contents = Vec::with_capacity(alloc, size as usize)?;
    contents.extend_from_slice(bytes)?;
    contents.resize(size as usize, 0)?;
    Ok(contents)
}

fn zeros(alloc: Global, len: usize) -> Result<Vec<u8>, AllocError>
    ensures { IfOk result (λ zeros. zeros.items ≡ replicate len 0) }
{
    vec![in alloc; 0u8; len]
}

fn up_to_16(n: u64) -> u64
    requires { n + 15 < 2 ^ 64 }
    ensures { result ≡ up_to_16 n }
{
    (n + 15) / 16 * 16
}

fn within_top(next: u64) -> Option<u64>
    ensures { result ≡ within_top next }
{
    if next <= TOP { Some(next) } else { None }
}
