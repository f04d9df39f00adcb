//! Where instructions begin (ECMA-335 III.1.2).

ghost use Rattle.std.specs.Prelude.{◌≡◌, ◌<◌, ◌≤◌, length, IfOk};
ghost use Rattle.byte_view.specs.Reading.{Reads};
ghost use Rattle.body_reader.specs.Bodies.{from_start};
ghost use Rattle.body_reader.specs.Code.{starts_of, is_marked, first_after};
ghost use Rattle.body_reader.specs.Refusals.{refusal};

use crate::bad::{BodyBad, bad};
use crate::decoding::next_at;
use bound_base::Items;
use std::alloc::Global;

/// Of each offset in the code, whether an instruction begins there.
pub type Starts = Items<bool>;

/// Marks where instructions begin in code that stands in a body from `start` on, or refuses the first place that no whole
/// instruction fits.
#[tactic(auto, unfolding(crate::specs::Code::starts_of))]
pub fn read_starts(alloc: Global, code: &[u8], start: usize) -> Result<Starts, BodyBad>
    requires { start ≤ 12 }
    ensures starts { Reads refusal (λ starts. starts) result (from_start start (starts_of code.now)) }
    ensures size { IfOk result (λ starts. length starts ≡ length code.now) }
{
    let mut starts = Starts::new(alloc);
    let mut next = 0;
    for at in 0..code.len() {
        starts.push(next == at)?;
        next = next_start(code, start, at, next)?;
    }
    Ok(starts)
}

/// Where the next instruction begins behind an offset in the code, at or behind which the first one begins at `first`.
fn next_start(code: &[u8], start: usize, at: usize, first: usize) -> Result<usize, BodyBad>
    requires start { start ≤ 12 }
    requires within { at < length code.now }
    ensures { Reads refusal (λ next. next) result (from_start start (first_after code.now at first)) }
{
    if first == at {
        next_at(code, at).ok_or(bad(start + at))
    } else {
        Ok(first)
    }
}

/// Whether an instruction begins at an offset.
pub fn is_start(starts: &[bool], at: usize) -> bool
    ensures { result ≡ is_marked starts.now at }
{
    starts.get(at).copied().unwrap_or(false)
}
