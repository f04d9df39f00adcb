//! Custom modifiers and constraints (ECMA-335 II.23.2.7, II.23.2.9).

ghost use Rattle.std.specs.Prelude.{option_map};
ghost use Rattle.byte_view.specs.Reading.{Reads};
ghost use Rattle.sig_reader.specs.Reading.{prefix_in, all_prefixes_in};
ghost use Rattle.sig_reader.specs.View.{left_at};

use crate::elements::{PINNED, is_modifier};
use crate::numbers::token;
use crate::parts::Stop;

/// One custom modifier, or PINNED where it may stand: whether PINNED was among what came so far, and
/// the bytes after it; None where neither comes.
#[tactic(auto, unfolding(crate::specs::Reading::prefix_in))]
fn next_prefix(constrained: bool, pinned: bool, b: &[u8]) -> Result<Option<(bool, &[u8])>, Stop>
    ensures { Reads left_at (λ r. option_map (λ x. (x.0, x.1.now)) r) result (prefix_in constrained pinned b.now) }
{
    let [e, after @ ..] = b else {
        return Ok(None);
    };
    if is_modifier(*e) {
        let (_, rest) = token(after)?;
        return Ok(Some((pinned, rest)));
    }
    if constrained && *e == PINNED {
        return Ok(Some((true, after)));
    }
    Ok(None)
}

/// Custom modifiers, and where constraints may stand among them PINNED: whether it did.
pub fn prefixes(constrained: bool, b: &[u8]) -> Result<(bool, &[u8]), Stop>
    ensures { Reads left_at (λ r. (r.0, r.1.now)) result (all_prefixes_in constrained b.now) }
{
    let mut pinned = false;
    let mut rest = b;
    while let Some((pins, after)) = next_prefix(constrained, pinned, rest)? {
        pinned = pins;
        rest = after;
    }
    Ok((pinned, rest))
}
