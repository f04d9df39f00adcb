//! The header of a method body (ECMA-335 II.25.4.1 to II.25.4.4).

ghost use Rattle.std.specs.Prelude.{◌≡◌, ◌<◌, ◌≤◌, ◌^◌, length, IfOk};
ghost use Rattle.byte_view.specs.Reading.{Reads};
ghost use Rattle.body_reader.specs.Bodies as definition;
ghost use Rattle.body_reader.specs.Refusals.{refusal};
ghost use Rattle.body_reader.specs.View.{header_of};

use crate::bad::{BodyBad, bad, field8, field16, field32, must};

/// The size of a fat header, in words of four bytes.
const FAT_WORDS: u16 = 3;

/// The flag of a fat header that says that sections follow the code.
const MORE_SECTIONS: u16 = 0x8;

/// How many values the stack holds where the header doesn't say it.
const TINY_MAX_STACK: u16 = 8;

/// What a header tells.
#[derive(Clone, Copy)]
pub struct Header {
    /// Where the code begins.
    pub start: usize,
    pub max_stack: u16,
    /// The size of the code, in bytes.
    pub size: usize,
    /// The token of the signature of the locals, or 0.
    pub locals: u32,
    /// Whether sections follow the code.
    pub has_sections: bool,
}

/// Reads the header.
#[tactic(auto, unfolding(crate::specs::Bodies::header_of))]
pub fn read_header(b: &[u8]) -> Result<Header, BodyBad>
    ensures header { Reads refusal header_of result (definition.header_of b.now) }
    ensures within { IfOk result (λ header. header.start ≤ length b.now) }
    ensures start { IfOk result (λ header. header.start ≤ 12) }
    ensures small { IfOk result (λ header. header.size < 2 ^ 32) }
{
    let first = field8(b, 0)?;
    match first % 4 {
        2 => Ok(Header {
            start: 1,
            max_stack: TINY_MAX_STACK,
            size: usize::from(first / 4),
            locals: 0,
            has_sections: false,
        }),
        3 => fat_header(b),
        _ => Err(bad(0)),
    }
}

/// Reads a fat header.
#[tactic(auto, unfolding(crate::specs::Bodies::fat))]
fn fat_header(b: &[u8]) -> Result<Header, BodyBad>
    ensures header { Reads refusal header_of result (definition.fat b.now) }
    ensures within { IfOk result (λ header. header.start ≤ length b.now) }
    ensures start { IfOk result (λ header. header.start ≤ 12) }
    ensures small { IfOk result (λ header. header.size < 2 ^ 32) }
{
    let flags = field16(b, 0)?;
    must(flags / 0x1000 == FAT_WORDS, 0)?;
    let max_stack = field16(b, 2)?;
    let size = field32(b, 4)?;
    let locals = field32(b, 8)?;
    Ok(Header {
        start: 12,
        max_stack,
        size: size as usize,
        locals,
        has_sections: flags & MORE_SECTIONS != 0,
    })
}
