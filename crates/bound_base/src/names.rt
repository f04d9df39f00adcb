//! Names as they are printed.

ghost use Rattle.std.specs.Prelude.{◌≡◌, ◌<◌, ◌++◌, IfOk, OnOk};
ghost use Rattle.bound_base.specs.Names.{escaped, escaped_byte, stands, digit};

use crate::items::Bytes;
use crate::memory::NoMemory;
use std::alloc::Global;

/// The printed form of a name: the bytes 0x21 to 0x7E but `\` stand as they are, each other byte as `\` and two
/// hexadecimal digits in lower case.
pub fn escape(alloc: Global, name: &[u8]) -> Result<Bytes, NoMemory>
    ensures { IfOk result (λ text. text ≡ escaped name.now) }
{
    // with room for a line end, which most callers add
    let mut text = Bytes::with_capacity(alloc, escaped_len(name).saturating_add(1))?;
    for byte in name {
        push_escaped(&mut text, *byte)?;
    }
    Ok(text)
}

/// How much room the printed form takes.
fn escaped_len(name: &[u8]) -> usize {
    let mut len = 0usize;
    for byte in name {
        len = len.saturating_add(if stands_as_it_is(*byte) { 1 } else { 3 });
    }
    len
}

fn stands_as_it_is(byte: u8) -> bool
    ensures { result ≡ stands byte }
{
    (0x21..=0x7E).contains(&byte) && byte != b'\\'
}

#[tactic(auto, unfolding(crate::specs::Names::escaped_byte))]
fn push_escaped(text: &mut Bytes, byte: u8) -> Result<(), NoMemory>
    ensures { OnOk result (text.new ≡ text.old ++ escaped_byte byte) }
{
    if stands_as_it_is(byte) {
        text.push(byte)?;
    } else {
        text.extend_from_slice(&[b'\\', hex_digit(byte / 16), hex_digit(byte % 16)])?;
    }
    Ok(())
}

fn hex_digit(value: u8) -> u8
    requires { value < 16 }
    ensures { result ≡ digit value }
{
    if value < 10 {
        b'0' + value
    } else {
        b'a' + (value - 10)
    }
}
