//! Texts in place: of a fixed size, cut at a whole character.

ghost use Rattle.std.specs.Prelude.{◌≡◌, ◌≤◌, ◌-◌, ◌↔◌, IfOk, IsTrue, false, length};
ghost use Rattle.string_images.specs.Inline.{inline, padded, cut, last_place, starts_character, parts_no_pair};
ghost use Rattle.string_images.specs.Texts.{utf8_of, utf16_bytes};

use crate::texts::push_units;
use bound_base::{Bytes, NoMemory};
use native_layout::Enc;
use std::alloc::Global;

/// A text in place: `count` bytes of UTF-8, or `count` UTF-16 units of two bytes. They are the longest front of the text
/// that ends with a whole character and leaves room for a zero, then zeros. A count of 0 has no bytes.
pub fn inline_text(alloc: Global, units: &[u16], enc: Enc, count: u32) -> Result<Bytes, NoMemory>
    ensures { IfOk result (λ bytes. bytes ≡ inline enc count units.now) }
{
    match enc {
        Enc::Utf8 => inline_utf8(alloc, units, count),
        Enc::Utf16 => inline_utf16(alloc, units, count),
    }
}

#[tactic(auto, using(crate::proofs::Places::cut_length))]
fn inline_utf8(alloc: Global, units: &[u16], count: u32) -> Result<Bytes, NoMemory>
    ensures { IfOk result (λ bytes. bytes ≡ padded count (cut starts_character (count - 1) (utf8_of units.now))) }
{
    let mut bytes = String::from_utf16_lossy(alloc, units)?.into_bytes();
    let end = last_start(bytes.as_slice(), count.saturating_sub(1) as usize);
    bytes.truncate(end);
    padded_to(bytes, count as usize)
}

#[tactic(auto, using(crate::proofs::Places::padded_units, crate::proofs::Places::utf16_bytes_length, crate::proofs::Places::cut_length))]
fn inline_utf16(alloc: Global, units: &[u16], count: u32) -> Result<Bytes, NoMemory>
    ensures { IfOk result (λ bytes. bytes ≡ utf16_bytes (padded count (cut parts_no_pair (count - 1) units.now))) }
{
    let size = 2 * count as usize;
    let mut bytes = Bytes::with_capacity(alloc, size)?;
    push_units(
        &mut bytes,
        whole_front(units, count.saturating_sub(1) as usize),
    )?;
    padded_to(bytes.into_vec(), size)
}

/// The bytes with zeros behind them, up to a size that they don't pass.
#[tactic(auto, using(std::proofs::lemmas::List::take_all))]
fn padded_to(mut bytes: Vec<u8>, size: usize) -> Result<Bytes, NoMemory>
    requires { length bytes.items ≤ size }
    ensures { IfOk result (λ all. all ≡ padded size bytes.items) }
{
    bytes.resize(size, 0)?;
    Ok(Bytes::from_vec(bytes))
}

/// The greatest place, at most `most`, where no character of UTF-8 is parted.
#[tactic(auto, using(crate::proofs::Places::last_place_here, crate::proofs::Places::last_place_before))]
fn last_start(text: &[u8], most: usize) -> usize
    ensures { result ≡ last_place (starts_character text.now) most }
{
    let mut place = most;
    while place > 0 && is_inside(text, place) {
        place -= 1;
    }
    place
}

/// Whether a byte goes on with the character before it.
fn is_inside(text: &[u8], place: usize) -> bool
    ensures { IsTrue result ↔ (starts_character text.now place ≡ false) }
{
    match text.get(place) {
        Some(byte) => (0x80..0xC0).contains(byte),
        None => false,
    }
}

/// The longest front of at most `most` units that parts no pair of surrogates.
fn whole_front(units: &[u16], most: usize) -> &[u16]
    ensures { result.now ≡ cut parts_no_pair most units.now }
{
    let end = most.min(units.len());
    if is_in_pair(units, end) {
        &units[..end - 1]
    } else {
        &units[..end]
    }
}

/// Whether the units before and behind a place are a pair of surrogates.
fn is_in_pair(units: &[u16], place: usize) -> bool
    ensures { IsTrue result ↔ (parts_no_pair units.now place ≡ false) }
{
    if place == 0 || units.len() <= place {
        return false;
    }
    (0xD800..0xDC00).contains(&units[place - 1]) && (0xDC00..0xE000).contains(&units[place])
}
