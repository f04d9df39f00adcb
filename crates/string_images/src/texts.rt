//! Whole texts with their ends, and UTF-8 read back.

ghost use Rattle.std.specs.Prelude.{◌≡◌, [], ◌∷◌, ◌++◌, IfOk, OnOk};
ghost use Rattle.string_images.specs.Texts.{utf8_of, utf16_bytes, units_of};

use bound_base::{Bytes, NoMemory, Units};
use std::alloc::Global;

/// A text as bytes of UTF-8 with a zero byte behind it. A surrogate without its other half is written as U+FFFD is
/// (`EF BF BD`); a zero unit is a byte like others, and whoever reads the text stops there.
pub fn to_utf8z(alloc: Global, units: &[u16]) -> Result<Bytes, NoMemory>
    ensures { IfOk result (λ bytes. bytes ≡ utf8_of units.now ++ 0 ∷ []) }
{
    let mut bytes = String::from_utf16_lossy(alloc, units)?.into_bytes();
    bytes.push(0)?;
    Ok(Bytes::from_vec(bytes))
}

/// A text as its UTF-16 units, two bytes each, the lower one first, with a zero unit behind them.
pub fn to_utf16z(alloc: Global, units: &[u16]) -> Result<Bytes, NoMemory>
    ensures { IfOk result (λ bytes. bytes ≡ utf16_bytes units.now ++ 0 ∷ 0 ∷ []) }
{
    let room = units.len().saturating_add(1).saturating_mul(2);
    let mut bytes = Bytes::with_capacity(alloc, room)?;
    push_units(&mut bytes, units)?;
    bytes.extend_from_slice(&[0, 0])?;
    Ok(bytes)
}

/// The UTF-16 units of bytes of UTF-8, all of them: a zero byte is a unit like others. Where bytes begin no character,
/// the longest front of them that begins one, and one byte at least, is read as one U+FFFD (Unicode 3.9, "U+FFFD
/// Substitution of Maximal Subparts").
pub fn from_utf8(alloc: Global, bytes: &[u8]) -> Result<Units, NoMemory>
    ensures { IfOk result (λ units. units ≡ units_of bytes.now) }
{
    let text = String::from_utf8_lossy(alloc, bytes)?;
    let mut units = Units::with_capacity(alloc, bytes.len())?;
    for character in text.chars() {
        units.extend_from_slice(character.encode_utf16(&mut [0; 2]))?;
    }
    Ok(units)
}

/// Adds the bytes of units, two each, the lower one first.
pub(crate) fn push_units(bytes: &mut Bytes, units: &[u16]) -> Result<(), NoMemory>
    ensures { OnOk result (bytes.new ≡ bytes.old ++ utf16_bytes units.now) }
{
    for unit in units {
        bytes.extend_from_slice(&unit.to_le_bytes())?;
    }
    Ok(())
}
