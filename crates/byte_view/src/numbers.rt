//! Little-endian numbers, and the compressed numbers of blobs.

ghost use Rattle.std.specs.Prelude.{◌≡◌, ◌+◌, ◌≤◌, length};
ghost use Rattle.byte_view.specs.Numbers.{le, number_at, compressed_at};

use byteorder::{BigEndian, ByteOrder, LittleEndian};

/// The byte at `at`; None where no byte remains.
#[tactic(auto, unfolding(crate::specs::Numbers::le))]
pub fn le8(b: &[u8], at: usize) -> Option<u8>
    ensures { result ≡ number_at b.now at 1 }
{
    b.get(at).copied()
}

/// The number in the two bytes at `at`, lowest byte first; None where too few bytes remain.
#[tactic(auto, unfolding(crate::specs::Numbers::le))]
pub fn le16(b: &[u8], at: usize) -> Option<u16>
    ensures { result ≡ number_at b.now at 2 }
{
    if b.len() < 2 || at > b.len() - 2 {
        return None;
    }
    Some(LittleEndian::read_u16(&b[at..]))
}

/// The number in the four bytes at `at`, lowest byte first; None where too few bytes remain.
#[tactic(auto, unfolding(crate::specs::Numbers::le))]
pub fn le32(b: &[u8], at: usize) -> Option<u32>
    ensures { result ≡ number_at b.now at 4 }
{
    if b.len() < 4 || at > b.len() - 4 {
        return None;
    }
    Some(LittleEndian::read_u32(&b[at..]))
}

/// The number in the eight bytes at `at`, lowest byte first; None where too few bytes remain.
#[tactic(auto, unfolding(crate::specs::Numbers::le))]
pub fn le64(b: &[u8], at: usize) -> Option<u64>
    ensures { result ≡ number_at b.now at 8 }
{
    if b.len() < 8 || at > b.len() - 8 {
        return None;
    }
    Some(LittleEndian::read_u64(&b[at..]))
}

/// The byte at `at`, which is there.
#[tactic(auto, unfolding(crate::specs::Numbers::le))]
pub fn number8(b: &[u8], at: usize) -> u8
    requires { at + 1 ≤ length b.now }
    ensures { result ≡ le b.now at 1 }
{
    b[at]
}

/// The number in the two bytes at `at`, which are there, lowest byte first.
pub fn number16(b: &[u8], at: usize) -> u16
    requires { at + 2 ≤ length b.now }
    ensures { result ≡ le b.now at 2 }
{
    le16(b, at).unwrap()
}

/// The number in the four bytes at `at`, which are there, lowest byte first.
pub fn number32(b: &[u8], at: usize) -> u32
    requires { at + 4 ≤ length b.now }
    ensures { result ≡ le b.now at 4 }
{
    le32(b, at).unwrap()
}

/// The number in the eight bytes at `at`, which are there, lowest byte first.
pub fn number64(b: &[u8], at: usize) -> u64
    requires { at + 8 ≤ length b.now }
    ensures { result ≡ le b.now at 8 }
{
    le64(b, at).unwrap()
}

/// The compressed number at `at`, and how many bytes it takes (ECMA-335 II.23.2). Longer spellings
/// than needed are read too. None where too few bytes remain, or where the first byte is 0xE0 or
/// more.
pub fn compressed(b: &[u8], at: usize) -> Option<(u32, usize)>
    ensures { result ≡ compressed_at b.now at }
{
    let first = *b.get(at)?;
    let rest = &b[at..];
    if first < 0x80 {
        Some((u32::from(first), 1))
    } else if first < 0xC0 {
        if rest.len() < 2 {
            return None;
        }
        Some((u32::from(BigEndian::read_u16(rest)) - 0x8000, 2))
    } else if first < 0xE0 {
        if rest.len() < 4 {
            return None;
        }
        Some((BigEndian::read_u32(rest) - 0xC000_0000, 4))
    } else {
        None
    }
}
