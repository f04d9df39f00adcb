//! Compressed numbers in signatures (ECMA-335 II.23.2).

ghost use Rattle.std.specs.Prelude.{◌≡◌, ◌≤◌, ◌<◌, pos};
ghost use Rattle.byte_view.specs.Reading.{Reads};
ghost use Rattle.sig_reader.specs.Numbers as table;
ghost use Rattle.sig_reader.specs.Reading.{may_take, opens, two_bytes_in, four_bytes_in, number_in, unsigned_in, signed_in, token_in};
ghost use Rattle.sig_reader.specs.View.{left_at};

use crate::parts::{Stop, first};

/// The numbers that a place of the grammar takes.
#[derive(Clone, Copy, Debug)]
pub enum Numbers {
    /// Those from the first to the second, both among them. The first is at most 1.
    Between(u32, u32),
    /// Those that name a row of TypeDef, TypeRef or TypeSpec (II.23.2.8).
    Coded,
}

/// All of them.
pub const ANY: Numbers = Numbers::Between(0, 0x1FFF_FFFF);

impl Numbers {
    fn allows(self, n: u32) -> bool
        ensures { result ≡ table.allows self n }
    {
        match self {
            Numbers::Between(least, most) => least <= n && n <= most,
            Numbers::Coded => n % 4 != 3,
        }
    }

    /// Whether one may be taken of the numbers from `n` on whose last bytes are still to come.
    fn may_take(self, n: u32) -> bool
        ensures { result ≡ may_take self n }
    {
        match self {
            Numbers::Between(_, most) => n <= most,
            Numbers::Coded => true,
        }
    }

    /// Whether a number that is taken begins with a byte.
    fn opens(self, a: u8) -> bool
        ensures { result ≡ opens self a }
    {
        let n = u32::from(a);
        if n < 0x80 {
            self.allows(n)
        } else if n < 0xC0 {
            self.may_take((n - 0x80) * 256)
        } else if n < 0xE0 {
            self.may_take((n - 0xC0) * 0x0100_0000)
        } else {
            false
        }
    }
}

/// A number that goes on after its first byte of two.
#[tactic(auto, unfolding(crate::specs::Reading::two_bytes_in))]
fn two_bytes(numbers: Numbers, a: u8, b: &[u8]) -> Result<((u32, u8), &[u8]), Stop>
    requires { 0x80 ≤ a }
    ensures { Reads left_at (λ r. (r.0, r.1.now)) result (two_bytes_in numbers a b.now) }
{
    let (c, rest) = first(b)?;
    let n = u32::from(a - 0x80) * 256 + u32::from(c);
    if !numbers.allows(n) {
        return Err(Stop::Left(rest.len() + 1));
    }
    Ok(((n, 2), rest))
}

/// A number that goes on after its first byte of four.
#[tactic(auto, unfolding(crate::specs::Reading::four_bytes_in))]
fn four_bytes(numbers: Numbers, a: u8, b: &[u8]) -> Result<((u32, u8), &[u8]), Stop>
    requires low { 0xC0 ≤ a }
    requires high { a < 0xE0 }
    ensures { Reads left_at (λ r. (r.0, r.1.now)) result (four_bytes_in numbers a b.now) }
{
    let (c, rest) = first(b)?;
    let n = u32::from(a - 0xC0) * 256 + u32::from(c);
    if !numbers.may_take(n * 0x1_0000) {
        return Err(Stop::Left(rest.len() + 1));
    }
    let (c, rest) = first(rest)?;
    let n = n * 256 + u32::from(c);
    if !numbers.may_take(n * 256) {
        return Err(Stop::Left(rest.len() + 1));
    }
    let (c, rest) = first(rest)?;
    let n = n * 256 + u32::from(c);
    if !numbers.allows(n) {
        return Err(Stop::Left(rest.len() + 1));
    }
    Ok(((n, 4), rest))
}

/// A number, with how many bytes it takes.
#[tactic(auto, unfolding(crate::specs::Reading::number_in))]
fn number(numbers: Numbers, b: &[u8]) -> Result<((u32, u8), &[u8]), Stop>
    ensures { Reads left_at (λ r. (r.0, r.1.now)) result (number_in numbers b.now) }
{
    let (a, rest) = first(b)?;
    if !numbers.opens(a) {
        return Err(Stop::Left(rest.len() + 1));
    }
    if a < 0x80 {
        Ok(((u32::from(a), 1), rest))
    } else if a < 0xC0 {
        two_bytes(numbers, a, rest)
    } else {
        four_bytes(numbers, a, rest)
    }
}

/// An unsigned number.
#[tactic(auto, unfolding(crate::specs::Reading::unsigned_in))]
pub fn unsigned(numbers: Numbers, b: &[u8]) -> Result<(u32, &[u8]), Stop>
    ensures { Reads left_at (λ r. (r.0, r.1.now)) result (unsigned_in numbers b.now) }
{
    let ((n, _), rest) = number(numbers, b)?;
    Ok((n, rest))
}

/// The half of the values that a number of so many bytes has.
fn half_range(size: u8) -> i32
    ensures { result ≡ pos (table.half_range size) }
{
    match size {
        1 => 0x40,
        2 => 0x2000,
        _ => 0x1000_0000,
    }
}

/// A signed number.
#[tactic(auto, unfolding(crate::specs::Reading::signed_in))]
pub fn signed(b: &[u8]) -> Result<(i32, &[u8]), Stop>
    ensures { Reads left_at (λ r. (r.0, r.1.now)) result (signed_in b.now) }
{
    let ((n, size), rest) = number(ANY, b)?;
    let half = (n / 2) as i32;
    if n % 2 == 0 {
        return Ok((half, rest));
    }
    Ok((half - half_range(size), rest))
}

/// The metadata token of a coded number; that of row 0 for a row above 2^24 - 1.
fn token_of(n: u32) -> u32
    ensures { result ≡ table.token_of n }
{
    let table = match n % 4 {
        0 => 0x0200_0000,
        1 => 0x0100_0000,
        _ => 0x1B00_0000,
    };
    let row = if n / 4 <= 0x00FF_FFFF { n / 4 } else { 0 };
    table + row
}

/// The token of a type (II.23.2.8).
#[tactic(auto, unfolding(crate::specs::Reading::token_in))]
pub fn token(b: &[u8]) -> Result<(u32, &[u8]), Stop>
    ensures { Reads left_at (λ r. (r.0, r.1.now)) result (token_in b.now) }
{
    let ((n, _), rest) = number(Numbers::Coded, b)?;
    Ok((token_of(n), rest))
}
