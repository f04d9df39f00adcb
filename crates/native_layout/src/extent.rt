//! How many bytes a shape takes, and where it may lie.

ghost use Rattle.std.specs.Prelude.{◌≡◌, ◌*◌};
ghost use Rattle.native_layout.specs.Shapes.{unit_width};
ghost use Rattle.native_layout.specs.Placed.{cap};

use crate::shapes::Enc;

/// The sizes up to which extents are counted: more than any offset that can be written.
pub const COUNTED: u64 = 1 << 32;

/// How many bytes a shape takes, and where it may lie.
#[derive(Clone, Copy, Debug, PartialEq, Eq)]
pub struct Extent {
    /// In bytes.
    pub size: u64,
    /// The alignment in bytes: its address is a multiple of it.
    pub align: u64,
}

/// The bytes of a field in its struct, from a start up to an end.
#[derive(Clone, Copy, Debug, PartialEq, Eq)]
pub struct Range {
    pub start: u64,
    pub end: u64,
}

/// A scalar lies at a multiple of its width.
pub fn scalar(width: u8) -> Extent
    ensures { result ≡ record { size = width; align = width } }
{
    Extent {
        size: u64::from(width),
        align: u64::from(width),
    }
}

/// A text of `count` units in place.
pub fn inline_text(enc: Enc, count: u32) -> Extent
    ensures { result ≡ record { size = count * unit_width enc; align = unit_width enc } }
{
    let unit = match enc {
        Enc::Utf8 => 1,
        Enc::Utf16 => 2,
    };
    Extent {
        size: u64::from(count) * unit,
        align: unit,
    }
}

/// An extent as it is counted.
pub fn counted(e: Extent) -> Extent
    ensures { result ≡ cap e }
{
    Extent {
        size: e.size.min(COUNTED),
        align: e.align,
    }
}
