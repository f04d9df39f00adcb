//! What a value looks like in native memory: numbers by their widths, texts, arrays and structs.

use bound_base::Items;
use sqlite_items::Boxed;

/// How a text's units lie in memory: bytes of UTF-8, or UTF-16 units of two bytes.
#[derive(Clone, Copy, PartialEq, Eq, Debug)]
pub enum Enc {
    Utf8,
    Utf16,
}

/// A list of shapes.
pub type Shapes = Items<Shape>;

/// Offsets in bytes, one for each field of a struct; None where none is given.
pub type Offsets = Items<Option<u32>>;

/// The shape of a value in native memory.
#[cycle(shape)]
#[derive(Drop)]
pub enum Shape {
    /// An integer: its width in bytes, and whether it is signed.
    Int(u8, bool),
    /// An integer of 8 bytes whose type is nint, nuint, a pointer or an enum of these, and whether it is signed.
    Native(bool),
    /// A bool, by its width in bytes.
    Bool(u8),
    /// A character, by its width in bytes.
    Char(u8),
    /// A pointer to a text.
    Text(Enc),
    /// A pointer to code that calls a delegate of this type.
    Thunk(u32),
    /// A text in place, and the units that it has, its end included.
    InlineText(Enc, u32),
    /// An array in place: the `base` of its element's type, the element's shape, and the count.
    InlineArray(u32, Boxed<Shape>, u32),
    Struct(StructShape),
}

/// The shape of a struct (ECMA-335 II.10.7).
#[cycle(shape)]
#[derive(Drop)]
pub struct StructShape {
    /// The `base` of its type.
    pub ty: u32,
    /// The greatest alignment that a field is given; 0 stands for 8 (PackingSize, II.22.8).
    pub pack: u16,
    /// The least size in bytes (ClassSize, II.22.8).
    pub least: u32,
    /// Whether each field lies at the offset that is written for it (II.22.16), and not after the one before.
    pub explicit: bool,
    pub fields: Shapes,
    /// The written offset of each field.
    pub offsets: Offsets,
}

/// Where the fields of a struct lie.
#[derive(Debug, Drop)]
pub struct Layout {
    /// Some of each field's offset.
    pub offsets: Offsets,
    /// In bytes.
    pub size: u64,
    /// A power of two, in bytes.
    pub align: u64,
}
