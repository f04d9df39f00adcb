//! What a type, a parameter and a descriptor are to the marshalling table.

ghost use Rattle.std.specs.Prelude.{◌≡◌};
ghost use Rattle.stub_maker.specs.Forms.{bytes as bytes_of};

use marshal_spec::Spec;
use native_layout::Enc;

/// How many bytes an integer, a bool or a character has.
#[derive(Clone, Copy, Debug, PartialEq, Eq)]
pub enum Width {
    One,
    Two,
    Four,
    Eight,
}

impl Width {
    pub fn bytes(self) -> u8
        ensures { result ≡ bytes_of self }
    {
        match self {
            Width::One => 1,
            Width::Two => 2,
            Width::Four => 4,
            Width::Eight => 8,
        }
    }
}

/// What a type is to the marshalling table, arrays apart.
#[derive(Clone, Copy, Debug, PartialEq, Eq)]
pub enum Kind {
    /// An integer, or an enum of one: its width, and whether it is signed.
    Integer(Width, bool),
    /// nint or nuint, or an enum of one, and whether it is signed.
    NativeInteger(bool),
    Boolean,
    Character,
    /// A pointer, whatever it points to.
    Pointer,
    Text,
    /// A value type of the file that is no enum, by its row of TypeDef.
    Struct(u32),
    /// A delegate type, by its row of TypeDef.
    Delegate(u32),
    /// SafeHandle, or a class under it.
    Handle,
    /// A type that the table doesn't have.
    Other,
}

/// What a type is to the marshalling table.
#[derive(Clone, Copy, Debug, PartialEq, Eq)]
pub enum TypeKind {
    One(Kind),
    /// A one-dimensional array: the `base` of its element's type, and what that type is. An array of arrays is one of
    /// elements that the table doesn't have.
    Array(u32, Kind),
}

/// The marshalling descriptor of a parameter, a result or a field.
#[derive(Clone, Copy, Debug, PartialEq, Eq)]
pub enum Descriptor {
    /// It has none.
    Nothing,
    /// Its bytes are outside the grammar of descriptors.
    Unread,
    Is(Spec),
}

/// A parameter or a result.
#[derive(Clone, Copy, Debug, PartialEq, Eq)]
pub struct Passed {
    /// Whether it is passed by reference.
    pub reference: bool,
    pub kind: TypeKind,
    /// ParamAttributes (ECMA-335 II.23.1.13).
    pub flags: u32,
    pub descriptor: Descriptor,
}

/// What a type that is no array looks like in native memory, its value types and delegate types by their rows.
#[derive(Clone, Copy, Debug, PartialEq, Eq)]
pub enum Form {
    /// An integer: its width, and whether it is signed.
    Int(Width, bool),
    /// An integer of 8 bytes whose type is nint, nuint, a pointer or an enum of these, and whether it is signed.
    Native(bool),
    Bool(Width),
    Char(Width),
    /// A pointer to a text.
    Text(Enc),
    /// A text in place, and the units that it has, its end included.
    InlineText(Enc, u32),
    /// A value type, by its row of TypeDef.
    Struct(u32),
    /// A pointer to code that calls a delegate of the type with this row.
    Thunk(u32),
}

/// What a field looks like in native memory.
#[derive(Clone, Copy, Debug, PartialEq, Eq)]
pub enum FieldForm {
    One(Form),
    /// An array in place.
    InlineArray {
        /// The `base` of the element's type.
        base: u32,
        element: Form,
        /// How many elements it has, at least one.
        count: u32,
    },
}
