//! The native types that descriptors speak of, by their codes (ECMA-335 II.23.4, and for those that
//! it leaves out the numbers of `System.Runtime.InteropServices.UnmanagedType`).

ghost use Rattle.std.specs.Prelude.{◌≡◌};
ghost use Rattle.marshal_spec.specs.NativeTypes.{is_plain as plain};

pub const BOOLEAN: u8 = 0x02;

pub const I1: u8 = 0x03;

pub const U1: u8 = 0x04;

pub const I2: u8 = 0x05;

pub const U2: u8 = 0x06;

pub const I4: u8 = 0x07;

pub const U4: u8 = 0x08;

pub const I8: u8 = 0x09;

pub const U8: u8 = 0x0A;
/// A text of bytes behind a pointer.
pub const LP_STR: u8 = 0x14;
/// A text of UTF-16 units behind a pointer.
pub const LP_WSTR: u8 = 0x15;

pub const STRUCT: u8 = 0x1B;
/// A signed integer of the size of a pointer.
pub const SYS_INT: u8 = 0x1F;
/// An unsigned integer of the size of a pointer.
pub const SYS_UINT: u8 = 0x20;

pub const FUNCTION_PTR: u8 = 0x26;
/// A text in UTF-8 behind a pointer.
pub const LP_UTF8_STR: u8 = 0x30;

/// The first byte of a text that stands in place (ByValTStr).
pub const BY_VAL_TEXT: u8 = 0x17;
/// The first byte of an array that stands in place (ByValArray).
pub const BY_VAL_ARRAY: u8 = 0x1E;
/// The first byte of an array behind a pointer (LPArray).
pub const LP_ARRAY: u8 = 0x2A;
/// Stands where the element type of an LPArray isn't given.
pub const NO_ELEMENT: u8 = 0x50;

/// The native types without parts.
const PLAIN: [u8; 16] = [
    BOOLEAN,
    I1,
    U1,
    I2,
    U2,
    I4,
    U4,
    I8,
    U8,
    LP_STR,
    LP_WSTR,
    STRUCT,
    SYS_INT,
    SYS_UINT,
    FUNCTION_PTR,
    LP_UTF8_STR,
];

/// Whether a code is that of a native type without parts.
pub fn is_plain(code: u8) -> bool
    ensures { result ≡ plain code }
{
    PLAIN.iter().any(|plain| *plain == code)
}
