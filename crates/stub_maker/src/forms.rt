//! The form of a type by its descriptor and the charset (ECMA-335 II.23.4).

ghost use Rattle.std.specs.Prelude.{◌≡◌};
ghost use Rattle.stub_maker.specs.Forms.{sign_by as spec_sign, bool_width_by as spec_bool_width, char_width_by as spec_char_width, encoding_by as spec_encoding, encoding_of as charset_encoding, by_code as value_by_code, is_plain as is_plain_code};

use crate::kinds::{Descriptor, Width};
use marshal_spec::Spec;
use native_layout::Enc;

/// The native types that are integers: the code, the width and the sign of each.
const NATIVE_INTEGERS: [(u8, (Width, bool)); 10] = [
    (0x03, (Width::One, true)),
    (0x04, (Width::One, false)),
    (0x05, (Width::Two, true)),
    (0x06, (Width::Two, false)),
    (0x07, (Width::Four, true)),
    (0x08, (Width::Four, false)),
    (0x09, (Width::Eight, true)),
    (0x0A, (Width::Eight, false)),
    (0x1F, (Width::Eight, true)),
    (0x20, (Width::Eight, false)),
];

/// The value of a native type's code, None where the list doesn't have it.
fn by_code<T: Copy>(values: &[(u8, T)], code: u8) -> Option<T>
    ensures { result ≡ value_by_code values.now code }
{
    values
        .iter()
        .find(|value| value.0 == code)
        .map(|value| value.1)
}

/// The sign of an integer of this width under a descriptor: its own, or that of a native integer of its width.
pub fn sign_by(width: Width, signed: bool, descriptor: Descriptor) -> Option<bool>
    ensures { result ≡ spec_sign width signed descriptor }
{
    match descriptor {
        Descriptor::Nothing => Some(signed),
        Descriptor::Is(Spec::Plain(code)) => match by_code(&NATIVE_INTEGERS, code) {
            Some((native_width, native_sign)) if native_width.bytes() == width.bytes() => Some(
                native_sign,
            ),
            _ => None,
        },
        _ => None,
    }
}

/// The width of a bool.
pub fn bool_width_by(descriptor: Descriptor) -> Option<Width>
    ensures { result ≡ spec_bool_width descriptor }
{
    match descriptor {
        Descriptor::Nothing => Some(Width::Four),
        Descriptor::Is(Spec::Plain(code)) => by_code(
            &[(0x02, Width::Four), (0x03, Width::One), (0x04, Width::One)],
            code,
        ),
        _ => None,
    }
}

/// The width of a character.
pub fn char_width_by(unicode: bool, descriptor: Descriptor) -> Option<Width>
    ensures { result ≡ spec_char_width unicode descriptor }
{
    match descriptor {
        Descriptor::Nothing => Some(if unicode { Width::Two } else { Width::One }),
        Descriptor::Is(Spec::Plain(code)) => by_code(
            &[
                (0x03, Width::One),
                (0x04, Width::One),
                (0x05, Width::Two),
                (0x06, Width::Two),
            ],
            code,
        ),
        _ => None,
    }
}

pub fn encoding_of(unicode: bool) -> Enc
    ensures { result ≡ charset_encoding unicode }
{
    if unicode { Enc::Utf16 } else { Enc::Utf8 }
}

/// How a text behind a pointer is written.
pub fn encoding_by(unicode: bool, descriptor: Descriptor) -> Option<Enc>
    ensures { result ≡ spec_encoding unicode descriptor }
{
    match descriptor {
        Descriptor::Nothing => Some(encoding_of(unicode)),
        Descriptor::Is(Spec::Plain(code)) => {
            by_code(
                &[(0x14, Enc::Utf8), (0x15, Enc::Utf16), (0x30, Enc::Utf8)],
                code,
            )
        }
        _ => None,
    }
}

/// Whether there is no descriptor, or the one with this code.
pub fn is_plain(code: u8, descriptor: Descriptor) -> bool
    ensures { result ≡ is_plain_code code descriptor }
{
    match descriptor {
        Descriptor::Nothing => true,
        Descriptor::Is(Spec::Plain(plain)) => plain == code,
        _ => false,
    }
}
