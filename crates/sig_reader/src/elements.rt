//! The element types that begin a type (ECMA-335 II.23.1.16, II.23.2.12), and the first byte of a
//! method's signature (II.23.2.1 to II.23.2.3).

ghost use Rattle.std.specs.Prelude.{◌≡◌};
ghost use Rattle.sig_reader.specs.Elements as table;

/// What an element type begins.
#[derive(Clone, Copy, Debug, PartialEq, Eq)]
pub enum Element {
    /// A type without further parts.
    Plain,
    Pointer,
    ValueType,
    Class,
    TypeVariable,
    MethodVariable,
    Array,
    Generic,
    Function,
    Vector,
    /// No type.
    Other,
}

pub const VOID: u8 = 0x01;

pub const BY_REF: u8 = 0x10;

pub const VALUE_TYPE: u8 = 0x11;

pub const CLASS: u8 = 0x12;

pub const TYPED_BY_REF: u8 = 0x16;

pub const SENTINEL: u8 = 0x41;

pub const PINNED: u8 = 0x45;

fn is_plain(e: u8) -> bool
    ensures { result ≡ table.is_plain e }
{
    (0x02..=0x0E).contains(&e) || e == 0x18 || e == 0x19 || e == 0x1C
}

/// CMOD_REQD or CMOD_OPT, which begin a custom modifier (II.23.2.7).
pub fn is_modifier(e: u8) -> bool
    ensures { result ≡ table.is_modifier e }
{
    e == 0x1F || e == 0x20
}

pub fn element_of(e: u8) -> Element
    ensures { result ≡ table.element e }
{
    if is_plain(e) {
        return Element::Plain;
    }
    match e {
        0x0F => Element::Pointer,
        0x11 => Element::ValueType,
        0x12 => Element::Class,
        0x13 => Element::TypeVariable,
        0x14 => Element::Array,
        0x15 => Element::Generic,
        0x1B => Element::Function,
        0x1D => Element::Vector,
        0x1E => Element::MethodVariable,
        _ => Element::Other,
    }
}

impl Element {
    /// Whether it begins a type under which types may be nested `levels` deep.
    pub fn fits(self, levels: usize) -> bool
        ensures { result ≡ table.fits levels self }
    {
        match self {
            Element::Other => false,
            Element::Pointer | Element::Array | Element::Function | Element::Vector => levels > 0,
            _ => true,
        }
    }
}

/// Whether a method's signature begins with the byte: DEFAULT, VARARG or GENERIC, with HASTHIS and
/// EXPLICITTHIS or HASTHIS alone or neither.
pub fn is_convention(c: u8) -> bool
    ensures { result ≡ table.is_convention c }
{
    matches!(c % 0x20, 0x00 | 0x05 | 0x10) && matches!(c / 0x20, 0 | 1 | 3)
}

pub fn has_this(c: u8) -> bool
    ensures { result ≡ table.has_this c }
{
    c / 0x20 > 0
}

pub fn is_vararg(c: u8) -> bool
    ensures { result ≡ table.is_vararg c }
{
    c % 0x20 == 0x05
}

pub fn is_generic(c: u8) -> bool
    ensures { result ≡ table.is_generic c }
{
    c % 0x20 == 0x10
}
