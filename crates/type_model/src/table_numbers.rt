//! Tables by their numbers (ECMA-335 II.22).

pub const TYPE_REFS: u8 = 0x01;

pub const TYPE_DEFS: u8 = 0x02;

pub const FIELDS: u8 = 0x04;

pub const METHOD_DEFS: u8 = 0x06;

pub const PARAMS: u8 = 0x08;

pub const FIELD_MARSHALS: u8 = 0x0D;

pub const CLASS_LAYOUTS: u8 = 0x0F;

pub const FIELD_LAYOUTS: u8 = 0x10;

pub const STAND_ALONE_SIGS: u8 = 0x11;

pub const MODULE_REFS: u8 = 0x1A;

pub const TYPE_SPECS: u8 = 0x1B;

pub const IMPL_MAPS: u8 = 0x1C;

pub const FIELD_RVAS: u8 = 0x1D;

pub const NESTED_CLASSES: u8 = 0x29;

/// The rows that a token may name are below this number; a token has its table's number above it.
pub const ROW_LIMIT: u32 = 0x0100_0000;
