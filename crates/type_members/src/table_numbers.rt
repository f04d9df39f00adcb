//! Tables by their numbers (ECMA-335 II.22).

pub const TYPE_REFS: u8 = 0x01;

pub const TYPE_DEFS: u8 = 0x02;

pub const FIELDS: u8 = 0x04;

pub const METHOD_DEFS: u8 = 0x06;

pub const INTERFACE_IMPLS: u8 = 0x09;

pub const MEMBER_REFS: u8 = 0x0A;

pub const METHOD_IMPLS: u8 = 0x19;

pub const MODULE_REFS: u8 = 0x1A;

pub const TYPE_SPECS: u8 = 0x1B;

/// The rows that a token may name are below this number; a token has its table's number above it, and core types are numbered
/// from it on.
pub const ROW_LIMIT: u32 = 0x0100_0000;
