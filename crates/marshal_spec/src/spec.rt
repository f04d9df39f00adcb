//! What a descriptor says, and why bytes are no descriptor.

use thiserror::Error;

/// A marshalling descriptor. Native types are their byte codes (ECMA-335 II.23.4).
#[derive(Clone, Copy, Debug, PartialEq, Eq)]
pub enum Spec {
    /// A native type without parts, by its code.
    Plain(u8),
    /// A text that stands in place (ByValTStr), of so many characters.
    ByValText(u32),
    /// An array that stands in place (ByValArray): how many elements, and their native type.
    ByValArray(u32, Option<u8>),
    /// An array behind a pointer (LPArray): the native type of its elements, the number of the
    /// parameter that holds its length, a count of elements, and a flag, which the standard doesn't
    /// have; its bit 0 says that the parameter's number is used.
    LpArray(Option<u8>, Option<u32>, Option<u32>, Option<u32>),
}

/// Why bytes are no descriptor.
#[derive(Clone, Copy, Debug, PartialEq, Eq, Error)]
pub enum SpecBad {
    /// The length of the longest front of the bytes with which some descriptor's spelling begins:
    /// the byte there fits nowhere, or is missing.
    #[error("bad descriptor at {0}")]
    BadSpec(u64),
}
