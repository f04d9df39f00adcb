//! Bytes of a case.

use std::alloc::Global;

/// The bytes that a word gives in hexadecimal, none for `-`.
pub fn bytes_of(alloc: Global, word: &str) -> anyhow::Result<Vec<u8>> {
    if word == "-" {
        return Ok(Vec::new(alloc));
    }
    Ok(hex::decode(alloc, word)?)
}
