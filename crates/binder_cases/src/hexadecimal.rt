//! Numbers in hexadecimal.

/// The number of a word.
pub fn number(word: &str) -> anyhow::Result<u64> {
    Ok(u64::from_str_radix(word, 16)?)
}
