//! The words of a case.

use std::alloc::Global;

/// A number: hexadecimal after 0x, else decimal.
pub fn number(word: &str) -> anyhow::Result<u64> {
    match word.strip_prefix("0x") {
        Some(digits) => Ok(u64::from_str_radix(digits, 16)?),
        None => Ok(word.parse::<u64>()?),
    }
}

/// The numbers of words.
pub fn numbers(alloc: Global, words: &[&str]) -> anyhow::Result<Vec<u64>> {
    let mut all = Vec::new(alloc);
    for word in words {
        all.push(number(word)?)?;
    }
    Ok(all)
}
