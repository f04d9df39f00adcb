//! Numbers in bytes. The bytes of a case are in hexadecimal, `-` where there are none.

use byte_view::{compressed, le8, le16, le32, le64};
use std::alloc::Global;

pub fn print(rt: &HostRuntime, words: &[&str]) -> anyhow::Result<bool> {
    let [call, bytes, at] = words else {
        return Ok(false);
    };
    if !["le8", "le16", "le32", "le64", "compressed"].contains(call) {
        return Ok(false);
    }
    let bytes = bytes_of(rt.alloc(), bytes)?;
    print_read(rt, call, bytes.as_slice(), at.parse()?)?;
    Ok(true)
}

fn print_read(rt: &HostRuntime, call: &str, bytes: &[u8], at: usize) -> anyhow::Result<()> {
    match call {
        "le8" => print_number(rt, le8(bytes, at).map(u64::from)),
        "le16" => print_number(rt, le16(bytes, at).map(u64::from)),
        "le32" => print_number(rt, le32(bytes, at).map(u64::from)),
        "le64" => print_number(rt, le64(bytes, at)),
        _ => print_compressed(rt, compressed(bytes, at)),
    }
}

fn print_compressed(rt: &HostRuntime, read: Option<(u32, usize)>) -> anyhow::Result<()> {
    match read {
        Some((number, size)) => println!(rt; "{number} in {size}")?,
        None => println!(rt; "none")?,
    }
    Ok(())
}

/// The bytes that a word gives in hexadecimal, none for `-`.
pub fn bytes_of(alloc: Global, word: &str) -> anyhow::Result<Vec<u8>> {
    if word == "-" {
        return Ok(Vec::new(alloc));
    }
    Ok(hex::decode(alloc, word)?)
}

/// Bytes in hexadecimal.
pub fn digits_of(alloc: Global, bytes: &[u8]) -> anyhow::Result<String> {
    Ok(hex::encode(alloc, bytes)?)
}

fn print_number(rt: &impl Print, number: Option<u64>) -> anyhow::Result<()> {
    match number {
        Some(number) => println!(rt; "{number:#x}")?,
        None => println!(rt; "none")?,
    }
    Ok(())
}
