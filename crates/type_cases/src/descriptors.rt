//! Marshalling descriptors: `descriptor` reads a blob, and prints the descriptor with the bytes that
//! are written of it, or `at` and the place where the blob is refused.

use crate::hexadecimal::bytes_of;
use marshal_spec::{Spec, SpecBad, is_spec, read_spec, write_spec};

pub fn print(rt: &HostRuntime, words: &[&str]) -> anyhow::Result<bool> {
    match words {
        ["descriptor", bytes] => {
            let bytes = bytes_of(rt.alloc(), bytes)?;
            match read_spec(bytes.as_slice()) {
                Ok(spec) => print_spec(rt, &spec)?,
                Err(SpecBad::BadSpec(at)) => println!(rt; "at {at}")?,
            }
        }
        _ => return Ok(false),
    }
    Ok(true)
}

fn print_spec(rt: &HostRuntime, spec: &Spec) -> anyhow::Result<()> {
    if is_spec(spec) {
        let written = write_spec(rt.alloc(), spec)?;
        let text = hex::encode(rt.alloc(), written.as_slice())?;
        println!(rt; "{spec:?}, written {text}")?;
    } else {
        println!(rt; "{spec:?}, never written")?;
    }
    Ok(())
}
