//! Bytes in hexadecimal.

use std::io;

/// Writes bytes over those of a file from a place on, as far as it goes.
pub fn put_over(file: &mut [u8], at: usize, piece: &[u8]) {
    for (to, from) in file.iter_mut().skip(at).zip(piece) {
        *to = *from;
    }
}

/// Prints bytes in hexadecimal, two digits for each, or `none`.
pub fn print_bytes(rt: &impl Print, bytes: Option<&[u8]>) -> io::Result<()> {
    match bytes {
        Some(bytes) => {
            print!(rt; "bytes ")?;
            for byte in bytes.iter() {
                print!(rt; "{byte:02x}")?;
            }
            println!(rt; "")
        }
        None => println!(rt; "none"),
    }
}
