//! What is read of the headers of a PE file.

use crate::hexadecimal::print_bytes;
use pe_reader::{Section, at_rva, read_pe, rest_at};
use std::io;

/// Prints a line for the range of the metadata, the entry point's token and the place of the CLI
/// header, and one for each section; or the refusal.
pub fn print_headers(rt: &(impl Print + AllocGlobal), file: &[u8]) -> io::Result<()> {
    match read_pe(rt.alloc(), file) {
        Ok(pe) => {
            println!(rt;
                "metadata {} {} entry {:08x} cli header {}",
                pe.meta_at, pe.meta_size, pe.entry, pe.cli_at
            )?;
            for section in pe.sections.as_slice().iter() {
                print_section(rt, section)?;
            }
            Ok(())
        }
        Err(bad) => println!(rt; "{bad}"),
    }
}

fn print_section(rt: &impl Print, section: &Section) -> io::Result<()> {
    println!(rt;
        "section {} {} {}",
        section.rva, section.raw_at, section.raw_size
    )
}

/// Prints the bytes of a range of addresses, or that there are none.
pub fn print_bytes_at(
    rt: &(impl Print + AllocGlobal),
    file: &[u8],
    rva: u32,
    len: u32,
) -> io::Result<()> {
    match read_pe(rt.alloc(), file) {
        Ok(pe) => print_bytes(rt, at_rva(file, &pe, rva, len)),
        Err(bad) => println!(rt; "{bad}"),
    }
}

/// Prints how many bytes there are from an address to the end of its section's raw data.
pub fn print_rest_at(rt: &(impl Print + AllocGlobal), file: &[u8], rva: u32) -> io::Result<()> {
    match read_pe(rt.alloc(), file) {
        Ok(pe) => match rest_at(file, &pe, rva) {
            Some(rest) => println!(rt; "rest {}", rest.len()),
            None => println!(rt; "none"),
        },
        Err(bad) => println!(rt; "{bad}"),
    }
}
