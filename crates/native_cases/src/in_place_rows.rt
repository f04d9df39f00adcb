//! Cases of in-place blocks, and of the block in which an address lies.

ghost use Rattle.std.specs.Prelude.{◌≡◌};

use crate::words::{bytes_of, number, print_bytes};
use bound_base::Bytes;
use native_memory::{Memory, Steps};
use std::marker::Brand;
use std::sync::ledger::{Blank, Ledger};

/// Answers where the verb is one of these, and tells whether it is.
pub fn answer(
    rt: &(impl Print + AllocGlobal),
    memory: &mut Memory,
    words: &[&str],
) -> anyhow::Result<bool> {
    match *words {
        ["adopt", base, bytes] => {
            let body = Bytes::from_vec(bytes_of(rt.alloc(), bytes)?);
            let back = memory.adopt(number(base)?, body).is_some();
            print!(rt; " = handed back {back}")?;
        }
        ["take_back", base] => match memory.take_back(number(base)?) {
            Some(body) => print_bytes(rt, Some(body.as_slice()))?,
            None => print_bytes(rt, None)?,
        },
        ["find", addr] => match find::<Brand>(memory, number(addr)?, Blank::new(1)) {
            Some(base) => print!(rt; " = {base:x}")?,
            None => print!(rt; " = none")?,
        },
        _ => return Ok(false),
    }
    Ok(true)
}

fn find<L: Ledger>(memory: &Memory, addr: u64, blank: Blank) -> Option<u64>
    requires name { blank.name ≡ L.name }
    requires parts { (blank.parts ≡ L.parts) × (L.parts ≡ 1) }
{
    let mut steps = Steps::<L>::new(blank);
    memory.find(addr, &mut steps)
}
