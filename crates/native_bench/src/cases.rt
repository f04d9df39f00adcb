//! Reads cases, one a line: an instruction word in hexadecimal, which it prints with its instruction and with that one's word, or
//! `none` for what there is not; or `reads BLOCKS READS`, whose reads it does.

use crate::{number, reads};
use rv_decode::{decode, encode};
use std::io::{self, BufRead, BufReader};

pub fn print_all(rt: &(impl Print + Input + AllocGlobal)) -> anyhow::Result<()> {
    for line in BufReader::new(rt.alloc(), rt.reader())?.lines(rt.alloc()) {
        let line = line?;
        let words: Vec<&str> = line.split_whitespace().collect(rt.alloc())?;
        match *words {
            ["reads", blocks, reads] => reads::print(rt, number(blocks)?, number(reads)?)?,
            _ => print_line(rt, line.as_str())?,
        }
    }
    Ok(())
}

fn print_line(rt: &impl Print, line: &str) -> io::Result<()> {
    match u32::from_str_radix(line, 16) {
        Ok(word) => print_word(rt, word),
        Err(_) => println!(rt; "no word: {line}"),
    }
}

fn print_word(rt: &impl Print, word: u32) -> io::Result<()> {
    let Some(instr) = decode(word) else {
        return println!(rt; "{word:08x} none");
    };
    match encode(&instr) {
        Some(again) => println!(rt; "{word:08x} {instr:?} {again:08x}"),
        None => println!(rt; "{word:08x} {instr:?} none"),
    }
}
