//! Instruction words, in hexadecimal.

use rv_decode::{decode, encode, laws, length_of};

pub fn print(rt: &HostRuntime, words: &[&str]) -> anyhow::Result<bool> {
    match words {
        ["decode", word] => {
            laws::encoded_is_read_back();
            print_instruction(rt, u32::from_str_radix(word, 16)?)?;
        }
        ["length_of", word] => println!(rt; "{}", length_of(u32::from_str_radix(word, 16)?))?,
        _ => return Ok(false),
    }
    Ok(true)
}

/// Prints the instruction of a word, and that one's word again.
fn print_instruction(rt: &HostRuntime, word: u32) -> anyhow::Result<()> {
    let Some(instr) = decode(word) else {
        println!(rt; "none")?;
        return Ok(());
    };
    match encode(&instr) {
        Some(again) => println!(rt; "{instr:?} {again:08x}")?,
        None => println!(rt; "{instr:?} without a word")?,
    }
    Ok(())
}
