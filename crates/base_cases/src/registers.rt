//! The words of arguments, and integers in registers. Bits are in hexadecimal.

use lp64_convention::{Slot, is_preserved, laws, widen, word_place, words_of};

pub fn print(rt: &HostRuntime, words: &[&str]) -> anyhow::Result<bool> {
    match words {
        ["widen", bits, sign, width] => {
            laws::widened_once_is_wide();
            let bits = u64::from_str_radix(bits, 16)?;
            let signed = *sign == "signed";
            let width = width.parse::<u8>()?;
            if !matches!(width, 1 | 2 | 4 | 8) {
                return Ok(false);
            }
            println!(rt; "{:#x}", widen(bits, width, signed))?;
        }
        ["word_place", k] => match word_place(u64::from(k.parse::<u32>()?)) {
            Slot::Reg(number) => println!(rt; "x{number}")?,
            Slot::Stack(at) => println!(rt; "sp + {at}")?,
        },
        ["words_of", size] => println!(rt; "{}", words_of(size.parse::<u64>()?))?,
        ["preserved"] => {
            laws::preserved_registers_have_no_word();
            print!(rt; "preserved")?;
            for register in 0..32u8 {
                if is_preserved(register) {
                    print!(rt; " x{register}")?;
                }
            }
            println!(rt; "")?;
        }
        _ => return Ok(false),
    }
    Ok(true)
}
