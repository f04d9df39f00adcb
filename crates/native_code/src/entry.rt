//! Entering native code (RISC-V ELF psABI, Integer Calling Convention).

ghost use Rattle.std.specs.Prelude.{◌≡◌, ◌==◌, slice_index, ◌+◌, ◌<◌, ◌^◌, length};
ghost use Rattle.lp64_convention.specs.Places.{place_of};
ghost use Rattle.native_code.specs.Entry.{entry_registers, first_sp, keeps_preserved, stack_top, with_word};

use crate::places::RETURN;
use bound_base::Lane;
use lp64_convention::{PRESERVED_REGISTERS, Slot, word_place};
use rv_machine::Regs;

/// `ra`, the register of the return address.
const RA: usize = 1;

/// `sp`, the stack pointer.
const SP: usize = 2;

/// The registers at an entry of native code at an address, with a stack pointer and argument words.
/// Words for which the convention has a register are there, and the others are for the caller to
/// put on the stack. It will return to `RETURN`. All other registers are 0.
pub fn entry_registers(at: u64, sp: u64, words: &[u64]) -> Regs
    requires { length words.now < 2 ^ 32 }
    ensures { result ≡ entry_registers at sp words.now }
{
    let mut x = [0; 32];
    x[RA] = RETURN;
    x[SP] = sp;
    for (k, word) in words.iter().enumerate() {
        pass(&mut x, k as u64, *word);
    }
    Regs { pc: at, x }
}

/// The stack pointer of an outermost entry on a stack block of so many bytes: the greatest multiple
/// of 16 not above its end.
pub fn first_sp(lane: Lane, stack: u64) -> u64
    requires { stack_top lane stack < 2 ^ 64 }
    ensures { result ≡ first_sp lane stack }
{
    (lane.stack + stack) / 16 * 16
}

/// Puts an argument word into its register, if it has one.
fn pass(x: &mut [u64; 32], k: u64, word: u64)
    requires { k < 2 ^ 32 }
    ensures { x.new ≡ with_word x.old (place_of k) word }
{
    match word_place(k) {
        Slot::Reg(number) => x[usize::from(number)] = word,
        Slot::Stack(_) => {}
    }
}

/// Whether the registers that a function leaves to its caller (`sp`, `gp`, `tp`, `s0` to `s11`) are as
/// they were at an entry.
#[tactic(auto, unfolding(crate::specs::Entry::keeps_preserved))]
pub fn keeps_preserved(entry: &Regs, now: &Regs) -> bool
    ensures { result ≡ keeps_preserved entry.now now.now }
{
    PRESERVED_REGISTERS
        .iter()
        .all(|number| is_same(entry, now, *number))
}

/// Whether a register is the same. A number from 32 on names none.
fn is_same(entry: &Regs, now: &Regs, number: u8) -> bool
    ensures { result ≡ (slice_index now.now.x number == slice_index entry.now.x number) }
{
    let k = usize::from(number);
    k >= 32 || now.x[k] == entry.x[k]
}
