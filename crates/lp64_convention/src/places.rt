//! The words of the arguments, and where each is passed.

ghost use Rattle.std.specs.Prelude.{◌≡◌, ◌<◌, ◌^◌, IsTrue, ◌↔◌, Contains};
ghost use Rattle.lp64_convention.specs.Places.{word_count, place_of, preserved_registers};

/// Where a word of the arguments is passed.
#[derive(Clone, Copy, Debug, PartialEq, Eq)]
pub enum Slot {
    /// The integer register of this number: 10 to 17 are `a0` to `a7`.
    Reg(u8),
    /// In memory, this many bytes above the stack pointer at the call.
    Stack(u64),
}

/// How many words of 8 bytes an argument of `size` bytes takes: one up to 8 bytes, two up to 16. A larger one is passed
/// by its address, which is one word (RISC-V ELF psABI, Integer Calling Convention).
pub fn words_of(size: u64) -> u64
    ensures { result ≡ word_count size }
{
    if 8 < size && size <= 16 { 2 } else { 1 }
}

/// Where word `k` of the arguments is passed, counted from 0: the first eight in `a0` to `a7`, the others on the stack,
/// one after another (RISC-V ELF psABI, Integer Calling Convention).
pub fn word_place(k: u64) -> Slot
    requires { k < 2 ^ 32 }
    ensures { result ≡ place_of k }
{
    if k < 8 {
        Slot::Reg(10 + k as u8)
    } else {
        Slot::Stack(8 * (k - 8))
    }
}

/// The registers that a function leaves to its caller as they were, by their numbers: `sp`, `gp`, `tp` and `s0` to
/// `s11` (RISC-V ELF psABI, Integer Register Convention).
pub const PRESERVED_REGISTERS: [u8; 15] = [2, 3, 4, 8, 9, 18, 19, 20, 21, 22, 23, 24, 25, 26, 27];

/// Whether a function leaves the integer register of this number to its caller as it was.
pub fn is_preserved(register: u8) -> bool
    ensures { IsTrue result ↔ Contains preserved_registers register }
{
    is_among(&PRESERVED_REGISTERS, register)
}

fn is_among(registers: &[u8], register: u8) -> bool
    ensures { IsTrue result ↔ Contains registers.now register }
{
    registers.contains(&register)
}
