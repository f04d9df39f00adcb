//! Integers in registers.

ghost use Rattle.std.specs.Prelude.{◌≡◌, ◌-◌, ◌<◌, ◌≤◌, ◌^◌, IsTrue};
ghost use Rattle.lp64_convention.specs.Widening.{is_integer_size, pattern, signed_of, widened};

/// What an integer argument of `width` bytes leaves in its register (RISC-V ELF psABI, Integer Calling Convention). Its bytes
/// are the low ones of `bits`; what stands above them is not looked at. Its type's sign decides the bits up to 32, and bit 31
/// all those above.
pub fn widen(bits: u64, width: u8, signed: bool) -> u64
    requires { IsTrue (is_integer_size width) }
    ensures { result ≡ widened bits width signed }
{
    match (width, signed) {
        (1, false) => bits % 0x100,
        (1, true) => sign_extended(bits % 0x100, 8),
        (2, false) => bits % 0x1_0000,
        (2, true) => sign_extended(bits % 0x1_0000, 16),
        (4, _) => sign_extended(bits % 0x1_0000_0000, 32),
        _ => bits,
    }
}

/// A signed integer of `bits` bits in 64.
fn sign_extended(low: u64, bits: u32) -> u64
    requires some { 0 < bits }
    requires narrow { bits < 64 }
    requires within { low < 2 ^ bits }
    ensures { result ≡ pattern 64 (signed_of bits low) }
{
    if low >> (bits - 1) == 0 {
        low
    } else {
        low | (u64::MAX << bits)
    }
}
