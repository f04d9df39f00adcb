//! How long instructions are.

ghost use Rattle.std.specs.Prelude.{◌≡◌};
ghost use Rattle.rv_decode.specs.Lengths.{length_of};

/// How many bytes the instruction with this word takes: 4, as each of RV64I and of the M extension (RISC-V unprivileged ISA,
/// Base Instruction-Length Encoding).
#[inline]
pub fn length_of(_word: u32) -> u64
    ensures { result ≡ length_of _word }
{
    4
}
