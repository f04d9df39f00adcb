//! Relocations, by their kinds.

ghost use Rattle.std.specs.Prelude.{◌≡◌};
ghost use Rattle.elf_binder.specs.Relocating.{kind_of, width_of};

/// What a relocation writes (RISC-V psABI, 'Relocation Types'), S being the symbol's value and A the addend.
#[derive(Clone, Copy, Debug, PartialEq, Eq)]
pub enum Kind {
    /// `R_RISCV_NONE`: nothing.
    Nothing,
    /// `R_RISCV_32`: the low 32 bits of S + A.
    Absolute32,
    /// `R_RISCV_64`: S + A.
    Absolute64,
    /// `R_RISCV_RELATIVE`: the library's base + A.
    Relative,
    /// `R_RISCV_JUMP_SLOT`: S.
    JumpSlot,
}

impl Kind {
    /// The kind of a type's number, None where libraries may not have it.
    pub fn of(number: u32) -> Option<Kind>
        ensures { result ≡ kind_of number }
    {
        match number {
            0 => Some(Kind::Nothing),
            1 => Some(Kind::Absolute32),
            2 => Some(Kind::Absolute64),
            3 => Some(Kind::Relative),
            5 => Some(Kind::JumpSlot),
            _ => None,
        }
    }

    /// How many bytes it writes.
    pub fn width(self) -> u64
        ensures { result ≡ width_of self }
    {
        match self {
            Kind::Nothing => 0,
            Kind::Absolute32 => 4,
            Kind::Absolute64 | Kind::Relative | Kind::JumpSlot => 8,
        }
    }
}
