//! What an instruction does.

/// How many bytes a load or a store moves: 1, 2, 4 or 8.
#[derive(Clone, Copy)]
pub enum Width {
    Byte,
    Half,
    Word,
    Double,
}

/// What an instruction does with pc, registers and memory. It goes on at pc + 4 where nothing else is said.
#[derive(Clone, Copy)]
pub enum Effect {
    /// Writes a word to a register.
    Set(u8, u64),
    /// Writes pc + 4 to a register, and goes to a target.
    Jump(u8, u64),
    /// Goes to a target where the test holds.
    Branch(bool, u64),
    /// Writes to a register what stands at an address, extended by its sign or else by zeros.
    Load(u8, u64, Width, bool),
    /// Writes to an address the low bytes of a word.
    Store(u64, Width, u64),
    /// Does nothing.
    Nothing,
    /// Faults: ECALL and EBREAK ask for an environment, and there is none.
    Trap,
}
