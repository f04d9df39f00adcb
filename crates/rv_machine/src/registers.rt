//! The registers.

ghost use Rattle.std.specs.Prelude.{◌≡◌};
ghost use Rattle.rv_machine.specs.Registers.{register, with_register};

/// The program counter and the integer registers. `x[0]` is never looked at and never written: register 0 reads as 0.
#[derive(Clone, Copy, Debug, PartialEq, Eq)]
pub struct Regs {
    pub pc: u64,
    pub x: [u64; 32],
}

impl Regs {
    /// The word in a register. A number from 32 on names none, and reads as 0.
    #[inline]
    pub(crate) fn x(&self, number: u8) -> u64
        ensures { result ≡ register self.now.x number }
    {
        match number {
            1..=31 => self.x[usize::from(number)],
            _ => 0,
        }
    }

    /// Writes a word to a register. A number from 32 on names none.
    #[inline]
    pub(crate) fn set(&mut self, number: u8, value: u64)
        ensures { self.new ≡ record self.old { x = with_register self.old.x number value } }
    {
        if 0 < number && number < 32 {
            self.x[usize::from(number)] = value;
        }
    }
}
