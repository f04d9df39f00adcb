//! One step of the machine.

ghost use Rattle.std.specs.Prelude.{◌≡◌, ◌≢◌, ◌%◌, ◌==◌, ◌||◌, not, if◌then◌else◌};
ghost use Rattle.rv_machine.specs.Machine.{state_of, applied, rv_step, next_pc, no_instruction};
ghost use Rattle.rv_machine.specs.Registers.{with_register};

use crate::accesses::{load, store};
use crate::effect::Effect;
use crate::instructions::effect_of;
use crate::outcome::Step;
use crate::registers::Regs;
use native_memory::{Fault, Memory};
use rv_decode::{decode, length_of};

/// The lowest address at which an instruction may stand.
const LOWEST: u64 = 65_536;

/// Executes the instruction at `pc`, or leaves registers and memory as they are and says why (RISC-V unprivileged ISA, RV64I
/// and M). It allocates nothing.
///
/// Below 65,536 it comes to `At`, and nowhere else. A `Fault` has one of these causes: the fetch or the access of data faults; no
/// instruction has the word; it is ECALL or EBREAK; a jump or a taken branch goes to a target that isn't a multiple of 4. Data
/// may be misaligned. FENCE has no effect.
#[tactic(auto, unfolding(crate::specs::Machine::rv_step))]
pub fn step(regs: &mut Regs, memory: &mut Memory) -> Step
    ensures outcome { result ≡ (rv_step (state_of regs.old memory.old.space)).0 }
    ensures state { state_of regs.new memory.new.space
        ≡ (rv_step (state_of regs.old memory.old.space)).1 }
    ensures registers { result ≢ Step.Went → regs.new ≡ regs.old }
    ensures memory { result ≢ Step.Went → memory.new ≡ memory.old }
{
    if regs.pc < LOWEST {
        return Step::At(regs.pc);
    }
    match memory.fetch(regs.pc) {
        Ok(word) => match decode(word) {
            Some(instr) => apply(effect_of(instr, regs), length_of(word), regs, memory),
            None => no_instruction(regs.pc),
        },
        Err(fault) => Step::Fault(fault),
    }
}

/// Does what an instruction of `len` bytes does, or nothing where that faults.
fn apply(effect: Effect, len: u64, regs: &mut Regs, memory: &mut Memory) -> Step
    ensures outcome { result ≡ (applied (state_of regs.old memory.old.space) len effect).0 }
    ensures state { state_of regs.new memory.new.space
        ≡ (applied (state_of regs.old memory.old.space) len effect).1 }
    ensures registers { result ≢ Step.Went → regs.new ≡ regs.old }
    ensures memory { result ≢ Step.Went → memory.new ≡ memory.old }
{
    match effect {
        Effect::Set(rd, value) => go_on_with(regs, len, rd, value),
        Effect::Jump(rd, target) => jump(regs, len, rd, target),
        Effect::Branch(taken, target) => branch(regs, len, taken, target),
        Effect::Load(rd, addr, width, signed) => match load(memory, addr, width, signed) {
            Ok(value) => go_on_with(regs, len, rd, value),
            Err(fault) => Step::Fault(fault),
        },
        Effect::Store(addr, width, value) => match store(memory, addr, width, value) {
            Ok(()) => go_on(regs, len),
            Err(fault) => Step::Fault(fault),
        },
        Effect::Nothing => go_on(regs, len),
        Effect::Trap => no_instruction(regs.pc),
    }
}

/// The fault of an instruction that can't be executed at an address: it names the four bytes there.
#[inline]
fn no_instruction(addr: u64) -> Step
    ensures { result ≡ no_instruction addr }
{
    Step::Fault(Fault {
        addr,
        len: 4,
        write: false,
    })
}

/// Goes on at the next instruction, after one of `len` bytes.
#[inline]
fn go_on(regs: &mut Regs, len: u64) -> Step
    ensures outcome { result ≡ Step.Went }
    ensures registers { regs.new ≡ record regs.old { pc = next_pc regs.old.pc len } }
{
    regs.pc = regs.pc.wrapping_add(len);
    Step::Went
}

/// Writes a register, and goes on at the next instruction, after one of `len` bytes.
#[inline]
fn go_on_with(regs: &mut Regs, len: u64, rd: u8, value: u64) -> Step
    ensures outcome { result ≡ Step.Went }
    ensures registers { regs.new ≡ record regs.old {
      pc = next_pc regs.old.pc len;
      x = with_register regs.old.x rd value;
    } }
{
    regs.set(rd, value);
    go_on(regs, len)
}

/// Goes to a target that is a multiple of 4, and links: writes the address of the next instruction, after one of `len` bytes.
#[inline]
fn jump(regs: &mut Regs, len: u64, rd: u8, target: u64) -> Step
    ensures outcome { result ≡ (if target % 4 == 0 then Step.Went else no_instruction target) }
    ensures registers { regs.new ≡ (if target % 4 == 0
        then record regs.old {
          pc = target;
          x = with_register regs.old.x rd (next_pc regs.old.pc len);
        }
        else regs.old) }
{
    if target % 4 != 0 {
        return no_instruction(target);
    }
    regs.set(rd, regs.pc.wrapping_add(len));
    regs.pc = target;
    Step::Went
}

/// Goes to a target that is a multiple of 4 where the branch is taken, else on.
#[inline]
fn branch(regs: &mut Regs, len: u64, taken: bool, target: u64) -> Step
    ensures outcome { result ≡ (if not taken || target % 4 == 0
        then Step.Went else no_instruction target) }
    ensures registers { regs.new ≡ (if taken
        then (if target % 4 == 0 then record regs.old { pc = target } else regs.old)
        else record regs.old { pc = next_pc regs.old.pc len }) }
{
    if taken {
        jump(regs, len, 0, target)
    } else {
        go_on(regs, len)
    }
}
