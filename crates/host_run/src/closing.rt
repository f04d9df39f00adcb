//! The end of a call: what err gets then, and the exit status.

ghost use Rattle.std.specs.Prelude.{◌≡◌, ◌≤◌, OnOk, OnErr, IfOk};
ghost use Rattle.bound_base.specs.Outside.{appended, AppendsFront, Rose};
ghost use Rattle.host_run.specs.Settled.{joined, halt_status, halt_line};
ghost use Rattle.host_run.specs.Called.{of_sink, IsPrinted, Closes};

use crate::settled::{Halt, Settled};
use crate::texts::{copy_of, line_on};
use bound_base::{Bytes, Ending, NoMemory, Sink, SinkFault, status_of};
use std::alloc::Global;

const OUT_OF_MEMORY: &[u8] = b"plhost: out of memory\n";

/// Puts what is due on err when a call is settled or halted, and answers the exit status.
pub fn close<E: Sink>(alloc: Global, ending: Result<Settled, Halt>, err: &mut E) -> u8
    ensures closed { Closes ending result
        (of_sink (E.contents err.old) (E.contents err.new) (E.faults err.old) (E.faults err.new)) }
    ensures count { E.faults err.old ≤ E.faults err.new }
{
    match ending {
        Ok(settled) => match put_texts(settled.texts.as_slice(), err) {
            Ok(()) => settled.status,
            Err(SinkFault) => Halt::SinkFailed.status(),
        },
        Err(Halt::SinkFailed) => Halt::SinkFailed.status(),
        Err(halt) => put_line(alloc, &halt, err),
    }
}

/// Puts texts in order, and none after one whose put failed.
fn put_texts<E: Sink>(texts: &[Bytes], err: &mut E) -> Result<(), SinkFault>
    ensures ok { OnOk result
        (E.contents err.new ≡ appended (E.contents err.old) (joined texts.now)) }
    ensures err { OnErr result
        (AppendsFront (E.contents err.old) (E.contents err.new) (joined texts.now)) }
    ensures failed { OnErr result (Rose (E.faults err.old) (E.faults err.new)) }
    ensures uncounted { OnOk result (E.faults err.new ≡ E.faults err.old) }
    ensures count { E.faults err.old ≤ E.faults err.new }
{
    for text in texts {
        err.put(text.as_slice())?;
    }
    Ok(())
}

impl Halt {
    /// The exit status.
    fn status(&self) -> u8
        ensures { result ≡ halt_status self.now }
    {
        match self {
            Halt::Unreadable(_) => 203,
            Halt::SinkFailed => status_of(&Ending::SinkFailed),
            Halt::Memory => status_of(&Ending::Memory),
        }
    }

    /// The line on err, of which a failed put has none.
    #[tactic(auto, unfolding(crate::specs::Texts::unreadable_line, crate::specs::Texts::memory_line))]
    fn line(&self, alloc: Global) -> Result<Bytes, NoMemory>
        ensures { IfOk result (λ text. text ≡ halt_line self.now) }
    {
        match self {
            Halt::Unreadable(name) => line_on(alloc, b"plhost: cannot read: ", name),
            Halt::SinkFailed => Ok(Bytes::new(alloc)),
            Halt::Memory => copy_of(alloc, OUT_OF_MEMORY),
        }
    }
}

/// Puts the line of a halt, or where there is no memory for it, the line that says so. Answers the exit status.
#[tactic(auto, unfolding(crate::specs::Texts::memory_line))]
fn put_line<E: Sink>(alloc: Global, halt: &Halt, err: &mut E) -> u8
    ensures printed { IsPrinted halt.now result
        (of_sink (E.contents err.old) (E.contents err.new) (E.faults err.old) (E.faults err.new)) }
    ensures count { E.faults err.old ≤ E.faults err.new }
{
    match halt.line(alloc) {
        Ok(line) => match err.put(line.as_slice()) {
            Ok(()) => halt.status(),
            Err(SinkFault) => Halt::SinkFailed.status(),
        },
        Err(NoMemory) => match err.put(OUT_OF_MEMORY) {
            Ok(()) => Halt::Memory.status(),
            Err(SinkFault) => Halt::SinkFailed.status(),
        },
    }
}
