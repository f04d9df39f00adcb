//! The top call.

ghost use Rattle.std.specs.Prelude.{[], Some};
ghost use Rattle.host_run.specs.Grammar.{command, texts};
ghost use Rattle.host_run.specs.GrammarLaws.{KeepsBounds};
ghost use Rattle.host_run.specs.Commands.{IsAnswer, Answers};
ghost use Rattle.host_run.specs.Readings.{readings, names_of, names_read};
ghost use Rattle.host_run.specs.Called.{of_store, of_sink, Obeys, Called, Counts};
ghost use Rattle.host_run.specs.declared.command.Command.TheVariants.{Imports};

use crate::closing::close;
use crate::command::{Command, Word};
use crate::files::read_file;
use crate::imports::put_imports_of;
use crate::native::native;
use crate::refusals::{unread, usage};
use crate::settled::{Halt, Settled};
use crate::stubs::stubs;
use crate::words::read_words;
use bound_base::{Sink, Store};
use std::alloc::Global;

/// Does all that plhost does: reads the words (without the program's name) and the files that they name, and puts output
/// on `out`. Answers the exit status, and puts the line that says why on `err` where it isn't 0 or 210: 201 for words that
/// aren't a line of the grammar or whose command isn't built, 202 where the file isn't there, 203 where a read failed, 204
/// where the file isn't an assembly, 205 where it isn't a library or can't be bound, 208 where the fuel of native code is
/// spent, 210 where a put failed (nothing is put after it), 211 for want of memory, 212 where the file has more than
/// 67,108,864 bytes, 213 where native code faulted, 214 where the library doesn't define the symbol.
pub fn host<S: Store, O: Sink, E: Sink>(
    alloc: Global,
    words: &[String],
    store: &mut S,
    out: &mut O,
    err: &mut E,
) -> u8
    // What the streams got is what the answer to the words and the files says, by the status.
    ensures called { Called (texts words.now) result
        (of_store (S.held store.old) (S.held store.new) (S.faults store.old) (S.faults store.new))
        (of_sink (O.contents out.old) (O.contents out.new) (O.faults out.old) (O.faults out.new))
        (of_sink (E.contents err.old) (E.contents err.new) (E.faults err.old) (E.faults err.new)) }

    // No failure is passed over.
    ensures counts { Counts result
        (of_store (S.held store.old) (S.held store.new) (S.faults store.old) (S.faults store.new))
        (of_sink (O.contents out.old) (O.contents out.new) (O.faults out.old) (O.faults out.new))
        (of_sink (E.contents err.old) (E.contents err.new) (E.faults err.old) (E.faults err.new)) }
{
    let ending = carry_out(alloc, words, store, out);
    close(alloc, ending, err)
}

/// Does what the words ask for, but for what err gets at the end.
fn carry_out<S: Store, O: Sink>(
    alloc: Global,
    words: &[String],
    store: &mut S,
    out: &mut O,
) -> Result<Settled, Halt>
    ensures { Obeys (Answers (texts words.now)) (names_read (texts words.now)) result
        (of_store (S.held store.old) (S.held store.new) (S.faults store.old) (S.faults store.new))
        (of_sink (O.contents out.old) (O.contents out.new) (O.faults out.old) (O.faults out.new)) }
{
    match read_words(alloc, words)? {
        Some(command) => obey(alloc, command, words, store, out),
        None => usage(alloc),
    }
}

/// Does what a command asks for that stands in these words.
fn obey<S: Store, O: Sink>(
    alloc: Global,
    command: Command,
    words: &[String],
    store: &mut S,
    out: &mut O,
) -> Result<Settled, Halt>
    requires { KeepsBounds (texts words.now) command }
    ensures { Obeys (IsAnswer (Some command) (texts words.now))
        (names_of (readings (Some command) (texts words.now))) result
        (of_store (S.held store.old) (S.held store.new) (S.faults store.old) (S.faults store.new))
        (of_sink (O.contents out.old) (O.contents out.new) (O.faults out.old) (O.faults out.new)) }
{
    match command {
        Command::Imports(file) => imports(alloc, file, store, out),
        Command::Stubs(file) => stubs(alloc, file, store, out),
        Command::Native(lib, symbol, numbers) => native(alloc, lib, symbol, &numbers, store, out),
        Command::Run(_) => usage(alloc),
        Command::Drill(_) => usage(alloc),
    }
}

/// The command `imports` of a file.
fn imports<S: Store, O: Sink>(
    alloc: Global,
    file: Word,
    store: &mut S,
    out: &mut O,
) -> Result<Settled, Halt>
    ensures { Obeys (IsAnswer (Some (Imports file)) [])
        (names_of (readings (Some (Imports file)) [])) result
        (of_store (S.held store.old) (S.held store.new) (S.faults store.old) (S.faults store.new))
        (of_sink (O.contents out.old) (O.contents out.new) (O.faults out.old) (O.faults out.new)) }
{
    match read_file(alloc, file.as_str(), store) {
        Ok(bytes) => put_imports_of(alloc, bytes.as_slice(), out),
        Err(error) => unread(alloc, file, error),
    }
}
