//! The command `stubs`: how each import crosses.

ghost use Rattle.std.specs.Prelude.{◌≡◌, ◌≤◌, [], IfOk, Some};
ghost use Rattle.bound_base.specs.Put.{Puts, CountsPut};
ghost use Rattle.type_model.specs.MemberViews.{view_import};
ghost use Rattle.type_model.specs.Part.{assembly_types};
ghost use Rattle.stub_maker.specs.Described.{stub_of_import};
ghost use Rattle.host_run.specs.Called.{of_sink, of_store, Finishes, Obeys};
ghost use Rattle.host_run.specs.Commands.{IsAnswer};
ghost use Rattle.host_run.specs.Readings.{readings, names_of};
ghost use Rattle.host_run.specs.Stubs.{method_lines as lines_of_method, stub_lines, stubs_of, stubs_text};
ghost use Rattle.host_run.specs.declared.command.Command.TheVariants.{Stubs};

use crate::assemblies::read_assembly;
use crate::command::Word;
use crate::files::read_file;
use crate::refusals::{broken_image, unread};
use crate::settled::{Halt, Settled};
use bound_base::{Bytes, NoMemory, PutError, Sink, Store};
use std::alloc::Global;
use stub_maker::{FileTypes, StubBad, make_stub, print_outside, print_stub};
use type_model::{Import, Types};

/// The command `stubs` of a file.
pub fn stubs<S: Store, O: Sink>(
    alloc: Global,
    file: Word,
    store: &mut S,
    out: &mut O,
) -> Result<Settled, Halt>
    ensures { Obeys (IsAnswer (Some (Stubs file)) [])
        (names_of (readings (Some (Stubs file)) [])) result
        (of_store (S.held store.old) (S.held store.new) (S.faults store.old) (S.faults store.new))
        (of_sink (O.contents out.old) (O.contents out.new) (O.faults out.old) (O.faults out.new)) }
{
    match read_file(alloc, file.as_str(), store) {
        Ok(bytes) => put_stubs_of(alloc, bytes.as_slice(), out),
        Err(error) => unread(alloc, file, error),
    }
}

/// Puts the stubs of an assembly's imports, or settles the call by its first broken part.
fn put_stubs_of<O: Sink>(alloc: Global, bytes: &[u8], out: &mut O) -> Result<Settled, Halt>
    ensures { Finishes (stubs_of (assembly_types bytes.now)) result
        (of_sink (O.contents out.old) (O.contents out.new) (O.faults out.old) (O.faults out.new)) }
{
    let types = match read_assembly(alloc, bytes) {
        Ok(types) => types,
        Err(error) => return broken_image(alloc, error),
    };
    let known = FileTypes::of(alloc, &types)?;
    put_stubs(alloc, &known, out)?;
    Ok(Settled::done(alloc))
}

/// Puts the stub of each import, in the order of the rows of ImplMap.
#[tactic(auto, unfolding(crate::specs::Stubs::stubs_text))]
fn put_stubs<O: Sink>(alloc: Global, known: &FileTypes<'_>, out: &mut O) -> Result<(), PutError>
    ensures puts { Puts (stubs_text known.now) result (O.contents out.old) (O.contents out.new) }
    ensures counted { CountsPut result (O.faults out.old) (O.faults out.new) }
    ensures count { O.faults out.old ≤ O.faults out.new }
{
    for n in 0..known.types().import_count() {
        match known.types().import_row(n + 1) {
            Some(row) => put_lines_of(alloc, known, row.method, out)?,
            None => {}
        }
    }
    Ok(())
}

/// Puts the lines of the import that a method is.
fn put_lines_of<O: Sink>(
    alloc: Global,
    known: &FileTypes<'_>,
    method: Option<u32>,
    out: &mut O,
) -> Result<(), PutError>
    ensures puts { Puts (lines_of_method known.now method) result
        (O.contents out.old) (O.contents out.new) }
    ensures counted { CountsPut result (O.faults out.old) (O.faults out.new) }
    ensures count { O.faults out.old ≤ O.faults out.new }
{
    let text = method_lines(alloc, known, method)?;
    out.put(text.as_slice())?;
    Ok(())
}

/// The lines of the import that a method is; none where no method is given, or where it is no import.
#[tactic(auto, unfolding(crate::specs::Stubs::method_lines))]
fn method_lines(
    alloc: Global,
    known: &FileTypes<'_>,
    method: Option<u32>,
) -> Result<Bytes, NoMemory>
    ensures { IfOk result (λ text. text ≡ lines_of_method known.now method) }
{
    match method {
        None => Ok(Bytes::new(alloc)),
        Some(method) => match known.types().import_of(method) {
            None => Ok(Bytes::new(alloc)),
            Some(import) => import_lines(alloc, known, &import),
        },
    }
}

/// The lines of an import: its stub, or what of it has no row in the marshalling table and why.
fn import_lines(
    alloc: Global,
    known: &FileTypes<'_>,
    import: &Import<'_>,
) -> Result<Bytes, NoMemory>
    ensures { IfOk result (λ text. text
        ≡ stub_lines (view_import import.now) (stub_of_import known.now (view_import import.now))) }
{
    match make_stub(alloc, known, import) {
        Ok(stub) => print_stub(alloc, import.module, import.entry, &stub),
        Err(StubBad::Outside { param, why }) => {
            print_outside(alloc, import.module, import.entry, param, why)
        }
        Err(StubBad::Memory) => Err(NoMemory),
    }
}
