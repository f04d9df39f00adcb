//! The command `imports`: a line for each row of the ImplMap table.

ghost use Rattle.std.specs.Prelude.{◌≡◌, ◌≤◌, ◌∷◌, ◌++◌, []};
ghost use Rattle.bound_base.specs.Names.{escaped};
ghost use Rattle.bound_base.specs.Put.{Puts, CountsPut};
ghost use Rattle.type_model.specs.MemberViews.{view_import_row};
ghost use Rattle.type_model.specs.Part.{assembly_types};
ghost use Rattle.host_run.specs.Called.{of_sink, Finishes};
ghost use Rattle.host_run.specs.Imports.{import_line, imports_text, imports_of};

use crate::assemblies::read_assembly;
use crate::refusals::broken_image;
use crate::settled::{Halt, Settled};
use bound_base::{PutError, Sink, escape};
use std::alloc::Global;
use type_model::{ImportRow, Types};

/// Puts the imports of an assembly, or settles the call by its first broken part.
pub fn put_imports_of<O: Sink>(alloc: Global, bytes: &[u8], out: &mut O) -> Result<Settled, Halt>
    ensures { Finishes (imports_of (assembly_types bytes.now)) result
        (of_sink (O.contents out.old) (O.contents out.new) (O.faults out.old) (O.faults out.new)) }
{
    let types = match read_assembly(alloc, bytes) {
        Ok(types) => types,
        Err(error) => return broken_image(alloc, error),
    };
    put_imports(alloc, &types, out)?;
    Ok(Settled::done(alloc))
}

/// Puts a line for each row of ImplMap, in order.
#[tactic(auto, unfolding(crate::specs::Imports::imports_text))]
fn put_imports<O: Sink>(alloc: Global, types: &Types, out: &mut O) -> Result<(), PutError>
    ensures puts { Puts (imports_text types.now) result (O.contents out.old) (O.contents out.new) }
    ensures counted { CountsPut result (O.faults out.old) (O.faults out.new) }
    ensures count { O.faults out.old ≤ O.faults out.new }
{
    for n in 0..types.import_count() {
        match types.import_row(n + 1) {
            Some(row) => put_import(alloc, &row, out)?,
            None => {}
        }
    }
    Ok(())
}

/// Puts the line of one row: the module, a space, the entry.
fn put_import<O: Sink>(alloc: Global, row: &ImportRow<'_>, out: &mut O) -> Result<(), PutError>
    ensures puts { Puts (import_line (view_import_row row.now)) result
        (O.contents out.old) (O.contents out.new) }
    ensures counted { CountsPut result (O.faults out.old) (O.faults out.new) }
    ensures count { O.faults out.old ≤ O.faults out.new }
{
    put_name(alloc, row.module, b' ', out)?;
    put_name(alloc, row.entry, b'\n', out)
}

/// Puts a name as it is printed, and a byte after it.
fn put_name<O: Sink>(alloc: Global, name: &[u8], end: u8, out: &mut O) -> Result<(), PutError>
    ensures puts { Puts (escaped name.now ++ end ∷ []) result
        (O.contents out.old) (O.contents out.new) }
    ensures counted { CountsPut result (O.faults out.old) (O.faults out.new) }
    ensures count { O.faults out.old ≤ O.faults out.new }
{
    let mut text = escape(alloc, name)?;
    text.push(end)?;
    out.put(text.as_slice())?;
    Ok(())
}
