//! What is known of the types of a file, found once.

ghost use Rattle.std.specs.Prelude.{◌≡◌, IfOk, OnErr, OnOk, is_some};
ghost use Rattle.stub_maker.specs.Described.{AreKinds, known_of};
ghost use Rattle.stub_maker.specs.Learned.{Agree, known_so_far};

use crate::entries::{Contents, KnownTypes};
use crate::form_outlines::{contents_by, outline_of_form};
use crate::kinds::Form;
use crate::kinds_of_types::Kinds;
use crate::learned::Learned;
use crate::learning::finding_at;
use crate::needs::{Need, needs_in_order};
use bound_base::NoMemory;
use std::alloc::Global;
use std::marker::Model;
use type_model::Types;

/// The types of a file, and what is known of them: the outlines of its value types, and which delegate types have rows in the
/// marshalling table.
#[derive(Drop)]
pub struct FileTypes<'a> {
    learned: Learned<'a>,
}

impl<'a> Model for FileTypes<'a> {
    ghost use Rattle.type_model.specs.Module.{Module as ModuleValue};
    ghost use Rattle.stub_maker.specs.Described.{known_of};
    ghost use Rattle.stub_maker.specs.Learned.{Agree, known_so_far};

    ghost Value = { ModuleValue };

    ghost view = { λ f. f.learned.image };

    ghost invariant = { λ f. Agree (known_so_far f.learned) (known_of f.learned.image) };
}

impl<'a> FileTypes<'a> {
    /// What is known of these types. Time and memory grow with the file and the fields of its value types.
    pub fn of(alloc: Global, types: &'a Types) -> Result<FileTypes<'a>, NoMemory>
        ensures { IfOk result (λ known. known ≡ types.now) }
    {
        let mut learned = Learned::new(alloc, types)?;
        learn_in_order(alloc, &mut learned)?;
        learn_all(alloc, &mut learned)?;
        Ok(FileTypes { learned })
    }

    /// The types of the file.
    pub fn types(&self) -> &'a Types
        ensures { result.now ≡ self.now }
    {
        self.learned.types()
    }

    /// Whether a value type has a shape.
    pub fn has_shape(&self, t: u32) -> bool
        ensures { result ≡ is_some ((known_of self.now).struct_of t) }
    {
        self.learned.outline_at(t).is_some()
    }

    /// Whether a delegate type has rows in the table.
    pub fn is_callable(&self, t: u32) -> bool
        ensures { result ≡ (known_of self.now).is_callable t }
    {
        self.learned.callable_at(t)
    }

    /// What each type of the file is.
    pub fn kinds(&self) -> &Kinds
        ensures { AreKinds self.now result.now }
    {
        self.learned.kinds()
    }
}

impl<'a> KnownTypes for FileTypes<'a> {
    ghost use Rattle.stub_maker.specs.Described.{known_of as known_of_file};
    ghost use Rattle.stub_maker.specs.InOrder.{file_in_order};

    ghost known = { λ m. known_of_file m };

    fn contents(&self, form: Form) -> Option<Contents> {
        self.learned.contents(form)
    }

    ghost in_order = { file_in_order };
}

/// Finds what may be found of each type, what one needs before it.
fn learn_in_order(alloc: Global, learned: &mut Learned<'_>) -> Result<(), NoMemory>
    ensures { OnOk result (learned.new.image ≡ learned.old.image) }
{
    let order = needs_in_order(alloc, learned.types(), learned.kinds())?;
    for need in order.as_slice() {
        let (Need::Struct(t) | Need::Delegate(t)) = *need;
        learn(alloc, learned, t)?;
    }
    Ok(())
}

/// Finds what may be found of a type, by its row.
fn learn(alloc: Global, learned: &mut Learned<'_>, t: u32) -> Result<(), NoMemory>
    ensures ok { OnOk result (learned.new.image ≡ learned.old.image) }
    ensures err { OnErr result (learned.new.image ≡ learned.old.image) }
{
    if t > learned.rows() {
        return Ok(());
    }
    if let Some(finding) = finding_at(alloc, learned, t)? {
        learned.put(finding);
    }
    Ok(())
}

/// Goes on until nothing more may be found.
fn learn_all(alloc: Global, learned: &mut Learned<'_>) -> Result<(), NoMemory>
    ensures image { OnOk result (learned.new.image ≡ learned.old.image) }
    ensures whole { OnOk result (Agree (known_so_far learned.new) (known_of learned.new.image)) }
{
    while let Some(finding) = learned.first_finding(alloc)? {
        learned.put(finding);
    }
    Ok(())
}
