//! What has been found of a file's types while their needs are being met.

ghost use Rattle.std.specs.Prelude.{◌≡◌, ◌+◌, ◌<◌, IfNone, IfOk, IfSome, None, false, replicate};
ghost use Rattle.native_layout.specs.Outlines.{IsSound};
ghost use Rattle.stub_maker.specs.Described.{AreKinds, facts_of, known_of};
ghost use Rattle.stub_maker.specs.Learned.{Agree, IsNew, callable_at as spec_callable_at, known_so_far, outline_at as spec_outline_at, outline_of, room, with_finding};

use crate::entries::{Contents, KnownTypes};
use crate::finding::Finding;
use crate::form_outlines::{contents_by, outline_of_form};
use crate::kinds::Form;
use crate::kinds_of_types::{Kinds, TYPE_DEFS, kinds_of};
use crate::learning::finding_at;
use bound_base::{Items, NoMemory};
use native_layout::Outline;
use std::alloc::Global;
use std::marker::Model;
use type_model::Types;

/// What has been found of the types of a file, by their rows of TypeDef: the outlines of value types, and which delegate
/// types have rows in the marshalling table.
#[derive(Drop)]
pub struct Learned<'a> {
    types: &'a Types,
    kinds: Kinds,
    outlines: Items<Option<Outline>>,
    callable: Items<bool>,
}

impl<'a> Model for Learned<'a> {
    ghost use Rattle.std.specs.Prelude.{◌≡◌};
    ghost use Rattle.stub_maker.specs.Learned.{Learned as Findings, IsRight};
    ghost use Rattle.stub_maker.specs.Described.{AreKinds};

    ghost Value = { Findings };

    ghost view = { λ l. record { image = l.types.now; outlines = l.outlines; callable = l.callable } };

    ghost invariant = { λ l. AreKinds l.types.now l.kinds × IsRight (record { image = l.types.now; outlines = l.outlines; callable = l.callable }) };
}

impl<'a> Learned<'a> {
    /// Nothing has been found of these types.
    pub fn new(alloc: Global, types: &'a Types) -> Result<Learned<'a>, NoMemory>
        ensures { IfOk result (λ l. l.image ≡ types.now) }
    {
        let places = types.image().row_count(TYPE_DEFS) as usize + 1;
        Ok(Learned {
            types,
            kinds: kinds_of(alloc, types)?,
            outlines: no_outlines(alloc, places)?,
            callable: no_callables(alloc, places)?,
        })
    }

    /// The types of the file.
    pub fn types(&self) -> &'a Types
        ensures { result.now ≡ self.now.image }
    {
        self.types
    }

    /// What each type of the file is.
    pub fn kinds(&self) -> &Kinds
        ensures { AreKinds self.now.image result.now }
    {
        &self.kinds
    }

    /// How many types the file has.
    #[tactic(auto, unfolding(crate::specs::Described::facts_of))]
    pub fn rows(&self) -> u32
        ensures { result ≡ (facts_of self.now.image).count }
    {
        self.types.image().row_count(TYPE_DEFS)
    }

    /// The outline of a value type, if it has been found.
    pub fn outline_at(&self, t: u32) -> Option<Outline>
        ensures value { result ≡ spec_outline_at self.now t }
        ensures shape { result ≡ outline_of ((known_so_far self.now).struct_of t) }
        ensures sound { IfSome result IsSound }
    {
        match self.outlines.get(t as usize) {
            Some(outline) => *outline,
            None => None,
        }
    }

    /// Whether a delegate type has been found to have rows.
    pub fn callable_at(&self, t: u32) -> bool
        ensures value { result ≡ spec_callable_at self.now t }
        ensures known { result ≡ (known_so_far self.now).is_callable t }
    {
        match self.callable.get(t as usize) {
            Some(callable) => *callable,
            None => false,
        }
    }

    /// The first row of which something may be found that hasn't been found, and what it is. Where there is none, all has
    /// been found.
    pub fn first_finding(&self, alloc: Global) -> Result<Option<Finding>, NoMemory>
        ensures new { IfOk result (λ found. IfSome found (IsNew self.now)) }
        ensures whole { IfOk result (λ found. IfNone found (Agree (known_so_far self.now) (known_of self.now.image))) }
    {
        for t in 0..self.types.image().row_count(TYPE_DEFS) {
            if let Some(finding) = finding_at(alloc, self, t + 1)? {
                return Ok(Some(finding));
            }
        }
        Ok(None)
    }

    /// Adds what has been found.
    pub fn put(&mut self, finding: Finding)
        requires { IsNew self.old finding }
        ensures value { self.new ≡ with_finding self.old finding }
        ensures fewer { room self.new < room self.old }
    {
        match finding {
            Finding::Outlined(t, outline) => self.outlines.set(t as usize, Some(outline)),
            Finding::Callable(t) => self.callable.set(t as usize, true),
        }
    }
}

impl<'a> KnownTypes for Learned<'a> {
    ghost use Rattle.stub_maker.specs.LearnedOrder.{learned_in_order};

    ghost known = { λ l. known_so_far l };

    fn contents(&self, form: Form) -> Option<Contents> {
        let outline = outline_of_form(self, form)?;
        Some(contents_by(outline))
    }

    ghost in_order = { learned_in_order };
}

fn no_outlines(alloc: Global, places: usize) -> Result<Items<Option<Outline>>, NoMemory>
    ensures { IfOk result (λ outlines. outlines ≡ replicate places None) }
{
    let mut outlines = Items::with_capacity(alloc, places)?;
    for _ in 0..places {
        outlines.push(None)?;
    }
    Ok(outlines)
}

fn no_callables(alloc: Global, places: usize) -> Result<Items<bool>, NoMemory>
    ensures { IfOk result (λ callable. callable ≡ replicate places false) }
{
    let mut callable = Items::with_capacity(alloc, places)?;
    for _ in 0..places {
        callable.push(false)?;
    }
    Ok(callable)
}
