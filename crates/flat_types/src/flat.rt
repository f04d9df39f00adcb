//! What is found of value types, each once.

ghost use Rattle.std.specs.Prelude.{◌≡◌, ◌≤◌, ◌+◌, ◌^◌, ◌&&◌, nat_le, IfOk, Some, map, All, slice_index_or};
ghost use Rattle.flat_types.specs.declared.flat.Found.TheVariants as FoundCases;
ghost use Rattle.flat_types.specs.Flat.{facts_of as spec_facts_of, most_levels};
ghost use Rattle.flat_types.specs.Answers.{AreFlat, AreFound, FieldAnswers, FieldsAnswer, IsFlat, IsFlatField, IsFound, TypeAnswers, deepest as spec_deepest, flat_outline};

use crate::fields::{field_type, integer_outline, integer_place};
use crate::structs::{Facts, TYPE_DEFS, facts_of, is_struct};
use bound_base::{Items, NoMemory};
use native_layout::{MOST_PARTS, Outline};
use std::alloc::Global;
use std::marker::Model;
use type_model::Types;

/// The most structs in one another: with an integer within they are 64 deep.
const MOST_LEVELS: u32 = 63;

/// A value type, or a field, that is kept as bytes.
#[derive(Clone, Copy, Debug, PartialEq, Eq)]
pub struct Flat {
    pub outline: Outline,
    /// How many structs stand in one another; an integer is none.
    pub levels: u32,
}

/// What is known of a type.
#[derive(Clone, Copy, Debug, PartialEq, Eq)]
pub enum Found {
    Unknown,
    NotFlat,
    Kept(Flat),
}

/// What is known of the types of a file, by their rows of TypeDef from 0.
#[derive(Drop)]
pub struct FlatTypes {
    known: Items<Found>,
}

impl Model for FlatTypes {
    ghost use Rattle.std.specs.Prelude.{List};
    ghost use Rattle.flat_types.specs.declared.flat.Found.{Found as FoundValue};

    ghost Value = { List FoundValue };

    ghost view = { λ f. f.known };
}

impl FlatTypes {
    /// Nothing is known yet of the types of a file.
    pub fn new(alloc: Global, types: &Types) -> Result<FlatTypes, NoMemory>
        ensures { IfOk result (λ known. AreFound types.now known) }
    {
        let count = types.image().row_count(TYPE_DEFS) as usize;
        let known = vec![in alloc; Found::Unknown; count + 1]?;
        Ok(FlatTypes {
            known: Items::from_vec(known),
        })
    }

    /// The outline of a value type of the file that is kept as bytes, by its row; None for any other type. It is looked for
    /// once: that takes the time of its fields and of the value types that stand in it.
    pub fn outline(
        &mut self,
        alloc: Global,
        types: &Types,
        t: u32,
    ) -> Result<Option<Outline>, NoMemory>
        requires { AreFound types.now self.old }
        ensures value { IfOk result (λ found. found ≡ flat_outline types.now t) }
        ensures known { AreFound types.now self.new }
    {
        match self.find(alloc, types, t, MOST_LEVELS)? {
            Some(f) => Ok(Some(f.outline)),
            None => Ok(None),
        }
    }

    /// A value type in which at most `left` structs stand in one another.
    #[cycle(finding)]
    fn find(
        &mut self,
        alloc: Global,
        types: &Types,
        t: u32,
        left: u32,
    ) -> Result<Option<Flat>, NoMemory>
        requires known { AreFound types.now self.old }
        requires few { left ≤ most_levels }
        ensures value { IfOk result (λ found. TypeAnswers types.now left t found) }
        ensures known { AreFound types.now self.new }
    {
        if left == 0 {
            return Ok(None);
        }
        match self.known_of(t) {
            Found::Kept(f) => Ok(kept_within(types, t, left, f)),
            Found::NotFlat => Ok(None),
            Found::Unknown => {
                let found = self.find_struct(alloc, types, t, left - 1)?;
                self.note(types, t, left, found);
                Ok(found)
            }
        }
    }

    fn known_of(&self, t: u32) -> Found
        ensures { result ≡ slice_index_or self.now t FoundCases.Unknown }
    {
        match self.known.get(t as usize) {
            Some(found) => *found,
            None => Found::Unknown,
        }
    }

    /// Keeps what was found of a type; that it is none within fewer levels than the most says nothing.
    fn note(&mut self, types: &Types, t: u32, left: u32, found: Option<Flat>)
        requires known { AreFound types.now self.old }
        requires few { left ≤ most_levels }
        requires found { TypeAnswers types.now left t found }
        ensures { AreFound types.now self.new }
    {
        self.set(types, t, known_by(types, t, left, found));
    }

    fn set(&mut self, types: &Types, t: u32, found: Found)
        requires known { AreFound types.now self.old }
        requires found { IsFound types.now t found }
        ensures { AreFound types.now self.new }
    {
        if (t as usize) < self.known.len() {
            self.known.set(t as usize, found);
        }
    }

    /// A struct in whose fields at most `left` structs stand in one another.
    #[cycle(finding)]
    fn find_struct(
        &mut self,
        alloc: Global,
        types: &Types,
        t: u32,
        left: u32,
    ) -> Result<Option<Flat>, NoMemory>
        requires known { AreFound types.now self.old }
        requires few { left + 1 ≤ most_levels }
        ensures value { IfOk result (λ found. TypeAnswers types.now (left + 1) t found) }
        ensures known { AreFound types.now self.new }
    {
        let facts = match facts_of(alloc, types, t)? {
            Some(facts) => facts,
            None => return Ok(None),
        };
        match self.find_fields(alloc, types, facts.fields.as_slice(), left)? {
            Some(fields) => struct_of(alloc, types, t, left, &facts, fields.as_slice()),
            None => Ok(None),
        }
    }

    #[cycle(finding)]
    fn find_fields(
        &mut self,
        alloc: Global,
        types: &Types,
        fields: &[u32],
        left: u32,
    ) -> Result<Option<Items<Flat>>, NoMemory>
        requires known { AreFound types.now self.old }
        requires few { left ≤ most_levels }
        ensures value { IfOk result (λ found. FieldsAnswer types.now left fields.now found) }
        ensures known { AreFound types.now self.new }
    {
        let mut flats = Items::new(alloc);
        for field in fields {
            match self.find_field(alloc, types, *field, left)? {
                Some(f) => flats.push(f)?,
                None => return Ok(None),
            }
        }
        Ok(Some(flats))
    }

    #[cycle(finding)]
    fn find_field(
        &mut self,
        alloc: Global,
        types: &Types,
        field: u32,
        left: u32,
    ) -> Result<Option<Flat>, NoMemory>
        requires known { AreFound types.now self.old }
        requires few { left ≤ most_levels }
        ensures value { IfOk result (λ found. FieldAnswers types.now left field found) }
        ensures known { AreFound types.now self.new }
    {
        let Some(id) = field_type(types, field) else {
            return Ok(None);
        };
        match integer_place(alloc, types, id)?.and_then(integer_outline) {
            Some(outline) => Ok(Some(Flat { outline, levels: 0 })),
            None if is_struct(types, id) => self.find(alloc, types, id.base, left),
            None => Ok(None),
        }
    }
}

/// A type that is kept as bytes, where no more than so many structs stand in one another.
fn kept_within(types: &Types, t: u32, left: u32, f: Flat) -> Option<Flat>
    requires { IsFlat types.now t f }
    ensures { TypeAnswers types.now left t result }
{
    if f.levels <= left { Some(f) } else { None }
}

/// What is known of a type by what was found of it within so many levels.
#[tactic(auto, unfolding(crate::specs::Flat::flat_shape))]
fn known_by(types: &Types, t: u32, left: u32, found: Option<Flat>) -> Found
    requires few { left ≤ most_levels }
    requires found { TypeAnswers types.now left t found }
    ensures { IsFound types.now t result }
{
    match found {
        Some(f) => Found::Kept(f),
        None if left == MOST_LEVELS => Found::NotFlat,
        None => Found::Unknown,
    }
}

/// A struct whose fields are kept as bytes, where it is laid out and has not too many of them.
fn struct_of(
    alloc: Global,
    types: &Types,
    t: u32,
    left: u32,
    facts: &Facts,
    fields: &[Flat],
) -> Result<Option<Flat>, NoMemory>
    requires is { spec_facts_of types.now t ≡ Some facts.now }
    requires fields { AreFlat types.now facts.now.fields fields.now }
    requires few { All (λ f. f.levels ≤ left) fields.now }
    requires left { left + 1 ≤ most_levels }
    ensures { IfOk result (λ found. TypeAnswers types.now (left + 1) t found) }
{
    let outlines = outlines_of(alloc, fields)?;
    let outline = Outline::structure(
        alloc,
        facts.pack,
        facts.least,
        facts.explicit,
        outlines.as_slice(),
        &facts.offsets,
    )?;
    if is_kept(outline) {
        Ok(Some(Flat {
            outline,
            levels: deepest(fields) + 1,
        }))
    } else {
        Ok(None)
    }
}

/// It is laid out and has not too many scalars.
fn is_kept(outline: Outline) -> bool
    ensures { result ≡ (outline.stands && nat_le outline.parts (2 ^ 20)) }
{
    outline.stands && outline.parts <= MOST_PARTS
}

fn outlines_of(alloc: Global, fields: &[Flat]) -> Result<Items<Outline>, NoMemory>
    ensures { IfOk result (λ outlines. outlines ≡ map (λ f. f.outline) fields.now) }
{
    let mut outlines = Items::with_capacity(alloc, fields.len())?;
    for field in fields {
        outlines.push(field.outline)?;
    }
    Ok(outlines)
}

/// How many structs stand in one another, at most, in some fields.
fn deepest(fields: &[Flat]) -> u32
    ensures { result ≡ spec_deepest fields.now }
{
    let mut deepest = 0u32;
    for field in fields {
        deepest = deepest.max(field.levels);
    }
    deepest
}
