//! How one argument or one result of an import crosses, by the rule over the marshalling table.

ghost use Rattle.std.specs.Prelude.{◌≡◌, ◌≢◌, IfOk, Some, None, Ok, Err, if◌then◌else◌};
ghost use Rattle.stub_maker.specs.Answers.{and_then, map_ok};
ghost use Rattle.stub_maker.specs.Rules.{array_mark as spec_array_mark, encoding_in as spec_encoding_in, entry_in as spec_entry_in, is_in as spec_is_in, is_out as spec_is_out, laid, mark_in as spec_mark_in, marked_in, place_mark as spec_place_mark, refusal as spec_refusal, returned as spec_returned, returned_by as spec_returned_by, step_of as spec_step_of, value_mark as spec_value_mark};
ghost use Rattle.stub_maker.specs.Crossing.{IsChosen, IsLaid, IsMarked, IsReturned, IsStep, marked_if as spec_marked_if, returned_in, step_in};

use crate::entries::{Found, KnownTypes, ShapedTypes, crosses, entry};
use crate::kinds::Passed;
use crate::refused::{Param, StubBad, Why};
use crate::stub::{Mark, Res, Step};
use crate::table::{Cell, Column};
use native_layout::{Enc, Shape};
use std::alloc::Global;

/// An entry of the table, and its mark.
#[derive(Clone, Copy, Debug, PartialEq, Eq)]
pub struct MarkedEntry {
    pub found: Found,
    pub mark: Mark,
}

fn is_in(flags: u32) -> bool
    ensures { result ≡ spec_is_in flags }
{
    0 < flags & 1
}

fn is_out(flags: u32) -> bool
    ensures { result ≡ spec_is_out flags }
{
    0 < flags & 2
}

/// What is copied both ways unless a flag says otherwise.
fn place_mark(flags: u32) -> Mark
    ensures { result ≡ spec_place_mark flags }
{
    if is_out(flags) {
        if is_in(flags) { Mark::Both } else { Mark::Take }
    } else if is_in(flags) {
        Mark::Give
    } else {
        Mark::Both
    }
}

/// What is given to native code alone unless a flag says otherwise.
fn array_mark(flags: u32) -> Mark
    ensures { result ≡ spec_array_mark flags }
{
    if is_out(flags) {
        if is_in(flags) { Mark::Both } else { Mark::Take }
    } else {
        Mark::Give
    }
}

fn value_mark(flags: u32) -> Option<Mark>
    ensures { result ≡ spec_value_mark flags }
{
    if is_out(flags) {
        None
    } else {
        Some(Mark::Give)
    }
}

/// The mark of what crosses in a cell, None where its flags aren't allowed there.
pub fn mark_in(cell: Cell, flags: u32) -> Option<Mark>
    ensures { result ≡ spec_mark_in cell flags }
{
    match cell {
        Cell::Place | Cell::PlainPlace => Some(place_mark(flags)),
        Cell::Lend => Some(Mark::Give),
        Cell::Copy | Cell::CountedCopy => Some(array_mark(flags)),
        _ => value_mark(flags),
    }
}

/// Why a type without an entry has none.
fn refusal<K: KnownTypes>(known: &K, unicode: bool, column: Column, passed: Passed) -> Why
    requires { column ≢ Column.Field }
    ensures { result ≡ spec_refusal (K.known known.now) unicode column passed }
{
    if crosses(known, unicode, column, passed.kind) {
        Why::Descriptor
    } else {
        Why::Type0
    }
}

/// The entry of a parameter or a result in a column, or why it has none.
pub fn entry_in<K: KnownTypes>(
    known: &K,
    unicode: bool,
    column: Column,
    passed: Passed,
) -> Result<Found, Why>
    requires { column ≢ Column.Field }
    ensures { IsChosen (K.known known.now) result (spec_entry_in (K.known known.now) unicode column passed) }
{
    match entry(known, unicode, column, passed.kind, passed.descriptor) {
        Some(found) => Ok(found),
        None => Err(refusal(known, unicode, column, passed)),
    }
}

/// What is found, with its mark, where it may have it and its shape is laid out.
pub fn marked_if(found: Found, mark: Option<Mark>, is_laid_out: bool) -> Result<MarkedEntry, Why>
    ensures { result ≡ spec_marked_if found mark is_laid_out }
{
    match mark {
        None => Err(Why::Mark),
        Some(mark) => {
            if is_laid_out {
                Ok(MarkedEntry { found, mark })
            } else {
                Err(Why::Layout)
            }
        }
    }
}

/// The column of a parameter.
pub fn column_of(passed: Passed, by_value: Column, by_reference: Column) -> Column
    requires value { by_value ≢ Column.Field }
    requires reference { by_reference ≢ Column.Field }
    ensures column { result ≡ (if passed.reference then by_reference else by_value) }
    ensures parameter { result ≢ Column.Field }
{
    if passed.reference {
        by_reference
    } else {
        by_value
    }
}

/// The entry of a parameter in a column, its mark and its layout.
pub fn marked<K: KnownTypes>(
    known: &K,
    unicode: bool,
    column: Column,
    passed: Passed,
) -> Result<MarkedEntry, Why>
    requires { column ≢ Column.Field }
    ensures { IsMarked (K.known known.now) result (marked_in (K.known known.now) unicode column passed) }
{
    match entry_in(known, unicode, column, passed) {
        Err(why) => Err(why),
        Ok(found) => marked_if(
            found,
            mark_in(found.cell, passed.flags),
            found.contents.laid_out,
        ),
    }
}

/// How a text is written; no other shape stands where a text does.
pub fn encoding_in(shape: &Shape) -> Enc
    ensures { result ≡ spec_encoding_in shape.now }
{
    match shape {
        Shape::Text(encoding) => *encoding,
        _ => Enc::Utf8,
    }
}

/// The step of a cell.
fn step_by(argument: u32, cell: Cell, mark: Mark, shape: Shape) -> Step
    ensures { result ≡ step_in argument cell mark shape }
{
    match cell {
        Cell::Text => Step::Text(argument, encoding_in(&shape)),
        Cell::Value | Cell::PlainValue => Step::Value(argument, shape),
        Cell::Place | Cell::PlainPlace => Step::Place(argument, mark, shape),
        Cell::Lend => Step::Lend(argument, shape),
        Cell::Copy | Cell::CountedCopy => Step::Copy(argument, mark, shape),
        Cell::Thunk => Step::Thunk(argument),
        Cell::Hold => Step::Hold(argument),
        _ => Step::Word(argument, shape),
    }
}

/// The step of an argument, or why it has none.
pub fn step_of<K: ShapedTypes>(
    alloc: Global,
    known: &K,
    unicode: bool,
    argument: u32,
    passed: Passed,
) -> Result<Step, StubBad>
    ensures { IsStep (Param.Arg argument) result (spec_step_of (K.known known.now) unicode argument passed) }
{
    match marked(
        known,
        unicode,
        column_of(passed, Column::ByValue, Column::ByReference),
        passed,
    ) {
        Err(why) => Err(StubBad::Outside {
            param: Param::Arg(argument),
            why,
        }),
        Ok(marked) => {
            let shape = known.shape(alloc, marked.found.form)?;
            Ok(step_by(argument, marked.found.cell, marked.mark, shape))
        }
    }
}

/// The entry of a result in a column, and its layout.
pub fn laid_entry<K: KnownTypes>(
    known: &K,
    unicode: bool,
    column: Column,
    passed: Passed,
) -> Result<Found, Why>
    requires { column ≢ Column.Field }
    ensures { IsLaid (K.known known.now) result (and_then (λ e. laid e.shape e) (spec_entry_in (K.known known.now) unicode column passed)) }
{
    match entry_in(known, unicode, column, passed) {
        Err(why) => Err(why),
        Ok(found) => {
            if found.contents.laid_out {
                Ok(found)
            } else {
                Err(Why::Layout)
            }
        }
    }
}

/// The result of a cell.
fn returned_by(cell: Cell, shape: Shape) -> Res
    ensures { result ≡ returned_in cell shape }
{
    match cell {
        Cell::Text => Res::Text(encoding_in(&shape)),
        Cell::Value | Cell::PlainValue => Res::Value(shape),
        _ => Res::Word(shape),
    }
}

fn outside_result(why: Why) -> StubBad
    ensures { result ≡ StubBad.Outside Param.Result why }
{
    StubBad::Outside {
        param: Param::Result,
        why,
    }
}

/// How a result comes back in a column, None being a void one, or why it has no row.
pub fn returned<K: ShapedTypes>(
    alloc: Global,
    known: &K,
    unicode: bool,
    column: Column,
    passed: Option<Passed>,
) -> Result<Res, StubBad>
    requires { column ≢ Column.Field }
    ensures { IsStep Param.Result result (spec_returned (K.known known.now) unicode column passed) }
{
    match passed {
        None => Ok(Res::Void),
        Some(passed) => {
            if passed.reference {
                Err(outside_result(Why::Type0))
            } else {
                returned_value(alloc, known, unicode, column, passed)
            }
        }
    }
}

/// How a value comes back, whether or not it is passed by reference.
fn returned_value<K: ShapedTypes>(
    alloc: Global,
    known: &K,
    unicode: bool,
    column: Column,
    passed: Passed,
) -> Result<Res, StubBad>
    requires { column ≢ Column.Field }
    ensures { IsStep Param.Result result (map_ok spec_returned_by (and_then (λ e. laid e.shape e) (spec_entry_in (K.known known.now) unicode column passed))) }
{
    match laid_entry(known, unicode, column, passed) {
        Err(why) => Err(outside_result(why)),
        Ok(found) => {
            let shape = known.shape(alloc, found.form)?;
            Ok(returned_by(found.cell, shape))
        }
    }
}
