//! How a callback crosses, as data: how its parameters are received, and how its result comes back.

ghost use Rattle.std.specs.Prelude.{◌≡◌, Bool, IfOk};
ghost use Rattle.std.specs.Option.{option_copied};
ghost use Rattle.stub_maker.specs.Answers.{map_ok};
ghost use Rattle.stub_maker.specs.Callbacks.{back_of as spec_back_of, back_of_signature as spec_back_of_signature, element_base as spec_element_base, in_lists, received_by as spec_received_by, received_of as spec_received_of};
ghost use Rattle.stub_maker.specs.Crossing.{IsReturned, IsStep};
ghost use Rattle.stub_maker.specs.Rules.{each_from};
ghost use Rattle.stub_maker.specs.Sized.{IsSizedBack};

use crate::callbacks::{counted_by, marked_of};
use crate::crossing::{encoding_in, returned};
use crate::entries::ShapedTypes;
use crate::imports::{is_plain_signature, outside_as_whole};
use crate::kinds::{Passed, TypeKind};
use crate::refused::{Param, StubBad, Why};
use crate::signature::Signature;
use crate::steps::number_of;
use crate::stub::{Back, Mark, Marks, Received, ReceivedList};
use crate::table::{Cell, Column};
use native_layout::Shape;
use std::alloc::Global;

/// A parameter of a callback, and its mark.
#[derive(Drop)]
pub struct ReceivedMark {
    pub received: Received,
    pub mark: Mark,
}

/// The parameters of a callback, and their marks.
#[derive(Drop)]
pub struct ReceivedParams {
    pub received: ReceivedList,
    pub marks: Marks,
}

/// How a callback by this signature of Invoke crosses, None standing for no Invoke, or one outside the grammar; or what of it has
/// no row in the marshalling table and why: the signature as a whole, the first parameter from the left, the result.
pub fn back_of<K: ShapedTypes>(
    alloc: Global,
    known: &K,
    invoke: Option<&Signature>,
) -> Result<Back, StubBad>
    ensures back { IsReturned result (spec_back_of (K.known known.now) (option_copied invoke.entry)) }
    ensures sized { IfOk result IsSizedBack }
{
    match invoke {
        None => Err(outside_as_whole(Why::Type0)),
        Some(signature) => {
            if is_plain_signature(signature) {
                back_of_signature(alloc, known, signature)
            } else {
                Err(outside_as_whole(Why::Type0))
            }
        }
    }
}

fn back_of_signature<K: ShapedTypes>(
    alloc: Global,
    known: &K,
    signature: &Signature,
) -> Result<Back, StubBad>
    ensures { IsReturned result (spec_back_of_signature (K.known known.now) signature.now) }
{
    let params = received_params(alloc, known, signature.params.as_slice())?;
    let result = returned(
        alloc,
        known,
        false,
        Column::CallbackReturned,
        signature.result,
    )?;
    let ReceivedParams { received, marks } = params;
    Ok(Back {
        params: received,
        result,
        marks,
    })
}

/// Each parameter in order, or the first one that has no row.
fn received_params<K: ShapedTypes>(
    alloc: Global,
    known: &K,
    params: &[Passed],
) -> Result<ReceivedParams, StubBad>
    ensures { IsReturned result (map_ok in_lists (each_from (spec_received_of (K.known known.now) params.now) 0 params.now)) }
{
    let mut received = ReceivedList::new(alloc);
    let mut marks = Marks::new(alloc);
    for (index, passed) in params.iter().enumerate() {
        let one = received_at(alloc, known, params, index, passed)?;
        received.push(one.received)?;
        marks.push(one.mark)?;
    }
    Ok(ReceivedParams { received, marks })
}

/// The parameter at an index.
fn received_at<K: ShapedTypes>(
    alloc: Global,
    known: &K,
    params: &[Passed],
    index: usize,
    passed: &Passed,
) -> Result<ReceivedMark, StubBad>
    ensures { IsStep (Param.Arg index) result (spec_received_of (K.known known.now) params.now index passed.now) }
{
    received_of(alloc, known, params, number_of(index)?, *passed)
}

fn received_of<K: ShapedTypes>(
    alloc: Global,
    known: &K,
    params: &[Passed],
    argument: u32,
    passed: Passed,
) -> Result<ReceivedMark, StubBad>
    ensures { IsStep (Param.Arg argument) result (spec_received_of (K.known known.now) params.now argument passed) }
{
    match marked_of(known, params, passed) {
        Err(why) => Err(StubBad::Outside {
            param: Param::Arg(argument),
            why,
        }),
        Ok(marked) => {
            let shape = known.shape(alloc, marked.found.form)?;
            Ok(ReceivedMark {
                received: received_by(passed, marked.found.cell, shape),
                mark: marked.mark,
            })
        }
    }
}

/// How what crosses in a cell is received.
fn received_by(passed: Passed, cell: Cell, shape: Shape) -> Received
    ensures { result ≡ spec_received_by passed cell shape }
{
    match cell {
        Cell::Text => Received::Text(encoding_in(&shape)),
        Cell::Value | Cell::PlainValue => Received::Value(shape),
        Cell::Place | Cell::PlainPlace => Received::Place(shape),
        Cell::CountedCopy => {
            let counted = counted_by(passed.descriptor);
            Received::Copy(
                element_base(passed.kind),
                shape,
                counted.count,
                counted.parameter,
            )
        }
        _ => Received::Word(shape),
    }
}

/// The `base` of an array's element.
fn element_base(kind: TypeKind) -> u32
    ensures { result ≡ spec_element_base kind }
{
    match kind {
        TypeKind::Array(base, _) => base,
        TypeKind::One(_) => 0,
    }
}
