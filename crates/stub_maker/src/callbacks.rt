//! How a callback crosses: the parameters and the result of a delegate's Invoke.

ghost use Rattle.std.specs.Prelude.{◌≡◌, ◌≢◌, Bool, is_ok, slice_get};
ghost use Rattle.std.specs.Option.{option_copied};
ghost use Rattle.stub_maker.specs.Answers.{and_then, map_ok};
ghost use Rattle.stub_maker.specs.Callbacks.{back_of as spec_back_of, back_of_signature as spec_back_of_signature, counted_by as spec_counted_by, gives_length as spec_gives_length, has_length as spec_has_length, is_integer as spec_is_integer, is_used as spec_is_used, length_is_there as spec_length_is_there, marked_of as spec_marked_of, received_of as spec_received_of, with_length as spec_with_length};
ghost use Rattle.stub_maker.specs.Crossing.{IsChosen, IsMarked};
ghost use Rattle.stub_maker.specs.Rules.{each_from, entry_in as spec_entry_in, laid, returned as spec_returned, returned_by as spec_returned_by};

use crate::crossing::{MarkedEntry, column_of, entry_in, laid_entry, mark_in, marked_if};
use crate::entries::{Found, KnownTypes};
use crate::imports::is_plain_signature;
use crate::kinds::{Descriptor, Kind, Passed, TypeKind};
use crate::refused::Why;
use crate::signature::Signature;
use crate::table::{Cell, Column};
use marshal_spec::Spec;

/// Where a callback finds an array's length: a number of elements, and the number of a parameter that gives further ones.
#[derive(Clone, Copy, Debug, PartialEq, Eq)]
pub struct Counted {
    pub count: Option<u32>,
    pub parameter: Option<u32>,
}

/// Whether a callback by this signature of Invoke crosses; None stands for no Invoke, or one outside the grammar. It makes no
/// shapes, so that it can be asked while the types of a file are being learned.
pub fn is_callable<K: KnownTypes>(known: &K, invoke: Option<&Signature>) -> bool
    ensures { result ≡ is_ok (spec_back_of (K.known known.now) (option_copied invoke.entry)) }
{
    match invoke {
        None => false,
        Some(signature) => {
            is_plain_signature(signature) && is_callable_signature(known, signature)
        }
    }
}

fn is_callable_signature<K: KnownTypes>(known: &K, signature: &Signature) -> bool
    ensures { result ≡ is_ok (spec_back_of_signature (K.known known.now) signature.now) }
{
    are_received(known, signature.params.as_slice()) && comes_back(known, signature.result)
}

/// Whether each parameter is received.
fn are_received<K: KnownTypes>(known: &K, params: &[Passed]) -> bool
    ensures { result ≡ is_ok (each_from (spec_received_of (K.known known.now) params.now) 0 params.now) }
{
    for passed in params {
        if !is_received(known, params, *passed) {
            return false;
        }
    }
    true
}

fn is_received<K: KnownTypes>(known: &K, params: &[Passed], passed: Passed) -> bool
    ensures { result ≡ is_ok (spec_marked_of (K.known known.now) params.now passed) }
{
    marked_of(known, params, passed).is_ok()
}

/// Whether a result comes back, None being a void one.
fn comes_back<K: KnownTypes>(known: &K, passed: Option<Passed>) -> bool
    ensures { result ≡ is_ok (spec_returned (K.known known.now) Bool.false Column.CallbackReturned passed) }
{
    match passed {
        None => true,
        Some(passed) => {
            if passed.reference {
                false
            } else {
                value_comes_back(known, passed)
            }
        }
    }
}

fn value_comes_back<K: KnownTypes>(known: &K, passed: Passed) -> bool
    ensures { result ≡ is_ok (map_ok spec_returned_by (and_then (λ e. laid e.shape e) (spec_entry_in (K.known known.now) Bool.false Column.CallbackReturned passed))) }
{
    laid_entry(known, false, Column::CallbackReturned, passed).is_ok()
}

/// A parameter's entry, its mark and its layout.
pub fn marked_of<K: KnownTypes>(
    known: &K,
    params: &[Passed],
    passed: Passed,
) -> Result<MarkedEntry, Why>
    ensures { IsMarked (K.known known.now) result (spec_marked_of (K.known known.now) params.now passed) }
{
    match counted_entry(
        known,
        params,
        column_of(passed, Column::CallbackValue, Column::CallbackReference),
        passed,
    ) {
        Err(why) => Err(why),
        Ok(found) => marked_if(
            found,
            mark_in(found.cell, passed.flags),
            found.contents.laid_out,
        ),
    }
}

/// The entry of a parameter in a column, where an array has a length.
fn counted_entry<K: KnownTypes>(
    known: &K,
    params: &[Passed],
    column: Column,
    passed: Passed,
) -> Result<Found, Why>
    requires { column ≢ Column.Field }
    ensures { IsChosen (K.known known.now) result (and_then (spec_with_length params.now passed) (spec_entry_in (K.known known.now) Bool.false column passed)) }
{
    match entry_in(known, false, column, passed) {
        Err(why) => Err(why),
        Ok(found) => {
            if length_is_there(found.cell, params, passed.descriptor) {
                Ok(found)
            } else {
                Err(Why::Descriptor)
            }
        }
    }
}

/// Whether what crosses in a cell has a length, if it must have one.
fn length_is_there(cell: Cell, params: &[Passed], descriptor: Descriptor) -> bool
    ensures { result ≡ spec_length_is_there cell params.now descriptor }
{
    match cell {
        Cell::CountedCopy => has_length(params, counted_by(descriptor)),
        _ => true,
    }
}

/// Whether the parameter that is named may give a length, or a number of elements is there.
fn has_length(params: &[Passed], counted: Counted) -> bool
    ensures { result ≡ spec_has_length params.now counted }
{
    match counted.parameter {
        Some(parameter) => gives_length(params, parameter),
        None => counted.count.is_some(),
    }
}

/// Whether a parameter may give a length: an integer that is passed by value.
fn gives_length(params: &[Passed], parameter: u32) -> bool
    ensures { result ≡ spec_gives_length (slice_get params.now parameter) }
{
    match params.get(parameter as usize) {
        Some(passed) => !passed.reference && is_integer(passed.kind),
        None => false,
    }
}

fn is_integer(kind: TypeKind) -> bool
    ensures { result ≡ spec_is_integer kind }
{
    matches!(
        kind,
        TypeKind::One(Kind::Integer(_, _)) | TypeKind::One(Kind::NativeInteger(_))
    )
}

pub fn counted_by(descriptor: Descriptor) -> Counted
    ensures { result ≡ spec_counted_by descriptor }
{
    match descriptor {
        Descriptor::Is(Spec::LpArray(_, parameter, count, flag)) => Counted {
            count,
            parameter: if is_used(flag) { parameter } else { None },
        },
        _ => Counted {
            count: None,
            parameter: None,
        },
    }
}

/// Whether the parameter's number is used: bit 0 of the flag, 1 where there is no flag.
fn is_used(flag: Option<u32>) -> bool
    ensures { result ≡ spec_is_used flag }
{
    match flag {
        Some(flag) => flag % 2 == 1,
        None => true,
    }
}
