//! The steps of an import's parameters, and which of them are read back and end.

ghost use Rattle.std.specs.Prelude.{◌≡◌, ◌||◌, All, IfOk, nat_lt};
ghost use Rattle.native_layout.specs.Shapes.{texts_in};
ghost use Rattle.stub_maker.specs.Extents.{size as byte_size};
ghost use Rattle.stub_maker.specs.Crossing.{IsReturned, IsStep};
ghost use Rattle.stub_maker.specs.Rules.{each_from, ended as spec_ended, greatest_in_words, is_read_back as spec_is_read_back, may_lend as spec_may_lend, read_back as spec_read_back, step_of as spec_step_of};
ghost use Rattle.stub_maker.specs.Sized.{IsSized, IsSizedStep};

use crate::crossing::step_of;
use crate::entries::ShapedTypes;
use crate::kinds::Passed;
use crate::refused::{Param, StubBad};
use crate::stub::{Args, Mark, Step, Steps};
use bound_base::NoMemory;
use native_layout::{Shape, has_texts, size_of};
use std::alloc::Global;

/// The greatest size in bytes of a struct that is passed in words.
const GREATEST_IN_WORDS: u64 = 16;

/// The number of a parameter. A signature has fewer than 2^29 of them (ECMA-335 II.23.2), so there is always one.
pub fn number_of(index: usize) -> Result<u32, NoMemory>
    ensures { IfOk result (λ number. number ≡ index) }
{
    u32::try_from(index).map_err(|_| NoMemory)
}

/// The step of each parameter in order, or the first parameter that has none.
pub fn steps_of<K: ShapedTypes>(
    alloc: Global,
    known: &K,
    unicode: bool,
    params: &[Passed],
) -> Result<Steps, StubBad>
    ensures { IsReturned result (each_from (spec_step_of (K.known known.now) unicode) 0 params.now) }
{
    let mut steps = Steps::new(alloc);
    for (index, passed) in params.iter().enumerate() {
        steps.push(step_at(alloc, known, unicode, index, passed)?)?;
    }
    Ok(steps)
}

/// The step of the parameter at an index.
fn step_at<K: ShapedTypes>(
    alloc: Global,
    known: &K,
    unicode: bool,
    index: usize,
    passed: &Passed,
) -> Result<Step, StubBad>
    ensures { IsStep (Param.Arg index) result (spec_step_of (K.known known.now) unicode index passed.now) }
{
    step_of(alloc, known, unicode, number_of(index)?, *passed)
}

fn is_read_back(step: &Step) -> bool
    ensures { result ≡ spec_is_read_back step.now }
{
    match step {
        Step::Place(_, mark, _) | Step::Copy(_, mark, _) => !matches!(mark, Mark::Give),
        _ => false,
    }
}

/// The arguments that are read back, left to right.
pub fn read_back(alloc: Global, steps: &[Step]) -> Result<Args, NoMemory>
    ensures { IfOk result (λ back. back ≡ spec_read_back steps.now) }
{
    let mut back = Args::new(alloc);
    for step in steps {
        if is_read_back(step) {
            back.push(step.argument())?;
        }
    }
    Ok(back)
}

/// Whether a struct is passed in memory of its own, or a text in it is.
fn value_may_lend(shape: &Shape) -> bool
    requires { IsSized shape.now }
    ensures { result ≡ (nat_lt greatest_in_words (byte_size shape.now) || texts_in shape.now) }
{
    GREATEST_IN_WORDS < size_of(shape) || has_texts(shape)
}

/// Whether a step may make a loan: a block of its own, a lent array, a held handle.
fn may_lend(step: &Step) -> bool
    requires { IsSizedStep step.now }
    ensures { result ≡ spec_may_lend step.now }
{
    match step {
        Step::Word(_, _) | Step::Thunk(_) => false,
        Step::Value(_, shape) => value_may_lend(shape),
        _ => true,
    }
}

/// The arguments whose steps may make loans, last to first.
pub fn ended(alloc: Global, steps: &[Step]) -> Result<Args, NoMemory>
    requires { All IsSizedStep steps.now }
    ensures { IfOk result (λ ends. ends ≡ spec_ended steps.now) }
{
    let mut ends = Vec::new(alloc);
    for step in steps {
        if may_lend(step) {
            ends.push(step.argument())?;
        }
    }
    ends.reverse();
    Ok(Args::from_vec(ends))
}
