//! A stub: how the arguments and the result of an import cross, as data. And the same of a callback.

use bound_base::Items;
use native_layout::{Enc, Shape};

/// Which way the bytes behind a pointer go: to native code, back from it, or both.
#[derive(Clone, Copy, Debug, PartialEq, Eq)]
pub enum Mark {
    Give,
    Take,
    Both,
}

/// How one argument is passed. The first number of each is the argument's, from 0.
#[derive(Drop)]
pub enum Step {
    /// The handle's value as a word; the handle is held for the call.
    Hold(u32),
    /// An integer, bool or char, or an address, as one word.
    Word(u32, Shape),
    /// The address of a text in memory of its own.
    Text(u32, Enc),
    /// A struct: its bytes as one or two words where it has at most 16, else the address of a copy.
    Value(u32, Shape),
    /// The address of a copy of what the argument refers to.
    Place(u32, Mark, Shape),
    /// The address of the array itself, whose elements have this shape.
    Lend(u32, Shape),
    /// The address of a copy of the array's elements, which have this shape.
    Copy(u32, Mark, Shape),
    /// The address of code that calls the delegate.
    Thunk(u32),
}

impl Step {
    ghost use Rattle.std.specs.Prelude.{◌≡◌};
    ghost use Rattle.stub_maker.specs.Steps.{argument_of};

    /// The number of the argument, from 0.
    pub fn argument(&self) -> u32
        ensures { result ≡ argument_of self.now }
    {
        match self {
            Step::Hold(k)
            | Step::Word(k, _)
            | Step::Text(k, _)
            | Step::Value(k, _)
            | Step::Place(k, _, _)
            | Step::Lend(k, _)
            | Step::Copy(k, _, _)
            | Step::Thunk(k) => *k,
        }
    }
}

/// One step for each argument, in order.
pub type Steps = Items<Step>;

/// Numbers of arguments, from 0.
pub type Args = Items<u32>;

/// How a result comes back.
#[derive(Drop)]
pub enum Res {
    Void,
    /// An integer, bool or char, or an address, in one word.
    Word(Shape),
    /// The address of a text, which is freed when it has been read.
    Text(Enc),
    /// A struct: in one or two words where it has at most 16 bytes, else at an address that the caller gives.
    Value(Shape),
}

/// How an import's arguments and result cross.
#[derive(Drop)]
pub struct Stub {
    pub steps: Steps,
    /// The arguments that are read back, left to right.
    pub back: Args,
    /// The arguments whose steps may make loans, last to first.
    pub ends: Args,
    pub result: Res,
    /// Whether the native error number is saved after the call.
    pub errno: bool,
}

/// How a callback's parameter is received.
#[derive(Drop)]
pub enum Received {
    Word(Shape),
    Text(Enc),
    Value(Shape),
    /// What the parameter's address points to.
    Place(Shape),
    /// The array whose first element the address points to: the `base` of the element's type, the element's shape, a
    /// number of elements, and the number of the parameter that gives further ones.
    Copy(u32, Shape, Option<u32>, Option<u32>),
}

/// One for each parameter of a callback, in order.
pub type ReceivedList = Items<Received>;

/// One for each parameter, in order.
pub type Marks = Items<Mark>;

/// How a callback's arguments and result cross.
#[derive(Drop)]
pub struct Back {
    pub params: ReceivedList,
    pub result: Res,
    /// `Give` where the parameter is neither a place nor a copy.
    pub marks: Marks,
}
