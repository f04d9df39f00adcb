//! Managed values.

use crate::names::{ObjId, TypeId};
use crate::place::Place;
use bound_base::{Bytes, Items};

/// A value, as a stack, a variable or a field holds it.
#[derive(Debug, Drop)]
pub enum Value {
    /// An int32, or a narrower integer, bool or char widened to it.
    I32(i32),
    /// An int64.
    I64(i64),
    /// A native int, or a pointer.
    N(i64),
    /// No object.
    Null,
    /// An object.
    Ref(ObjId),
    /// The code of a method, by its row of MethodDef or as `ldftn` made it.
    Code(u32),
    /// The address of a place.
    At(Place),
    /// A value of a value type that is kept as bytes, and those bytes.
    Flat(TypeId, Bytes),
    /// A value of a value type that is kept field by field, base first.
    Fields(TypeId, Values),
}

/// Values, one after another.
pub type Values = Items<Value>;
