//! New arrays, and the bytes of arrays that leave them and come back.

ghost use Rattle.std.specs.Prelude.{◌≡◌, ◌*◌, ◌^◌, ◌<◌, replicate, IfOk, Some, None, OnSome, IfNone, length, if◌then◌else◌};
ghost use Rattle.object_store.specs.Weights.{element_size};
ghost use Rattle.object_store.specs.Making.{new_array};
ghost use Rattle.object_store.specs.Lending.{array_bytes, with_bytes_of, home_bytes, emptied, refilled, has_size, waits_for};

use crate::body::Body0;
use crate::object::StoredObject;
use bound_base::{Bytes, Items, NoMemory};
use managed_value::{TypeId, Value, Values, copy_of};
use std::alloc::Global;
use std::mem::replace;

/// A new array: zeros where it is kept as bytes, else so many equal values.
pub fn zeros(
    alloc: Global,
    elem: TypeId,
    width: u32,
    zero: &Value,
    len: u64,
) -> Result<Body0, NoMemory>
    requires { element_size width * len < 2 ^ 64 }
    ensures { IfOk result (λ body. body ≡ new_array elem width zero.now len) }
{
    if width == 0 {
        let elements = copies(alloc, zero, len)?;
        return Ok(Body0::Array(elem, width, len, Bytes::new(alloc), elements));
    }
    let bytes = zero_bytes(alloc, width as u64 * len)?;
    Ok(Body0::Array(elem, width, len, bytes, Values::new(alloc)))
}

fn zero_bytes(alloc: Global, len: u64) -> Result<Bytes, NoMemory>
    ensures { IfOk result (λ bytes. bytes ≡ replicate len 0) }
{
    Ok(Items::from_vec(vec![in alloc; 0; len as usize]?))
}

fn copies(alloc: Global, value: &Value, len: u64) -> Result<Values, NoMemory>
    ensures { IfOk result (λ copies. copies ≡ replicate len value.now) }
{
    let mut copies = Values::with_capacity(alloc, len as usize)?;
    for _ in 0..len {
        copies.push(copy_of(alloc, value)?)?;
    }
    Ok(copies)
}

/// Takes the bytes of an array that is kept as bytes, where they are at home.
pub fn take(alloc: Global, object: &mut StoredObject) -> Option<Bytes>
    ensures bytes { result ≡ home_bytes object.old }
    ensures taken { OnSome result (object.new ≡ emptied object.old) }
    ensures unchanged { IfNone result (object.new ≡ object.old) }
{
    if object.away {
        return None;
    }
    let bytes = exchange(&mut object.body, Bytes::new(alloc))?;
    object.away = true;
    Some(bytes)
}

/// Gives an array its bytes back, or hands them back where it doesn't wait for so many.
pub fn give(object: &mut StoredObject, bytes: Bytes) -> Option<Bytes>
    ensures back { result ≡ (if waits_for (length bytes) object.old then None else Some bytes) }
    ensures given { IfNone result (object.new ≡ refilled bytes object.old) }
    ensures unchanged { OnSome result (object.new ≡ object.old) }
{
    if !waits(object, bytes.len()) {
        return Some(bytes);
    }
    let _ = exchange(&mut object.body, bytes);
    object.away = false;
    None
}

/// The array's bytes are away, and are so many.
fn waits(object: &StoredObject, len: usize) -> bool
    ensures { result ≡ waits_for len object.now }
{
    object.away && is_of_size(&object.body, len)
}

/// An array that is kept as bytes has so many.
fn is_of_size(body: &Body0, size: usize) -> bool
    ensures { result ≡ has_size size body.now }
{
    match body {
        Body0::Array(_, width, len, _, _) => {
            *width != 0 && (*width as u64).checked_mul(*len) == Some(size as u64)
        }
        _ => false,
    }
}

/// Puts other bytes in place of those of an array that is kept as bytes.
fn exchange(body: &mut Body0, new: Bytes) -> Option<Bytes>
    ensures old { result ≡ array_bytes body.old }
    ensures done { OnSome result (body.new ≡ with_bytes_of new body.old) }
    ensures unchanged { IfNone result (body.new ≡ body.old) }
{
    match body {
        Body0::Array(_, width, _, bytes, _) => {
            if *width == 0 {
                return None;
            }
            Some(replace(bytes, new))
        }
        _ => None,
    }
}
