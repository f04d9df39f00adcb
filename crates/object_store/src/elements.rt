//! Fields, elements and boxed values, each of which gives way to a value of its kind.

ghost use Rattle.std.specs.Prelude.{◌≡◌, ◌+◌, ◌*◌, ◌<◌, ◌≤◌, ◌↔◌, IsTrue, IfSome, IfNone, length, slice_set};
ghost use Rattle.std.specs.Bool.{OnTrue, OnFalse};
ghost use Rattle.managed_value.specs.Parts.{with_bytes};
ghost use Rattle.object_store.specs.Elements.{HasField, with_field, HasElement, with_element};
ghost use Rattle.object_store.specs.Elements.{HasBoxed, with_boxed, Takes, TakesBytes, kept_bytes, over};

use crate::body::Body0;
use bound_base::Bytes;
use managed_value::{Value, Values, kind_of};

/// Puts a value in place of a field of its kind, and tells whether there is one.
pub fn put_field(body: &mut Body0, k: u32, v: Value) -> bool
    ensures fits { IsTrue result ↔ HasField body.old k v }
    ensures done { OnTrue result (body.new ≡ with_field body.old k v) }
    ensures left { OnFalse result (body.new ≡ body.old) }
{
    match body {
        Body0::Object(_, fields) => put(fields, k as u64, v),
        _ => false,
    }
}

/// Puts a value in place of an element of its kind, and tells whether there is one.
pub fn put_element(body: &mut Body0, k: u64, v: Value) -> bool
    ensures fits { IsTrue result ↔ HasElement body.old k v }
    ensures done { OnTrue result (body.new ≡ with_element body.old k v) }
    ensures left { OnFalse result (body.new ≡ body.old) }
{
    match body {
        Body0::Array(_, 0, _, _, elements) => put(elements, k, v),
        Body0::Array(_, width, _, bytes, _) => put_in_bytes(bytes, *width, k, &v),
        _ => false,
    }
}

/// Puts a value in place of the one in a box, where it is of its kind, and tells whether it is.
pub fn put_boxed(body: &mut Body0, v: Value) -> bool
    ensures fits { IsTrue result ↔ HasBoxed body.old v }
    ensures done { OnTrue result (body.new ≡ with_boxed body.old v) }
    ensures left { OnFalse result (body.new ≡ body.old) }
{
    match body {
        Body0::Box(_, old) => {
            if kind_of(old) != kind_of(&v) {
                return false;
            }
            *old = v;
            true
        }
        _ => false,
    }
}

/// Puts a value in place of one of its kind, and tells whether there is one.
fn put(values: &mut Values, k: u64, v: Value) -> bool
    ensures fits { IsTrue result ↔ Takes values.old k v }
    ensures done { OnTrue result (values.new ≡ slice_set values.old k v) }
    ensures left { OnFalse result (values.new ≡ values.old) }
{
    if !takes(values, k as usize, &v) {
        return false;
    }
    values.set(k as usize, v);
    true
}

fn takes(values: &Values, k: usize, v: &Value) -> bool
    ensures { IsTrue result ↔ Takes values.now k v.now }
{
    match values.get(k) {
        Some(old) => kind_of(old) == kind_of(v),
        None => false,
    }
}

/// Puts a value over the bytes of an element of its kind, and tells whether there is one.
fn put_in_bytes(bytes: &mut Bytes, width: u32, k: u64, v: &Value) -> bool
    ensures fits { IsTrue result ↔ TakesBytes bytes.old width k v.now }
    ensures done { OnTrue result (bytes.new ≡ over bytes.old (k * width) (kept_bytes width v.now)) }
    ensures left { OnFalse result (bytes.new ≡ bytes.old) }
{
    let Some(at) = element_at(bytes.len(), width, k) else {
        return false;
    };
    match v {
        Value::I32(n) if width <= 4 => write(bytes, at, &n.to_le_bytes()[..width as usize]),
        Value::I64(n) | Value::N(n) if width == 8 => write(bytes, at, &n.to_le_bytes()),
        Value::Flat(_, new) if new.len() == width as usize => write(bytes, at, new.as_slice()),
        _ => return false,
    }
    true
}

/// Where in so many bytes an element lies; None where it isn't there.
fn element_at(len: usize, width: u32, k: u64) -> Option<usize>
    ensures there { IfSome result (λ at. (at ≡ k * width) × (k * width + width ≤ len)) }
    ensures missing { IfNone result (len < k * width + width) }
{
    let at = k.checked_mul(width as u64)?;
    let end = at.checked_add(width as u64)?;
    if end <= len as u64 {
        Some(at as usize)
    } else {
        None
    }
}

/// Writes bytes over those from a place on.
fn write(bytes: &mut Bytes, at: usize, new: &[u8])
    requires { at + length new.now ≤ length bytes.old }
    ensures { bytes.new ≡ with_bytes bytes.old at new.now }
{
    prove!(at <= bytes.len());
    for (i, byte) in new.iter().enumerate() {
        bytes.set(at + i, *byte);
    }
}
