//! Puts values in place of parts of others.

ghost use Rattle.std.specs.Prelude.{◌≡◌, ◌+◌, ◌≤◌, ◌↔◌, length, IsTrue};
ghost use Rattle.std.specs.Bool.{OnTrue, OnFalse};
ghost use Rattle.managed_value.specs.declared.value.Value.{out-Value};
ghost use Rattle.managed_value.specs.Parts.{Fits, put, start_of, with_bytes, flat_bytes, flat_with};

use crate::parts::{kind, kind_of_part, part_of};
use crate::place::{Path, PathStep};
use crate::value::Value;
use bound_base::Bytes;

/// Puts a value at a path, in place of one of its kind. False, with nothing changed, exactly where
/// the path leads to no value of that kind. It takes no memory.
pub fn put_at(v: &mut Value, path: &Path, new: Value) -> bool
    ensures fits { IsTrue result ↔ Fits v.old path.now new }
    ensures done { OnTrue result (v.new ≡ put v.old path.now new) }
    ensures left { OnFalse result (v.new ≡ v.old) }
{
    let path = path.as_slice();
    if !fits(v, path, &new) {
        return false;
    }
    put_within(v, path, new);
    true
}

/// Whether a path leads to a value of the kind of another.
fn fits(v: &Value, path: &[PathStep], new: &Value) -> bool
    ensures { IsTrue result ↔ Fits v.now path.now new.now }
{
    match part_of(v, path) {
        Some(old) => kind_of_part(&old) == kind(new),
        None => false,
    }
}

/// Puts a value at a path that leads to one of its kind.
fn put_within(v: &mut Value, path: &[PathStep], new: Value)
    requires { Fits v.old path.now new }
    ensures { v.new ≡ put v.old path.now new }
{
    let Some((step, rest)) = path.split_first() else {
        *v = new;
        return;
    };
    match step {
        PathStep::Field(k) => {
            if let Value::Fields(_, parts) = v {
                if let Some(part) = parts.get_mut(*k as usize) {
                    put_within(part, rest, new);
                }
            }
        }
        PathStep::Range(_, _) => put_bytes(v, path, bytes_of(&new)),
    }
}

/// The bytes of a value that is kept as bytes; none of another.
fn bytes_of(v: &Value) -> &[u8]
    ensures { result.now ≡ flat_bytes (out-Value v.now) }
{
    match v {
        Value::Flat(_, bytes) => bytes.as_slice(),
        _ => &[],
    }
}

/// Writes bytes over those of a value that is kept as bytes, from where the ranges of a path begin.
fn put_bytes(v: &mut Value, path: &[PathStep], new: &[u8])
    requires { start_of path.now + length new.now ≤ length (flat_bytes (out-Value v.old)) }
    ensures { v.new ≡ flat_with v.old (start_of path.now) new.now (out-Value v.old) }
{
    if let Value::Flat(_, bytes) = v {
        let at = start(path, bytes.len());
        write(bytes, at, new);
    }
}

/// Where in so many bytes the ranges of a path begin.
fn start(path: &[PathStep], within: usize) -> usize
    requires { start_of path.now ≤ within }
    ensures { result ≡ start_of path.now }
{
    let mut at = 0;
    for step in path {
        if let PathStep::Range(offset, _) = step {
            at += *offset as usize;
        }
    }
    at
}

/// Writes bytes over those from a place on.
fn write(bytes: &mut Bytes, at: usize, new: &[u8])
    requires { at + length new.now ≤ length bytes.old }
    ensures { bytes.new ≡ with_bytes bytes.old at new.now }
{
    prove!(at <= bytes.len());
    for (i, byte) in new.iter().enumerate() {
        bytes.set(at + i, *byte);
    }
}
