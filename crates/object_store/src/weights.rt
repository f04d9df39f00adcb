//! The bytes that objects count.

ghost use Rattle.std.specs.Prelude.{◌≡◌, ◌+◌, ◌*◌, sum_by};
ghost use Rattle.object_store.specs.Weights.{size_of, element_size, weight_of, capped};

use crate::body::Body0;
use managed_value::Value;

/// What each object counts beside what is in it.
const HEADER: u64 = 16;

/// What a value counts that isn't kept as bytes.
const WORD: u64 = 8;

/// What a delegate counts.
const DELEGATE: u64 = 32;

/// The bytes that an object counts, or 2^64 - 1 where they are more.
pub fn weight(body: &Body0) -> u64
    ensures { result ≡ capped (weight_of body.now) }
{
    match body {
        Body0::Object(_, fields) => fields_weight(fields.as_slice()),
        Body0::Text(units) => units_weight(units.len() as u64),
        Body0::Array(_, width, len, _, _) => array_weight(*width, *len),
        Body0::Box(_, v) => size(v).saturating_add(HEADER),
        Body0::Builder(_, capacity) => units_weight(*capacity as u64),
        Body0::Delegate(_, _, _) | Body0::Native(_, _) => DELEGATE,
    }
}

/// The bytes that an array counts, or 2^64 - 1 where they are more.
pub fn array_weight(width: u32, len: u64) -> u64
    ensures { result ≡ capped (element_size width * len + 16) }
{
    let element = if width == 0 { WORD } else { width as u64 };
    element.saturating_mul(len).saturating_add(HEADER)
}

/// The bytes that a text of so many code units counts, or 2^64 - 1 where they are more.
fn units_weight(units: u64) -> u64
    ensures { result ≡ capped (units * 2 + 16) }
{
    units.saturating_mul(2).saturating_add(HEADER)
}

fn fields_weight(fields: &[Value]) -> u64
    ensures { result ≡ capped (sum_by size_of fields.now + 16) }
{
    let mut total: u64 = 0;
    for field in fields {
        total = total.saturating_add(size(field));
    }
    total.saturating_add(HEADER)
}

/// The bytes that a field, or the value in a box, counts.
fn size(v: &Value) -> u64
    ensures { result ≡ size_of v.now }
{
    match v {
        Value::Flat(_, bytes) => bytes.len() as u64,
        _ => WORD,
    }
}
