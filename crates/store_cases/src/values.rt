//! Values and bytes of a case. A value is a word: `i32:N`, `i64:N`, `n:N`, `null`, `ref:N`, or `flat:HEX`, which is kept as bytes.

use anyhow::bail;
use bound_base::{Items, Units};
use managed_value::{ObjId, TypeId, Value, Values};
use std::alloc::Global;

/// The type that all objects of a case are of.
pub const TYPE: TypeId = TypeId { base: 2, arrays: 0 };

/// The bytes that a word gives in hexadecimal, none for `-`.
pub fn bytes_of(alloc: Global, word: &str) -> anyhow::Result<Vec<u8>> {
    if word == "-" {
        return Ok(Vec::new(alloc));
    }
    Ok(hex::decode(alloc, word)?)
}

/// A text of the code unit `a`, so many times.
pub fn text_of(alloc: Global, word: &str) -> anyhow::Result<Units> {
    let count: u16 = word.parse()?;
    Ok(Items::from_vec(vec![in alloc; 0x61; count as usize]?))
}

pub fn values_of(alloc: Global, words: &[&str]) -> anyhow::Result<Values> {
    let mut values = Values::new(alloc);
    for word in words {
        values.push(value_of(alloc, word)?)?;
    }
    Ok(values)
}

pub fn value_of(alloc: Global, word: &str) -> anyhow::Result<Value> {
    if word == "null" {
        return Ok(Value::Null);
    }
    let Some((kind, number)) = word.split_once(':') else {
        bail!("a value without a kind");
    };
    Ok(match kind {
        "i32" => Value::I32(number.parse()?),
        "i64" => Value::I64(number.parse()?),
        "n" => Value::N(number.parse()?),
        "ref" => Value::Ref(ObjId(number.parse()?)),
        "flat" => Value::Flat(TYPE, Items::from_vec(bytes_of(alloc, number)?)),
        _ => bail!("a kind that no case has"),
    })
}
