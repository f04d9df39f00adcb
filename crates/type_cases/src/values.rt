//! Parts of values: `get` finds one in a sample value, and `put` puts one there and prints what the
//! sample then is. A path is a word: `f1` is field 1, `r2:4` four bytes from byte 2 on, steps are
//! joined by `.`, and `-` is the empty path. The sample is a value type's value of three fields: an
//! int32, eight bytes of type 3, and a value of type 4, which has null and an int64.

use crate::hexadecimal::bytes_of;
use anyhow::bail;
use bound_base::Items;
use managed_value::{ObjId, Path, PathStep, TypeId, Value, Values, get_at, put_at};

pub fn print(rt: &HostRuntime, words: &[&str]) -> anyhow::Result<bool> {
    match words {
        ["get", path] => {
            let sample = sample(rt)?;
            match get_at(rt.alloc(), &sample, &path_of(rt, path)?)? {
                Some(found) => print_line(rt, &found)?,
                None => println!(rt; "none")?,
            }
        }
        ["put", path, kind, number] => {
            let mut sample = sample(rt)?;
            let done = put_at(
                &mut sample,
                &path_of(rt, path)?,
                value_of(rt, kind, number)?,
            );
            print!(rt; "{done}: ")?;
            print_line(rt, &sample)?;
        }
        _ => return Ok(false),
    }
    Ok(true)
}

fn type_id(base: u32) -> TypeId {
    TypeId { base, arrays: 0 }
}

fn sample(rt: &HostRuntime) -> anyhow::Result<Value> {
    let mut inner = Values::new(rt.alloc());
    inner.push(Value::Null)?;
    inner.push(Value::I64(-1))?;
    let mut fields = Values::new(rt.alloc());
    fields.push(Value::I32(7))?;
    fields.push(Value::Flat(
        type_id(3),
        Items::from_vec(bytes_of(rt.alloc(), "0001020304050607")?),
    ))?;
    fields.push(Value::Fields(type_id(4), inner))?;
    Ok(Value::Fields(type_id(2), fields))
}

fn path_of(rt: &HostRuntime, word: &str) -> anyhow::Result<Path> {
    let mut path = Path::new(rt.alloc());
    if word == "-" {
        return Ok(path);
    }
    for step in word.split('.') {
        path.push(step_of(step)?)?;
    }
    Ok(path)
}

fn step_of(word: &str) -> anyhow::Result<PathStep> {
    if let Some(field) = word.strip_prefix('f') {
        return Ok(PathStep::Field(field.parse()?));
    }
    if let Some(range) = word.strip_prefix('r') {
        if let Some((at, len)) = range.split_once(':') {
            return Ok(PathStep::Range(at.parse()?, len.parse()?));
        }
    }
    bail!("a step that is neither a field nor a range")
}

/// A value by its kind and its number, or its bytes.
fn value_of(rt: &HostRuntime, kind: &str, number: &str) -> anyhow::Result<Value> {
    Ok(match kind {
        "i32" => Value::I32(number.parse()?),
        "i64" => Value::I64(number.parse()?),
        "n" => Value::N(number.parse()?),
        "null" => Value::Null,
        "ref" => Value::Ref(ObjId(number.parse()?)),
        "code" => Value::Code(number.parse()?),
        "flat3" => Value::Flat(type_id(3), Items::from_vec(bytes_of(rt.alloc(), number)?)),
        "flat5" => Value::Flat(type_id(5), Items::from_vec(bytes_of(rt.alloc(), number)?)),
        "fields4" => Value::Fields(type_id(4), Values::new(rt.alloc())),
        _ => bail!("a kind that no case has"),
    })
}

fn print_line(rt: &HostRuntime, v: &Value) -> anyhow::Result<()> {
    print_value(rt, v)?;
    println!(rt; "")?;
    Ok(())
}

fn print_value(rt: &HostRuntime, v: &Value) -> anyhow::Result<()> {
    match v {
        Value::I32(n) => print!(rt; "i32 {n}")?,
        Value::I64(n) => print!(rt; "i64 {n}")?,
        Value::N(n) => print!(rt; "n {n}")?,
        Value::Null => print!(rt; "null")?,
        Value::Ref(object) => print!(rt; "ref {}", object.0)?,
        Value::Code(method) => print!(rt; "code {method}")?,
        Value::At(_) => print!(rt; "a place")?,
        Value::Flat(ty, bytes) => {
            let text = hex::encode(rt.alloc(), bytes.as_slice())?;
            print!(rt; "flat {} [{text}]", ty.base)?;
        }
        Value::Fields(ty, parts) => {
            print!(rt; "fields {} (", ty.base)?;
            for part in parts.as_slice() {
                print!(rt; " ")?;
                print_value(rt, part)?;
            }
            print!(rt; " )")?;
        }
    }
    Ok(())
}
