//! What objects are.

use anyhow::bail;
use bound_base::Bytes;
use managed_value::{ObjId, Value};
use object_store::{Body0, Hidden, ObjectStore};

/// Prints what a call answers, and tells whether the line has one of these verbs.
pub fn answer(
    rt: &(impl Print + AllocGlobal),
    store: &ObjectStore,
    words: &[&str],
) -> anyhow::Result<bool> {
    let [verb, number] = words else {
        return Ok(false);
    };
    if !matches!(*verb, "body" | "keeps") {
        return Ok(false);
    }
    let o = ObjId(number.parse()?);
    if !store.is_made(o) {
        bail!("an object that wasn't made");
    }
    print!(rt; " ->")?;
    if *verb == "body" {
        print_body(rt, store.body(o))?;
    } else {
        print_hidden(rt, store.hidden(o))?;
    }
    Ok(true)
}

fn print_body(rt: &(impl Print + AllocGlobal), body: &Body0) -> anyhow::Result<()> {
    match body {
        Body0::Object(_, fields) => print_values(rt, fields.as_slice()),
        Body0::Text(units) => {
            print!(rt; " {} units", units.len())?;
            Ok(())
        }
        Body0::Array(_, width, len, bytes, elements) => {
            let text = hex::encode(rt.alloc(), bytes.as_slice())?;
            print!(rt; " {len} of {width} [{text}]")?;
            print_values(rt, elements.as_slice())
        }
        Body0::Delegate(_, target, method) => {
            print!(rt; " method {method} on")?;
            print_value(rt, target)
        }
        Body0::Box(_, v) => print_value(rt, v),
        Body0::Native(_, addr) => {
            print!(rt; " code at {addr}")?;
            Ok(())
        }
        Body0::Builder(units, capacity) => {
            print!(rt; " {} units, room for {capacity}", units.len())?;
            Ok(())
        }
    }
}

fn print_values(rt: &(impl Print + AllocGlobal), values: &[Value]) -> anyhow::Result<()> {
    for v in values {
        print_value(rt, v)?;
    }
    Ok(())
}

fn print_value(rt: &(impl Print + AllocGlobal), v: &Value) -> anyhow::Result<()> {
    match v {
        Value::I32(n) => print!(rt; " i32:{n}")?,
        Value::I64(n) => print!(rt; " i64:{n}")?,
        Value::N(n) => print!(rt; " n:{n}")?,
        Value::Null => print!(rt; " null")?,
        Value::Ref(object) => print!(rt; " ref:{}", object.0)?,
        Value::Flat(_, bytes) => {
            let text = hex::encode(rt.alloc(), bytes.as_slice())?;
            print!(rt; " flat:{text}")?;
        }
        _ => print!(rt; " another value")?,
    }
    Ok(())
}

fn print_hidden(rt: &impl Print, hidden: Hidden) -> anyhow::Result<()> {
    match hidden {
        Hidden::Nothing => print!(rt; " nothing")?,
        Hidden::Handle(data) => print!(rt; " a handle of count {}", data.count)?,
        Hidden::Text(object) => print!(rt; " the text {}", object.0)?,
        Hidden::Of(ty) => print!(rt; " the type {}", ty.base)?,
    }
    Ok(())
}

pub fn print_bytes(rt: &(impl Print + AllocGlobal), bytes: &Option<Bytes>) -> anyhow::Result<()> {
    match bytes {
        Some(bytes) => {
            let text = hex::encode(rt.alloc(), bytes.as_slice())?;
            print!(rt; " -> [{text}]")?;
        }
        None => print!(rt; " -> none")?,
    }
    Ok(())
}
