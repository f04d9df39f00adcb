//! Calls that change objects.

use crate::showing::print_bytes;
use crate::values::{bytes_of, value_of};
use anyhow::bail;
use bound_base::Items;
use managed_value::ObjId;
use object_store::{Hidden, ObjectStore};

/// Prints what a call answers, and tells whether the line has one of these verbs.
pub fn answer(
    rt: &(impl Print + AllocGlobal),
    store: &mut ObjectStore,
    words: &[&str],
) -> anyhow::Result<bool> {
    let [verb, number, rest @ ..] = words else {
        return Ok(false);
    };
    if !matches!(
        *verb,
        "field" | "element" | "boxed" | "take" | "give" | "forget"
    ) {
        return Ok(false);
    }
    let o = ObjId(number.parse()?);
    if !store.is_made(o) {
        bail!("an object that wasn't made");
    }
    match (*verb, rest) {
        ("field", [k, v]) => {
            let done = store.set_field(o, k.parse()?, value_of(rt.alloc(), v)?);
            print!(rt; " -> {done}")?;
        }
        ("element", [k, v]) => {
            let done = store.set_element(o, k.parse()?, value_of(rt.alloc(), v)?);
            print!(rt; " -> {done}")?;
        }
        ("boxed", [v]) => {
            let done = store.set_boxed(o, value_of(rt.alloc(), v)?);
            print!(rt; " -> {done}")?;
        }
        ("take", []) => print_bytes(rt, &store.take_body(o))?,
        ("give", [bytes]) => {
            let bytes = Items::from_vec(bytes_of(rt.alloc(), bytes)?);
            print_bytes(rt, &store.give_body(o, bytes))?;
        }
        ("forget", []) => store.set_hidden(o, Hidden::Nothing),
        _ => bail!("words that a verb doesn't take"),
    }
    Ok(true)
}
