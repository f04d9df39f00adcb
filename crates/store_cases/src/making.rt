//! Calls that make objects.

use crate::values::{TYPE, text_of, value_of, values_of};
use managed_value::ObjId;
use object_store::{HandleData, Hidden, ObjBad, ObjectStore};

/// Prints what a call answers, and tells whether the line has one of these verbs.
pub fn answer(
    rt: &(impl Print + AllocGlobal),
    store: &mut ObjectStore,
    words: &[&str],
) -> anyhow::Result<bool> {
    let made = match words {
        ["object", fields @ ..] => store.new_object(TYPE, values_of(rt.alloc(), fields)?),
        ["box", v] => store.new_box(TYPE, value_of(rt.alloc(), v)?),
        ["string", count] => store.new_string(text_of(rt.alloc(), count)?),
        ["array", width, zero, len] => store.new_array(
            TYPE,
            width.parse()?,
            value_of(rt.alloc(), zero)?,
            len.parse()?,
        ),
        ["delegate", target] => store.new_delegate(TYPE, value_of(rt.alloc(), target)?, 1),
        ["native", addr] => store.new_native(TYPE, addr.parse()?),
        ["hidden", fields @ ..] => store
            .new_hidden(TYPE, values_of(rt.alloc(), fields)?, HANDLE)
            .map_err(|_| ObjBad::Memory),
        _ => return Ok(false),
    };
    print_made(rt, made)?;
    Ok(true)
}

/// What a new handle keeps.
const HANDLE: Hidden = Hidden::Handle(HandleData {
    count: 1,
    additions: 0,
    disposed: false,
    owned: true,
});

fn print_made(rt: &impl Print, made: Result<ObjId, ObjBad>) -> anyhow::Result<()> {
    match made {
        Ok(o) => print!(rt; " -> {}", o.0)?,
        Err(ObjBad::Full) => print!(rt; " -> full")?,
        Err(ObjBad::Memory) => print!(rt; " -> no memory")?,
    }
    Ok(())
}
