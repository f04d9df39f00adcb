//! Statuses, printed names, limits, lists, and the texts of refusals.

use crate::numbers::bytes_of;
use bound_base::{
    BadImage, Ending, NoMemory, Part, Reserved, SinkFault, StoreFault, Units, escape, laws,
    standard_limits, status_of,
};

const PARTS: [Part; 15] = [
    Part::Mz,
    Part::PeOffset,
    Part::PeSignature,
    Part::CoffHeader,
    Part::OptionalHeader,
    Part::Directories,
    Part::Sections,
    Part::CliHeader,
    Part::CliFlags,
    Part::MetadataRoot,
    Part::Streams,
    Part::Tables,
    Part::Cell,
    Part::Types,
    Part::EntryPoint,
];

pub fn print(rt: &HostRuntime, words: &[&str]) -> anyhow::Result<bool> {
    match words {
        ["status", ending, numbers @ ..] => match ending_of(ending, numbers)? {
            Some(ending) => println!(rt; "{}", status_of(&ending))?,
            None => return Ok(false),
        },
        ["escape", name] => print_escaped(rt, name)?,
        ["limits"] => println!(rt; "{:?}", standard_limits())?,
        ["parts", at] => print_parts(rt, at.parse::<u64>()?)?,
        ["faults"] => print_faults(rt)?,
        ["items", numbers @ ..] => print_items(rt, numbers)?,
        ["reserved", room, numbers @ ..] => print_reserved(rt, room.parse::<usize>()?, numbers)?,
        _ => return Ok(false),
    }
    Ok(true)
}

fn print_escaped(rt: &HostRuntime, name: &str) -> anyhow::Result<()> {
    laws::printed_names_differ();
    let text = escape(rt.alloc(), bytes_of(rt.alloc(), name)?.as_slice())?;
    println!(rt; "{}", String::from_utf8(text.into_vec())?)?;
    Ok(())
}

/// Prints the refusal of each part at an offset.
fn print_parts(rt: &HostRuntime, at: u64) -> anyhow::Result<()> {
    laws::parts_are_in_order();
    for part in PARTS {
        println!(rt; "{}", BadImage::Bad { part, at })?;
    }
    Ok(())
}

/// Prints each error that has no other text.
fn print_faults(rt: &HostRuntime) -> anyhow::Result<()> {
    print!(rt; "{}; {}", BadImage::Memory, NoMemory)?;
    print!(rt; "; {}; {}", StoreFault::Absent, StoreFault::Failed)?;
    println!(rt; "; {}; {}", StoreFault::Memory, SinkFault)?;
    Ok(())
}

/// The ending that words name.
fn ending_of(ending: &str, numbers: &[&str]) -> anyhow::Result<Option<Ending>> {
    Ok(Some(match (ending, numbers) {
        ("returned", [number]) => Ending::Returned(number.parse::<i32>()?),
        ("exited", [number]) => Ending::Exited(number.parse::<i32>()?),
        ("unhandled", [number]) => Ending::Unhandled(number.parse::<u32>()?),
        ("spent", []) => Ending::Spent,
        ("bad", [token, at]) => Ending::Bad {
            token: token.parse::<u32>()?,
            at: at.parse::<u32>()?,
        },
        ("deep", []) => Ending::Deep,
        ("sink_failed", []) => Ending::SinkFailed,
        ("init_fault", [pc]) => Ending::InitFault(pc.parse::<u64>()?),
        ("memory", []) => Ending::Memory,
        _ => return Ok(None),
    }))
}

/// Pushes the numbers and adds two zeros as a slice, and prints what the list has then.
fn print_items(rt: &HostRuntime, numbers: &[&str]) -> anyhow::Result<()> {
    let mut items = Units::new(rt.alloc());
    for number in numbers {
        items.push(number.parse::<u16>()?)?;
    }
    print!(rt; "{} of them,", items.len())?;
    items.extend_from_slice(&[0, 0])?;
    for item in items.as_slice() {
        print!(rt; " {item}")?;
    }
    println!(rt; "")?;
    Ok(())
}

/// Pushes numbers into room that is reserved before, as many as it has, and takes them out again: the last, the first, and
/// all but one.
fn print_reserved(rt: &HostRuntime, room: usize, numbers: &[&str]) -> anyhow::Result<()> {
    let mut items = Reserved::new(rt.alloc());
    items.reserve(room)?;
    for number in numbers {
        let number = number.parse::<u32>()?;
        if items.room() > 0 {
            items.push(number);
        }
    }
    print_list(rt, items.as_slice())?;
    let _ = items.pop();
    print_list(rt, items.as_slice())?;
    if items.len() > 1 {
        let _ = items.remove(0);
    }
    print_list(rt, items.as_slice())?;
    items.truncate(1);
    print_list(rt, items.as_slice())?;
    println!(rt; " {}", items.is_empty())?;
    Ok(())
}

fn print_list(rt: &HostRuntime, items: &[u32]) -> anyhow::Result<()> {
    for item in items {
        print!(rt; "{item} ")?;
    }
    print!(rt; "/")?;
    Ok(())
}
