//! Which types of a file are below a core type.

ghost use Rattle.std.specs.Prelude.{◌≡◌, ◌==◌, ◌<◌, ◌≤◌, ◌+◌, ◌^◌, map, IfOk};
ghost use Rattle.std.specs.List.{range_with_len};
ghost use Rattle.type_model.specs.Core.{core_count};
ghost use Rattle.type_model.specs.BaseTable.{number_if, after_core as after_place, after_cores as following_cores, table_of, extends_list as extended, TellsBelow};

use crate::core_types::{FIRST_CORE, core_type};
use crate::names::Names;
use bound_base::Items;
use graph_cycles::after_steps;
use managed_value::TypeId;
use std::alloc::{AllocError, Global};

/// The number of nothing, which is that of core types.
const NOTHING: u32 = 57;

/// Which types of a file are below the core type of a place, by their rows from 0, which isn't there, if it is known what each
/// extends.
pub fn types_below(
    alloc: Global,
    names: &Names,
    extends: &[Option<TypeId>],
    last: u32,
) -> Result<Items<bool>, AllocError>
    requires extends { extends.now ≡ extended names.now }
    requires small { last < core_count }
    ensures { IfOk result (λ below. TellsBelow names.now last below) }
{
    let table = base_table(alloc, extends, last)?;
    let count = (extends.len() + 1).min(FIRST_CORE as usize) as u32;
    let numbers = numbers_of(alloc, count)?;
    let steps = extends.len() as u64 + u64::from(NOTHING);
    let ends = after_steps(alloc, &table, &numbers, steps)?;
    let are = which_are(alloc, &ends, last)?;
    Ok(Items::from_vec(are))
}

/// Which of some ends are at a number.
fn which_are(alloc: Global, ends: &[u32], last: u32) -> Result<Vec<bool>, AllocError>
    ensures { IfOk result (λ are. are.items ≡ map (λ end. end == last) ends.now) }
{
    ends.iter().map(|end| *end == last).collect(alloc)
}

/// The numbers of the rows from 0, which isn't there, on.
fn numbers_of(alloc: Global, count: u32) -> Result<Vec<u32>, AllocError>
    requires { count ≤ 2 ^ 24 }
    ensures { IfOk result (λ numbers. numbers.items ≡ map (λ row. 57 + row) (range_with_len 0 count)) }
{
    (0..count).map(|row| NOTHING + row).collect(alloc)
}

/// The table of what types extend, in which the core type of a place leads to itself.
fn base_table(alloc: Global, extends: &[Option<TypeId>], last: u32) -> Result<Vec<u32>, AllocError>
    ensures { IfOk result (λ table. table.items ≡ table_of last extends.now) }
{
    let bases: Vec<u32> = extends.iter().map(|base| number(*base)).collect(alloc)?;
    let mut table = after_cores(alloc, last)?;
    table.push(NOTHING)?;
    table.extend_from_slice(&bases)?;
    Ok(table)
}

/// What follows each core type.
#[tactic(auto, unfolding(crate::specs::BaseTable::after_cores))]
fn after_cores(alloc: Global, last: u32) -> Result<Vec<u32>, AllocError>
    ensures { IfOk result (λ table. table.items ≡ following_cores last) }
{
    (0..NOTHING)
        .map(|place| after_core(last, place))
        .collect(alloc)
}

/// The number of a type, or of nothing.
fn number(id: Option<TypeId>) -> u32
    ensures { result ≡ number_if id }
{
    match id {
        None => NOTHING,
        Some(id) if id.base >= FIRST_CORE => (id.base - FIRST_CORE).min(NOTHING),
        Some(id) => NOTHING + id.base,
    }
}

/// What follows a core type: the last one itself, else what it extends.
fn after_core(last: u32, place: u32) -> u32
    ensures { result ≡ after_place last place }
{
    if place == last {
        return last;
    }
    match core_type(place) {
        None => NOTHING,
        Some(known) => match known.extends {
            None => NOTHING,
            Some(base) => u32::from(base).min(NOTHING),
        },
    }
}
