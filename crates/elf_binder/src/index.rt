//! Indexes of exports in order of the exports' names, by which a name is found in few steps.

ghost use Rattle.std.specs.Prelude.{◌≡◌, find, slice_get, option_map, option_and_then, IfOk};
ghost use Rattle.std.specs.List.Sorted.{IsSortedBy};
ghost use Rattle.std.specs.Ordering.{is_lt};
ghost use Rattle.elf_binder.specs.Index.{IsByName, export_name as name_of_export, compared, order, precedes, SplitsAt, is_named, indexes_of};

use crate::module::Export;
use bound_base::Items;
use std::alloc::{AllocError, Global};
use std::cmp::Ordering;

/// The indexes of the exports, or just of those that may be called, in order of their names; those of one name in the order of
/// the exports.
pub fn index_of(
    alloc: Global,
    exports: &Items<Export>,
    only_callable: bool,
) -> Result<Items<usize>, AllocError>
    ensures { IfOk result (λ indexes. IsByName only_callable exports.now indexes) }
{
    let mut indexes = wanted(alloc, exports, only_callable)?;
    indexes.sort_by(
        |a: &usize, b: &usize| -> Ordering
            ensures { result ≡ order exports.entry.now a.now b.now }
        { compare_names(exports, *a, *b) },
    )?;
    Ok(Items::from_vec(indexes))
}

/// The address of the first export of a name among those of an index, found by bisection.
pub fn address_by(exports: &Items<Export>, indexes: &Items<usize>, name: &[u8]) -> Option<u64>
    requires { IsSortedBy (precedes exports.now) indexes.now }
    ensures { result ≡ option_map (λ export. export.address)
        (option_and_then (slice_get exports.now)
        (find (is_named exports.now name.now) indexes.now)) }
{
    let first = first_not_below(exports, indexes.as_slice(), name);
    let export = exports.get(*indexes.get(first)?)?;
    (export.name.as_slice() == name).then_some(export.address)
}

/// The first of indexes in order whose export's name isn't before a name.
fn first_not_below(exports: &Items<Export>, indexes: &[usize], name: &[u8]) -> usize
    requires { IsSortedBy (precedes exports.now) indexes.now }
    ensures { SplitsAt exports.now name.now indexes.now result }
{
    indexes.partition_point(
        |index: &usize| -> bool
            ensures { result ≡ is_lt (compared exports.entry.now name.entry.now index.now) }
        { compare(exports, *index, name).is_lt() },
    )
}

/// The indexes of the exports that are wanted, in their order.
fn wanted(
    alloc: Global,
    exports: &Items<Export>,
    only_callable: bool,
) -> Result<Vec<usize>, AllocError>
    ensures { IfOk result (λ indexes. indexes.items ≡ indexes_of only_callable exports.now) }
{
    let exports = exports.as_slice().iter().enumerate();
    exports
        .filter(|(_, export)| !only_callable || export.callable)
        .map(|(index, _)| index)
        .collect(alloc)
}

/// The name of the export of an index, no bytes where there is none.
fn export_name(exports: &Items<Export>, index: usize) -> &[u8]
    ensures { result.now ≡ name_of_export exports.now index }
{
    match exports.get(index) {
        Some(export) => export.name.as_slice(),
        None => &[],
    }
}

/// How the names of the exports of two indexes compare.
fn compare_names(exports: &Items<Export>, a: usize, b: usize) -> Ordering
    ensures { result ≡ order exports.now a b }
{
    compare(exports, a, export_name(exports, b))
}

/// How the name of the export of an index compares with a name.
fn compare(exports: &Items<Export>, index: usize, name: &[u8]) -> Ordering
    ensures { result ≡ compared exports.now name.now index }
{
    export_name(exports, index).cmp(&name)
}
