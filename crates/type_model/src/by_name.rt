//! The types of a file in order of their names, by which a name is found in few steps.

ghost use Rattle.std.specs.Prelude.{◌≡◌, IfOk};
ghost use Rattle.std.specs.List.{range_with_len};
ghost use Rattle.std.specs.Ordering.{is_lt};
ghost use Rattle.type_model.specs.Rows.{type_name, type_namespace};
ghost use Rattle.type_model.specs.TypeIds.{type_def_named as first_named};
ghost use Rattle.type_model.specs.ByName.{IsByName, SplitsAt, compared, order, is_named as is_key};

use crate::module::Module;
use crate::table_numbers::TYPE_DEFS;
use bound_base::Items;
use std::alloc::{AllocError, Global};
use std::cmp::Ordering;

/// The rows of TypeDef in order of their names and namespaces; those of one name and namespace in their order.
pub fn types_by_name(alloc: Global, image: &Module) -> Result<Items<u32>, AllocError>
    ensures { IfOk result (λ types. IsByName image.now types) }
{
    let mut types = all_rows(alloc, image.row_count(TYPE_DEFS))?;
    types.sort_by(
        |a: &u32, b: &u32| -> Ordering
            ensures { result ≡ order image.entry.now a.now b.now }
        { compare_types(image, *a, *b) },
    )?;
    Ok(Items::from_vec(types))
}

/// The numbers of so many rows.
#[tactic(auto, using(crate::proofs::Ranges::one_more_row))]
fn all_rows(alloc: Global, count: u32) -> Result<Vec<u32>, AllocError>
    ensures { IfOk result (λ rows. rows.items ≡ range_with_len 1 count) }
{
    let mut rows = Vec::new(alloc);
    for before in 0..count {
        rows.push(before + 1)?;
    }
    Ok(rows)
}

/// The row of the first TypeDef that has a namespace and a name, found by bisection.
pub fn type_def_named(
    image: &Module,
    types: &Items<u32>,
    namespace: &[u8],
    name: &[u8],
) -> Option<u32>
    requires { IsByName image.now types.now }
    ensures { result ≡ first_named image.now namespace.now name.now }
{
    let first = first_not_below(image, types.as_slice(), namespace, name);
    let t = *types.get(first)?;
    is_named(image, t, namespace, name).then_some(t)
}

/// The first of types in order that isn't before a name and a namespace.
fn first_not_below(image: &Module, types: &[u32], namespace: &[u8], name: &[u8]) -> usize
    requires { IsByName image.now types.now }
    ensures { SplitsAt image.now (name.now, namespace.now) types.now result }
{
    types.partition_point(
        |t: &u32| -> bool
            ensures { result ≡ is_lt (compared image.entry.now (name.entry.now, namespace.entry.now) t.now) }
        { compare(image, *t, namespace, name).is_lt() },
    )
}

/// How the names of two types compare.
fn compare_types(image: &Module, a: u32, b: u32) -> Ordering
    ensures { result ≡ order image.now a b }
{
    compare(image, a, namespace_of(image, b), name_of(image, b))
}

/// How the name of a type compares with a name, or, where they are the same, its namespace with a namespace.
fn compare(image: &Module, t: u32, namespace: &[u8], name: &[u8]) -> Ordering
    ensures { result ≡ compared image.now (name.now, namespace.now) t }
{
    match name_of(image, t).cmp(&name) {
        Ordering::Less => Ordering::Less,
        Ordering::Equal => namespace_of(image, t).cmp(&namespace),
        Ordering::Greater => Ordering::Greater,
    }
}

fn is_named(image: &Module, t: u32, namespace: &[u8], name: &[u8]) -> bool
    ensures { result ≡ is_key image.now (name.now, namespace.now) t }
{
    name_of(image, t) == name && namespace_of(image, t) == namespace
}

/// The name of a type, by its row.
fn name_of(image: &Module, t: u32) -> &[u8]
    ensures { result.now ≡ type_name image.now t }
{
    image.text(image.cell(TYPE_DEFS, u64::from(t), 1))
}

/// The namespace of a type, by its row.
fn namespace_of(image: &Module, t: u32) -> &[u8]
    ensures { result.now ≡ type_namespace image.now t }
{
    image.text(image.cell(TYPE_DEFS, u64::from(t), 2))
}
