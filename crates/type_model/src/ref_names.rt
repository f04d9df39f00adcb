//! What rows of TypeRef name, and tokens of TypeDef and TypeRef.

ghost use Rattle.std.specs.Prelude.{◌≡◌, ◌-◌, ◌≤◌, None, slice_index_or, IfOk};
ghost use Rattle.type_model.specs.TypeIds as definition;
ghost use Rattle.type_model.specs.Names.{ref_names as names_of_refs};
ghost use Rattle.type_model.specs.ByName.{IsByName};

use crate::by_name::{type_def_named, types_by_name};
use crate::core_types::{core_id, core_named};
use crate::module::Module;
use crate::table_numbers::{ROW_LIMIT, TYPE_DEFS, TYPE_REFS};
use crate::type_ids::def_id;
use bound_base::{Items, NoMemory};
use managed_value::TypeId;
use std::alloc::Global;

/// What each row of TypeRef names, from the first on.
#[tactic(auto, using(crate::proofs::RowNames::one_more))]
pub fn ref_names(alloc: Global, image: &Module) -> Result<Items<Option<TypeId>>, NoMemory>
    ensures { IfOk result (λ names. names ≡ names_of_refs image.now) }
{
    let by_name = types_by_name(alloc, image)?;
    let mut names = Items::new(alloc);
    for before in 0..image.row_count(TYPE_REFS) {
        names.push(type_ref(image, &by_name, before + 1))?;
    }
    Ok(names)
}

/// What a row of TypeRef names.
#[tactic(auto, unfolding(crate::specs::TypeIds::type_ref))]
fn type_ref(image: &Module, by_name: &Items<u32>, r: u32) -> Option<TypeId>
    requires { IsByName image.now by_name.now }
    ensures { result ≡ definition.type_ref image.now r }
{
    let scope = image.cell(TYPE_REFS, u64::from(r), 0);
    let name = image.text(image.cell(TYPE_REFS, u64::from(r), 1));
    let namespace = image.text(image.cell(TYPE_REFS, u64::from(r), 2));
    if scope % 4 == 0 && 0 < scope {
        type_def_named(image, by_name, namespace, name).map(def_id)
    } else {
        core_named(namespace, name).map(core_id)
    }
}

/// What a token of TypeDef or TypeRef names, if it is known what the rows of TypeRef name.
#[tactic(auto, unfolding(crate::specs::TypeIds::named_plainly), using(crate::proofs::RowNames::ref_listed))]
pub fn named_plainly(image: &Module, refs: &[Option<TypeId>], token: u32) -> Option<TypeId>
    requires { refs.now ≡ names_of_refs image.now }
    ensures { result ≡ definition.named_plainly image.now token }
{
    let row = token % ROW_LIMIT;
    if token / ROW_LIMIT == u32::from(TYPE_DEFS) && image.is_row(TYPE_DEFS, row) {
        Some(def_id(row))
    } else if token / ROW_LIMIT == u32::from(TYPE_REFS) && image.is_row(TYPE_REFS, row) {
        name_at(refs, row)
    } else {
        None
    }
}

/// What a row names, counted from 1, by what stands in a list for each; None for one past its end.
pub fn name_at(names: &[Option<TypeId>], row: u32) -> Option<TypeId>
    requires { 1 ≤ row }
    ensures { result ≡ slice_index_or names.now (row - 1) None }
{
    match names.get(row as usize - 1) {
        Some(name) => *name,
        None => None,
    }
}
