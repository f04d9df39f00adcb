//! What rows of TypeSpec name. A row may name further rows, so each is followed to the end of its way.

ghost use Rattle.std.specs.Prelude.{◌≡◌, ◌+◌, ◌≤◌, ◌<◌, ◌^◌, map, option_and_then, IfOk};
ghost use Rattle.type_model.specs.Module.{Module as ModuleValue, rows, row_count};
ghost use Rattle.type_model.specs.Rows.{type_specs};
ghost use Rattle.type_model.specs.TypeIds as definition;
ghost use Rattle.type_model.specs.Names.{ref_names as names_of_refs, spec_names as names_of_specs, spec_type, spec_way as way_of_spec, spec_ways as ways_of_specs};

use crate::module::Module;
use crate::pool::Pool;
use crate::ref_names::named_plainly;
use crate::table_numbers::{ROW_LIMIT, TYPE_SPECS};
use crate::type_ids::{Leaf, in_brackets, leaf_of};
use crate::ways::{TOO_MANY, Way, stay, way_from, ways_after};
use bound_base::{Items, NoMemory};
use managed_value::TypeId;
use sig_reader::TypeSig;
use std::alloc::{AllocError, Global};

/// What each row of TypeSpec names, from the first on, if the types in their blobs and what rows of TypeRef name are known.
///
/// Time grows with the rows and the number of their binary digits, whatever ways lead through them.
pub fn spec_names(
    alloc: Global,
    image: &Module,
    refs: &[Option<TypeId>],
    sigs: &Pool<TypeSig>,
) -> Result<Items<Option<TypeId>>, NoMemory>
    requires refs { refs.now ≡ names_of_refs image.now }
    requires sigs { sigs.now ≡ map (definition.spec_sig_in image.now) (rows image.now type_specs) }
    ensures { IfOk result (λ names. names ≡ names_of_specs image.now) }
{
    let count = image.row_count(TYPE_SPECS);
    let table = spec_ways(alloc, image, sigs)?;
    let steps = u64::from(count.saturating_sub(1));
    let ways = ways_after(alloc, &table, steps)?;
    let mut names = Items::new(alloc);
    for before in 0..count {
        let way = way_from(&ways, before + 1);
        names.push(type_after(image, refs, sigs, way))?;
    }
    Ok(names)
}

/// Where each row of TypeSpec leads, from row 0, which isn't there.
fn spec_ways(alloc: Global, image: &Module, sigs: &Pool<TypeSig>) -> Result<Vec<Way>, AllocError>
    requires { sigs.now ≡ map (definition.spec_sig_in image.now) (rows image.now type_specs) }
    ensures { IfOk result (λ ways. ways.items ≡ ways_of_specs image.now) }
{
    let end = u64::from(image.row_count(TYPE_SPECS)) + 1;
    (0..end)
        .map(|s| spec_way(image, sigs, s as u32))
        .collect(alloc)
}

/// Where a row of TypeSpec leads: to the row that the token in its brackets names, or else to itself.
fn spec_way(image: &Module, sigs: &Pool<TypeSig>, s: u32) -> Way
    requires { sigs.now ≡ map (definition.spec_sig_in image.now) (rows image.now type_specs) }
    ensures { result ≡ way_of_spec image.now s }
{
    match spec_leaf(sigs, s) {
        Some((brackets, Leaf::Token(token))) if is_type_spec(image, token) => Way {
            to: token % ROW_LIMIT,
            brackets: u64::from(brackets),
        },
        _ => stay(s),
    }
}

/// The type at the end of a way: what stands in the brackets of its row, unless that leads further, in those of the way.
#[tactic(auto, using(crate::proofs::SpecWays::too_many_brackets))]
fn type_after(
    image: &Module,
    refs: &[Option<TypeId>],
    sigs: &Pool<TypeSig>,
    way: Way,
) -> Option<TypeId>
    requires refs { refs.now ≡ names_of_refs image.now }
    requires sigs { sigs.now ≡ map (definition.spec_sig_in image.now) (rows image.now type_specs) }
    ensures { result ≡ option_and_then (definition.in_brackets way.brackets) (spec_type 0 image.now way.to) }
{
    let id = type_in(image, refs, sigs, way.to)?;
    if way.brackets >= TOO_MANY {
        return None;
    }
    in_brackets(way.brackets as u32, id)
}

/// What a row of TypeSpec names through no further row.
#[tactic(auto, using(crate::proofs::Walks::named_no_more))]
fn type_in(image: &Module, refs: &[Option<TypeId>], sigs: &Pool<TypeSig>, s: u32) -> Option<TypeId>
    requires refs { refs.now ≡ names_of_refs image.now }
    requires sigs { sigs.now ≡ map (definition.spec_sig_in image.now) (rows image.now type_specs) }
    ensures { result ≡ spec_type 0 image.now s }
{
    let (brackets, leaf) = spec_leaf(sigs, s)?;
    match leaf {
        Leaf::Core(id) => in_brackets(brackets, id),
        Leaf::Token(token) => in_brackets(brackets, named_plainly(image, refs, token)?),
    }
}

/// What stands in the brackets of a row of TypeSpec.
#[tactic(auto, unfolding(crate::specs::TypeIds::spec_sig), using(crate::proofs::Joined::joined))]
fn spec_leaf(sigs: &Pool<TypeSig>, s: u32) -> Option<(u32, Leaf)>
    ensures { (m : ModuleValue) → sigs.now ≡ map (definition.spec_sig_in m) (rows m type_specs)
        → result ≡ definition.spec_leaf m s }
{
    if s == 0 {
        return None;
    }
    leaf_of(sigs.get(s as usize - 1)?)
}

/// Whether a token names a row of TypeSpec.
pub fn is_type_spec(image: &Module, token: u32) -> bool
    ensures { result ≡ definition.is_type_spec image.now token }
{
    token / ROW_LIMIT == u32::from(TYPE_SPECS) && image.is_row(TYPE_SPECS, token % ROW_LIMIT)
}
