//! The graphs of types: what extends, encloses and holds what.

ghost use Rattle.std.specs.Prelude.{◌≡◌, ◌<◌, ◌≤◌, ◌+◌, ◌^◌, ◌++◌, IfOk, OnOk, IfSome};
ghost use Rattle.std.specs.List.{flat_map};
ghost use Rattle.type_model.specs.Module.{row_count};
ghost use Rattle.type_model.specs.Rows.{type_defs};
ghost use Rattle.type_model.specs.Types.{own_fields};
ghost use Rattle.type_model.specs.Sound.{held_if_own};
ghost use Rattle.type_model.specs.Part.{edge, def_of as file_type_of, base_def, encloser_of, value_def as held_value, field_value, held_by, extends_edges as edges_of_extends, nesting_edges as edges_of_nesting, inside_edges as edges_inside};

use crate::core_types::FIRST_CORE;
use crate::model::Types;
use crate::table_numbers::{FIELDS, TYPE_DEFS};
use graph_cycles::Edge;
use managed_value::TypeId;
use std::alloc::{AllocError, Global};

/// The row of TypeDef that a type is; None for a core type and an array.
fn def_of(id: TypeId) -> Option<u32>
    ensures row { result ≡ file_type_of id }
    ensures small { IfSome result (λ t. t < 2 ^ 24) }
{
    if id.arrays == 0 && id.base < FIRST_CORE {
        Some(id.base)
    } else {
        None
    }
}

/// The type of the file that one extends.
fn base_of(types: &Types, t: u32) -> Option<u32>
    ensures base { result ≡ base_def types.now t }
    ensures small { IfSome result (λ t. t < 2 ^ 24) }
{
    def_of(types.extends_of(TypeId { base: t, arrays: 0 })?)
}

/// The type that encloses one.
fn enclosing(types: &Types, t: u32) -> Option<u32>
    ensures { result ≡ encloser_of types.now t }
{
    match types.image().encloser(t) {
        0 => None,
        encloser => Some(encloser),
    }
}

/// The value type of the file that a type is.
fn value_def(types: &Types, id: TypeId) -> Option<u32>
    ensures { result ≡ held_value types.now id }
{
    let t = def_of(id)?;
    types.is_value_type(id).then_some(t)
}

/// The value type of the file that an instance field holds.
fn held_in(types: &Types, f: u32) -> Option<u32>
    ensures { result ≡ held_if_own types.now f }
{
    if types.image().cell(FIELDS, u64::from(f), 0) & 0x10 != 0 {
        return None;
    }
    value_of_field(types, f)
}

/// The value type of the file that a field is of.
#[tactic(auto, unfolding(crate::specs::Types::field_type))]
fn value_of_field(types: &Types, f: u32) -> Option<u32>
    ensures { result ≡ field_value types.now f }
{
    let sig = types.field_sig(f)?;
    let id = types.type_of(sig)?;
    value_def(types, id)
}

/// Adds an edge to something, where it is there.
fn push_edge(edges: &mut Vec<Edge>, from: u32, to: Option<u32>) -> Result<(), AllocError>
    ensures { OnOk result (edges.new.items ≡ edges.old.items ++ edge from to) }
{
    match to {
        None => Ok(()),
        Some(to) => Ok(edges.push(Edge { from, to })?),
    }
}

/// An edge from each type of a file to the one of the file that it extends.
#[tactic(auto, unfolding(crate::specs::Part::extends_edges))]
pub fn extends_edges(alloc: Global, types: &Types) -> Result<Vec<Edge>, AllocError>
    requires { row_count types.now type_defs < 2 ^ 31 }
    ensures { IfOk result (λ edges. edges.items ≡ edges_of_extends types.now) }
{
    let mut edges = Vec::new(alloc);
    for t in 1..types.image().row_count(TYPE_DEFS) + 1 {
        push_edge(&mut edges, t, base_of(types, t))?;
    }
    Ok(edges)
}

/// An edge from each type of a file to the one that encloses it.
#[tactic(auto, unfolding(crate::specs::Part::nesting_edges))]
pub fn nesting_edges(alloc: Global, types: &Types) -> Result<Vec<Edge>, AllocError>
    requires { row_count types.now type_defs < 2 ^ 31 }
    ensures { IfOk result (λ edges. edges.items ≡ edges_of_nesting types.now) }
{
    let mut edges = Vec::new(alloc);
    for t in 1..types.image().row_count(TYPE_DEFS) + 1 {
        push_edge(&mut edges, t, enclosing(types, t))?;
    }
    Ok(edges)
}

/// The edges by which values of types of a file hold values.
#[tactic(auto, unfolding(crate::specs::Part::inside_edges))]
pub fn inside_edges(alloc: Global, types: &Types) -> Result<Vec<Edge>, AllocError>
    requires few { row_count types.now type_defs < 2 ^ 31 }
    ensures { IfOk result (λ edges. edges.items ≡ edges_inside types.now) }
{
    let mut edges = Vec::new(alloc);
    let count = types.image().row_count(TYPE_DEFS);
    for t in 1..count + 1 {
        hold(&mut edges, types, t)?;
    }
    Ok(edges)
}

/// Adds the edges of one type.
fn hold(edges: &mut Vec<Edge>, types: &Types, t: u32) -> Result<(), AllocError>
    requires few { row_count types.now type_defs < 2 ^ 31 }
    requires one { t ≤ row_count types.now type_defs }
    ensures { OnOk result (edges.new.items ≡ edges.old.items ++ held_by types.now (row_count types.now type_defs) t) }
{
    let count = types.image().row_count(TYPE_DEFS);
    let from = count + t;
    edges.push(Edge { from: t, to: from })?;
    let base = match base_of(types, t) {
        None => None,
        Some(base) => Some(count + base),
    };
    push_edge(edges, from, base)?;
    hold_fields(edges, types, t, from)
}

/// Adds the edges to the value types of a type's instance fields.
fn hold_fields(edges: &mut Vec<Edge>, types: &Types, t: u32, from: u32) -> Result<(), AllocError>
    ensures { OnOk result (edges.new.items ≡ edges.old.items
        ++ flat_map (λ f. edge from (field_value types.now f)) (own_fields types.now t)) }
{
    let first = u64::from(types.image().cell(TYPE_DEFS, u64::from(t), 4));
    let end = types.image().run_end(TYPE_DEFS, t, 4, FIELDS);
    for f in first..end {
        push_edge(edges, from, held_in(types, f as u32))?;
    }
    Ok(())
}
