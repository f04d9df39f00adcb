//! The graph of types and those right above them (ECMA-335 II.10, II.12.2, II.22.23).

ghost use Rattle.std.specs.Prelude.{◌≡◌, ◌++◌, ◌<◌, ◌^◌, IfOk, OnOk};
ghost use Rattle.std.specs.List.{flat_map, range_with_len};
ghost use Rattle.std.specs.List.Sorted.{IsPermutation};
ghost use Rattle.type_model.specs.Module.{rows as rows_of, row_count as rows_in};
ghost use Rattle.type_model.specs.Rows.{type_defs, interface_impls};
ghost use Rattle.type_model.specs.TypeIds.{core_id as id_of_core, def_id as id_of_def, coded_token as token_of_coded};
ghost use Rattle.type_members.specs.Subtypes as definition;

use crate::table_numbers::{INTERFACE_IMPLS, ROW_LIMIT, TYPE_DEFS, TYPE_REFS, TYPE_SPECS};
use bound_base::NoMemory;
use graph_cycles::{Edge, Graph};
use managed_value::TypeId;
use std::alloc::{AllocError, Global};
use type_model::Types;

/// How many core types there are.
const CORE_TYPES: u32 = 57;

/// The places of SafeHandle and IDisposable, the one core type that has an interface and the interface.
const SAFE_HANDLE: u32 = 30;

const DISPOSABLE: u32 = 24;

/// The graph of types and those right above them; that of elements of arrays, where no value type leads on.
pub fn type_graph(alloc: Global, types: &Types, elements: bool) -> Result<Graph, NoMemory>
    ensures { IfOk result (λ graph. IsPermutation (definition.type_edges types.now elements) graph.edges.items) }
{
    let edges = type_edges(alloc, types, elements)?;
    Ok(Graph::new(alloc, &edges)?)
}

/// The node of a type, by its base.
pub fn node(base: u32) -> u32
    ensures { result ≡ definition.node base }
{
    if ROW_LIMIT <= base {
        2 * (base - ROW_LIMIT).min(CORE_TYPES) + 1
    } else {
        2 * base
    }
}

/// The edges from types to those right above them.
#[tactic(auto, unfolding(crate::specs::Subtypes::type_edges))]
fn type_edges(alloc: Global, types: &Types, elements: bool) -> Result<Vec<Edge>, AllocError>
    ensures { IfOk result (λ edges. edges.items ≡ definition.type_edges types.now elements) }
{
    let mut edges = Vec::new(alloc);
    push_core_bases(types, elements, &mut edges)?;
    push_bases(types, elements, &mut edges)?;
    push_core_interfaces(types, elements, &mut edges)?;
    push_interfaces(types, elements, &mut edges)?;
    Ok(edges)
}

/// Adds the edges from core types to what they extend.
fn push_core_bases(types: &Types, elements: bool, edges: &mut Vec<Edge>) -> Result<(), AllocError>
    ensures { OnOk result (edges.new.items ≡ edges.old.items
        ++ flat_map (λ place. definition.extends_edge types.now elements (id_of_core place)) definition.core_places) }
{
    for place in 0..CORE_TYPES {
        push_base(types, elements, core_id(place), edges)?;
    }
    Ok(())
}

/// Adds the edges from types of the file to what they extend.
fn push_bases(types: &Types, elements: bool, edges: &mut Vec<Edge>) -> Result<(), AllocError>
    ensures { OnOk result (edges.new.items ≡ edges.old.items
        ++ flat_map (λ t. definition.extends_edge types.now elements (id_of_def t)) (range_with_len 1 (rows_in types.now type_defs))) }
{
    let end = u64::from(types.image().row_count(TYPE_DEFS)) + 1;
    for t in 1..end {
        push_base(types, elements, def_id(t as u32), edges)?;
    }
    Ok(())
}

/// Adds the edges from core types to their interfaces.
#[tactic(auto, using(crate::proofs::CoreEdges::handle_alone))]
fn push_core_interfaces(
    types: &Types,
    elements: bool,
    edges: &mut Vec<Edge>,
) -> Result<(), AllocError>
    ensures { OnOk result (edges.new.items ≡ edges.old.items
        ++ flat_map (definition.core_interface_edges types.now elements) definition.core_places) }
{
    let interface = Some(core_id(DISPOSABLE));
    push_above(types, elements, core_id(SAFE_HANDLE), interface, edges)
}

/// Adds the edges from types of the file to their interfaces.
fn push_interfaces(types: &Types, elements: bool, edges: &mut Vec<Edge>) -> Result<(), AllocError>
    ensures { OnOk result (edges.new.items ≡ edges.old.items
        ++ flat_map (definition.interface_edge types.now elements) (rows_of types.now interface_impls)) }
{
    for row in types.image().rows(INTERFACE_IMPLS) {
        let class = row[0];
        if class < ROW_LIMIT {
            let interface = if_plain(types.named(coded_token(row[1])));
            push_above(types, elements, def_id(class), interface, edges)?;
        }
    }
    Ok(())
}

/// Adds the edge from a type to what it extends.
fn push_base(
    types: &Types,
    elements: bool,
    id: TypeId,
    edges: &mut Vec<Edge>,
) -> Result<(), AllocError>
    ensures { OnOk result (edges.new.items ≡ edges.old.items ++ definition.extends_edge types.now elements id) }
{
    push_above(types, elements, id, types.extends_of(id), edges)
}

/// Adds the edge from a type to one right above it.
fn push_above(
    types: &Types,
    elements: bool,
    id: TypeId,
    above: Option<TypeId>,
    edges: &mut Vec<Edge>,
) -> Result<(), AllocError>
    ensures { OnOk result (edges.new.items ≡ edges.old.items ++ definition.above_edge types.now elements id above) }
{
    let Some(above) = above else {
        return Ok(());
    };
    if elements && types.is_value_type(id) {
        return Ok(());
    }
    edges.push(Edge {
        from: node(id.base),
        to: node(above.base),
    })?;
    Ok(())
}

/// A type that is no array.
fn if_plain(id: Option<TypeId>) -> Option<TypeId>
    ensures { result ≡ definition.if_plain id }
{
    match id {
        Some(id) if id.arrays == 0 => Some(id),
        _ => None,
    }
}

fn core_id(place: u32) -> TypeId
    requires { place < 2 ^ 16 }
    ensures { result ≡ id_of_core place }
{
    TypeId {
        base: ROW_LIMIT + place,
        arrays: 0,
    }
}

fn def_id(t: u32) -> TypeId
    ensures { result ≡ id_of_def t }
{
    TypeId { base: t, arrays: 0 }
}

/// The token of a coded index TypeDefOrRef (II.24.2.6); 0, which names nothing, for a row that no token can name.
pub fn coded_token(coded: u32) -> u32
    ensures { result ≡ token_of_coded coded }
{
    let row = coded / 4;
    if row >= ROW_LIMIT {
        return 0;
    }
    let table = match coded % 4 {
        0 => TYPE_DEFS,
        1 => TYPE_REFS,
        2 => TYPE_SPECS,
        _ => 0,
    };
    u32::from(table) * ROW_LIMIT + row
}
