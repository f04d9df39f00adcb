//! The part `types` of an image: which type of a file is the first that isn't sound.

ghost use Rattle.std.specs.Prelude.{◌≡◌, ◌≤◌, ◌<◌, ◌-◌, ◌^◌, ℕ, false, not, Some, IfOk, IfSome, IfNone};
ghost use Rattle.bound_base.specs.Image.{refusal};
ghost use Rattle.byte_view.specs.Cells.{rows_in};
ghost use Rattle.byte_view.specs.Metadata.{row_start};
ghost use Rattle.byte_view.specs.Parts.{types as types_place};
ghost use Rattle.byte_view.specs.Reading.{Reads};
ghost use Rattle.graph_cycles.specs.Cycles.{leads, is_on_cycle};
ghost use Rattle.type_model.specs.Module.{module_of, row_count};
ghost use Rattle.type_model.specs.Rows.{type_defs};
ghost use Rattle.type_model.specs.Part.{extends_edges as edges_of_extends, nesting_edges as edges_of_nesting, inside_edges as edges_inside, has_field_sigs as are_sigs_there, is_sound_type, types_part};
ghost use Rattle.type_model.specs.Sound.{FailsFirst, IsFirstUnsound, AllSound};

use crate::edges::{extends_edges, inside_edges, nesting_edges};
use crate::model::Types;
use crate::table_numbers::{FIELDS, TYPE_DEFS};
use bound_base::{BadImage, Part};
use graph_cycles::{Edge, first_on_cycle};
use meta_tables::Meta;
use std::alloc::{AllocError, Global};

/// Refuses the first type of a file that isn't sound, at the start of its row of TypeDef: one that extends itself, encloses
/// itself or stands inside itself, at whatever distance, or that declares a field whose signature is outside the grammar
/// (ECMA-335 II.22.37, II.22.32, II.23.2.4).
pub fn check_types(alloc: Global, types: &Types, meta: &Meta<'_>) -> Result<(), BadImage>
    requires { types.now ≡ module_of types.now.bytes types.now.headers meta.now }
    ensures { Reads refusal (λ _. 0) result
        (types_part types.now.bytes types.now.headers meta.now) }
{
    if types.image().row_count(TYPE_DEFS) >= MOST_TYPES {
        return Err(BadImage::Memory);
    }
    match first_unsound(alloc, types)? {
        None => Ok(()),
        Some(t) => Err(unsound(meta, t)),
    }
}

/// So many types are too many for the nodes of a graph, two for each.
const MOST_TYPES: u32 = 1 << 31;

/// The refusal of a type.
#[tactic(auto, using(crate::proofs::Refused::place_of))]
fn unsound(meta: &Meta<'_>, t: u32) -> BadImage
    requires from { 1 ≤ t }
    requires within { t ≤ rows_in meta.now type_defs }
    ensures { refusal result ≡ Some (types_place, row_start meta.now.layout type_defs (t - 1)) }
{
    BadImage::Bad {
        part: Part::Types,
        at: meta.row_place(TYPE_DEFS, t).unwrap_or(0),
    }
}

/// The first type of a file that isn't sound, by its row of TypeDef; None where each is.
#[tactic(auto, using(crate::proofs::Unsound::unsound_here, crate::proofs::Unsound::all_sound))]
pub fn first_unsound(alloc: Global, types: &Types) -> Result<Option<u32>, AllocError>
    requires { row_count types.now type_defs < 2 ^ 31 }
    ensures found { IfOk result (λ first. IfSome first (IsFirstUnsound types.now)) }
    ensures none { IfOk result (λ first. IfNone first (AllSound types.now)) }
{
    let first = first_failing(alloc, types)?;
    if first <= types.image().row_count(TYPE_DEFS) {
        Ok(Some(first))
    } else {
        Ok(None)
    }
}

/// The first type that isn't sound; a number above their rows where each is.
fn first_failing(alloc: Global, types: &Types) -> Result<u32, AllocError>
    requires { row_count types.now type_defs < 2 ^ 31 }
    ensures { IfOk result (λ at. FailsFirst (λ t. not (is_sound_type types.now t))
        (row_count types.now type_defs) at) }
{
    let extending = first_extending_itself(alloc, types)?;
    let nested = first_enclosing_itself(alloc, types)?;
    let inside = first_inside_itself(alloc, types)?;
    let without = first_without_sigs(types);
    Ok(extending.min(nested).min(inside).min(without))
}

/// The first type that extends itself; a number above their rows where none does.
fn first_extending_itself(alloc: Global, types: &Types) -> Result<u32, AllocError>
    requires { row_count types.now type_defs < 2 ^ 31 }
    ensures { IfOk result (λ at. FailsFirst (λ t. is_on_cycle (edges_of_extends types.now) t)
        (row_count types.now type_defs) at) }
{
    let edges = extends_edges(alloc, types)?;
    first_on(alloc, &edges)
}

/// The first type that encloses itself; a number above their rows where none does.
fn first_enclosing_itself(alloc: Global, types: &Types) -> Result<u32, AllocError>
    requires { row_count types.now type_defs < 2 ^ 31 }
    ensures { IfOk result (λ at. FailsFirst (λ t. is_on_cycle (edges_of_nesting types.now) t)
        (row_count types.now type_defs) at) }
{
    let edges = nesting_edges(alloc, types)?;
    first_on(alloc, &edges)
}

/// The first type that stands inside itself; a number above their rows where none does.
fn first_inside_itself(alloc: Global, types: &Types) -> Result<u32, AllocError>
    requires { row_count types.now type_defs < 2 ^ 31 }
    ensures { IfOk result (λ at. FailsFirst (λ t. is_on_cycle (edges_inside types.now) t)
        (row_count types.now type_defs) at) }
{
    let edges = inside_edges(alloc, types)?;
    first_on(alloc, &edges)
}

/// The first node that lies on a cycle of a graph without an edge from 0; the greatest number where none does.
fn first_on(alloc: Global, edges: &[Edge]) -> Result<u32, AllocError>
    requires { (to : ℕ) → leads edges.now 0 to ≡ false }
    ensures { IfOk result (λ at. (n : ℕ) → n < 2 ^ 31
        → FailsFirst (λ t. is_on_cycle edges.now t) n at) }
{
    match first_on_cycle(alloc, edges)? {
        Some(node) => Ok(node),
        None => Ok(u32::MAX),
    }
}

/// The first type that declares a field with a signature outside the grammar; a number above their rows where none does.
#[tactic(auto, using(crate::proofs::Unsound::one_more_passes, crate::proofs::Unsound::fails_at, crate::proofs::Unsound::fails_nowhere))]
fn first_without_sigs(types: &Types) -> u32
    requires { row_count types.now type_defs < 2 ^ 31 }
    ensures { FailsFirst (λ t. not (are_sigs_there types.now t)) (row_count types.now type_defs)
        result }
{
    let count = types.image().row_count(TYPE_DEFS);
    for t in 1..count + 1 {
        if !has_field_sigs(types, t) {
            return t;
        }
    }
    count + 1
}

/// Whether the signatures of the fields that a type declares are in the grammar.
#[tactic(auto, unfolding(crate::specs::Part::has_field_sigs))]
fn has_field_sigs(types: &Types, t: u32) -> bool
    ensures { result ≡ are_sigs_there types.now t }
{
    let first = u64::from(types.image().cell(TYPE_DEFS, u64::from(t), 4));
    let end = types.image().run_end(TYPE_DEFS, t, 4, FIELDS);
    (first..end).all(|f| types.field_sig(f as u32).is_some())
}
