//! What rows say of structs.

ghost use Rattle.std.specs.Prelude.{◌≡◌, IfOk, map};
ghost use Rattle.type_model.specs.Members.{TypeRow as TypeRowValue};
ghost use Rattle.type_model.specs.MemberViews.{view_type_row};
ghost use Rattle.flat_types.specs.Flat.{facts_by as spec_facts_by, facts_of as spec_facts_of, is_laid_by_flags as spec_is_laid_by_flags, is_struct as spec_is_struct, written_offset as spec_written_offset};

use bound_base::{Items, NoMemory};
use managed_value::TypeId;
use native_layout::Offsets;
use std::alloc::Global;
use type_model::{TypeRow, Types};

/// The table of TypeDef.
pub const TYPE_DEFS: u8 = 0x02;

/// Core types are numbered from here on.
const FIRST_CORE: u32 = 0x0100_0000;

/// The core type that enums extend.
const ENUM: TypeId = TypeId {
    base: FIRST_CORE + 2,
    arrays: 0,
};

/// A struct with a sequential or an explicit layout, by its rows.
#[derive(Drop)]
pub struct Facts {
    /// Its packing (ECMA-335 II.22.8).
    pub pack: u16,
    /// Its least size in bytes (II.22.8).
    pub least: u32,
    /// Whether its layout is explicit.
    pub explicit: bool,
    /// Its instance fields by their rows, those of its bases first.
    pub fields: Items<u32>,
    /// Where each field is said to stand (II.22.16).
    pub offsets: Offsets,
}

/// A struct of the file, by its row of TypeDef; None for any other type and for one with automatic layout.
#[tactic(auto, unfolding(crate::specs::Flat::facts_of, type_model::specs::Members::type_row))]
pub fn facts_of(alloc: Global, types: &Types, t: u32) -> Result<Option<Facts>, NoMemory>
    ensures { IfOk result (λ facts. facts ≡ spec_facts_of types.now t) }
{
    let id = TypeId { base: t, arrays: 0 };
    if !types.image().is_row(TYPE_DEFS, t) || !is_struct(types, id) {
        return Ok(None);
    }
    match types.type_row(t) {
        Some(known) if is_laid_by_flags(known.flags) => {
            Ok(Some(facts_by(alloc, types, t, &known)?))
        }
        _ => Ok(None),
    }
}

/// A value type of the file, and not below Enum.
pub fn is_struct(types: &Types, id: TypeId) -> bool
    ensures { result ≡ spec_is_struct types.now id }
{
    types.is_value_type(id) && id.base < FIRST_CORE && !types.is_below(id, ENUM)
}

fn is_laid_by_flags(flags: u32) -> bool
    ensures { result ≡ spec_is_laid_by_flags flags }
{
    flags & 0x18 == 0x8 || flags & 0x18 == 0x10
}

fn facts_by(alloc: Global, types: &Types, t: u32, known: &TypeRow) -> Result<Facts, NoMemory>
    ensures { IfOk result (λ facts. facts ≡ spec_facts_by types.now t (view_type_row known.now)) }
{
    let fields = types.instance_fields(alloc, TypeId { base: t, arrays: 0 })?;
    let offsets = offsets_of(alloc, types, fields.as_slice())?;
    Ok(Facts {
        pack: known.pack.min(0xFFFF) as u16,
        least: known.least,
        explicit: known.flags & 0x18 == 0x10,
        fields,
        offsets,
    })
}

fn offsets_of(alloc: Global, types: &Types, fields: &[u32]) -> Result<Offsets, NoMemory>
    ensures { IfOk result (λ offsets. offsets ≡ map (spec_written_offset types.now) fields.now) }
{
    let mut offsets = Offsets::new(alloc);
    for field in fields {
        offsets.push(written_offset(types, *field))?;
    }
    Ok(offsets)
}

/// Where a field is said to stand, by its row.
fn written_offset(types: &Types, field: u32) -> Option<u32>
    ensures { result ≡ spec_written_offset types.now field }
{
    types.field(field)?.offset
}
