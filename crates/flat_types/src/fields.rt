//! Fields that are integers.

ghost use Rattle.std.specs.Prelude.{◌≡◌, IfOk, IfSome, option_map};
ghost use Rattle.native_layout.specs.Outlines.{IsSound, outline};
ghost use Rattle.type_model.specs.Types.{field_type as spec_field_type, integer_id as spec_integer_id, is_integer_place};
ghost use Rattle.flat_types.specs.Flat.{integer_place as spec_integer_place, integer_shape};

use bound_base::NoMemory;
use managed_value::TypeId;
use native_layout::Outline;
use std::alloc::Global;
use type_model::Types;

const FIRST_CORE: u32 = 0x0100_0000;

/// The type of a field, by its row; None where it names none.
#[tactic(auto, unfolding(type_model::specs::Types::field_type))]
pub fn field_type(types: &Types, field: u32) -> Option<TypeId>
    ensures { result ≡ spec_field_type types.now field }
{
    types.type_of(types.field_sig(field)?)
}

/// The integer type that values of a type are, by its place among the core types.
pub fn integer_place(alloc: Global, types: &Types, id: TypeId) -> Result<Option<u32>, NoMemory>
    ensures { IfOk result (λ place. place ≡ spec_integer_place types.now id) }
{
    match integer_id(id) {
        Some(place) => Ok(Some(place)),
        None => types.enum_of(alloc, id),
    }
}

/// The integer that a core type is, by its place.
fn integer_id(id: TypeId) -> Option<u32>
    ensures { result ≡ spec_integer_id id }
{
    if id.arrays == 0 && FIRST_CORE <= id.base && is_integer(id.base - FIRST_CORE) {
        Some(id.base - FIRST_CORE)
    } else {
        None
    }
}

/// The core types from SByte to UIntPtr.
fn is_integer(place: u32) -> bool
    ensures { result ≡ is_integer_place place }
{
    7 <= place && place <= 16
}

/// The outline of an integer, by the place of its type; None where the place is of no integer.
pub fn integer_outline(place: u32) -> Option<Outline>
    ensures value { result ≡ option_map outline (integer_shape place) }
    ensures sound { IfSome result IsSound }
{
    match place {
        7 | 8 => Some(Outline::integer(1)),
        9 | 10 => Some(Outline::integer(2)),
        11 | 12 => Some(Outline::integer(4)),
        13 | 14 => Some(Outline::integer(8)),
        15 | 16 => Some(Outline::native()),
        _ => None,
    }
}
