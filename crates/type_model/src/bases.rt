//! What types extend, and which are below core types that matter (ECMA-335 II.10, II.22.37).

ghost use Rattle.std.specs.Prelude.{◌≡◌, false, slice_index_or, IfOk};
ghost use Rattle.type_model.specs.BaseTable.{extends_list as extended, TellsBelow};
ghost use Rattle.type_model.specs.Core.{enum_place};
ghost use Rattle.type_model.specs.Holding.{HoldsKinds};
ghost use Rattle.type_model.specs.TypeIds.{core_id as id_of_core, coded_token as token_of_coded};
ghost use Rattle.type_model.specs.Types as definition;

use crate::below::types_below;
use crate::core_types::{
    ARRAY, DELEGATE, ENUM, FIRST_CORE, SAFE_HANDLE, VALUE_TYPE, core_id, core_type,
};
use crate::module::Module;
use crate::names::Names;
use crate::table_numbers::{ROW_LIMIT, TYPE_DEFS, TYPE_REFS, TYPE_SPECS};
use crate::type_ids::{def_id, same_type};
use bound_base::{Items, NoMemory};
use managed_value::TypeId;
use sqlite_items::Boxed;
use std::alloc::{AllocError, Global};
use std::marker::Model;

/// An assembly, and which of its types are value types, enums, delegates and handles.
#[derive(Drop)]
pub struct Bases {
    names: Boxed<Names>,
    kinds: Kinds,
}

/// Which types of a file are below the core types that matter, by their rows of TypeDef from 0, which isn't there.
#[derive(Drop)]
struct Kinds {
    values: Items<bool>,
    enums: Items<bool>,
    delegates: Items<bool>,
    handles: Items<bool>,
}

impl Model for Bases {
    ghost use Rattle.type_model.specs.Module.{Module as ModuleValue};
    ghost use Rattle.type_model.specs.Holding.{HoldsKinds};

    ghost Value = { ModuleValue };

    ghost view = { λ b. b.names };

    ghost invariant = { λ b. HoldsKinds b.names b.kinds.values b.kinds.enums b.kinds.delegates b.kinds.handles };
}

impl Bases {
    /// Finds what each type is by what it extends.
    pub fn of(alloc: Global, names: Boxed<Names>) -> Result<Bases, NoMemory>
        ensures { IfOk result (λ bases. bases ≡ names) }
    {
        let kinds = kinds_of(alloc, names.get())?;
        Ok(Bases { names, kinds })
    }

    /// What rows and tokens name.
    pub fn names(&self) -> &Names
        ensures { result.now ≡ self.now }
    {
        self.names.get()
    }

    /// The copies of the file, its heaps and its rows.
    pub fn image(&self) -> &Module
        ensures { result.now ≡ self.now }
    {
        self.names().image()
    }

    /// What a type extends (ECMA-335 II.22.37); an array extends Array, and so does a type that is said to extend an array.
    pub fn extends_of(&self, id: TypeId) -> Option<TypeId>
        ensures { result ≡ definition.extends_of self.now id }
    {
        extends_by(self.names(), id)
    }

    /// Whether a type is another's base, at any distance.
    #[tactic(auto, unfolding(crate::specs::Types::is_below, crate::specs::Types::bases), using(crate::proofs::Walks::below_none, crate::proofs::Walks::below_here, crate::proofs::Walks::below_next, crate::proofs::Walks::below_end))]
    pub fn is_below(&self, id: TypeId, base: TypeId) -> bool
        ensures { result ≡ definition.is_below self.now id base }
    {
        let mut at = id;
        let mut left = u64::from(self.image().row_count(TYPE_DEFS)) + 57;
        while 0 < left {
            match self.extends_of(at) {
                None => return false,
                Some(next) => {
                    if same_type(base, next) {
                        return true;
                    }
                    at = next;
                }
            }
            left -= 1;
        }
        false
    }

    /// Whether a type is a value type: below ValueType, and not Enum itself (ECMA-335 I.8.9.7).
    #[tactic(auto, unfolding(crate::specs::Types::is_value_type))]
    pub fn is_value_type(&self, id: TypeId) -> bool
        ensures { result ≡ definition.is_value_type self.now id }
    {
        self.is_below_core(&self.kinds.values, id, VALUE_TYPE) && !same_type(core_id(ENUM), id)
    }

    /// Whether a type is below Enum.
    pub fn is_below_enum(&self, id: TypeId) -> bool
        ensures { result ≡ definition.is_below self.now id (id_of_core enum_place) }
    {
        self.is_below_core(&self.kinds.enums, id, ENUM)
    }

    /// Whether a type is a delegate type: one of the file below Delegate (ECMA-335 II.14.6).
    #[tactic(auto, unfolding(crate::specs::Types::is_delegate))]
    pub fn is_delegate(&self, id: TypeId) -> bool
        ensures { result ≡ definition.is_delegate self.now id }
    {
        id.base < FIRST_CORE && self.is_below_core(&self.kinds.delegates, id, DELEGATE)
    }

    /// Whether a type is SafeHandle or below it.
    #[tactic(auto, unfolding(crate::specs::Types::is_handle))]
    pub fn is_handle(&self, id: TypeId) -> bool
        ensures { result ≡ definition.is_handle self.now id }
    {
        same_type(core_id(SAFE_HANDLE), id)
            || self.is_below_core(&self.kinds.handles, id, SAFE_HANDLE)
    }

    /// Whether a type is below the core type of a place, if it is known which types of the file are.
    fn is_below_core(&self, below: &Items<bool>, id: TypeId, place: u8) -> bool
        requires { TellsBelow self.now place below.now }
        ensures { result ≡ definition.is_below self.now id (id_of_core place) }
    {
        if id.arrays == 0 && id.base < FIRST_CORE {
            is_told(below, id.base)
        } else {
            self.is_below(id, core_id(place))
        }
    }
}

/// Whether a list says something of a row; past its end it says nothing.
fn is_told(told: &Items<bool>, row: u32) -> bool
    ensures { result ≡ slice_index_or told.now row false }
{
    told.as_slice().get(row as usize).copied().unwrap_or(false)
}

/// Finds which types are below the core types that matter.
fn kinds_of(alloc: Global, names: &Names) -> Result<Kinds, AllocError>
    ensures { IfOk result (λ kinds. HoldsKinds names.now kinds.values kinds.enums kinds.delegates kinds.handles) }
{
    let extends = extends_list(alloc, names)?;
    let values = types_below(alloc, names, &extends, u32::from(VALUE_TYPE))?;
    let enums = types_below(alloc, names, &extends, u32::from(ENUM))?;
    let delegates = types_below(alloc, names, &extends, u32::from(DELEGATE))?;
    let handles = types_below(alloc, names, &extends, u32::from(SAFE_HANDLE))?;
    Ok(Kinds {
        values,
        enums,
        delegates,
        handles,
    })
}

/// What each type of a file extends, row after row.
fn extends_list(alloc: Global, names: &Names) -> Result<Vec<Option<TypeId>>, AllocError>
    ensures { IfOk result (λ extends. extends.items ≡ extended names.now) }
{
    let end = u64::from(names.image().row_count(TYPE_DEFS)) + 1;
    (1..end)
        .map(|t| extends_by(names, def_id(t as u32)))
        .collect(alloc)
}

/// What a type extends.
#[tactic(auto, unfolding(crate::specs::Types::extends_of))]
fn extends_by(names: &Names, id: TypeId) -> Option<TypeId>
    ensures { result ≡ definition.extends_of names.now id }
{
    if 0 < id.arrays {
        Some(core_id(ARRAY))
    } else if FIRST_CORE <= id.base {
        core_type(id.base - FIRST_CORE)?.extends.map(core_id)
    } else {
        let coded = names.image().cell(TYPE_DEFS, u64::from(id.base), 3);
        names.named(coded_token(coded)).map(as_base)
    }
}

/// A type that is said to extend an array extends Array.
fn as_base(id: TypeId) -> TypeId
    ensures { result ≡ definition.as_base id }
{
    if id.arrays == 0 { id } else { core_id(ARRAY) }
}

/// The token of a coded index TypeDefOrRef; 0, which names nothing, for a row that no token can name.
fn coded_token(coded: u32) -> u32
    ensures { result ≡ token_of_coded coded }
{
    let row = coded / 4;
    if row >= ROW_LIMIT {
        return 0;
    }
    let table = match coded % 4 {
        0 => TYPE_DEFS,
        1 => TYPE_REFS,
        2 => TYPE_SPECS,
        _ => 0,
    };
    u32::from(table) * ROW_LIMIT + row
}
