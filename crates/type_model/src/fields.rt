//! The instance fields of types, and the integers that enums are.

ghost use Rattle.std.specs.Prelude.{◌≡◌, ◌+◌, ◌-◌, ◌≤◌, ◌<◌, ◌==◌, ◌++◌, ◌∷◌, ◌^◌, [], bit_and, filter, find, bytes_eq, option_and_then, IfOk, IfSome, OnOk};
ghost use Rattle.type_model.specs.Rows.{method_name, first_method, end_of_methods};
ghost use Rattle.type_model.specs.Types as definition;

use crate::core_types::{FIRST_CORE, SAFE_HANDLE};
use crate::model::Types;
use crate::table_numbers::{FIELDS, METHOD_DEFS, TYPE_DEFS};
use bound_base::{Items, NoMemory};
use managed_value::TypeId;
use sig_reader::TypeSig;
use std::alloc::Global;

impl Types {
    /// The instance fields of a type, those of its farthest base first: rows of Field, and SafeHandle's own field by its
    /// number among the core members.
    #[tactic(auto, unfolding(crate::specs::Types::instance_fields), using(crate::proofs::Chains::fields_more))]
    pub fn instance_fields(&self, alloc: Global, id: TypeId) -> Result<Items<u32>, NoMemory>
        ensures { IfOk result (λ fields. fields ≡ definition.instance_fields self.now id) }
    {
        let mut chain = self.chain(alloc, id)?.into_vec();
        chain.reverse();
        let mut fields = Items::new(alloc);
        for at in chain.as_slice() {
            self.push_fields(*at, &mut fields)?;
        }
        Ok(fields)
    }

    /// A type, what it extends, and so on.
    #[tactic(auto, unfolding(crate::specs::Types::bases), using(crate::proofs::Chains::chain_more, crate::proofs::Chains::chain_ends, crate::proofs::Chains::chain_full))]
    fn chain(&self, alloc: Global, id: TypeId) -> Result<Items<TypeId>, NoMemory>
        ensures { IfOk result (λ chain. chain ≡ id ∷ definition.bases self.now id) }
    {
        let mut chain = Items::new(alloc);
        chain.push(id)?;
        let mut at = id;
        let mut left = u64::from(self.image().row_count(TYPE_DEFS)) + 57;
        while 0 < left {
            match self.extends_of(at) {
                None => return Ok(chain),
                Some(next) => {
                    chain.push(next)?;
                    at = next;
                }
            }
            left -= 1;
        }
        Ok(chain)
    }

    /// Adds the instance fields that a type has beside those of its bases.
    fn push_fields(&self, id: TypeId, fields: &mut Items<u32>) -> Result<(), NoMemory>
        ensures { OnOk result (fields.new ≡ fields.old ++ definition.fields_of_one self.now id) }
    {
        if 0 < id.arrays {
            return Ok(());
        }
        if id.base < FIRST_CORE {
            return self.push_declared(id.base, fields);
        }
        if id.base == FIRST_CORE + u32::from(SAFE_HANDLE) {
            fields.push(HANDLE_FIELD)?;
        }
        Ok(())
    }

    /// Adds the instance fields that a type of the file declares.
    #[tactic(auto, using(crate::proofs::Chains::run_empty))]
    fn push_declared(&self, t: u32, fields: &mut Items<u32>) -> Result<(), NoMemory>
        ensures { OnOk result (fields.new ≡ fields.old ++ definition.own_fields self.now t) }
    {
        let first = u64::from(self.image().cell(TYPE_DEFS, u64::from(t), 4));
        let end = self.image().run_end(TYPE_DEFS, t, 4, FIELDS);
        if end <= first {
            return Ok(());
        }
        for field in first..end {
            self.push_field(field, fields)?;
        }
        Ok(())
    }

    /// Adds a field, if it isn't static.
    fn push_field(&self, field: u64, fields: &mut Items<u32>) -> Result<(), NoMemory>
        requires { field < 2 ^ 32 }
        ensures { OnOk result
            (fields.new ≡ fields.old ++ filter (definition.is_instance self.now) (field ∷ [])) }
    {
        if self.is_instance(field) {
            fields.push(field as u32)?;
        }
        Ok(())
    }

    /// The integer type of an enum, by its place among the core types. An enum is a type of the file below Enum that has just
    /// one instance field, of an integer type (ECMA-335 II.14.3); None for any other type.
    #[tactic(auto, unfolding(crate::specs::Types::enum_of))]
    pub fn enum_of(&self, alloc: Global, id: TypeId) -> Result<Option<u32>, NoMemory>
        ensures { IfOk result (λ integer. integer ≡ definition.enum_of self.now id) }
    {
        if FIRST_CORE <= id.base || !self.bases().is_below_enum(id) {
            return Ok(None);
        }
        let fields = self.instance_fields(alloc, id)?;
        Ok(self.integer_among(fields.as_slice()))
    }

    /// The integer type of a field that is the only one.
    fn integer_among(&self, fields: &[u32]) -> Option<u32>
        ensures { result ≡ option_and_then (λ f.
            option_and_then (definition.integer_of self.now) (definition.field_sig_of self.now f))
            (definition.only fields.now) }
    {
        match fields {
            [field] => self.integer_of(self.field_sig(*field)?),
            _ => None,
        }
    }

    /// The integer type that a type of a signature is, by its place among the core types; a pointer is none.
    #[tactic(auto, unfolding(crate::specs::Types::integer_of))]
    pub fn integer_of(&self, sig: &TypeSig) -> Option<u32>
        ensures { result ≡ definition.integer_of self.now sig.now }
    {
        match sig {
            TypeSig::Ptr(_) => None,
            _ => integer_id(self.type_of(sig)?),
        }
    }

    /// The method that a delegate's call is: of a type of the file, the first that is named Invoke, by its row of MethodDef.
    #[tactic(auto, unfolding(crate::specs::Types::invoke_of))]
    pub fn invoke_of(&self, id: TypeId) -> Option<u32>
        ensures { result ≡ definition.invoke_of self.now id }
    {
        if 0 < id.arrays || FIRST_CORE <= id.base {
            return None;
        }
        let method = self.method_named(id.base, b"Invoke")?;
        Some(method as u32)
    }

    /// The first method of a type of the file that has a name.
    fn method_named(&self, t: u32, name: &[u8]) -> Option<u64>
        ensures first { result ≡ find (λ n. bytes_eq (method_name self.now n) name.now)
            (definition.run (first_method self.now t) (end_of_methods self.now t)) }
        ensures few { IfSome result (λ n. n < 2 ^ 32) }
    {
        let first = u64::from(self.image().cell(TYPE_DEFS, u64::from(t), 5));
        let end = self.image().run_end(TYPE_DEFS, t, 5, METHOD_DEFS);
        (first..end).find(|n| self.image().text(self.image().cell(METHOD_DEFS, *n, 3)) == name)
    }

    /// Whether a field isn't static.
    fn is_instance(&self, field: u64) -> bool
        ensures { result ≡ definition.is_instance self.now field }
    {
        self.image().cell(FIELDS, field, 0) & 0x10 == 0
    }
}

/// SafeHandle's own field, by its number among the core members.
const HANDLE_FIELD: u32 = FIRST_CORE;

/// The place of a core type that is an integer.
fn integer_id(id: TypeId) -> Option<u32>
    ensures { result ≡ definition.integer_id id }
{
    if id.arrays == 0 && FIRST_CORE <= id.base && is_integer(id.base - FIRST_CORE) {
        Some(id.base - FIRST_CORE)
    } else {
        None
    }
}

/// Whether the core type of a place is an integer: one of 1 to 8 bytes, IntPtr or UIntPtr.
fn is_integer(place: u32) -> bool
    ensures { result ≡ definition.is_integer_place place }
{
    7 <= place && place <= 16
}
