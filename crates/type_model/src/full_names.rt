//! Full names of types: namespace, name and enclosing types.

ghost use Rattle.std.specs.Prelude.{◌≡◌, ◌++◌, ◌∷◌, IfOk, OnOk, if◌then◌else◌};
ghost use Rattle.type_model.specs.Module.{row_count};
ghost use Rattle.type_model.specs.Rows.{type_defs};
ghost use Rattle.type_model.specs.FullNames as definition;
ghost use Rattle.type_model.specs.NameChains.{chain_within};

use crate::core_types::{FIRST_CORE, core_type};
use crate::model::Types;
use crate::table_numbers::TYPE_DEFS;
use bound_base::{Bytes, NoMemory};
use managed_value::TypeId;
use std::alloc::Global;

impl Types {
    /// The full name of a type: its namespace and a dot, where it has a namespace, and its name; before it the full names of the
    /// types that enclose it, each followed by a plus; and after it `[]` for each time that it is an array.
    #[tactic(auto, unfolding(crate::specs::FullNames::full_name))]
    pub fn full_name(&self, alloc: Global, id: TypeId) -> Result<Bytes, NoMemory>
        ensures { IfOk result (λ name. name ≡ definition.full_name self.now id) }
    {
        let mut name = self.base_name(alloc, id.base)?;
        push_brackets(&mut name, id.arrays)?;
        Ok(name)
    }

    /// The full name of what stands in a type's brackets.
    #[tactic(auto, unfolding(crate::specs::FullNames::base_name))]
    fn base_name(&self, alloc: Global, base: u32) -> Result<Bytes, NoMemory>
        ensures { IfOk result (λ name. name ≡ definition.base_name self.now base) }
    {
        if base < FIRST_CORE {
            return self.nested_name(alloc, base);
        }
        let mut name = Bytes::new(alloc);
        match core_type(base - FIRST_CORE) {
            Some(known) => push_qualified(
                &mut name,
                known.namespace.as_bytes(),
                known.name.as_bytes(),
            )?,
            None => {}
        }
        Ok(name)
    }

    /// The full name of a type of the file.
    #[tactic(auto, using(crate::proofs::NameChains::named_so_far, crate::proofs::NameChains::none_named, crate::proofs::NameChains::all_named))]
    fn nested_name(&self, alloc: Global, t: u32) -> Result<Bytes, NoMemory>
        ensures { IfOk result (λ name. name
            ≡ definition.nested_name (row_count self.now type_defs) self.now t) }
    {
        let chain = self.enclosers(alloc, t)?;
        let mut name = Bytes::new(alloc);
        let mut left = chain.len();
        while left > 0 {
            left -= 1;
            self.push_own(&mut name, chain[left], left + 1 < chain.len())?;
        }
        Ok(name)
    }

    /// A type of the file, the type that encloses it, and so on.
    #[tactic(auto, using(crate::proofs::NameChains::chain_begins, crate::proofs::NameChains::chain_more, crate::proofs::NameChains::chain_ends, crate::proofs::NameChains::chain_full))]
    fn enclosers(&self, alloc: Global, t: u32) -> Result<Vec<u32>, NoMemory>
        ensures { IfOk result (λ chain. chain.items
            ≡ chain_within (row_count self.now type_defs) self.now t) }
    {
        let mut chain = Vec::new(alloc);
        chain.push(t)?;
        let mut at = t;
        let mut left = self.image().row_count(TYPE_DEFS);
        while 0 < left {
            at = self.image().encloser(at);
            if at == 0 {
                return Ok(chain);
            }
            chain.push(at)?;
            left -= 1;
        }
        Ok(chain)
    }

    /// Adds the name of a type of the file, and before it a plus where it stands in another.
    fn push_own(&self, name: &mut Bytes, t: u32, nested: bool) -> Result<(), NoMemory>
        ensures { OnOk result (name.new ≡ name.old
            ++ (if nested then 43 ∷ definition.own_name self.now t else definition.own_name self.now t)) }
    {
        if nested {
            name.push(b'+')?;
        }
        let image = self.image();
        push_qualified(
            name,
            image.text(image.cell(TYPE_DEFS, u64::from(t), 2)),
            image.text(image.cell(TYPE_DEFS, u64::from(t), 1)),
        )
    }
}

/// Adds a namespace and a dot, where there is a namespace, and a name.
fn push_qualified(to: &mut Bytes, namespace: &[u8], name: &[u8]) -> Result<(), NoMemory>
    ensures { OnOk result (to.new ≡ to.old ++ definition.qualified namespace.now name.now) }
{
    if !namespace.is_empty() {
        to.extend_from_slice(namespace)?;
        to.push(b'.')?;
    }
    to.extend_from_slice(name)?;
    Ok(())
}

/// Adds `[]` so many times.
#[tactic(auto, unfolding(crate::specs::FullNames::brackets), using(crate::proofs::NameChains::brackets_more))]
fn push_brackets(name: &mut Bytes, count: u32) -> Result<(), NoMemory>
    ensures { OnOk result (name.new ≡ name.old ++ definition.brackets count) }
{
    for _i in 0..count {
        name.extend_from_slice(b"[]")?;
    }
    Ok(())
}
