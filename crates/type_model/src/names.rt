//! What tokens and types of signatures name (ECMA-335 II.22).

ghost use Rattle.std.specs.Prelude.{◌≡◌, IfOk};
ghost use Rattle.std.specs.Option.{option_copied};
ghost use Rattle.type_model.specs.TypeIds as definition;

use crate::module::Module;
use crate::pool::Pool;
use crate::ref_names::{name_at, named_plainly, ref_names};
use crate::signatures::spec_sigs;
use crate::spec_names::{is_type_spec, spec_names};
use crate::table_numbers::ROW_LIMIT;
use crate::type_ids::{Leaf, in_brackets, leaf_of};
use bound_base::{Items, NoMemory};
use managed_value::TypeId;
use sig_reader::TypeSig;
use sqlite_items::Boxed;
use std::alloc::Global;
use std::marker::Model;

/// An assembly, and what each of its rows of TypeRef and TypeSpec names.
#[derive(Drop)]
pub struct Names {
    image: Boxed<Module>,
    spec_sigs: Pool<TypeSig>,
    refs: Items<Option<TypeId>>,
    specs: Items<Option<TypeId>>,
}

impl Model for Names {
    ghost use Rattle.type_model.specs.Module.{Module as ModuleValue};
    ghost use Rattle.type_model.specs.Holding.{HoldsNames};

    ghost Value = { ModuleValue };

    ghost view = { λ n. n.image };

    ghost invariant = { λ n. HoldsNames n.image n.spec_sigs n.refs n.specs };
}

impl Names {
    /// Finds what each row of TypeRef and TypeSpec names.
    pub fn of(alloc: Global, image: Boxed<Module>) -> Result<Names, NoMemory>
        ensures { IfOk result (λ names. names ≡ image) }
    {
        let spec_sigs = spec_sigs(alloc, image.get())?;
        let refs = ref_names(alloc, image.get())?;
        let specs = spec_names(alloc, image.get(), refs.as_slice(), &spec_sigs)?;
        Ok(Names {
            image,
            spec_sigs,
            refs,
            specs,
        })
    }

    /// The copies of the file, its heaps and its rows.
    pub fn image(&self) -> &Module
        ensures { result.now ≡ self.now }
    {
        self.image.get()
    }

    /// The type in the blob of a row of TypeSpec.
    #[tactic(auto, unfolding(crate::specs::TypeIds::spec_sig), using(crate::proofs::Joined::joined))]
    pub fn spec_sig(&self, s: u32) -> Option<&TypeSig>
        ensures { option_copied result ≡ definition.spec_sig self.now s }
    {
        if s == 0 {
            return None;
        }
        self.spec_sigs.get(s as usize - 1)
    }

    /// The type that a token names: of TypeDef, TypeRef or TypeSpec (ECMA-335 II.22). None where it names none, and where a
    /// row of TypeSpec leads to itself.
    #[tactic(auto, using(crate::proofs::RowNames::named_by_spec, crate::proofs::RowNames::named_without))]
    pub fn named(&self, token: u32) -> Option<TypeId>
        ensures { result ≡ definition.named self.now token }
    {
        if is_type_spec(self.image(), token) {
            name_at(self.specs.as_slice(), token % ROW_LIMIT)
        } else {
            named_plainly(self.image(), self.refs.as_slice(), token)
        }
    }

    /// The type that a type of a signature names; None for one that is left out. A pointer counts as a UIntPtr.
    #[tactic(auto, unfolding(crate::specs::TypeIds::type_of))]
    pub fn type_of(&self, sig: &TypeSig) -> Option<TypeId>
        ensures { result ≡ definition.type_of self.now sig.now }
    {
        let (brackets, leaf) = leaf_of(sig)?;
        match leaf {
            Leaf::Core(id) => in_brackets(brackets, id),
            Leaf::Token(token) => in_brackets(brackets, self.named(token)?),
        }
    }
}
