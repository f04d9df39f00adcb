//! The types of an assembly.

ghost use Rattle.std.specs.Prelude.{◌≡◌, IfOk};
ghost use Rattle.std.specs.Option.{option_copied};
ghost use Rattle.pe_reader.specs.Pe.{headers_of};
ghost use Rattle.type_model.specs.Holding.{HoldsSignatures};
ghost use Rattle.type_model.specs.Module.{module_of};
ghost use Rattle.type_model.specs.TypeIds.{spec_sig as sig_of_spec, named as named_by, type_of as type_of_sig};
ghost use Rattle.type_model.specs.Types as definition;
ghost use Rattle.type_model.specs.Members.{sig_of};

use crate::bases::Bases;
use crate::module::Module;
use crate::names::Names;
use crate::pool::Pool;
use crate::signatures::{field_sigs, method_sigs};
use bound_base::NoMemory;
use managed_value::TypeId;
use meta_tables::Meta;
use pe_reader::Pe;
use sig_reader::{Sig, TypeSig};
use sqlite_items::Boxed;
use std::alloc::Global;
use std::marker::Model;

/// The types of an assembly and their members. It has its own copy of the file, and answers by it.
#[derive(Drop)]
pub struct Types {
    bases: Boxed<Bases>,
    sigs: Boxed<Signatures>,
}

/// The signatures of fields and methods, by their rows.
#[derive(Drop)]
struct Signatures {
    fields: Pool<TypeSig>,
    methods: Pool<Sig>,
}

impl Model for Types {
    ghost use Rattle.type_model.specs.Module.{Module as ModuleValue};
    ghost use Rattle.type_model.specs.Holding.{HoldsSignatures};

    ghost Value = { ModuleValue };

    ghost view = { λ t. t.bases };

    ghost invariant = { λ t. HoldsSignatures t.bases t.sigs.fields t.sigs.methods };
}

/// Finds out what types are, over copies of a file.
fn bases_of(alloc: Global, bytes: &[u8], pe: &Pe, meta: &Meta<'_>) -> Result<Boxed<Bases>, NoMemory>
    ensures { IfOk result (λ bases. bases ≡ module_of bytes.now (headers_of pe.now) meta.now) }
{
    let image = Boxed::new(alloc, Module::of(alloc, bytes, pe, meta)?)?;
    let names = Boxed::new(alloc, Names::of(alloc, image)?)?;
    Ok(Boxed::new(alloc, Bases::of(alloc, names)?)?)
}

/// Reads the signatures of fields and methods.
fn signatures_of(alloc: Global, image: &Module) -> Result<Signatures, NoMemory>
    ensures { IfOk result (λ sigs. HoldsSignatures image.now sigs.fields sigs.methods) }
{
    let fields = field_sigs(alloc, image)?;
    let methods = method_sigs(alloc, image)?;
    Ok(Signatures { fields, methods })
}

impl Types {
    /// Reads the types of a file, and checks none of them.
    pub fn read(alloc: Global, bytes: &[u8], pe: &Pe, meta: &Meta<'_>) -> Result<Types, NoMemory>
        ensures { IfOk result (λ types. types ≡ module_of bytes.now (headers_of pe.now) meta.now) }
    {
        let bases = bases_of(alloc, bytes, pe, meta)?;
        let sigs = Boxed::new(alloc, signatures_of(alloc, bases.get().image())?)?;
        Ok(Types { bases, sigs })
    }

    /// What types extend, and what they are by that.
    pub fn bases(&self) -> &Bases
        ensures { result.now ≡ self.now }
    {
        self.bases.get()
    }

    /// The copies of the file, its heaps and its rows.
    pub fn image(&self) -> &Module
        ensures { result.now ≡ self.now }
    {
        self.bases().image()
    }

    /// The type in the blob of a row of TypeSpec.
    pub fn spec_sig(&self, s: u32) -> Option<&TypeSig>
        ensures { option_copied result ≡ sig_of_spec self.now s }
    {
        self.bases().names().spec_sig(s)
    }

    /// The signature of a row of Field; None outside the grammar.
    #[tactic(auto, unfolding(crate::specs::Types::field_sig_of), using(crate::proofs::Joined::joined))]
    pub fn field_sig(&self, f: u32) -> Option<&TypeSig>
        ensures { option_copied result ≡ definition.field_sig_of self.now f }
    {
        if f == 0 {
            return None;
        }
        self.sigs.get().fields.get(f as usize - 1)
    }

    /// The signature of a row of MethodDef; None outside the grammar.
    #[tactic(auto, unfolding(crate::specs::Members::sig_of), using(crate::proofs::Joined::joined))]
    pub fn method_sig(&self, n: u32) -> Option<&Sig>
        ensures { option_copied result ≡ sig_of self.now n }
    {
        if n == 0 {
            return None;
        }
        self.sigs.get().methods.get(n as usize - 1)
    }

    /// The type that a token names: of TypeDef, TypeRef or TypeSpec (ECMA-335 II.22). None where it names none, and where a
    /// row of TypeSpec leads to itself.
    pub fn named(&self, token: u32) -> Option<TypeId>
        ensures { result ≡ named_by self.now token }
    {
        self.bases().names().named(token)
    }

    /// The type that a type of a signature names; None for one that is left out. A pointer counts as a UIntPtr.
    pub fn type_of(&self, sig: &TypeSig) -> Option<TypeId>
        ensures { result ≡ type_of_sig self.now sig.now }
    {
        self.bases().names().type_of(sig)
    }

    /// What a type extends (ECMA-335 II.22.37); an array extends Array, and so does a type that is said to extend an array.
    pub fn extends_of(&self, id: TypeId) -> Option<TypeId>
        ensures { result ≡ definition.extends_of self.now id }
    {
        self.bases().extends_of(id)
    }

    /// Whether a type is another's base, at any distance.
    pub fn is_below(&self, id: TypeId, base: TypeId) -> bool
        ensures { result ≡ definition.is_below self.now id base }
    {
        self.bases().is_below(id, base)
    }

    /// Whether a type is a value type: below ValueType, and not Enum itself (ECMA-335 I.8.9.7).
    pub fn is_value_type(&self, id: TypeId) -> bool
        ensures { result ≡ definition.is_value_type self.now id }
    {
        self.bases().is_value_type(id)
    }

    /// Whether a type is a delegate type: one of the file below Delegate (ECMA-335 II.14.6).
    pub fn is_delegate(&self, id: TypeId) -> bool
        ensures { result ≡ definition.is_delegate self.now id }
    {
        self.bases().is_delegate(id)
    }

    /// Whether a type is SafeHandle or below it.
    pub fn is_handle(&self, id: TypeId) -> bool
        ensures { result ≡ definition.is_handle self.now id }
    {
        self.bases().is_handle(id)
    }
}
