//! Which method answers a virtual call (ECMA-335 II.10.3, II.12.2).

ghost use Rattle.std.specs.Prelude.{◌≡◌, ◌∷◌, ◌==◌, None, if◌then◌else◌, find, filter, map, option_and_then, slice_index, IfOk};
ghost use Rattle.std.specs.List.{flat_map, list_any};
ghost use Rattle.type_model.specs.Types.{bases};
ghost use Rattle.type_model.specs.Core.{core_at};
ghost use Rattle.type_model.specs.Module.{rows as rows_of};
ghost use Rattle.type_model.specs.Rows.{method_impls};
ghost use Rattle.type_model.specs.TypeIds.{same_type as one_type, core_id as id_of_core, named, coded_token as token_of_coded};
ghost use Rattle.type_members.specs.Akin.{like};
ghost use Rattle.type_members.specs.Chosen as definition;
ghost use Rattle.type_members.specs.Subtypes.{listed, interfaces_of, core_interfaces};

use crate::edges::coded_token;
use crate::member::Member;
use crate::members::Members;
use crate::methods::{called, core_id, same_member};
use crate::table_numbers::{INTERFACE_IMPLS, METHOD_IMPLS, ROW_LIMIT};
use bound_base::NoMemory;
use managed_value::TypeId;
use std::alloc::Global;

/// The places of SafeHandle and IDisposable, the one core type that has an interface and the interface.
const SAFE_HANDLE: u32 = 30;

const DISPOSABLE: u8 = 24;

impl Members {
    /// The method that answers a virtual call on an object of a type, by its row of MethodDef (ECMA-335 II.10.3, II.12.2). The one that
    /// is called is a row of MethodDef, or 0x0100_0000 and the place of a core member. None where what answers has no body in the file.
    #[tactic(auto, unfolding(crate::specs::Chosen::chosen))]
    pub fn virtual_slot(
        &self,
        alloc: Global,
        receiver: TypeId,
        method: u32,
    ) -> Result<Option<u32>, NoMemory>
        ensures { IfOk result (λ answer. answer ≡ definition.chosen self.now receiver method) }
    {
        match self.answering(alloc, receiver, called(method))? {
            Some(x) => Ok(self.bodied(x)),
            None => Ok(None),
        }
    }

    /// The method that answers.
    fn answering(
        &self,
        alloc: Global,
        receiver: TypeId,
        x: Member,
    ) -> Result<Option<Member>, NoMemory>
        ensures { IfOk result (λ answer. answer ≡ definition.answering self.now receiver x) }
    {
        if self.is_virtual(x) && self.is_interface(self.owner_of(x)) {
            self.by_interface(alloc, receiver, x)
        } else {
            self.by_class(alloc, receiver, x)
        }
    }

    /// The method that answers a call of an interface's.
    fn by_interface(
        &self,
        alloc: Global,
        receiver: TypeId,
        x: Member,
    ) -> Result<Option<Member>, NoMemory>
        ensures { IfOk result (λ answer. answer ≡ option_and_then (definition.by_class self.now receiver)
            (definition.entry self.now x (receiver ∷ bases self.now receiver))) }
    {
        let chain = self.chain(alloc, receiver)?;
        match self.entry(alloc, x, chain.as_slice())? {
            Some(y) => self.by_class(alloc, receiver, y),
            None => Ok(None),
        }
    }

    /// What the nearest of some classes has for an interface's method, of those that have something.
    fn entry(&self, alloc: Global, x: Member, ids: &[TypeId]) -> Result<Option<Member>, NoMemory>
        ensures { IfOk result (λ entry. entry ≡ definition.entry self.now x ids.now) }
    {
        for id in ids {
            let found = self.entry_at(alloc, x, *id)?;
            if found.is_some() {
                return Ok(found);
            }
        }
        Ok(None)
    }

    /// What a class has for an interface's method.
    fn entry_at(&self, alloc: Global, x: Member, id: TypeId) -> Result<Option<Member>, NoMemory>
        ensures { IfOk result (λ entry. entry ≡ definition.entry_at self.now x id) }
    {
        match self.impl_for(id, x) {
            Some(body) => Ok(Some(body)),
            None => self.entry_by_name(alloc, x, id),
        }
    }

    /// The method of a class and its bases that is like an interface's, if the class names the interface itself.
    fn entry_by_name(
        &self,
        alloc: Global,
        x: Member,
        id: TypeId,
    ) -> Result<Option<Member>, NoMemory>
        ensures { IfOk result (λ found. found ≡ (if definition.names_interface self.now id (definition.owner_of self.now x)
            then find (like self.now x) (flat_map (definition.implementing self.now) (id ∷ bases self.now id)) else None)) }
    {
        if !self.names_interface(id, self.owner_of(x)) {
            return Ok(None);
        }
        let chain = self.chain(alloc, id)?;
        self.implementing(alloc, x, chain.as_slice())
    }

    /// The method of the first of some classes, of those that have one, that is like an interface's and may stand for it.
    fn implementing(
        &self,
        alloc: Global,
        x: Member,
        ids: &[TypeId],
    ) -> Result<Option<Member>, NoMemory>
        ensures { IfOk result (λ found. found ≡ find (like self.now x) (flat_map (definition.implementing self.now) ids.now)) }
    {
        for id in ids {
            let methods = self.methods_of(alloc, *id)?;
            let found = self.implementing_among(x, methods.as_slice());
            if found.is_some() {
                return Ok(found);
            }
        }
        Ok(None)
    }

    /// The first of some methods that is like an interface's and may stand for it.
    fn implementing_among(&self, x: Member, methods: &[Member]) -> Option<Member>
        ensures { result ≡ find (like self.now x) (filter (definition.may_implement self.now) methods.now) }
    {
        for y in methods {
            if self.may_implement(*y) && self.is_like(x, *y) {
                return Some(*y);
            }
        }
        None
    }

    /// The body of the first row of MethodImpl of a type that has a method as its declaration.
    fn impl_for(&self, id: TypeId, x: Member) -> Option<Member>
        ensures { result ≡ definition.impl_for self.now id x }
    {
        if 0 < id.arrays {
            return None;
        }
        self.impl_among(id.base, x)
    }

    /// The body of the first row of MethodImpl of a type of the file that has a method as its declaration.
    fn impl_among(&self, t: u32, x: Member) -> Option<Member>
        ensures { result ≡ option_and_then (λ numbers. definition.method_at self.now (slice_index numbers 1))
            (find (definition.is_for self.now x) (filter (λ numbers. slice_index numbers 0 == t) (rows_of self.now method_impls))) }
    {
        for row in self.types().image().rows(METHOD_IMPLS) {
            if row[0] == t && self.is_for(x, row[2]) {
                return self.method_at(row[1]);
            }
        }
        None
    }

    /// Whether the declaration of a coded index is a method.
    fn is_for(&self, x: Member, declaration: u32) -> bool
        ensures { result ≡ list_any (definition.same_member x) (listed (definition.method_at self.now declaration)) }
    {
        match self.method_at(declaration) {
            Some(y) => same_member(x, y),
            None => false,
        }
    }

    /// Whether a type names an interface itself.
    fn names_interface(&self, id: TypeId, interface: Option<TypeId>) -> bool
        ensures { result ≡ definition.names_interface self.now id interface }
    {
        match interface {
            Some(interface) => self.has_interface(id, interface),
            None => false,
        }
    }

    /// Whether a type has an interface that it names itself.
    #[tactic(auto, unfolding(crate::specs::Subtypes::interfaces_of))]
    fn has_interface(&self, id: TypeId, interface: TypeId) -> bool
        ensures { result ≡ list_any (one_type interface) (interfaces_of self.now id) }
    {
        if 0 < id.arrays {
            return false;
        }
        if ROW_LIMIT <= id.base {
            return is_core_interface(id.base - ROW_LIMIT, interface);
        }
        for row in self.types().image().rows(INTERFACE_IMPLS) {
            if row[0] == id.base && self.is_named(row[1], interface) {
                return true;
            }
        }
        false
    }

    /// Whether a coded index TypeDefOrRef names a type.
    fn is_named(&self, coded: u32, id: TypeId) -> bool
        ensures { result ≡ list_any (one_type id) (listed (named self.now (token_of_coded coded))) }
    {
        match self.types().named(coded_token(coded)) {
            Some(named) => same_type(id, named),
            None => false,
        }
    }
}

/// Whether a core type has an interface.
#[tactic(auto, using(crate::proofs::CoreInterfaces::core_has))]
fn is_core_interface(place: u32, interface: TypeId) -> bool
    ensures { result ≡ list_any (one_type interface) (map id_of_core (core_interfaces (core_at place))) }
{
    place == SAFE_HANDLE && same_type(interface, core_id(DISPOSABLE))
}

fn same_type(a: TypeId, b: TypeId) -> bool
    ensures { result ≡ one_type a b }
{
    a.base == b.base && a.arrays == b.arrays
}
