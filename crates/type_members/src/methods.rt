//! What the methods of types are: rows of MethodDef and core members (ECMA-335 II.22.26, II.23.1.10).

ghost use Rattle.std.specs.Prelude.{◌≡◌, ◌++◌, ◌∷◌, [], map, filter, IfOk, OnOk};
ghost use Rattle.std.specs.List.{range_with_len};
ghost use Rattle.type_model.specs.Rows.{method_flags, first_method, end_of_methods};
ghost use Rattle.type_model.specs.TypeIds.{core_id as id_of_core};
ghost use Rattle.type_model.specs.Types.{bases, run};
ghost use Rattle.type_members.specs.declared.member.Member.TheVariants.{Method, Core};
ghost use Rattle.type_members.specs.CoreMembers.{core_member_at, core_member_count};
ghost use Rattle.type_members.specs.Chosen as definition;

use crate::core_members::{MemberKind, core_member};
use crate::member::Member;
use crate::members::Members;
use crate::table_numbers::{MEMBER_REFS, METHOD_DEFS, ROW_LIMIT, TYPE_DEFS};
use bound_base::{Items, NoMemory};
use managed_value::TypeId;
use std::alloc::Global;

/// How many core members there are.
const CORE_MEMBERS: u32 = 179;

/// The flags of a method (ECMA-335 II.23.1.10), and that of an interface (II.23.1.15).
const VIRTUAL: u32 = 0x40;

const NEW_SLOT: u32 = 0x100;

const INTERFACE: u32 = 0x20;

/// A method by its number: a row of MethodDef, or 0x0100_0000 and the place of a core member.
pub fn called(number: u32) -> Member
    ensures { result ≡ definition.called number }
{
    if ROW_LIMIT <= number {
        Member::Core(number - ROW_LIMIT)
    } else {
        Member::Method(number)
    }
}

/// Whether two methods are one.
pub fn same_member(x: Member, y: Member) -> bool
    ensures { result ≡ definition.same_member x y }
{
    match (x, y) {
        (Member::Method(a), Member::Method(b)) => a == b,
        (Member::Core(a), Member::Core(b)) => a == b,
        _ => false,
    }
}

/// The token of a coded index MethodDefOrRef (II.24.2.6); 0, which finds nothing, for a row that no token can name.
fn method_token(coded: u32) -> u32
    ensures { result ≡ definition.method_token coded }
{
    let row = coded / 2;
    if row >= ROW_LIMIT {
        return 0;
    }
    let table = if coded % 2 == 0 {
        METHOD_DEFS
    } else {
        MEMBER_REFS
    };
    u32::from(table) * ROW_LIMIT + row
}

impl Members {
    /// The method of a coded index MethodDefOrRef.
    pub(crate) fn method_at(&self, coded: u32) -> Option<Member>
        ensures { result ≡ definition.method_at self.now coded }
    {
        self.find(method_token(coded))
    }

    /// Whether a method is virtual.
    pub(crate) fn is_virtual(&self, x: Member) -> bool
        ensures { result ≡ definition.is_virtual self.now x }
    {
        match x {
            Member::Method(n) => self.flags(n) & VIRTUAL == VIRTUAL,
            Member::Core(place) => is_virtual_core(place),
            _ => false,
        }
    }

    /// Whether a method begins a slot of its own, whatever the bases have.
    pub(crate) fn begins_slot(&self, x: Member) -> bool
        ensures { result ≡ definition.begins_slot self.now x }
    {
        match x {
            Member::Method(n) => self.flags(n) & NEW_SLOT == NEW_SLOT,
            _ => false,
        }
    }

    /// Whether a method may stand for one of an interface.
    pub(crate) fn may_implement(&self, x: Member) -> bool
        ensures { result ≡ definition.may_implement self.now x }
    {
        match x {
            Member::Core(place) => is_instance_core(place),
            _ => self.is_virtual(x),
        }
    }

    fn flags(&self, n: u32) -> u32
        ensures { result ≡ method_flags self.now n }
    {
        self.types().image().cell(METHOD_DEFS, u64::from(n), 2)
    }

    /// The type that has a method.
    pub(crate) fn owner_of(&self, x: Member) -> Option<TypeId>
        ensures { result ≡ definition.owner_of self.now x }
    {
        match x {
            Member::Method(n) => Some(TypeId {
                base: self.types().image().owner_of_method(n),
                arrays: 0,
            }),
            Member::Core(place) => Some(core_id(core_member(place)?.owner)),
            _ => None,
        }
    }

    /// Whether a type is an interface.
    pub(crate) fn is_interface(&self, id: Option<TypeId>) -> bool
        ensures { result ≡ definition.is_interface self.now id }
    {
        match id {
            Some(id) => match self.types().type_row(id.base) {
                Some(row) => row.flags & INTERFACE == INTERFACE,
                None => false,
            },
            None => false,
        }
    }

    /// A method of the file that has a body, by its row.
    pub(crate) fn bodied(&self, x: Member) -> Option<u32>
        ensures { result ≡ definition.bodied self.now x }
    {
        match x {
            Member::Method(n) if self.types().code_at(n).is_some() => Some(n),
            _ => None,
        }
    }

    /// A type, what it extends, and so on.
    #[tactic(auto, unfolding(type_model::specs::Types::bases), using(type_model::proofs::Chains::chain_more, type_model::proofs::Chains::chain_ends, type_model::proofs::Chains::chain_full))]
    pub(crate) fn chain(&self, alloc: Global, id: TypeId) -> Result<Items<TypeId>, NoMemory>
        ensures { IfOk result (λ chain. chain ≡ id ∷ bases self.now id) }
    {
        let mut chain = Items::new(alloc);
        chain.push(id)?;
        let mut at = id;
        let mut left = u64::from(self.types().image().row_count(TYPE_DEFS)) + 57;
        while 0 < left {
            match self.types().extends_of(at) {
                None => return Ok(chain),
                Some(next) => {
                    chain.push(next)?;
                    at = next;
                }
            }
            left -= 1;
        }
        Ok(chain)
    }

    /// The methods that a type declares, and the fields of a core type.
    pub(crate) fn methods_of(&self, alloc: Global, id: TypeId) -> Result<Items<Member>, NoMemory>
        ensures { IfOk result (λ methods. methods ≡ definition.methods_of self.now id) }
    {
        if 0 < id.arrays {
            return Ok(Items::new(alloc));
        }
        if ROW_LIMIT <= id.base {
            core_methods(alloc, id.base - ROW_LIMIT)
        } else {
            self.declared_methods(alloc, id.base)
        }
    }

    /// The methods that a type of the file declares.
    #[tactic(auto, using(crate::proofs::MethodLists::declared_more, type_model::proofs::Chains::run_empty))]
    fn declared_methods(&self, alloc: Global, t: u32) -> Result<Items<Member>, NoMemory>
        ensures { IfOk result (λ methods. methods
            ≡ map Method (run (first_method self.now t) (end_of_methods self.now t))) }
    {
        let first = self.types().image().cell(TYPE_DEFS, u64::from(t), 5);
        let end = self.types().image().run_end(TYPE_DEFS, t, 5, METHOD_DEFS);
        let mut methods = Items::new(alloc);
        if end <= u64::from(first) {
            return Ok(methods);
        }
        for n in u64::from(first)..end {
            methods.push(Member::Method(n as u32))?;
        }
        Ok(methods)
    }
}

/// The core members that a core type has, in their order.
fn core_methods(alloc: Global, owner: u32) -> Result<Items<Member>, NoMemory>
    ensures { IfOk result (λ members. members
        ≡ map Core (filter (λ k. definition.is_owned owner (core_member_at k)) (range_with_len 0 core_member_count))) }
{
    let mut members = Items::new(alloc);
    for place in 0..CORE_MEMBERS {
        push_owned(owner, place, &mut members)?;
    }
    Ok(members)
}

/// Adds a core member, if a core type has it.
fn push_owned(owner: u32, place: u32, members: &mut Items<Member>) -> Result<(), NoMemory>
    ensures { OnOk result (members.new ≡ members.old
        ++ map Core (filter (λ k. definition.is_owned owner (core_member_at k)) (place ∷ []))) }
{
    if is_owned(owner, place) {
        members.push(Member::Core(place))?;
    }
    Ok(())
}

/// Whether a core type has a core member.
fn is_owned(owner: u32, place: u32) -> bool
    ensures { result ≡ definition.is_owned owner (core_member_at place) }
{
    match core_member(place) {
        Some(known) => u32::from(known.owner) == owner,
        None => false,
    }
}

fn is_virtual_core(place: u32) -> bool
    ensures { result ≡ definition.is_virtual_core (core_member_at place) }
{
    match core_member(place) {
        Some(known) => is_virtual_kind(known.kind),
        None => false,
    }
}

fn is_instance_core(place: u32) -> bool
    ensures { result ≡ definition.is_instance_core (core_member_at place) }
{
    match core_member(place) {
        Some(known) => is_instance_kind(known.kind),
        None => false,
    }
}

fn is_virtual_kind(kind: MemberKind) -> bool
    ensures { result ≡ definition.is_virtual_kind kind }
{
    match kind {
        MemberKind::Virtual => true,
        _ => false,
    }
}

fn is_instance_kind(kind: MemberKind) -> bool
    ensures { result ≡ definition.is_instance_kind kind }
{
    match kind {
        MemberKind::Instance => true,
        _ => is_virtual_kind(kind),
    }
}

/// A core type, by its place.
pub fn core_id(place: u8) -> TypeId
    ensures { result ≡ id_of_core place }
{
    TypeId {
        base: ROW_LIMIT + u32::from(place),
        arrays: 0,
    }
}
