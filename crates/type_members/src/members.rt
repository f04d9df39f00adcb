//! An assembly's types with what its tokens find.

ghost use Rattle.std.specs.Prelude.{◌≡◌, ◌≤◌, ◌-◌, ◌↔◌, true, false, None, Some, IsTrue, IfOk, IfErr, slice_index_or};
ghost use Rattle.graph_cycles.specs.Cycles.{Leads};
ghost use Rattle.type_members.specs.Akin.{like};
ghost use Rattle.type_members.specs.Found.{found};
ghost use Rattle.type_members.specs.Subtypes.{IsSubtype, IsOfArrays, type_edges, node as node_of};

use crate::edges::{node, type_graph};
use crate::member::{Member, Unresolved};
use crate::member_refs::{found_refs, known_method};
use crate::method_keys::{MethodKeys, method_keys};
use crate::table_numbers::{FIELDS, MEMBER_REFS, METHOD_DEFS, ROW_LIMIT};
use bound_base::{Items, NoMemory};
use graph_cycles::{Graph, leads};
use managed_value::TypeId;
use sqlite_items::Boxed;
use std::alloc::Global;
use std::marker::Model;
use type_model::Types;

/// The places of Array and of what it extends, among the core types.
const ARRAY: u32 = 3;

const OBJECT: u32 = 0;

/// The types of an assembly, and what each of its rows of MemberRef finds.
#[derive(Drop)]
pub struct Members {
    types: Types,
    refs: Items<Option<Member>>,
    /// From each type to those right above it.
    plain: Graph,
    /// The same, where no value type leads on.
    elements: Graph,
    keys: Boxed<MethodKeys>,
}

impl Model for Members {
    ghost use Rattle.type_model.specs.Module.{Module as ModuleValue};
    ghost use Rattle.type_members.specs.Holding.{HoldsMembers};

    ghost Value = { ModuleValue };

    ghost view = { λ m. m.types };

    ghost invariant = { λ m. HoldsMembers m.types m.refs m.plain.edges.items m.elements.edges.items m.keys.numbers };
}

impl Members {
    /// Finds what each row of MemberRef finds, and what stands right above each type.
    pub fn of(alloc: Global, types: Types) -> Result<Members, NoMemory>
        ensures { IfOk result (λ members. members ≡ types) }
    {
        let refs = found_refs(alloc, &types)?;
        let plain = type_graph(alloc, &types, false)?;
        let elements = type_graph(alloc, &types, true)?;
        let keys = Boxed::new(alloc, method_keys(alloc, &types)?)?;
        Ok(Members {
            types,
            refs,
            plain,
            elements,
            keys,
        })
    }

    /// The types.
    pub fn types(&self) -> &Types
        ensures { result.now ≡ self.now }
    {
        &self.types
    }

    /// What a token finds: of MethodDef, Field, MemberRef, TypeDef, TypeRef or TypeSpec (ECMA-335 II.22). Unresolved where it
    /// finds nothing, and at a method whose signature is outside the grammar.
    pub fn resolve(&self, token: u32) -> Result<Member, Unresolved>
        ensures found { IfOk result (λ member. found self.now token ≡ Some member) }
        ensures unresolved { IfErr result (λ e. found self.now token ≡ None) }
        ensures token { IfErr result (λ e. e.0 ≡ token) }
    {
        self.find(token).ok_or(Unresolved(token))
    }

    /// Whether a value of a type may stand where another type is wanted (ECMA-335 I.8.7.1): where it is that type, or one below it
    /// by what types extend and which interfaces they have; and an array where its element may stand for the other's, unless that
    /// is a value type.
    ///
    /// Time and memory grow with the types and their interfaces.
    pub fn is_subtype(&self, alloc: Global, a: TypeId, b: TypeId) -> Result<bool, NoMemory>
        ensures { IfOk result (λ is. IsTrue is ↔ IsSubtype self.now a b) }
    {
        if b.arrays < a.arrays {
            return Ok(is_of_arrays(b.base));
        }
        if a.arrays < b.arrays {
            return Ok(false);
        }
        if a.base == b.base {
            return Ok(true);
        }
        if a.arrays == 0 {
            self.leads_plainly(alloc, a.base, b.base)
        } else {
            self.leads_by_elements(alloc, a.base, b.base)
        }
    }

    /// Whether a type has another above it, by their bases.
    fn leads_plainly(&self, alloc: Global, a: u32, b: u32) -> Result<bool, NoMemory>
        ensures { IfOk result (λ is. IsTrue is ↔ Leads (type_edges self.now false) (node_of a) (node_of b)) }
    {
        Ok(leads(alloc, &self.plain, node(a), node(b))?)
    }

    /// Whether arrays of a type may stand for arrays of another one.
    fn leads_by_elements(&self, alloc: Global, a: u32, b: u32) -> Result<bool, NoMemory>
        ensures { IfOk result (λ is. IsTrue is ↔ Leads (type_edges self.now true) (node_of a) (node_of b)) }
    {
        Ok(leads(alloc, &self.elements, node(a), node(b))?)
    }

    /// Whether two methods have one name and one signature.
    pub(crate) fn is_like(&self, x: Member, y: Member) -> bool
        ensures { result ≡ like self.now x y }
    {
        let key = self.keys.get().key(x);
        0 < key && key == self.keys.get().key(y)
    }

    /// What a token finds, if it finds something.
    #[tactic(auto, unfolding(crate::specs::Found::found), using(crate::proofs::FoundRows::ref_listed))]
    pub(crate) fn find(&self, token: u32) -> Option<Member>
        ensures { result ≡ found self.now token }
    {
        let row = token % ROW_LIMIT;
        let table = token / ROW_LIMIT;
        if table == u32::from(METHOD_DEFS) {
            known_method(&self.types, row)
        } else if table == u32::from(FIELDS) && self.types.image().is_row(FIELDS, row) {
            Some(Member::Field(row))
        } else if table == u32::from(MEMBER_REFS) && self.types.image().is_row(MEMBER_REFS, row) {
            found_at(self.refs.as_slice(), row)
        } else {
            self.types.named(token).map(Member::Named)
        }
    }
}

/// Whether a base is that of Array or of what it extends.
fn is_of_arrays(base: u32) -> bool
    ensures { IsTrue result ↔ IsOfArrays base }
{
    base == ROW_LIMIT + ARRAY || base == ROW_LIMIT + OBJECT
}

/// What a row finds, counted from 1, by what stands in a list for each; None for one past its end.
fn found_at(refs: &[Option<Member>], row: u32) -> Option<Member>
    requires { 1 ≤ row }
    ensures { result ≡ slice_index_or refs.now (row - 1) None }
{
    match refs.get(row as usize - 1) {
        Some(found) => *found,
        None => None,
    }
}
