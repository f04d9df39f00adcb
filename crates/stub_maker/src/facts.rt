//! What the value types and the delegate types of a file are to the marshalling table.

ghost use Rattle.std.specs.Prelude.{◌≡◌, IfOk, map};
ghost use Rattle.type_model.specs.MemberViews.{view_field, view_type_row};
ghost use Rattle.type_model.specs.TypeIds.{def_id};
ghost use Rattle.type_model.specs.Types.{instance_fields};
ghost use Rattle.stub_maker.specs.Described.{AreKinds, field_by as spec_field_by, field_facts as spec_field_facts, invoke_signature as spec_invoke_signature, is_delegate_kind, is_laid_by_flags as spec_is_laid_by_flags, is_struct as spec_is_struct, is_unicode_type as spec_is_unicode_type, struct_by as spec_struct_by, struct_facts as spec_struct_facts};

use crate::kinds::{Descriptor, Kind, TypeKind};
use crate::kinds_of_types::{Kinds, TYPE_DEFS, kind_of, sig_kind};
use crate::signature::Signature;
use crate::signatures::{descriptor_of, signature_of};
use bound_base::{Items, NoMemory};
use managed_value::TypeId;
use std::alloc::Global;
use type_model::{FieldRow, TypeRow, Types};

/// An instance field.
#[derive(Clone, Copy, Debug, PartialEq, Eq)]
pub struct FieldFacts {
    pub kind: TypeKind,
    /// Whether the charset of the type that declares it is Unicode (ECMA-335 II.23.1.15).
    pub unicode: bool,
    pub descriptor: Descriptor,
    /// Where it is said to stand (II.22.16).
    pub offset: Option<u32>,
}

/// A type with a sequential or an explicit layout.
#[derive(Drop)]
pub struct StructFacts {
    /// Its row of TypeDef.
    pub ty: u32,
    /// Its packing (II.22.8).
    pub pack: u16,
    /// Its least size in bytes (II.22.8).
    pub least: u32,
    /// Whether its layout is explicit.
    pub explicit: bool,
    /// Its instance fields, those of its bases first.
    pub fields: Items<FieldFacts>,
}

/// A value type of the file with a sequential or an explicit layout, by its row; None for any other type.
#[tactic(auto, unfolding(crate::specs::Described::struct_facts, type_model::specs::Members::type_row))]
pub fn struct_facts(
    alloc: Global,
    types: &Types,
    kinds: &Kinds,
    t: u32,
) -> Result<Option<StructFacts>, NoMemory>
    requires { AreKinds types.now kinds.now }
    ensures { IfOk result (λ facts. facts ≡ spec_struct_facts types.now t) }
{
    if !types.image().is_row(TYPE_DEFS, t) || !is_struct(kind_of(types, kinds, t)) {
        return Ok(None);
    }
    match types.type_row(t) {
        Some(known) if is_laid_by_flags(known.flags) => {
            Ok(Some(struct_by(alloc, types, kinds, t, &known)?))
        }
        _ => Ok(None),
    }
}

fn is_struct(kind: Kind) -> bool
    ensures { result ≡ spec_is_struct kind }
{
    match kind {
        Kind::Struct(_) => true,
        _ => false,
    }
}

fn struct_by(
    alloc: Global,
    types: &Types,
    kinds: &Kinds,
    t: u32,
    known: &TypeRow,
) -> Result<StructFacts, NoMemory>
    requires { AreKinds types.now kinds.now }
    ensures { IfOk result (λ facts. facts ≡ spec_struct_by types.now t (view_type_row known.now)) }
{
    Ok(StructFacts {
        ty: t,
        pack: known.pack.min(0xFFFF) as u16,
        least: known.least,
        explicit: known.flags & 0x18 == 0x10,
        fields: fields_of(alloc, types, kinds, t)?,
    })
}

/// The instance fields of a type of the file.
fn fields_of(
    alloc: Global,
    types: &Types,
    kinds: &Kinds,
    t: u32,
) -> Result<Items<FieldFacts>, NoMemory>
    requires { AreKinds types.now kinds.now }
    ensures { IfOk result (λ fields. fields ≡ map (spec_field_facts types.now) (instance_fields types.now (def_id t))) }
{
    let rows = types.instance_fields(alloc, TypeId { base: t, arrays: 0 })?;
    let mut fields = Items::new(alloc);
    for row in rows.as_slice() {
        fields.push(field_facts(types, kinds, *row))?;
    }
    Ok(fields)
}

/// An instance field, by its row.
fn field_facts(types: &Types, kinds: &Kinds, row: u32) -> FieldFacts
    requires { AreKinds types.now kinds.now }
    ensures { result ≡ spec_field_facts types.now row }
{
    match types.field(row) {
        Some(known) => field_by(types, kinds, &known),
        None => FieldFacts {
            kind: TypeKind::One(Kind::Other),
            unicode: false,
            descriptor: Descriptor::Nothing,
            offset: None,
        },
    }
}

fn field_by(types: &Types, kinds: &Kinds, known: &FieldRow<'_>) -> FieldFacts
    requires { AreKinds types.now kinds.now }
    ensures { result ≡ spec_field_by types.now (view_field known.now) }
{
    FieldFacts {
        kind: match known.sig {
            Some(sig) => sig_kind(types, kinds, sig),
            None => TypeKind::One(Kind::Other),
        },
        unicode: is_unicode_type(types.image().cell(TYPE_DEFS, u64::from(known.owner), 0)),
        descriptor: descriptor_of(known.spec),
        offset: known.offset,
    }
}

/// StringFormat of a type's flags (ECMA-335 II.23.1.15): Unicode or not.
fn is_unicode_type(flags: u32) -> bool
    ensures { result ≡ spec_is_unicode_type flags }
{
    flags & 0x30000 == 0x10000
}

/// The layout of a type's flags (II.23.1.15) is sequential or explicit.
fn is_laid_by_flags(flags: u32) -> bool
    ensures { result ≡ spec_is_laid_by_flags flags }
{
    flags & 0x18 == 0x8 || flags & 0x18 == 0x10
}

/// The signature of the Invoke of a delegate type of the file, by the type's row; None where there is none in the grammar.
#[tactic(auto, unfolding(crate::specs::Described::invoke_signature))]
pub fn invoke_signature(
    alloc: Global,
    types: &Types,
    kinds: &Kinds,
    t: u32,
) -> Result<Option<Signature>, NoMemory>
    requires { AreKinds types.now kinds.now }
    ensures { IfOk result (λ signature. signature ≡ spec_invoke_signature types.now t) }
{
    if !types.image().is_row(TYPE_DEFS, t) || !is_delegate(kind_of(types, kinds, t)) {
        return Ok(None);
    }
    match types.invoke_of(TypeId { base: t, arrays: 0 }) {
        Some(method) => signature_of(alloc, types, kinds, method),
        None => Ok(None),
    }
}

fn is_delegate(kind: Kind) -> bool
    ensures { result ≡ is_delegate_kind kind }
{
    match kind {
        Kind::Delegate(_) => true,
        _ => false,
    }
}
