//! What the types of an assembly are to the marshalling table.

ghost use Rattle.std.specs.Prelude.{◌≡◌, ◌≤◌, IfOk};
ghost use Rattle.sig_reader.specs.declared.signature.TypeSig.{out-TypeSig};
ghost use Rattle.type_model.specs.TypeIds.{row_limit, type_of};
ghost use Rattle.stub_maker.specs.Described.{AreKinds, array_kind as spec_array_kind, core_kind as spec_core_kind, core_type_kind as spec_core_type_kind, enum_kind as spec_enum_kind, file_kind as spec_file_kind, kind_of as spec_kind_of, sig_kind as spec_sig_kind, type_kind as spec_type_kind, type_kind_by};

use crate::kinds::{Kind, TypeKind, Width};
use bound_base::{Items, NoMemory};
use managed_value::TypeId;
use sig_reader::TypeSig;
use std::alloc::Global;
use type_model::Types;

/// What each type of a file is to the table, its arrays apart, in the order of the rows of TypeDef.
pub type Kinds = Items<Kind>;

/// The table of metadata that has a row for each type of a file (ECMA-335 II.22.37).
pub const TYPE_DEFS: u8 = 0x02;

/// The `base` of the first core type; those below it are rows of TypeDef.
pub const FIRST_CORE: u32 = 0x0100_0000;

const UINT_PTR: u32 = FIRST_CORE + 16;

/// The core types that are in the table by themselves, by their places among core types.
const CORE_KINDS: [(u32, Kind); 13] = [
    (4, Kind::Text),
    (5, Kind::Boolean),
    (6, Kind::Character),
    (7, Kind::Integer(Width::One, true)),
    (8, Kind::Integer(Width::One, false)),
    (9, Kind::Integer(Width::Two, true)),
    (10, Kind::Integer(Width::Two, false)),
    (11, Kind::Integer(Width::Four, true)),
    (12, Kind::Integer(Width::Four, false)),
    (13, Kind::Integer(Width::Eight, true)),
    (14, Kind::Integer(Width::Eight, false)),
    (15, Kind::NativeInteger(true)),
    (16, Kind::NativeInteger(false)),
];

/// What each type of a file is to the table. It is made once, so that no chain of bases is followed anew at each question.
pub fn kinds_of(alloc: Global, types: &Types) -> Result<Kinds, NoMemory>
    ensures { IfOk result (λ kinds. AreKinds types.now kinds) }
{
    let mut kinds = Items::new(alloc);
    for t in 0..types.image().row_count(TYPE_DEFS) {
        kinds.push(file_kind(alloc, types, t + 1)?)?;
    }
    Ok(kinds)
}

/// What a type of the file is, by its row.
fn file_kind(alloc: Global, types: &Types, t: u32) -> Result<Kind, NoMemory>
    ensures { IfOk result (λ kind. kind ≡ spec_file_kind types.now t) }
{
    let id = TypeId { base: t, arrays: 0 };
    if types.bases().is_below_enum(id) {
        return Ok(enum_kind(types.enum_of(alloc, id)?));
    }
    Ok(if types.is_value_type(id) {
        Kind::Struct(t)
    } else if types.is_delegate(id) {
        Kind::Delegate(t)
    } else if types.is_handle(id) {
        Kind::Handle
    } else {
        Kind::Other
    })
}

/// An enum is its integer type, by its place among core types.
fn enum_kind(integer: Option<u32>) -> Kind
    ensures { result ≡ spec_enum_kind integer }
{
    match integer {
        Some(place) => core_kind(place).unwrap_or(Kind::Other),
        None => Kind::Other,
    }
}

/// What a core type is, by its place, where the table has it by itself.
fn core_kind(place: u32) -> Option<Kind>
    ensures { result ≡ spec_core_kind place }
{
    CORE_KINDS
        .iter()
        .find(|core| core.0 == place)
        .map(|core| core.1)
}

/// What a core type is, by its `base`.
fn core_type_kind(types: &Types, base: u32) -> Kind
    requires { row_limit ≤ base }
    ensures { result ≡ spec_core_type_kind types.now base }
{
    match core_kind(base - FIRST_CORE) {
        Some(kind) => kind,
        None => {
            if types.is_handle(TypeId { base, arrays: 0 }) {
                Kind::Handle
            } else {
                Kind::Other
            }
        }
    }
}

/// What a type that is no array is, by its `base`.
pub fn kind_of(types: &Types, kinds: &Kinds, base: u32) -> Kind
    requires { AreKinds types.now kinds.now }
    ensures { result ≡ spec_kind_of types.now base }
{
    if FIRST_CORE <= base {
        return core_type_kind(types, base);
    }
    if base == 0 {
        return Kind::Other;
    }
    match kinds.get(base as usize - 1) {
        Some(kind) => *kind,
        None => Kind::Other,
    }
}

/// What a type is.
#[tactic(auto, unfolding(crate::specs::Described::type_kind))]
pub fn type_kind(types: &Types, kinds: &Kinds, id: TypeId) -> TypeKind
    requires { AreKinds types.now kinds.now }
    ensures { result ≡ spec_type_kind types.now id }
{
    match id.arrays {
        0 => TypeKind::One(kind_of(types, kinds, id.base)),
        1 => TypeKind::Array(id.base, kind_of(types, kinds, id.base)),
        _ => TypeKind::Array(id.base, Kind::Other),
    }
}

/// What a type of a signature is: a pointer, an array, or what it names.
#[tactic(auto, unfolding(crate::specs::Described::sig_kind))]
pub fn sig_kind(types: &Types, kinds: &Kinds, sig: &TypeSig) -> TypeKind
    requires { AreKinds types.now kinds.now }
    ensures { result ≡ spec_sig_kind types.now sig.now }
{
    match sig {
        TypeSig::Ptr(_) => TypeKind::One(Kind::Pointer),
        TypeSig::Vector(element) => array_kind(named_kind(types, kinds, sig), element.get()),
        _ => named_kind(types, kinds, sig),
    }
}

/// An array of pointers, or of what a type of a signature names.
fn array_kind(named: TypeKind, element: &TypeSig) -> TypeKind
    ensures { result ≡ spec_array_kind named (out-TypeSig element.now) }
{
    match element {
        TypeSig::Ptr(_) => TypeKind::Array(UINT_PTR, Kind::Pointer),
        _ => named,
    }
}

/// What a type of a signature names.
fn named_kind(types: &Types, kinds: &Kinds, sig: &TypeSig) -> TypeKind
    requires { AreKinds types.now kinds.now }
    ensures { result ≡ type_kind_by types.now (type_of types.now sig.now) }
{
    match types.type_of(sig) {
        Some(id) => type_kind(types, kinds, id),
        None => TypeKind::One(Kind::Other),
    }
}
