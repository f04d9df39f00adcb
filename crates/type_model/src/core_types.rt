//! The core types: those of the usual library that a program may name.

ghost use Rattle.std.specs.Prelude.{◌≡◌, ◌<◌, ◌+◌, ◌==◌, ◌&&◌, find, position, bytes_eq, length, option_map, slice_get, map, IfSome};
ghost use Rattle.type_model.specs.Core.{core_named as core_place, core_at, core_count};
ghost use Rattle.type_model.specs.TypeIds.{core_id as id_of_core, element_type as element_type_of};
ghost use Rattle.type_model.specs.View.{view_core};

use managed_value::TypeId;

/// A core type: its name, the place of what it extends, its flags (ECMA-335 II.23.1.15), and the places of its interfaces.
#[derive(Clone, Copy, Debug)]
pub struct CoreType {
    pub namespace: &'static str,
    pub name: &'static str,
    pub extends: Option<u8>,
    pub flags: u32,
    pub interfaces: &'static [u8],
}

/// The places of core types that are spoken of one by one.
pub const VALUE_TYPE: u8 = 1;

pub const ENUM: u8 = 2;

pub const ARRAY: u8 = 3;

pub const STRING: u8 = 4;

pub const INT32: u8 = 11;

pub const VOID: u8 = 17;

pub const DELEGATE: u8 = 22;

pub const SAFE_HANDLE: u8 = 30;

/// Core types are numbered from here on, after the rows of TypeDef that a token may name.
pub const FIRST_CORE: u32 = 0x0100_0000;

static CORE_TYPES: [CoreType; 57] = [
    CoreType {
        namespace: "System",
        name: "Object",
        extends: None,
        flags: 0x1,
        interfaces: &[],
    }, // 0
    CoreType {
        namespace: "System",
        name: "ValueType",
        extends: Some(0),
        flags: 0x81,
        interfaces: &[],
    }, // 1
    CoreType {
        namespace: "System",
        name: "Enum",
        extends: Some(1),
        flags: 0x81,
        interfaces: &[],
    }, // 2
    CoreType {
        namespace: "System",
        name: "Array",
        extends: Some(0),
        flags: 0x81,
        interfaces: &[],
    }, // 3
    CoreType {
        namespace: "System",
        name: "String",
        extends: Some(0),
        flags: 0x101,
        interfaces: &[],
    }, // 4
    CoreType {
        namespace: "System",
        name: "Boolean",
        extends: Some(1),
        flags: 0x101,
        interfaces: &[],
    }, // 5
    CoreType {
        namespace: "System",
        name: "Char",
        extends: Some(1),
        flags: 0x101,
        interfaces: &[],
    }, // 6
    CoreType {
        namespace: "System",
        name: "SByte",
        extends: Some(1),
        flags: 0x101,
        interfaces: &[],
    }, // 7
    CoreType {
        namespace: "System",
        name: "Byte",
        extends: Some(1),
        flags: 0x101,
        interfaces: &[],
    }, // 8
    CoreType {
        namespace: "System",
        name: "Int16",
        extends: Some(1),
        flags: 0x101,
        interfaces: &[],
    }, // 9
    CoreType {
        namespace: "System",
        name: "UInt16",
        extends: Some(1),
        flags: 0x101,
        interfaces: &[],
    }, // 10
    CoreType {
        namespace: "System",
        name: "Int32",
        extends: Some(1),
        flags: 0x101,
        interfaces: &[],
    }, // 11
    CoreType {
        namespace: "System",
        name: "UInt32",
        extends: Some(1),
        flags: 0x101,
        interfaces: &[],
    }, // 12
    CoreType {
        namespace: "System",
        name: "Int64",
        extends: Some(1),
        flags: 0x101,
        interfaces: &[],
    }, // 13
    CoreType {
        namespace: "System",
        name: "UInt64",
        extends: Some(1),
        flags: 0x101,
        interfaces: &[],
    }, // 14
    CoreType {
        namespace: "System",
        name: "IntPtr",
        extends: Some(1),
        flags: 0x101,
        interfaces: &[],
    }, // 15
    CoreType {
        namespace: "System",
        name: "UIntPtr",
        extends: Some(1),
        flags: 0x101,
        interfaces: &[],
    }, // 16
    CoreType {
        namespace: "System",
        name: "Void",
        extends: Some(1),
        flags: 0x101,
        interfaces: &[],
    }, // 17
    CoreType {
        namespace: "System",
        name: "Type",
        extends: Some(0),
        flags: 0x81,
        interfaces: &[],
    }, // 18
    CoreType {
        namespace: "System",
        name: "RuntimeTypeHandle",
        extends: Some(1),
        flags: 0x101,
        interfaces: &[],
    }, // 19
    CoreType {
        namespace: "System",
        name: "RuntimeFieldHandle",
        extends: Some(1),
        flags: 0x101,
        interfaces: &[],
    }, // 20
    CoreType {
        namespace: "System",
        name: "Attribute",
        extends: Some(0),
        flags: 0x81,
        interfaces: &[],
    }, // 21
    CoreType {
        namespace: "System",
        name: "Delegate",
        extends: Some(0),
        flags: 0x81,
        interfaces: &[],
    }, // 22
    CoreType {
        namespace: "System",
        name: "MulticastDelegate",
        extends: Some(22),
        flags: 0x81,
        interfaces: &[],
    }, // 23
    CoreType {
        namespace: "System",
        name: "IDisposable",
        extends: None,
        flags: 0xA1,
        interfaces: &[],
    }, // 24
    CoreType {
        namespace: "System",
        name: "Console",
        extends: Some(0),
        flags: 0x181,
        interfaces: &[],
    }, // 25
    CoreType {
        namespace: "System",
        name: "Environment",
        extends: Some(0),
        flags: 0x181,
        interfaces: &[],
    }, // 26
    CoreType {
        namespace: "System",
        name: "GC",
        extends: Some(0),
        flags: 0x181,
        interfaces: &[],
    }, // 27
    CoreType {
        namespace: "System.Runtime.CompilerServices",
        name: "RuntimeHelpers",
        extends: Some(0),
        flags: 0x181,
        interfaces: &[],
    }, // 28
    CoreType {
        namespace: "System.Runtime.InteropServices",
        name: "Marshal",
        extends: Some(0),
        flags: 0x181,
        interfaces: &[],
    }, // 29
    CoreType {
        namespace: "System.Runtime.InteropServices",
        name: "SafeHandle",
        extends: Some(0),
        flags: 0x81,
        interfaces: &[24],
    }, // 30
    CoreType {
        namespace: "Microsoft.Win32.SafeHandles",
        name: "SafeHandleZeroOrMinusOneIsInvalid",
        extends: Some(30),
        flags: 0x81,
        interfaces: &[],
    }, // 31
    CoreType {
        namespace: "System",
        name: "Exception",
        extends: Some(0),
        flags: 0x1,
        interfaces: &[],
    }, // 32
    CoreType {
        namespace: "System",
        name: "SystemException",
        extends: Some(32),
        flags: 0x1,
        interfaces: &[],
    }, // 33
    CoreType {
        namespace: "System",
        name: "ApplicationException",
        extends: Some(32),
        flags: 0x1,
        interfaces: &[],
    }, // 34
    CoreType {
        namespace: "System",
        name: "ArgumentException",
        extends: Some(33),
        flags: 0x1,
        interfaces: &[],
    }, // 35
    CoreType {
        namespace: "System",
        name: "ArgumentNullException",
        extends: Some(35),
        flags: 0x1,
        interfaces: &[],
    }, // 36
    CoreType {
        namespace: "System",
        name: "ArgumentOutOfRangeException",
        extends: Some(35),
        flags: 0x1,
        interfaces: &[],
    }, // 37
    CoreType {
        namespace: "System",
        name: "ArithmeticException",
        extends: Some(33),
        flags: 0x1,
        interfaces: &[],
    }, // 38
    CoreType {
        namespace: "System",
        name: "DivideByZeroException",
        extends: Some(38),
        flags: 0x1,
        interfaces: &[],
    }, // 39
    CoreType {
        namespace: "System",
        name: "OverflowException",
        extends: Some(38),
        flags: 0x1,
        interfaces: &[],
    }, // 40
    CoreType {
        namespace: "System",
        name: "ArrayTypeMismatchException",
        extends: Some(33),
        flags: 0x1,
        interfaces: &[],
    }, // 41
    CoreType {
        namespace: "System",
        name: "IndexOutOfRangeException",
        extends: Some(33),
        flags: 0x101,
        interfaces: &[],
    }, // 42
    CoreType {
        namespace: "System",
        name: "InvalidCastException",
        extends: Some(33),
        flags: 0x1,
        interfaces: &[],
    }, // 43
    CoreType {
        namespace: "System",
        name: "InvalidOperationException",
        extends: Some(33),
        flags: 0x1,
        interfaces: &[],
    }, // 44
    CoreType {
        namespace: "System",
        name: "ObjectDisposedException",
        extends: Some(44),
        flags: 0x1,
        interfaces: &[],
    }, // 45
    CoreType {
        namespace: "System",
        name: "NullReferenceException",
        extends: Some(33),
        flags: 0x1,
        interfaces: &[],
    }, // 46
    CoreType {
        namespace: "System",
        name: "OutOfMemoryException",
        extends: Some(33),
        flags: 0x1,
        interfaces: &[],
    }, // 47
    CoreType {
        namespace: "System",
        name: "NotSupportedException",
        extends: Some(33),
        flags: 0x1,
        interfaces: &[],
    }, // 48
    CoreType {
        namespace: "System",
        name: "NotImplementedException",
        extends: Some(33),
        flags: 0x1,
        interfaces: &[],
    }, // 49
    CoreType {
        namespace: "System",
        name: "TypeLoadException",
        extends: Some(33),
        flags: 0x1,
        interfaces: &[],
    }, // 50
    CoreType {
        namespace: "System",
        name: "DllNotFoundException",
        extends: Some(50),
        flags: 0x1,
        interfaces: &[],
    }, // 51
    CoreType {
        namespace: "System",
        name: "EntryPointNotFoundException",
        extends: Some(50),
        flags: 0x1,
        interfaces: &[],
    }, // 52
    CoreType {
        namespace: "System",
        name: "TypeInitializationException",
        extends: Some(33),
        flags: 0x101,
        interfaces: &[],
    }, // 53
    CoreType {
        namespace: "System",
        name: "AccessViolationException",
        extends: Some(33),
        flags: 0x1,
        interfaces: &[],
    }, // 54
    CoreType {
        namespace: "System",
        name: "InsufficientExecutionStackException",
        extends: Some(33),
        flags: 0x101,
        interfaces: &[],
    }, // 55
    CoreType {
        namespace: "System.Runtime.InteropServices",
        name: "MarshalDirectiveException",
        extends: Some(33),
        flags: 0x1,
        interfaces: &[],
    }, // 56
];

/// The element types that are core types by themselves, with these types' places (ECMA-335 II.23.1.16).
static ELEMENT_TYPES: [(u8, u8); 15] = [
    (0x01, 17),
    (0x02, 5),
    (0x03, 6),
    (0x04, 7),
    (0x05, 8),
    (0x06, 9),
    (0x07, 10),
    (0x08, 11),
    (0x09, 12),
    (0x0A, 13),
    (0x0B, 14),
    (0x0E, 4),
    (0x18, 15),
    (0x19, 16),
    (0x1C, 0),
];

/// The core type of a place.
pub fn core_id(place: u8) -> TypeId
    ensures { result ≡ id_of_core place }
{
    TypeId {
        base: FIRST_CORE + u32::from(place),
        arrays: 0,
    }
}

/// The core type of a place, counted from 0; None past the last.
#[tactic(auto, unfolding(crate::specs::Core::core_at, crate::specs::Core::core_types))]
pub fn core_type(place: u32) -> Option<&'static CoreType>
    ensures { option_map (λ known. view_core known.now) result ≡ core_at place }
{
    type_at(&CORE_TYPES, place as usize)
}

#[tactic(auto, using(crate::proofs::CoreViews::viewed))]
fn type_at(types: &[CoreType], place: usize) -> Option<&CoreType>
    ensures { option_map (λ known. view_core known.now) result
        ≡ slice_get (map view_core types.now) place }
{
    types.get(place)
}

/// The place of the core type with a namespace and a name.
#[tactic(auto, unfolding(crate::specs::Core::core_named, crate::specs::Core::core_types))]
pub fn core_named(namespace: &[u8], name: &[u8]) -> Option<u8>
    ensures { result ≡ core_place namespace.now name.now }
{
    let place = place_among(&CORE_TYPES, namespace, name)?;
    Some(place as u8)
}

/// The place of the first core type with a namespace and a name.
fn place_among(types: &[CoreType], namespace: &[u8], name: &[u8]) -> Option<usize>
    ensures place { result ≡ position (λ known.
        bytes_eq known.name.now name.now && bytes_eq known.namespace.now namespace.now) types.now }
    ensures within { IfSome result (λ place. place < length types.now) }
{
    types.iter().position(|known| {
        known.name.as_bytes() == name && known.namespace.as_bytes() == namespace
    })
}

/// The core type that an element type is by itself.
#[tactic(auto, unfolding(crate::specs::TypeIds::element_type))]
pub fn element_type(code: u8) -> Option<TypeId>
    ensures { result ≡ element_type_of code }
{
    let known = find_element(&ELEMENT_TYPES, code)?;
    Some(core_id(known.1))
}

fn find_element(known: &[(u8, u8)], code: u8) -> Option<(u8, u8)>
    ensures { result ≡ find (λ known. known.0 == code) known.now }
{
    known.iter().copied().find(|known| known.0 == code)
}
