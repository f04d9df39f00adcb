//! The members of core types that a program may name: one table.

ghost use Rattle.std.specs.Prelude.{◌≡◌, option_map, slice_get, map};
ghost use Rattle.type_members.specs.CoreMembers.{core_member_at};
ghost use Rattle.type_members.specs.View.{view_member};

/// What a core member is.
#[derive(Clone, Copy, Debug)]
pub enum MemberKind {
    /// A static method.
    Static,
    /// A method of an object that no type overrides.
    Instance,
    /// A method of an object that types below may override.
    Virtual,
    StaticField,
    InstanceField,
}

/// A type in the signature of a core member, by the place of a core type.
#[derive(Clone, Copy, Debug)]
pub enum CorePart {
    /// The type itself.
    Of(u8),
    /// An array of it.
    ArrayOf(u8),
    /// A managed pointer to it.
    RefTo(u8),
}

/// A member of a core type. Its number is its place in the table, from 0.
#[derive(Clone, Copy, Debug)]
pub struct CoreMember {
    /// The place of the core type that has it.
    pub owner: u8,
    /// Its name; that of a property's reading method begins with `get_`.
    pub name: &'static str,
    pub kind: MemberKind,
    /// What a method takes, without the object that it is called on.
    pub params: &'static [CorePart],
    /// What a method gives, or the type of a field.
    pub result: CorePart,
}

macro_rules! members {
    ($(($owner:expr, $name:expr, $kind:ident, [$($param:ident($place:expr)),*], $result:ident($of:expr)),)*) => {
        [$(CoreMember {
            owner: $owner,
            name: $name,
            kind: MemberKind::$kind,
            params: &[$(CorePart::$param($place)),*],
            result: CorePart::$result($of),
        }),*]
    };
}

static CORE_MEMBERS: [CoreMember; 179] = members![
    // the field of SafeHandle, of which it is spoken by its place
    (30, "handle", InstanceField, [], Of(15)),
    // Object and String
    (0, ".ctor", Instance, [], Of(17)),
    (0, "ReferenceEquals", Static, [Of(0), Of(0)], Of(5)),
    (4, "get_Length", Instance, [], Of(11)),
    (4, "get_Chars", Instance, [Of(11)], Of(6)),
    (4, "Empty", StaticField, [], Of(4)),
    (4, "Concat", Static, [Of(4), Of(4)], Of(4)),
    (4, "Concat", Static, [Of(4), Of(4), Of(4)], Of(4)),
    (4, "Concat", Static, [Of(4), Of(4), Of(4), Of(4)], Of(4)),
    (4, "op_Equality", Static, [Of(4), Of(4)], Of(5)),
    (4, "op_Inequality", Static, [Of(4), Of(4)], Of(5)),
    (4, "Equals", Instance, [Of(4)], Of(5)),
    // numbers, Boolean, Char, IntPtr and UIntPtr
    (5, "ToString", Instance, [], Of(4)),
    (6, "ToString", Instance, [], Of(4)),
    (7, "ToString", Instance, [], Of(4)),
    (8, "ToString", Instance, [], Of(4)),
    (9, "ToString", Instance, [], Of(4)),
    (10, "ToString", Instance, [], Of(4)),
    (11, "ToString", Instance, [], Of(4)),
    (12, "ToString", Instance, [], Of(4)),
    (13, "ToString", Instance, [], Of(4)),
    (14, "ToString", Instance, [], Of(4)),
    (15, "ToString", Instance, [], Of(4)),
    (16, "ToString", Instance, [], Of(4)),
    (15, "Zero", StaticField, [], Of(15)),
    (15, "ToInt32", Instance, [], Of(11)),
    (15, "ToInt64", Instance, [], Of(13)),
    (15, "op_Equality", Static, [Of(15), Of(15)], Of(5)),
    (15, "op_Inequality", Static, [Of(15), Of(15)], Of(5)),
    (15, "op_Explicit", Static, [Of(11)], Of(15)),
    (15, "op_Explicit", Static, [Of(13)], Of(15)),
    (15, "op_Explicit", Static, [Of(15)], Of(11)),
    (15, "op_Explicit", Static, [Of(15)], Of(13)),
    (15, ".ctor", Instance, [Of(11)], Of(17)),
    (15, ".ctor", Instance, [Of(13)], Of(17)),
    // Console, Environment, GC, RuntimeHelpers and Type
    (25, "Write", Static, [Of(4)], Of(17)),
    (25, "Write", Static, [Of(11)], Of(17)),
    (25, "Write", Static, [Of(12)], Of(17)),
    (25, "Write", Static, [Of(13)], Of(17)),
    (25, "Write", Static, [Of(14)], Of(17)),
    (25, "Write", Static, [Of(6)], Of(17)),
    (25, "Write", Static, [Of(5)], Of(17)),
    (25, "WriteLine", Static, [Of(4)], Of(17)),
    (25, "WriteLine", Static, [Of(11)], Of(17)),
    (25, "WriteLine", Static, [Of(12)], Of(17)),
    (25, "WriteLine", Static, [Of(13)], Of(17)),
    (25, "WriteLine", Static, [Of(14)], Of(17)),
    (25, "WriteLine", Static, [Of(6)], Of(17)),
    (25, "WriteLine", Static, [Of(5)], Of(17)),
    (25, "WriteLine", Static, [], Of(17)),
    (26, "Exit", Static, [Of(11)], Of(17)),
    (27, "KeepAlive", Static, [Of(0)], Of(17)),
    (28, "InitializeArray", Static, [Of(3), Of(20)], Of(17)),
    (18, "GetTypeFromHandle", Static, [Of(19)], Of(18)),
    // the exceptions
    (32, ".ctor", Instance, [], Of(17)),
    (32, ".ctor", Instance, [Of(4)], Of(17)),
    (32, "get_Message", Virtual, [], Of(4)),
    (33, ".ctor", Instance, [], Of(17)),
    (33, ".ctor", Instance, [Of(4)], Of(17)),
    (33, "get_Message", Virtual, [], Of(4)),
    (34, ".ctor", Instance, [], Of(17)),
    (34, ".ctor", Instance, [Of(4)], Of(17)),
    (34, "get_Message", Virtual, [], Of(4)),
    (35, ".ctor", Instance, [], Of(17)),
    (35, ".ctor", Instance, [Of(4)], Of(17)),
    (35, "get_Message", Virtual, [], Of(4)),
    (36, ".ctor", Instance, [], Of(17)),
    (36, ".ctor", Instance, [Of(4)], Of(17)),
    (36, "get_Message", Virtual, [], Of(4)),
    (37, ".ctor", Instance, [], Of(17)),
    (37, ".ctor", Instance, [Of(4)], Of(17)),
    (37, "get_Message", Virtual, [], Of(4)),
    (38, ".ctor", Instance, [], Of(17)),
    (38, ".ctor", Instance, [Of(4)], Of(17)),
    (38, "get_Message", Virtual, [], Of(4)),
    (39, ".ctor", Instance, [], Of(17)),
    (39, ".ctor", Instance, [Of(4)], Of(17)),
    (39, "get_Message", Virtual, [], Of(4)),
    (40, ".ctor", Instance, [], Of(17)),
    (40, ".ctor", Instance, [Of(4)], Of(17)),
    (40, "get_Message", Virtual, [], Of(4)),
    (41, ".ctor", Instance, [], Of(17)),
    (41, ".ctor", Instance, [Of(4)], Of(17)),
    (41, "get_Message", Virtual, [], Of(4)),
    (42, ".ctor", Instance, [], Of(17)),
    (42, ".ctor", Instance, [Of(4)], Of(17)),
    (42, "get_Message", Virtual, [], Of(4)),
    (43, ".ctor", Instance, [], Of(17)),
    (43, ".ctor", Instance, [Of(4)], Of(17)),
    (43, "get_Message", Virtual, [], Of(4)),
    (44, ".ctor", Instance, [], Of(17)),
    (44, ".ctor", Instance, [Of(4)], Of(17)),
    (44, "get_Message", Virtual, [], Of(4)),
    (45, ".ctor", Instance, [], Of(17)),
    (45, ".ctor", Instance, [Of(4)], Of(17)),
    (45, "get_Message", Virtual, [], Of(4)),
    (46, ".ctor", Instance, [], Of(17)),
    (46, ".ctor", Instance, [Of(4)], Of(17)),
    (46, "get_Message", Virtual, [], Of(4)),
    (47, ".ctor", Instance, [], Of(17)),
    (47, ".ctor", Instance, [Of(4)], Of(17)),
    (47, "get_Message", Virtual, [], Of(4)),
    (48, ".ctor", Instance, [], Of(17)),
    (48, ".ctor", Instance, [Of(4)], Of(17)),
    (48, "get_Message", Virtual, [], Of(4)),
    (49, ".ctor", Instance, [], Of(17)),
    (49, ".ctor", Instance, [Of(4)], Of(17)),
    (49, "get_Message", Virtual, [], Of(4)),
    (50, ".ctor", Instance, [], Of(17)),
    (50, ".ctor", Instance, [Of(4)], Of(17)),
    (50, "get_Message", Virtual, [], Of(4)),
    (51, ".ctor", Instance, [], Of(17)),
    (51, ".ctor", Instance, [Of(4)], Of(17)),
    (51, "get_Message", Virtual, [], Of(4)),
    (52, ".ctor", Instance, [], Of(17)),
    (52, ".ctor", Instance, [Of(4)], Of(17)),
    (52, "get_Message", Virtual, [], Of(4)),
    (53, ".ctor", Instance, [], Of(17)),
    (53, ".ctor", Instance, [Of(4)], Of(17)),
    (53, "get_Message", Virtual, [], Of(4)),
    (54, ".ctor", Instance, [], Of(17)),
    (54, ".ctor", Instance, [Of(4)], Of(17)),
    (54, "get_Message", Virtual, [], Of(4)),
    (55, ".ctor", Instance, [], Of(17)),
    (55, ".ctor", Instance, [Of(4)], Of(17)),
    (55, "get_Message", Virtual, [], Of(4)),
    (56, ".ctor", Instance, [], Of(17)),
    (56, ".ctor", Instance, [Of(4)], Of(17)),
    (56, "get_Message", Virtual, [], Of(4)),
    // IDisposable and SafeHandle
    (24, "Dispose", Virtual, [], Of(17)),
    (30, ".ctor", Instance, [Of(15), Of(5)], Of(17)),
    (30, "SetHandle", Instance, [Of(15)], Of(17)),
    (30, "get_IsClosed", Instance, [], Of(5)),
    (30, "get_IsInvalid", Virtual, [], Of(5)),
    (30, "ReleaseHandle", Virtual, [], Of(5)),
    (30, "DangerousGetHandle", Instance, [], Of(15)),
    (30, "DangerousAddRef", Instance, [RefTo(5)], Of(17)),
    (30, "DangerousRelease", Instance, [], Of(17)),
    (30, "Dispose", Instance, [], Of(17)),
    (30, "Close", Instance, [], Of(17)),
    (31, ".ctor", Instance, [Of(5)], Of(17)),
    (31, "get_IsInvalid", Virtual, [], Of(5)),
    // Marshal
    (29, "GetLastWin32Error", Static, [], Of(11)),
    (29, "GetLastPInvokeError", Static, [], Of(11)),
    (29, "SetLastPInvokeError", Static, [Of(11)], Of(17)),
    (29, "SizeOf", Static, [Of(18)], Of(11)),
    (29, "AllocHGlobal", Static, [Of(11)], Of(15)),
    (29, "AllocHGlobal", Static, [Of(15)], Of(15)),
    (29, "FreeHGlobal", Static, [Of(15)], Of(17)),
    (29, "ReadByte", Static, [Of(15)], Of(8)),
    (29, "ReadByte", Static, [Of(15), Of(11)], Of(8)),
    (29, "ReadInt16", Static, [Of(15)], Of(9)),
    (29, "ReadInt16", Static, [Of(15), Of(11)], Of(9)),
    (29, "ReadInt32", Static, [Of(15)], Of(11)),
    (29, "ReadInt32", Static, [Of(15), Of(11)], Of(11)),
    (29, "ReadInt64", Static, [Of(15)], Of(13)),
    (29, "ReadInt64", Static, [Of(15), Of(11)], Of(13)),
    (29, "ReadIntPtr", Static, [Of(15)], Of(15)),
    (29, "ReadIntPtr", Static, [Of(15), Of(11)], Of(15)),
    (29, "WriteByte", Static, [Of(15), Of(8)], Of(17)),
    (29, "WriteByte", Static, [Of(15), Of(11), Of(8)], Of(17)),
    (29, "WriteInt16", Static, [Of(15), Of(9)], Of(17)),
    (29, "WriteInt16", Static, [Of(15), Of(11), Of(9)], Of(17)),
    (29, "WriteInt32", Static, [Of(15), Of(11)], Of(17)),
    (29, "WriteInt32", Static, [Of(15), Of(11), Of(11)], Of(17)),
    (29, "WriteInt64", Static, [Of(15), Of(13)], Of(17)),
    (29, "WriteInt64", Static, [Of(15), Of(11), Of(13)], Of(17)),
    (29, "WriteIntPtr", Static, [Of(15), Of(15)], Of(17)),
    (29, "WriteIntPtr", Static, [Of(15), Of(11), Of(15)], Of(17)),
    (29, "PtrToStringAnsi", Static, [Of(15)], Of(4)),
    (29, "PtrToStringUTF8", Static, [Of(15)], Of(4)),
    (29, "PtrToStringUni", Static, [Of(15)], Of(4)),
    (29, "StringToHGlobalAnsi", Static, [Of(4)], Of(15)),
    (29, "StringToHGlobalUni", Static, [Of(4)], Of(15)),
    (29, "Copy", Static, [ArrayOf(8), Of(11), Of(15), Of(11)], Of(17)),
    (29, "Copy", Static, [ArrayOf(11), Of(11), Of(15), Of(11)], Of(17)),
    (29, "Copy", Static, [Of(15), ArrayOf(8), Of(11), Of(11)], Of(17)),
    (29, "Copy", Static, [Of(15), ArrayOf(11), Of(11), Of(11)], Of(17)),
    (29, "GetFunctionPointerForDelegate", Static, [Of(22)], Of(15)),
];

/// The core member of a place; None past the last.
#[tactic(auto, unfolding(crate::specs::CoreMembers::core_member_at, crate::specs::CoreMembers::core_members))]
pub fn core_member(place: u32) -> Option<&'static CoreMember>
    ensures { option_map (λ known. view_member known.now) result ≡ core_member_at place }
{
    member_at(&CORE_MEMBERS, place as usize)
}

#[tactic(auto, using(crate::proofs::MemberViews::viewed))]
fn member_at(members: &[CoreMember], place: usize) -> Option<&CoreMember>
    ensures { option_map (λ known. view_member known.now) result ≡ slice_get (map view_member members.now) place }
{
    members.get(place)
}
