//! What stands within the brackets of a type of a signature.

ghost use Rattle.std.specs.Prelude.{◌≡◌};
ghost use Rattle.type_model.specs.TypeIds.{leaf, in_brackets as bracketed_in, def_id as id_of_def, same_type as are_same};

use crate::core_types::{core_id, element_type};
use managed_value::TypeId;
use sig_reader::TypeSig;

/// What stands within the brackets of a type of a signature.
#[derive(Clone, Copy, Debug)]
pub enum Leaf {
    /// A core type.
    Core(TypeId),
    /// What a token names.
    Token(u32),
}

/// The place of UIntPtr among the core types.
const UINT_PTR: u8 = 16;

/// A type of the file, by its row of TypeDef.
pub fn def_id(t: u32) -> TypeId
    ensures { result ≡ id_of_def t }
{
    TypeId { base: t, arrays: 0 }
}

pub fn same_type(a: TypeId, b: TypeId) -> bool
    ensures { result ≡ are_same a b }
{
    a.base == b.base && a.arrays == b.arrays
}

/// What stands within the brackets of a type of a signature, and how many these are; None where it names no type.
#[tactic(auto, unfolding(crate::specs::TypeIds::leaf))]
pub fn leaf_of(sig: &TypeSig) -> Option<(u32, Leaf)>
    ensures { result ≡ leaf sig.now }
{
    match sig {
        TypeSig::Prim(code) => Some((0, Leaf::Core(element_type(*code)?))),
        TypeSig::Named(_, token) => Some((0, Leaf::Token(*token))),
        TypeSig::Ptr(_) => Some((0, Leaf::Core(core_id(UINT_PTR)))),
        TypeSig::Vector(element) => {
            let (brackets, leaf) = leaf_of(element.get())?;
            Some((brackets.checked_add(1)?, leaf))
        }
        _ => None,
    }
}

/// A type in brackets.
#[tactic(auto, unfolding(crate::specs::TypeIds::in_brackets))]
pub fn in_brackets(brackets: u32, id: TypeId) -> Option<TypeId>
    ensures { result ≡ bracketed_in brackets id }
{
    let arrays = id.arrays.checked_add(brackets)?;
    Some(TypeId {
        base: id.base,
        arrays,
    })
}
