//! Signatures spelled apart from tokens, so that two of them can be compared (ECMA-335 II.22.25, II.23.2).

ghost use Rattle.std.specs.Prelude.{◌≡◌, ◌++◌, ◌∷◌, [], length, OnOk, map};
ghost use Rattle.std.specs.Int.{cast_unsigned, w32};
ghost use Rattle.type_model.specs.TypeIds.{in_brackets as bracketed_in};
ghost use Rattle.type_members.specs.Spelled as definition;

use bound_base::Items;
use managed_value::TypeId;
use sig_reader::{Sig, TypeSig};
use std::alloc::AllocError;
use type_model::Types;

/// Element types (ECMA-335 II.23.1.16), of which those that stand for a token are all written as `CLASS`.
const PTR: u64 = 0x0F;

const BY_REF: u64 = 0x10;

const CLASS: u64 = 0x12;

const VAR: u64 = 0x13;

const ARRAY: u64 = 0x14;

const GENERIC_INST: u64 = 0x15;

const FN_PTR: u64 = 0x1B;

const SZ_ARRAY: u64 = 0x1D;

const M_VAR: u64 = 0x1E;

const PINNED: u64 = 0x45;

/// The type that a type of a signature names; None for a pointer, and for an array of such.
#[tactic(auto, unfolding(crate::specs::Spelled::said))]
fn named_type(types: &Types, sig: &TypeSig) -> Option<TypeId>
    ensures { result ≡ (definition.said types.now sig.now).id }
{
    match sig {
        TypeSig::Prim(_) => types.type_of(sig),
        TypeSig::Named(_, token) => types.named(*token),
        TypeSig::Vector(element) => in_brackets(named_type(types, element.get())?),
        _ => None,
    }
}

/// An array of a type.
#[tactic(auto, unfolding(type_model::specs::TypeIds::in_brackets))]
fn in_brackets(id: TypeId) -> Option<TypeId>
    ensures { result ≡ bracketed_in 1 id }
{
    let arrays = id.arrays.checked_add(1)?;
    Some(TypeId {
        base: id.base,
        arrays,
    })
}

/// Spells a type of a signature, after what is spelled already.
#[cycle(spelling)]
pub fn spell_type(types: &Types, sig: &TypeSig, words: &mut Items<u64>) -> Result<(), AllocError>
    ensures { OnOk result (words.new ≡ words.old ++ definition.type_words types.now sig.now) }
{
    match named_type(types, sig) {
        Some(id) => spell_id(id, words),
        None => spell_parts(types, sig, words),
    }
}

/// Spells a type of a signature by its element type and what follows that.
#[cycle(spelling)]
#[tactic(auto, unfolding(crate::specs::Spelled::said))]
fn spell_parts(types: &Types, sig: &TypeSig, words: &mut Items<u64>) -> Result<(), AllocError>
    ensures { OnOk result (words.new ≡ words.old ++ (definition.said types.now sig.now).parts) }
{
    match sig {
        TypeSig::Prim(code) => words.push(u64::from(*code)),
        TypeSig::Named(_, token) => spell_number(CLASS, *token, words),
        TypeSig::Ptr(to) => spell_held(types, PTR, to.get(), words),
        TypeSig::ByRef(to) => spell_held(types, BY_REF, to.get(), words),
        TypeSig::Vector(element) => spell_held(types, SZ_ARRAY, element.get(), words),
        TypeSig::Pinned(of) => spell_held(types, PINNED, of.get(), words),
        TypeSig::Array(element, rank, sizes, lows) => {
            spell_held(types, ARRAY, element.get(), words)?;
            words.push(u64::from(*rank))?;
            spell_sizes(sizes.as_slice(), words)?;
            spell_lows(lows.as_slice(), words)
        }
        TypeSig::Inst(generic, arguments) => {
            spell_held(types, GENERIC_INST, generic.get(), words)?;
            spell_types(types, arguments.as_slice(), words)
        }
        TypeSig::Var(n) => spell_number(VAR, *n, words),
        TypeSig::MVar(n) => spell_number(M_VAR, *n, words),
        TypeSig::FnPtr(sig) => {
            words.push(FN_PTR)?;
            spell_sig(types, sig.get(), words)
        }
    }
}

/// Spells an element type and the type that follows it.
#[cycle(spelling)]
fn spell_held(
    types: &Types,
    element: u64,
    held: &TypeSig,
    words: &mut Items<u64>,
) -> Result<(), AllocError>
    ensures { OnOk result (words.new ≡ words.old ++ element ∷ definition.type_words types.now held.now) }
{
    words.push(element)?;
    spell_type(types, held, words)
}

/// Spells how many types there are, and each.
#[cycle(spelling)]
fn spell_types(types: &Types, all: &[TypeSig], words: &mut Items<u64>) -> Result<(), AllocError>
    ensures { OnOk result (words.new ≡ words.old ++ definition.counted (map (definition.type_words types.now) all.now)) }
{
    words.push(all.len() as u64)?;
    for sig in all {
        spell_type(types, sig, words)?;
    }
    Ok(())
}

/// Spells the signature of a method, after what is spelled already.
#[cycle(spelling)]
pub fn spell_sig(types: &Types, sig: &Sig, words: &mut Items<u64>) -> Result<(), AllocError>
    ensures { OnOk result (words.new ≡ words.old ++ definition.sig_words types.now sig.now) }
{
    words.push(u64::from(sig.has_this))?;
    words.push(u64::from(sig.vararg))?;
    words.push(u64::from(sig.generic))?;
    spell_type(types, &sig.result, words)?;
    spell_types(types, sig.params.as_slice(), words)
}

/// Spells a type that is named.
pub fn spell_id(id: TypeId, words: &mut Items<u64>) -> Result<(), AllocError>
    ensures { OnOk result (words.new ≡ words.old ++ definition.id_words id) }
{
    words.push(0)?;
    words.push(u64::from(id.base))?;
    words.push(u64::from(id.arrays))
}

/// Spells an element type and the number that follows it.
fn spell_number(element: u64, number: u32, words: &mut Items<u64>) -> Result<(), AllocError>
    ensures { OnOk result (words.new ≡ words.old ++ element ∷ number ∷ []) }
{
    words.push(element)?;
    words.push(u64::from(number))
}

/// Spells how many sizes an array has, and each.
fn spell_sizes(sizes: &[u32], words: &mut Items<u64>) -> Result<(), AllocError>
    ensures { OnOk result (words.new ≡ words.old ++ length sizes.now ∷ sizes.now) }
{
    words.push(sizes.len() as u64)?;
    for size in sizes {
        words.push(u64::from(*size))?;
    }
    Ok(())
}

/// Spells how many lower bounds an array has, and each, by its 32 bits.
fn spell_lows(lows: &[i32], words: &mut Items<u64>) -> Result<(), AllocError>
    ensures { OnOk result (words.new ≡ words.old ++ length lows.now ∷ map (cast_unsigned w32) lows.now) }
{
    words.push(lows.len() as u64)?;
    for low in lows {
        words.push(u64::from(low.cast_unsigned()))?;
    }
    Ok(())
}
