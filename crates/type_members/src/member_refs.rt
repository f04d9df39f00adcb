//! What rows of MemberRef find (ECMA-335 II.22.25).

ghost use Rattle.std.specs.Prelude.{◌≡◌, IfOk};
ghost use Rattle.type_model.specs.Types.{run};
ghost use Rattle.type_members.specs.Found as definition;
ghost use Rattle.type_members.specs.Holding.{found_refs as refs_found};

use crate::keys::{blob_words, is_core_member, is_field, is_method, method_words};
use crate::member::Member;
use crate::table_numbers::{
    FIELDS, MEMBER_REFS, METHOD_DEFS, MODULE_REFS, ROW_LIMIT, TYPE_DEFS, TYPE_REFS, TYPE_SPECS,
};
use bound_base::{Items, NoMemory};
use managed_value::TypeId;
use sig_reader::Sig;
use std::alloc::Global;
use type_model::Types;

/// How many core members there are.
const CORE_MEMBERS: u32 = 179;

/// What each row of MemberRef finds, from the first on.
#[tactic(auto, using(crate::proofs::FoundRows::one_more))]
pub fn found_refs(alloc: Global, types: &Types) -> Result<Items<Option<Member>>, NoMemory>
    ensures { IfOk result (λ found. found ≡ refs_found types.now) }
{
    let mut found = Items::new(alloc);
    for before in 0..types.image().row_count(MEMBER_REFS) {
        found.push(ref_found(alloc, types, before + 1)?)?;
    }
    Ok(found)
}

/// What a row of MemberRef finds.
#[tactic(auto, unfolding(crate::specs::Found::ref_found))]
fn ref_found(alloc: Global, types: &Types, r: u32) -> Result<Option<Member>, NoMemory>
    ensures { IfOk result (λ found. found ≡ definition.ref_found types.now r) }
{
    let parent = parent_token(types.image().cell(MEMBER_REFS, u64::from(r), 0));
    if parent / ROW_LIMIT == u32::from(METHOD_DEFS) {
        Ok(known_method(types, parent % ROW_LIMIT))
    } else {
        member_by(alloc, types, r, parent)
    }
}

/// The token of a coded index MemberRefParent; 0, which names nothing, for a row that no token can name.
fn parent_token(coded: u32) -> u32
    ensures { result ≡ definition.parent_token coded }
{
    let row = coded / 8;
    if row >= ROW_LIMIT {
        return 0;
    }
    let table = match coded % 8 {
        0 => TYPE_DEFS,
        1 => TYPE_REFS,
        2 => MODULE_REFS,
        3 => METHOD_DEFS,
        4 => TYPE_SPECS,
        _ => 0,
    };
    u32::from(table) * ROW_LIMIT + row
}

/// A method whose signature is in the grammar.
pub fn known_method(types: &Types, n: u32) -> Option<Member>
    ensures { result ≡ definition.known_method types.now n }
{
    types.method_sig(n)?;
    Some(Member::Method(n))
}

/// What a row of MemberRef finds in the type that its parent names.
fn member_by(alloc: Global, types: &Types, r: u32, parent: u32) -> Result<Option<Member>, NoMemory>
    ensures { IfOk result (λ found. found ≡ definition.member_by types.now r parent) }
{
    let image = types.image();
    let name = image.text(image.cell(MEMBER_REFS, u64::from(r), 1));
    let blob = image.blob(image.cell(MEMBER_REFS, u64::from(r), 2));
    let Some(words) = blob_words(alloc, types, blob)? else {
        return Ok(None);
    };
    match types.named(parent) {
        Some(id) => member_of(alloc, types, name, words.as_slice(), id),
        None => Ok(None),
    }
}

/// The member of just this type that has a name and a spelling.
#[tactic(auto, unfolding(crate::specs::Found::member_of))]
fn member_of(
    alloc: Global,
    types: &Types,
    name: &[u8],
    words: &[u64],
    id: TypeId,
) -> Result<Option<Member>, NoMemory>
    ensures { IfOk result (λ found. found ≡ definition.member_of types.now name.now words.now id) }
{
    if 0 < id.arrays {
        return Ok(None);
    }
    if ROW_LIMIT <= id.base {
        let place = core_member_named(alloc, id.base - ROW_LIMIT, name, words)?;
        return Ok(place.map(Member::Core));
    }
    if let Some(n) = method_in(alloc, types, id.base, name, words)? {
        return Ok(Some(Member::Method(n)));
    }
    let field = field_in(alloc, types, id.base, name, words)?;
    Ok(field.map(Member::Field))
}

/// The first method of a type of the file that has a name and a spelling.
#[tactic(auto, unfolding(crate::specs::Found::method_in), using(crate::proofs::Searches::found_here, crate::proofs::Searches::goes_on, crate::proofs::Searches::found_nowhere))]
fn method_in(
    alloc: Global,
    types: &Types,
    t: u32,
    name: &[u8],
    words: &[u64],
) -> Result<Option<u32>, NoMemory>
    ensures { IfOk result (λ found. found ≡ definition.method_in types.now t name.now words.now) }
{
    let first = types.image().cell(TYPE_DEFS, u64::from(t), 5);
    let end = types.image().run_end(TYPE_DEFS, t, 5, METHOD_DEFS);
    for n in u64::from(first)..end {
        if is_method(alloc, types, name, words, n as u32)? {
            return Ok(Some(n as u32));
        }
    }
    Ok(None)
}

/// The first field of a type of the file that has a name and a spelling.
#[tactic(auto, unfolding(crate::specs::Found::field_in), using(crate::proofs::Searches::found_here, crate::proofs::Searches::goes_on, crate::proofs::Searches::found_nowhere))]
fn field_in(
    alloc: Global,
    types: &Types,
    t: u32,
    name: &[u8],
    words: &[u64],
) -> Result<Option<u32>, NoMemory>
    ensures { IfOk result (λ found. found ≡ definition.field_in types.now t name.now words.now) }
{
    let first = types.image().cell(TYPE_DEFS, u64::from(t), 4);
    let end = types.image().run_end(TYPE_DEFS, t, 4, FIELDS);
    for f in u64::from(first)..end {
        if is_field(alloc, types, name, words, f as u32)? {
            return Ok(Some(f as u32));
        }
    }
    Ok(None)
}

/// The core member that is a method of just this type with a name and a signature, by its place. None exactly where the table has
/// none; an array and a type of the file have none.
pub fn find_core_member(
    alloc: Global,
    types: &Types,
    t: TypeId,
    name: &[u8],
    sig: &Sig,
) -> Result<Option<u32>, NoMemory>
    ensures { IfOk result (λ found. found ≡ definition.core_method types.now t name.now sig.now) }
{
    if 0 < t.arrays || t.base < ROW_LIMIT {
        return Ok(None);
    }
    let words = method_words(alloc, types, sig)?;
    core_member_named(alloc, t.base - ROW_LIMIT, name, words.as_slice())
}

/// The first core member of a core type that has a name and a spelling, by its place.
#[tactic(auto, unfolding(crate::specs::Found::core_member_named), using(crate::proofs::Searches::found_here, crate::proofs::Searches::goes_on, crate::proofs::Searches::found_nowhere))]
fn core_member_named(
    alloc: Global,
    owner: u32,
    name: &[u8],
    words: &[u64],
) -> Result<Option<u32>, NoMemory>
    ensures { IfOk result (λ found. found ≡ definition.core_member_named owner name.now words.now) }
{
    for place in 0..CORE_MEMBERS {
        if is_core_member(alloc, owner, name, words, place)? {
            return Ok(Some(place));
        }
    }
    Ok(None)
}
