//! Numbers of methods, by which it is told which have one name and one signature (ECMA-335 II.10.3.2).

ghost use Rattle.std.specs.Prelude.{◌≡◌, ◌<◌, ◌-◌, ◌^◌, ◌++◌, ◌∷◌, ◌≤◌, length, map, slice_index, unwrap_or, IfOk, OnOk};
ghost use Rattle.type_members.specs.Akin as definition;
ghost use Rattle.type_members.specs.FirstPlaces as places;
ghost use Rattle.type_members.specs.declared.member.Member.TheVariants.{Method, Core};

use crate::core_members::core_member;
use crate::keys::spell_core;
use crate::member::Member;
use crate::spelling::spell_sig;
use crate::table_numbers::METHOD_DEFS;
use bound_base::{Items, NoMemory};
use std::alloc::Global;
use std::collections::BTreeMap;
use type_model::Types;

/// How many core members there are.
const CORE_MEMBERS: u32 = 179;

/// The numbers of methods: those with one name and one signature have one number. 0 is that of a method without a signature.
#[derive(Drop)]
pub struct MethodKeys {
    /// Those of core members, then those of methods of the file, by their rows.
    pub numbers: Items<u64>,
}

impl MethodKeys {
    /// The number of a method.
    pub fn key(&self, x: Member) -> u64
        ensures { result ≡ definition.key_at self.now.numbers x }
    {
        match x {
            Member::Core(place) if place < CORE_MEMBERS => number_at(&self.numbers, place as usize),
            Member::Method(n) if 0 < n => {
                number_at(&self.numbers, CORE_MEMBERS as usize + (n as usize - 1))
            }
            _ => 0,
        }
    }
}

fn number_at(numbers: &Items<u64>, at: usize) -> u64
    ensures { result ≡ slice_index numbers.now at }
{
    numbers.as_slice().get(at).copied().unwrap_or(0)
}

/// Numbers the methods of an assembly and those of core types.
pub fn method_keys(alloc: Global, types: &Types) -> Result<MethodKeys, NoMemory>
    ensures { IfOk result (λ keys. definition.TellsLike types.now keys.numbers) }
{
    let marks = all_marks(alloc, types)?;
    let numbers = numbers_of(alloc, marks.as_slice())?;
    Ok(MethodKeys { numbers })
}

/// The number of each mark: its first place, counted from 1; 0 for the empty one.
fn numbers_of(alloc: Global, marks: &[Items<u64>]) -> Result<Items<u64>, NoMemory>
    ensures { IfOk result (λ numbers. numbers ≡ map (definition.number_in marks.now) marks.now) }
{
    let mut firsts = BTreeMap::new(alloc);
    let mut numbers = Items::new(alloc);
    for place in 0..marks.len() {
        let mark = marks[place].as_slice();
        let first = first_place(&mut firsts, mark, place)?;
        numbers.push(numbered(mark, first))?;
    }
    Ok(numbers)
}

/// The number of a mark whose first place is known.
fn numbered(mark: &[u64], first: usize) -> u64
    requires { first < 2 ^ 64 - 1 }
    ensures { result ≡ places.numbered mark.now first }
{
    if mark.is_empty() { 0 } else { first as u64 + 1 }
}

/// The first place of a mark, which is known from before, or this one.
#[tactic(auto, using(crate::proofs::FirstPlaces::old_place))]
fn first_place<'a>(
    firsts: &mut BTreeMap<&'a [u64], usize>,
    mark: &'a [u64],
    place: usize,
) -> Result<usize, NoMemory>
    ensures first { IfOk result (λ first. first ≡ unwrap_or (places.known_place mark.now firsts.old) place) }
    ensures known { OnOk result (places.KnowsPlace mark.now (unwrap_or (places.known_place mark.now firsts.old) place) firsts.old firsts.new) }
{
    match firsts.get(mark) {
        Some(first) => Ok(*first),
        None => {
            firsts.insert(mark, place)?;
            Ok(place)
        }
    }
}

/// The marks of all methods.
fn all_marks(alloc: Global, types: &Types) -> Result<Items<Items<u64>>, NoMemory>
    ensures { IfOk result (λ marks. marks ≡ definition.all_marks types.now) }
{
    let mut marks = core_marks(alloc, types)?;
    push_row_marks(alloc, types, &mut marks)?;
    Ok(marks)
}

/// The marks of core members.
#[tactic(auto, using(crate::proofs::Marks::one_more))]
fn core_marks(alloc: Global, types: &Types) -> Result<Items<Items<u64>>, NoMemory>
    ensures { IfOk result (λ marks. marks ≡ definition.core_marks types.now) }
{
    let mut marks = Items::new(alloc);
    for place in 0..CORE_MEMBERS {
        marks.push(core_mark(alloc, types, place)?)?;
    }
    Ok(marks)
}

/// Adds the marks of the methods of the file.
fn push_row_marks(
    alloc: Global,
    types: &Types,
    marks: &mut Items<Items<u64>>,
) -> Result<(), NoMemory>
    ensures { OnOk result (marks.new ≡ marks.old ++ definition.row_marks types.now) }
{
    for before in 0..types.image().row_count(METHOD_DEFS) {
        marks.push(method_mark(alloc, types, before + 1)?)?;
    }
    Ok(())
}

/// The name and the signature of a core member in one list, its mark; that of a place past the last is empty.
#[tactic(auto, unfolding(crate::specs::Akin::mark))]
fn core_mark(alloc: Global, types: &Types, place: u32) -> Result<Items<u64>, NoMemory>
    ensures { IfOk result (λ mark. mark ≡ definition.mark types.now (Core place)) }
{
    let mut mark = Items::new(alloc);
    let Some(known) = core_member(place) else {
        return Ok(mark);
    };
    push_name(known.name.as_bytes(), &mut mark)?;
    spell_core(known, &mut mark)?;
    Ok(mark)
}

/// The name and the signature of a method of the file in one list, its mark; that of a method without a signature is empty.
#[tactic(auto, unfolding(crate::specs::Akin::mark))]
fn method_mark(alloc: Global, types: &Types, n: u32) -> Result<Items<u64>, NoMemory>
    ensures { IfOk result (λ mark. mark ≡ definition.mark types.now (Method n)) }
{
    let mut mark = Items::new(alloc);
    let Some(sig) = types.method_sig(n) else {
        return Ok(mark);
    };
    let image = types.image();
    push_name(
        image.text(image.cell(METHOD_DEFS, u64::from(n), 3)),
        &mut mark,
    )?;
    mark.push(0)?;
    spell_sig(types, sig, &mut mark)?;
    Ok(mark)
}

/// Adds how many bytes a name has, and each.
fn push_name(name: &[u8], mark: &mut Items<u64>) -> Result<(), NoMemory>
    ensures { OnOk result (mark.new ≡ mark.old ++ length name.now ∷ name.now) }
{
    mark.push(name.len() as u64)?;
    for byte in name {
        mark.push(u64::from(*byte))?;
    }
    Ok(())
}
