//! The slots of classes (ECMA-335 II.10.3), of those methods that are like one that is called.

ghost use Rattle.std.specs.Prelude.{◌≡◌, ◌∷◌, [], ◌&&◌, map, filter, fold, reverse, option_map, find, slice_index, ◌==◌, if◌then◌else◌, IfOk, OnOk};
ghost use Rattle.std.specs.List.{list_any};
ghost use Rattle.type_model.specs.Types.{bases};
ghost use Rattle.type_members.specs.Akin as kin;
ghost use Rattle.type_members.specs.Chosen as definition;
ghost use Rattle.type_members.specs.View.{view_slot, view_slots};

use crate::member::Member;
use crate::members::Members;
use crate::methods::same_member;
use crate::table_numbers::METHOD_IMPLS;
use bound_base::{Items, NoMemory};
use managed_value::TypeId;
use std::alloc::Global;

/// A slot of a class: the method that began it, those that took its place one after another, and the one that answers.
#[derive(Drop)]
pub struct Slot {
    pub first: Member,
    /// The first one, and those that took its place.
    pub members: Items<Member>,
    pub body: Member,
}

/// The slot that a method begins.
fn slot_of(alloc: Global, x: Member) -> Result<Slot, NoMemory>
    ensures { IfOk result (λ slot. view_slot slot ≡ definition.slot_of x) }
{
    let mut members = Items::new(alloc);
    members.push(x)?;
    Ok(Slot {
        first: x,
        members,
        body: x,
    })
}

/// Whether a slot holds a method.
#[tactic(auto, using(crate::proofs::SlotPlaces::any_reverse))]
fn holds(x: Member, slot: &Slot) -> bool
    ensures { result ≡ definition.holds x (view_slot slot.now) }
{
    is_among(x, slot.members.as_slice())
}

/// Whether a method is among others.
pub fn is_among(x: Member, members: &[Member]) -> bool
    ensures { result ≡ list_any (definition.same_member x) members.now }
{
    members.iter().any(
        |member: &Member| -> bool
            ensures { result ≡ definition.same_member x member.now }
        { same_member(x, *member) },
    )
}

/// A method takes the place of the one that answered.
#[tactic(auto, using(crate::proofs::SlotPlaces::last_first))]
fn take(slot: &mut Slot, x: Member) -> Result<(), NoMemory>
    ensures { OnOk result (view_slot slot.new ≡ kin.taken (view_slot slot.old) x) }
{
    slot.members.push(x)?;
    slot.body = x;
    Ok(())
}

/// A method answers in place of another one, where the slot holds that.
fn answer(slot: &mut Slot, declaration: Member, body: Member)
    ensures { view_slot slot.new ≡ definition.answered_by declaration body (view_slot slot.old) }
{
    if holds(declaration, slot) {
        slot.body = body;
    }
}

/// A method answers in place of another one.
fn answer_all(slots: &mut Vec<Slot>, declaration: Member, body: Member)
    ensures { view_slots slots.new.items ≡ map (definition.answered_by declaration body) (view_slots slots.old.items) }
{
    for slot in slots.iter_mut() {
        answer(slot, declaration, body);
    }
}

/// The method that answers in the first slot that holds a method.
fn body_of(x: Member, slots: &[Slot]) -> Option<Member>
    ensures { result ≡ option_map (λ slot. slot.body) (find (definition.holds x) (view_slots slots.now)) }
{
    for slot in slots {
        if holds(x, slot) {
            return Some(slot.body);
        }
    }
    None
}

impl Members {
    /// Whether a method is another one, or like it.
    fn is_akin(&self, x: Member, y: Member) -> bool
        ensures { result ≡ kin.akin self.now x y }
    {
        same_member(x, y) || self.is_like(x, y)
    }

    /// The place of the first slot whose place a method takes; how many slots there are, if it takes none.
    #[tactic(auto, using(crate::proofs::SlotPlaces::place_here, crate::proofs::SlotPlaces::place_next, crate::proofs::SlotPlaces::place_end))]
    fn place_for(&self, x: Member, slots: &[Slot]) -> usize
        ensures { result ≡ kin.place_for self.now x (view_slots slots.now) }
    {
        for place in 0..slots.len() {
            if self.is_like(slots[place].first, x) {
                return place;
            }
        }
        slots.len()
    }

    /// A method takes the place of the one that it is like, or begins a slot after all others.
    fn take_place(&self, alloc: Global, x: Member, slots: &mut Vec<Slot>) -> Result<(), NoMemory>
        ensures { OnOk result (view_slots slots.new.items ≡ definition.take_place self.now x (view_slots slots.old.items)) }
    {
        let place = self.place_for(x, slots.as_slice());
        if place < slots.len() {
            take(&mut slots[place], x)?;
            return Ok(());
        }
        slots.push(slot_of(alloc, x)?)?;
        Ok(())
    }

    /// What a virtual method makes of the slots.
    fn add_method(&self, alloc: Global, x: Member, slots: &mut Vec<Slot>) -> Result<(), NoMemory>
        ensures { OnOk result (view_slots slots.new.items ≡ definition.with_method self.now (view_slots slots.old.items) x) }
    {
        if !self.begins_slot(x) {
            return self.take_place(alloc, x, slots);
        }
        slots.insert(0, slot_of(alloc, x)?)?;
        Ok(())
    }

    /// What a method makes of the slots of a method's kin, if it is virtual and of that kin.
    fn add_kin(
        &self,
        alloc: Global,
        x: Member,
        y: Member,
        slots: &mut Vec<Slot>,
    ) -> Result<(), NoMemory>
        ensures { OnOk result (view_slots slots.new.items ≡ fold (definition.with_method self.now) (view_slots slots.old.items)
            (filter (λ z. definition.is_virtual self.now z && kin.akin self.now x z) (y ∷ []))) }
    {
        if self.is_virtual(y) && self.is_akin(x, y) {
            self.add_method(alloc, y, slots)?;
        }
        Ok(())
    }

    /// What methods make of the slots of a method's kin.
    fn add_methods(
        &self,
        alloc: Global,
        x: Member,
        methods: &[Member],
        slots: &mut Vec<Slot>,
    ) -> Result<(), NoMemory>
        ensures { OnOk result (view_slots slots.new.items ≡ fold (definition.with_method self.now) (view_slots slots.old.items)
            (filter (λ z. definition.is_virtual self.now z && kin.akin self.now x z) methods.now)) }
    {
        for y in methods {
            self.add_kin(alloc, x, *y, slots)?;
        }
        Ok(())
    }

    /// What a row of MethodImpl makes of the slots, by the coded indexes of the body and of the declaration.
    fn add_impl(&self, body: u32, declaration: u32, slots: &mut Vec<Slot>)
        ensures { view_slots slots.new.items ≡ definition.with_body (definition.method_at self.now declaration)
            (definition.method_at self.now body) (view_slots slots.old.items) }
    {
        if let (Some(declaration), Some(body)) = (
            self.method_at(declaration),
            self.method_at(body),
        ) {
            answer_all(slots, declaration, body);
        }
    }

    /// What the rows of MethodImpl of a type make of the slots; the first counts.
    fn add_impls(&self, id: TypeId, slots: &mut Vec<Slot>)
        ensures { view_slots slots.new.items ≡ fold (definition.with_impl self.now) (view_slots slots.old.items)
            (reverse (definition.impls_of self.now id)) }
    {
        if 0 < id.arrays {
            return;
        }
        let rows = self.types().image().rows(METHOD_IMPLS);
        let mut left = rows.len();
        while 0 < left {
            left -= 1;
            self.add_row(id.base, &rows[left], slots);
        }
    }

    /// What a row of MethodImpl makes of the slots, if it is one of a type's.
    fn add_row(&self, t: u32, row: &[u32; 9], slots: &mut Vec<Slot>)
        ensures { view_slots slots.new.items ≡ (if slice_index row.now 0 == t
            then definition.with_impl self.now (view_slots slots.old.items) row.now
            else view_slots slots.old.items) }
    {
        if row[0] == t {
            self.add_impl(row[1], row[2], slots);
        }
    }

    /// What a class makes of the slots of a method's kin.
    #[tactic(auto, using(crate::proofs::SlotPlaces::filtered_twice))]
    fn add_class(
        &self,
        alloc: Global,
        x: Member,
        id: TypeId,
        slots: &mut Vec<Slot>,
    ) -> Result<(), NoMemory>
        ensures { OnOk result (view_slots slots.new.items ≡ kin.with_akin self.now x (view_slots slots.old.items) id) }
    {
        let methods = self.methods_of(alloc, id)?;
        self.add_methods(alloc, x, methods.as_slice(), slots)?;
        self.add_impls(id, slots);
        Ok(())
    }

    /// The slots of a method's kin, of a type and its bases.
    fn kin_slots(&self, alloc: Global, x: Member, receiver: TypeId) -> Result<Vec<Slot>, NoMemory>
        ensures { IfOk result (λ slots. view_slots slots.items ≡ kin.akin_slots self.now x (receiver ∷ bases self.now receiver)) }
    {
        let mut chain = self.chain(alloc, receiver)?.into_vec();
        chain.reverse();
        let mut slots = Vec::new(alloc);
        for id in chain.as_slice() {
            self.add_class(alloc, x, *id, &mut slots)?;
        }
        Ok(slots)
    }

    /// The method of a class that answers.
    #[tactic(auto, using(crate::proofs::AkinSlots::found_among_kin))]
    pub(crate) fn by_class(
        &self,
        alloc: Global,
        receiver: TypeId,
        x: Member,
    ) -> Result<Option<Member>, NoMemory>
        ensures { IfOk result (λ answer. answer ≡ definition.by_class self.now receiver x) }
    {
        if !self.is_virtual(x) {
            return Ok(Some(x));
        }
        let slots = self.kin_slots(alloc, x, receiver)?;
        Ok(body_of(x, slots.as_slice()))
    }
}
