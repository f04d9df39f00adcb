//! The order in which the types of a file are looked at, so that what one needs is known before it.

ghost use Rattle.std.specs.Prelude.{◌<◌, ◌^◌};
ghost use Rattle.stub_maker.specs.Described.{AreKinds};

use crate::facts::invoke_signature;
use crate::kinds::{Kind, TypeKind};
use crate::kinds_of_types::{Kinds, TYPE_DEFS, kind_of, sig_kind, type_kind};
use bound_base::{Items, NoMemory};
use managed_value::TypeId;
use std::alloc::Global;
use type_model::Types;

/// The table of metadata that has a row for each field (ECMA-335 II.22.15).
const FIELDS: u8 = 0x04;

/// The flag of a static field (II.23.1.5).
const STATIC: u32 = 0x10;

/// What may be known of a type of the file, by its row of TypeDef.
#[derive(Clone, Copy, Debug, PartialEq, Eq)]
pub enum Need {
    /// What a value type looks like in native memory.
    Struct(u32),
    /// Whether a callback by a delegate type has rows in the marshalling table.
    Delegate(u32),
}

/// A turn of the walk: to what a need needs, or back from there.
#[derive(Clone, Copy)]
enum Turn {
    To(Need),
    From(Need),
}

/// A walk over needs, depth first.
#[derive(Drop)]
struct Walk {
    /// The value types and the delegate types that were come to, by their rows.
    structs: Items<bool>,
    delegates: Items<bool>,
    /// What is left to be done, the next turn last.
    turns: Vec<Turn>,
    order: Items<Need>,
}

/// The needs of a file's types: what one needs comes before it, unless that needs itself, and so does what it extends. Each is
/// listed once. Time and memory grow with the file.
pub fn needs_in_order(alloc: Global, types: &Types, kinds: &Kinds) -> Result<Items<Need>, NoMemory>
    requires { AreKinds types.now kinds.now }
{
    let count = types.image().row_count(TYPE_DEFS);
    let mut walk = Walk {
        structs: unmarked(alloc, count)?,
        delegates: unmarked(alloc, count)?,
        turns: Vec::new(alloc),
        order: Items::new(alloc),
    };
    for t in 0..count {
        walk.turns.push(Turn::To(Need::Struct(t + 1)))?;
        walk.turns.push(Turn::To(Need::Delegate(t + 1)))?;
        walk.go(alloc, types, kinds)?;
    }
    Ok(walk.order)
}

/// A mark for each row, from 0 on.
fn unmarked(alloc: Global, count: u32) -> Result<Items<bool>, NoMemory> {
    let mut marks = Items::with_capacity(alloc, count as usize + 1)?;
    for _ in 0..u64::from(count) + 1 {
        marks.push(false)?;
    }
    Ok(marks)
}

impl Walk {
    /// Does what is left to be done.
    fn go(&mut self, alloc: Global, types: &Types, kinds: &Kinds) -> Result<(), NoMemory>
        requires { AreKinds types.now kinds.now }
    {
        for _ in 0..u64::MAX {
            match self.turns.pop() {
                None => return Ok(()),
                Some(Turn::To(need)) => self.enter(alloc, types, kinds, need)?,
                Some(Turn::From(need)) => self.order.push(need)?,
            }
        }
        Ok(())
    }

    /// Goes on to what a need needs, if it wasn't come to.
    fn enter(
        &mut self,
        alloc: Global,
        types: &Types,
        kinds: &Kinds,
        need: Need,
    ) -> Result<(), NoMemory>
        requires { AreKinds types.now kinds.now }
    {
        if !self.is_first(need) {
            return Ok(());
        }
        self.turns.push(Turn::From(need))?;
        match need {
            Need::Struct(t) => self.enter_fields(types, kinds, t),
            Need::Delegate(t) => self.enter_params(alloc, types, kinds, t),
        }
    }

    /// Whether a need is come to for the first time; then it is marked.
    fn is_first(&mut self, need: Need) -> bool {
        match need {
            Need::Struct(t) => mark(&mut self.structs, t),
            Need::Delegate(t) => mark(&mut self.delegates, t),
        }
    }

    /// Goes on to what a value type extends, whose fields it has too, and to what its own fields name. So each field is looked
    /// at once, however many types inherit it.
    fn enter_fields(&mut self, types: &Types, kinds: &Kinds, t: u32) -> Result<(), NoMemory>
        requires { AreKinds types.now kinds.now }
    {
        let Kind::Struct(_) = kind_of(types, kinds, t) else {
            return Ok(());
        };
        if let Some(base) = types.extends_of(TypeId { base: t, arrays: 0 }) {
            self.turn_to(type_kind(types, kinds, base))?;
        }
        let first = u64::from(types.image().cell(TYPE_DEFS, u64::from(t), 4));
        for field in first..types.image().run_end(TYPE_DEFS, t, 4, FIELDS) {
            self.enter_field(types, kinds, field)?;
        }
        Ok(())
    }

    fn enter_field(&mut self, types: &Types, kinds: &Kinds, field: u64) -> Result<(), NoMemory>
        requires kinds { AreKinds types.now kinds.now }
        requires row { field < 2 ^ 32 }
    {
        match types.field(field as u32) {
            Some(known) if known.flags & STATIC == 0 => match known.sig {
                Some(sig) => self.turn_to(sig_kind(types, kinds, sig)),
                None => Ok(()),
            },
            _ => Ok(()),
        }
    }

    fn enter_params(
        &mut self,
        alloc: Global,
        types: &Types,
        kinds: &Kinds,
        t: u32,
    ) -> Result<(), NoMemory>
        requires { AreKinds types.now kinds.now }
    {
        if let Some(signature) = invoke_signature(alloc, types, kinds, t)? {
            if let Some(passed) = signature.result {
                self.turn_to(passed.kind)?;
            }
            for passed in signature.params.as_slice() {
                self.turn_to(passed.kind)?;
            }
        }
        Ok(())
    }

    /// A field, a parameter or a result of this kind needs what is known of its type.
    fn turn_to(&mut self, kind: TypeKind) -> Result<(), NoMemory> {
        let one = match kind {
            TypeKind::One(one) => one,
            TypeKind::Array(_, element) => element,
        };
        match one {
            Kind::Struct(t) => self.turns.push(Turn::To(Need::Struct(t)))?,
            Kind::Delegate(t) => self.turns.push(Turn::To(Need::Delegate(t)))?,
            _ => {}
        }
        Ok(())
    }
}

/// Marks a row; whether it is one that had no mark.
fn mark(marks: &mut Items<bool>, row: u32) -> bool {
    match marks.get_mut(row as usize) {
        Some(mark) => {
            let is_first = !*mark;
            *mark = true;
            is_first
        }
        None => false,
    }
}
