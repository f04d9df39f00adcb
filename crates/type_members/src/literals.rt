//! The texts that a program has as literals (ECMA-335 II.24.2.4, III.4.16).

ghost use Rattle.std.specs.Prelude.{◌≡◌, ◌≤◌, length, IfOk, IsErr, IsSomeAnd};
ghost use Rattle.type_model.specs.Members as definition;

use crate::members::Members;
use crate::table_numbers::ROW_LIMIT;
use bound_base::{NoMemory, Units};
use meta_tables::{entry_at, units};
use std::alloc::Global;

impl Members {
    /// The UTF-16 units of the text that a token of `ldstr` names: those of the entry of `#US` at its low 24 bits, the bytes by
    /// two, an odd last byte left out. None exactly where the heap holds no whole entry there; an error only where there is at
    /// least one unit.
    pub fn user_string(&self, alloc: Global, token: u32) -> Result<Option<Units>, NoMemory>
        ensures units { IfOk result (λ units. units ≡ definition.user_string self.now token) }
        ensures memory { IsErr result
            → IsSomeAnd (definition.user_string self.now token) (λ units. 1 ≤ length units) }
    {
        let heap = self.types().image().user_string_heap();
        match entry_at(heap, (token % ROW_LIMIT) as usize) {
            Some(entry) => Ok(Some(units(alloc, entry)?)),
            None => Ok(None),
        }
    }
}
