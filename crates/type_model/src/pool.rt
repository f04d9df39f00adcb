//! Values that are read from the blobs of a table's rows. Rows that name one blob share one value, which is read once.

ghost use Rattle.std.specs.Prelude.{◌≡◌, ◌<◌, ◌≤◌, ◌+◌, ◌-◌, ◌^◌, length, slice_get, slice_set, Some, option_and_then, IfOk, OnOk};
ghost use Rattle.std.specs.Option.{option_copied};
ghost use Rattle.type_model.specs.Pool.{pooled as pooled_by, IsShared, Knows, Keeps};

use crate::table::Row;
use bound_base::{Items, NoMemory};
use std::alloc::Global;
use std::marker::Model;

/// Values of the rows of a table.
#[derive(Drop)]
pub struct Pool<T> {
    /// Where the value of each row stands among the values.
    places: Items<u32>,
    values: Items<Option<T>>,
}

impl<T> Model for Pool<T> {
    ghost use Rattle.std.specs.Prelude.{List, Option};
    ghost use Rattle.std.specs.Coded.{coded_list, coded_option};
    ghost use Rattle.type_model.specs.Pool.{pooled};

    ghost Value = { List (Option T) };

    ghost coded = { coded_list (coded_option T.code) };

    ghost view = { λ p. pooled p.places p.values };
}

impl<T> Pool<T> {
    /// The values of rows, by their places among values.
    pub fn of(places: Items<u32>, values: Items<Option<T>>) -> Pool<T>
        ensures { result ≡ pooled_by places values }
    {
        Pool { places, values }
    }

    /// The value of a row, counted from 0.
    #[tactic(auto, using(crate::proofs::Pooling::value_at, crate::proofs::Pooling::no_row, crate::proofs::Pooling::no_value))]
    pub fn get(&self, n: usize) -> Option<&T>
        ensures { option_copied result ≡ option_and_then (λ value. value) (slice_get self.now n) }
    {
        let place = self.places.get(n)?;
        self.values.get(*place as usize)?.as_ref()
    }
}

/// The offsets of blobs that rows name, each once.
#[derive(Drop)]
pub struct Shared {
    /// Where the offset of each row stands among the offsets.
    pub places: Items<u32>,
    pub offsets: Items<u32>,
}

/// The offsets of blobs that rows name in a column. `heap` is the size of the heap.
#[tactic(auto, using(crate::proofs::Pooling::knows_nothing))]
pub fn share_offsets(
    alloc: Global,
    rows: &[Row],
    column: usize,
    heap: usize,
) -> Result<Shared, NoMemory>
    requires column { column < 9 }
    requires few { length rows.now < 2 ^ 32 }
    ensures { IfOk result (λ shared. IsShared rows.now column shared.places shared.offsets) }
{
    let mut known = vec![in alloc; 0; heap]?;
    let mut places = Items::with_capacity(alloc, rows.len())?;
    let mut offsets = Items::new(alloc);
    for row in rows {
        let place = place_of(&mut known, &mut offsets, row[column])?;
        places.push(place)?;
    }
    Ok(Shared { places, offsets })
}

/// The place of an offset among those known so far, to which it is added if it isn't there.
#[tactic(auto, using(crate::proofs::Pooling::all_kept, crate::proofs::Pooling::at_end, crate::proofs::Pooling::knows_more))]
fn place_of(known: &mut Vec<u32>, offsets: &mut Items<u32>, at: u32) -> Result<u32, NoMemory>
    requires few { length offsets.old + 1 < 2 ^ 32 }
    requires known { Knows known.old.items offsets.old }
    ensures known { OnOk result (Knows known.new.items offsets.new) }
    ensures kept { OnOk result (Keeps offsets.old offsets.new) }
    ensures few { OnOk result (length offsets.new ≤ length offsets.old + 1) }
    ensures place { IfOk result (λ place. slice_get offsets.new place ≡ Some at) }
{
    let seen = known.get(at as usize).copied().unwrap_or(0);
    if seen > 0 {
        return Ok(seen - 1);
    }
    let place = offsets.len() as u32;
    offsets.push(at)?;
    note(known, at as usize, place + 1);
    Ok(place)
}

/// Writes where an offset stands, if the table has room for it.
#[tactic(auto, using(std::proofs::lemmas::List::set_past))]
fn note(known: &mut Vec<u32>, at: usize, number: u32)
    ensures { known.new.items ≡ slice_set known.old.items at number }
{
    if at < known.len() {
        known[at] = number;
    }
}
