//! An entry of the dynamic section (System V gABI, 'Dynamic Section').

ghost use Rattle.std.specs.Prelude.{◌+◌, ◌<◌, ◌^◌};

use bound_base::Items;

/// An entry of the dynamic section.
#[derive(Clone, Copy, Debug)]
pub struct Entry {
    /// The file offset of the entry. Its value stands 8 bytes further.
    pub at: usize,
    pub tag: u64,
    pub value: u64,
    ghost before_value: { at + 8 < 2 ^ 64 },
}

/// The entries of the dynamic section before `DT_NULL`, in order.
pub type Table = Items<Entry>;
