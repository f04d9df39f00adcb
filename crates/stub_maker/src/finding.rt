//! What may be found of a type of a file.

use native_layout::Outline;

/// What may be found of a type of a file, by its row of TypeDef.
#[derive(Clone, Copy, Debug)]
pub enum Finding {
    /// The outline of a value type.
    Outlined(u32, Outline),
    /// A delegate type has rows in the marshalling table.
    Callable(u32),
}
