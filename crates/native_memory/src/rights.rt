//! The rights of a block that holds data.

use bound_base::Rights;

/// The rights of a block that holds data: it may be read and written, and not executed. The stack, heap blocks, the number of
/// the last error and temporaries have them.
pub const DATA_RIGHTS: Rights = Rights {
    r: true,
    w: true,
    x: false,
};
