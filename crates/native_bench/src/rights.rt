//! What blocks may be used for.

use bound_base::Rights;

pub const CODE: Rights = Rights {
    r: true,
    w: false,
    x: true,
};
