//! What a range is used for.

ghost use Rattle.std.specs.Prelude.{◌≡◌};
ghost use Rattle.native_memory.specs.Ranges.{right_of};

use bound_base::Rights;

/// What a range is used for.
#[derive(Clone, Copy)]
pub enum Access {
    Read,
    Write,
    Execute,
}

impl Access {
    /// A block with these rights may be used so.
    pub fn is_allowed(self, rights: Rights) -> bool
        ensures { result ≡ right_of self rights }
    {
        match self {
            Access::Read => rights.r,
            Access::Write => rights.w,
            Access::Execute => rights.x,
        }
    }
}
