//! A step that was worked out by hand: a proof that the definition gives it, in a function that does nothing.

ghost use Rattle.rv_machine.specs.Examples.{AddwWraps};

/// `addw a0,a0,a1` of 0x7FFFFFFF and 1 leaves 0xFFFFFFFF80000000 in `a0`.
pub fn addw_wraps()
    ensures { AddwWraps }
{}
