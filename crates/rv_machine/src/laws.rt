//! Laws of the machine: each function's contract is one.

ghost use Rattle.rv_machine.specs.Laws.{ZeroRegisterIsFree, StepsChangeLittle, StepsKeepBlocks};
ghost use Rattle.rv_machine.specs.Laws.{FaultsChangeNothing, StopsBelowLowest};
ghost use Rattle.rv_machine.specs.Laws.{HalvesMakeProducts, QuotientsDivide, DivisionHasEdges};

/// Whatever stands in `x[0]`, a step is the same, and leaves it there.
pub fn zero_register_is_free()
    ensures { ZeroRegisterIsFree }
{}

/// A step that went changes at most one register beside pc and at most eight bytes of memory, by one write, and moves pc on by
/// the length of the instruction, or to a multiple of 4.
pub fn steps_change_little()
    ensures { StepsChangeLittle }
{}

/// A step changes bytes alone of memory: no block comes or goes, and each stays what it is.
pub fn steps_keep_blocks()
    ensures { StepsKeepBlocks }
{}

/// A step that didn't go changes nothing.
pub fn faults_change_nothing()
    ensures { FaultsChangeNothing }
{}

/// A step comes to `At` exactly where pc is below 65,536, and names pc.
pub fn steps_stop_below_lowest()
    ensures { StopsBelowLowest }
{}

/// The two halves of a product are those of MULH and MUL (or MULHSU or MULHU): the high word times 2^64, and the low word,
/// are the whole product.
pub fn halves_make_products()
    ensures { HalvesMakeProducts }
{}

/// A quotient times the divisor, and the remainder, are the dividend.
pub fn quotients_divide()
    ensures { QuotientsDivide }
{}

/// The manual's table of division by zero and of overflow (RISC-V unprivileged ISA, M extension, Division Operations).
pub fn division_has_edges()
    ensures { DivisionHasEdges }
{}
