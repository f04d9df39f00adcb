//! The comparisons of ceq, cgt, clt and the branches.

ghost use Rattle.std.specs.Prelude.{◌≡◌, Some, is_some, IsSome};
ghost use Rattle.cil_arith.specs.Kinds.{kind_of, common_kind};
ghost use Rattle.cil_arith.specs.Comparisons.{comparison_of};

use crate::num::Num;
use crate::operations::CmpOp;

/// Whether the kinds of two numbers can be compared: two int32, two int64, two native ints, or an int32 and a native int
/// (ECMA-335 table III.4).
pub fn comparable(op: CmpOp, a: Num, b: Num) -> bool
    ensures { result ≡ is_some (comparison_of op a b) }
{
    // The kinds decide, whatever the comparison.
    let _ = op;
    have_common_kind(a, b)
}

/// Whether a comparison holds of two numbers. An int32 is sign-extended where it meets a native int; the `Un` forms read
/// both without a sign in the common width.
pub fn compare(op: CmpOp, a: Num, b: Num) -> bool
    requires { IsSome (comparison_of op a b) }
    ensures { comparison_of op a b ≡ Some result }
{
    // Sign extension keeps the order of the unsigned readings too.
    let a = a.sign_extended();
    let b = b.sign_extended();
    match op {
        CmpOp::Eq => a == b,
        CmpOp::Ne => a != b,
        CmpOp::Ge => a >= b,
        CmpOp::GeUn => a.cast_unsigned() >= b.cast_unsigned(),
        CmpOp::Gt => a > b,
        CmpOp::GtUn => a.cast_unsigned() > b.cast_unsigned(),
        CmpOp::Le => a <= b,
        CmpOp::LeUn => a.cast_unsigned() <= b.cast_unsigned(),
        CmpOp::Lt => a < b,
        CmpOp::LtUn => a.cast_unsigned() < b.cast_unsigned(),
    }
}

/// Whether two numbers meet in one kind. An int64 meets only another.
pub(crate) fn have_common_kind(a: Num, b: Num) -> bool
    ensures { result ≡ is_some (common_kind (kind_of a) (kind_of b)) }
{
    matches!(a, Num::I64(_)) == matches!(b, Num::I64(_))
}
