//! What holds of the operations for all numbers, in the instructions' own words: a proof, in a function that does nothing.

ghost use Rattle.cil_arith.specs.Laws.{
  CheckedFormsGivePlainResults,
  CheckedFormsOverflowOutside,
  QuotientsAndRemaindersBelongTogether,
  DivisorsOfZeroDivideByZero,
  LeastByMinusOneOverflows,
  NegationsAndComplements,
  CheckedConversionsOverflowOutside,
  CheckedConversionsKeepTheNumber,
  CheckedConversionsGivePlainResults,
  ConversionsGiveNumbersOfTheTarget,
  ComparisonsHaveOpposites,
  EqualNumbersHaveOneValue,
};

/// Where add.ovf, sub.ovf and mul.ovf give a number, with `.un` or without, add, sub and mul give the same.
pub fn checked_forms_give_plain_results()
    ensures { CheckedFormsGivePlainResults }
{}

/// Add.ovf, sub.ovf and mul.ovf overflow where the whole result, of the operands read with their signs or without, lies
/// outside the range of its kind, read so; nowhere else.
pub fn checked_forms_overflow_outside()
    ensures { CheckedFormsOverflowOutside }
{}

/// The dividend is the quotient times the divisor and the remainder. The remainder is nearer to 0 than the divisor, and has
/// the dividend's sign.
pub fn quotients_and_remainders_belong_together()
    ensures { QuotientsAndRemaindersBelongTogether }
{}

/// Div, div.un, rem and rem.un of two numbers that meet in a kind give DivideByZero where the divisor is 0, and no other
/// case does.
pub fn divisors_of_zero_divide_by_zero()
    ensures { DivisorsOfZeroDivideByZero }
{}

/// Div and rem overflow at the least number by -1, and nowhere else; div.un and rem.un don't overflow.
pub fn least_by_minus_one_overflows()
    ensures { LeastByMinusOneOverflows }
{}

/// `neg` gives what `sub` gives for 0 and the number, `not` what `xor` gives for the number and -1.
pub fn negations_and_complements()
    ensures { NegationsAndComplements }
{}

/// A conv.ovf overflows where the number, read with its sign or without, lies outside the target's range, and nowhere else.
pub fn checked_conversions_overflow_outside()
    ensures { CheckedConversionsOverflowOutside }
{}

/// A conv.ovf that succeeds keeps the number, read as the source was and as the target is.
pub fn checked_conversions_keep_the_number()
    ensures { CheckedConversionsKeepTheNumber }
{}

/// Where conv.ovf gives a number, conv gives the same. So it is with `.un` where the target has no sign.
pub fn checked_conversions_give_plain_results()
    ensures { CheckedConversionsGivePlainResults }
{}

/// Conv always gives a number, which its target holds.
pub fn conversions_give_numbers_of_the_target()
    ensures { ConversionsGiveNumbersOfTheTarget }
{}

/// Each comparison holds where its opposite doesn't, and where the turned one holds of the operands in the other order.
pub fn comparisons_have_opposites()
    ensures { ComparisonsHaveOpposites }
{}

/// Two numbers that can be compared are equal where their values are one, whatever their kinds.
pub fn equal_numbers_have_one_value()
    ensures { EqualNumbersHaveOneValue }
{}
