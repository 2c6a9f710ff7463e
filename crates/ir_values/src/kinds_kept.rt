//! The laws of the operations on values. Each function is empty on purpose: its contract is the law.
ghost use Rattle.ir_values.specs.Examples as example;
ghost use Rattle.ir_values.specs.ValueLaws as law;

/// More defined operands, and for a binary operation fewer flags, give a more defined outcome. Undefined behaviour is the least defined.
#[tactic(auto, using(crate::proofs::Monotone::cast_monotone, crate::proofs::Monotone::select_monotone))]
pub fn operations_are_monotone()
    ensures binary { law.OperationsAreMonotone }
    ensures comparisons { law.ComparisonsAreMonotone }
    ensures conversions { law.ConversionsAreMonotone }
    ensures selections { law.SelectionsAreMonotone }
{}

/// An operation on iN gives a value of iN, if it gives one, whatever its operands are; a comparison gives one of i1, a conversion of a value
/// of its kind one of the kind that it leads to, and a selection one of the kind of its arms.
#[tactic(auto, using(crate::proofs::InKind::binary_in_kind, crate::proofs::InKind::select_in_kind))]
pub fn operations_stay_in_kind()
    ensures binary { law.OperationsStayInKind }
    ensures comparisons { law.ComparisonsGiveBits }
    ensures conversions { law.ConversionsGiveTheirKind }
    ensures selections { law.SelectionsStayInKind }
{}

/// Numbers give a number where nothing traps, no shift is by the width or more, and no flag is broken; a selection gives the chosen arm,
/// whatever the other one is.
#[tactic(auto, using(crate::proofs::Defined::binary_defined, crate::proofs::Defined::icmp_defined, crate::proofs::Defined::cast_defined, crate::proofs::Defined::select_defined))]
pub fn numbers_give_numbers()
    ensures binary { law.OperationsGiveNumbers }
    ensures comparisons { law.ComparisonsGiveNumbers }
    ensures conversions { law.ConversionsGiveNumbers }
    ensures selections { law.SelectionsGiveTheChosen }
{}

/// What operations give of given operands: an example of each case.
#[tactic(auto, using(crate::proofs::Examples::results_are_these, crate::proofs::Examples::divisions_trap, crate::proofs::Examples::undef_and_poison_spread, crate::proofs::Examples::shifts_end_at_the_width, crate::proofs::Examples::flags_break))]
pub fn examples_of_binary_operations()
    ensures results { example.ResultsAreThese }
    ensures traps { example.DivisionsTrap }
    ensures undef { example.UndefAndPoisonSpread }
    ensures shifts { example.ShiftsEndAtTheWidth }
    ensures flags { example.FlagsBreak }
{}

/// The same of comparisons, conversions and selections.
#[tactic(auto, using(crate::proofs::Examples::comparisons_are_these, crate::proofs::Examples::conversions_are_these, crate::proofs::Examples::selections_are_these))]
pub fn examples_of_other_operations()
    ensures comparisons { example.ComparisonsAreThese }
    ensures conversions { example.ConversionsAreThese }
    ensures selections { example.SelectionsAreThese }
{}

/// When an outcome is less defined than another, what is a number, and how wide integers are.
#[tactic(auto, using(crate::proofs::Examples::outcomes_are_ordered, crate::proofs::Examples::numbers_are_these, crate::proofs::Examples::widths_are_these))]
pub fn examples_of_outcomes_and_kinds()
    ensures order { example.OutcomesAreOrdered }
    ensures numbers { example.NumbersAreThese }
    ensures widths { example.WidthsAreThese }
{}
