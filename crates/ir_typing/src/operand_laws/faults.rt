//! What is wrong with operands, by examples.
ghost use Rattle.ir_typing.specs.OperandLaws.Operands.{AddressesAreJudged, CallsAreJudged, ConstantsAreJudged, FirstIsTold, GlobalsAreJudged, InitialisersAreJudged, NamesAreKnown};

/// Empty on purpose: its contract is the law.
///
/// A global's address is of the type of pointers to its contents, a part's is of what the indices lead to, from a pointer to a type that
/// has a size, and `bitcast` leads from a pointer to a pointer. Of two things that are wrong the kind that comes first is told.
#[tactic(auto, using(crate::proofs::OperandLaws::Operands::constants_are_judged, crate::proofs::OperandLaws::Operands::first_is_told, crate::proofs::OperandLaws::Operands::addresses_are_judged))]
pub fn examples_of_wrong_constants()
    ensures constants { ConstantsAreJudged }
    ensures first { FirstIsTold }
    ensures addresses { AddressesAreJudged }
{}

/// Empty on purpose: its contract is the law.
///
/// Initialisers have as many parts as their types, of the same types. A global is of a type that has a size and that the module knows.
#[tactic(auto, using(crate::proofs::OperandLaws::Operands::names_are_known, crate::proofs::OperandLaws::Operands::initialisers_are_judged, crate::proofs::OperandLaws::Operands::globals_are_judged))]
pub fn examples_of_wrong_globals()
    ensures types { NamesAreKnown }
    ensures initialisers { InitialisersAreJudged }
    ensures globals { GlobalsAreJudged }
{}

/// Empty on purpose: its contract is the law.
///
/// A function of the module is called, with arguments of its parameters' types, and more only where `...` stands. Its result is named,
/// unless it is `void`.
#[tactic(auto, using(crate::proofs::OperandLaws::Operands::calls_are_judged))]
pub fn examples_of_wrong_calls()
    ensures calls { CallsAreJudged }
{}
