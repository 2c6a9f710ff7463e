ghost use Rattle.ir_typing.specs.ModuleLimits.Laws.{LimitsAreOne, LimitsOfFunctionsAreOne};

/// Empty on purpose: its contract is the law.
///
/// One limit at most is the first that a module, or a function beside it, passes.
#[tactic(auto, using(crate::proofs::ModuleLimits::Firsts::limits_are_one, crate::proofs::ModuleLimits::Firsts::limits_of_functions_are_one))]
pub fn limits_are_one()
    ensures modules { LimitsAreOne }
    ensures functions { LimitsOfFunctionsAreOne }
{}
