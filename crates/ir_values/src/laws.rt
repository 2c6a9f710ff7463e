ghost use Rattle.ir_values.specs.Laws.{LessDefinedIsReflexive, LessDefinedIsTransitive, LessDefinedIsAntisymmetric};

/// Empty on purpose: its contract is the law.
///
/// To be less defined is an order.
#[tactic(auto, using(crate::proofs::OperationLaws::less_defined_refl, crate::proofs::OperationLaws::less_defined_trans, crate::proofs::OperationLaws::less_defined_antisym))]
pub fn less_defined_is_an_order()
    ensures reflexive { LessDefinedIsReflexive }
    ensures transitive { LessDefinedIsTransitive }
    ensures antisymmetric { LessDefinedIsAntisymmetric }
{}
