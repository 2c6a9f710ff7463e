ghost use Rattle.ir_machine.specs.Refinement.{IsReflexive, IsTransitive, WrongIsLast, NoneIsStuck, EndsAreShown};
ghost use Rattle.ir_machine.specs.Choices.{AnswersAreSteps, AnswersTakeAsked, RunsAnswer};

/// Empty on purpose: its contract is the law.
///
/// Each module refines itself, a module that refines a second refines what the second refines, and no run
/// shows anything after undefined behaviour.
#[tactic(auto, using(crate::proofs::Order::refines_itself, crate::proofs::Order::refines_through, crate::proofs::WrongLast::wrong_is_last))]
pub fn refinement_is_a_preorder()
    ensures reflexive { IsReflexive }
    ensures transitive { IsTransitive }
    ensures wrong_is_last { WrongIsLast }
{}

/// Empty on purpose: its contract is the law.
///
/// A run that isn't over can make a step (a jump to no block is one, to undefined behaviour), and a run is over
/// exactly once it has shown its result or undefined behaviour.
pub fn no_run_is_stuck()
    ensures goes_on { NoneIsStuck }
    ensures ends { EndsAreShown }
{}

/// Empty on purpose: its contract is the law.
///
/// What a tree answers to the choices that are told says which steps it allows, and takes only choices that it
/// asked for; and a run that isn't over has an answer.
pub fn answers_are_steps()
    ensures steps { AnswersAreSteps }
    ensures taken { AnswersTakeAsked }
    ensures answered { RunsAnswer }
{}
