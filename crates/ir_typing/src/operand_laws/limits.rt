//! How deep types and constants are and how much memory is wanted, by examples.
ghost use Rattle.ir_typing.specs.OperandLaws.Blocks.{BlocksAreCounted, DepthsComeFirst, OperandsWant, PartsWant, TypesWantNothing};
ghost use Rattle.ir_typing.specs.OperandLaws.Depths.{DeclaredPartsCount, DepthsAreCounted, EndsCount, LinesCount};

/// Empty on purpose: its contract is the law.
///
/// How deep types, constants and initialisers are, and which are as deep as the limit allows.
#[tactic(auto, using(crate::proofs::OperandLaws::Depths::depths_are_counted))]
pub fn examples_of_depths()
    ensures { DepthsAreCounted }
{}

/// Empty on purpose: its contract is the law.
///
/// Where in a module types and constants may be as deep as the limit allows and no deeper: in declared parts, lines, phis and terminators.
#[tactic(auto, using(crate::proofs::OperandLaws::Depths::declared_parts_count, crate::proofs::OperandLaws::Depths::lines_count, crate::proofs::OperandLaws::Depths::ends_count))]
pub fn examples_of_parts()
    ensures declared { DeclaredPartsCount }
    ensures lines { LinesCount }
    ensures ends { EndsCount }
{}

/// Empty on purpose: its contract is the law.
///
/// How much memory may be wanted at once, by globals, allocas and addresses, wherever their constants stand. Where it is too much and
/// something is too deep besides, that comes first.
#[tactic(auto, using(crate::proofs::OperandLaws::Blocks::blocks_are_counted, crate::proofs::OperandLaws::Blocks::operands_want, crate::proofs::OperandLaws::Blocks::parts_want, crate::proofs::OperandLaws::Blocks::types_want_nothing, crate::proofs::OperandLaws::Blocks::depths_come_first))]
pub fn examples_of_sizes()
    ensures blocks { BlocksAreCounted }
    ensures operands { OperandsWant }
    ensures parts { PartsWant }
    ensures types { TypesWantNothing }
    ensures order { DepthsComeFirst }
{}
