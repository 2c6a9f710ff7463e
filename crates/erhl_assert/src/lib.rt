//! The relational Hoare logic of the checker, after Crellvm (Kang et al., PLDI 2018): facts of one side, assertions on
//! two sides, the hints that steps are read from, and the verdict.
#![tactic(auto)]

mod addresses;
mod fact_set;
mod facts;
mod globals;
mod hashing;
mod held;
mod hints;
mod verdict;

pub use addresses::{number_in, pointed_by_indices};
pub use fact_set::{FactSet, Kill, bare_name, expr_names, fact_names};
pub use facts::{Assertion, Expr, Fact, Schema, Side, same_fact, same_fact_is_equality};
pub use globals::{globals_are_compared, same_declaration, same_global};
pub use held::HeldBlock;
pub use hints::{
    FunctionHint, FunctionLoops, GhostStep, Hint, HintBlock, HintEdge, HintStep, Hints, Letter,
    Loop, LoopHints, PlacedStep, RuleStep, SameStep,
};
pub use verdict::{Difference, ModuleVerdict, Reason, Spot, Verdict};
