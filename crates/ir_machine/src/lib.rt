//! The machine: what a module can show, step by step, and when one module refines another.
//!
//! The definitions know nothing of assertions, alignment or hints.
#![tactic(auto)]

mod acting;
mod call_laws;
mod calling;
mod choosing;
mod ends;
mod first_named;
mod given;
mod inputs;
mod items;
mod jumping;
mod keep_laws;
mod laws;
mod lines;
mod machine;
mod misfits;
mod operands;
mod reading;
mod refinement;
mod registers;
mod scalars;
mod showing;
mod start_laws;
mod starting;
mod stepping;

pub use call_laws::{
    examples_of_calls, examples_of_calls_of_the_outside, refinement_sees_calls, told_runs_are_shown,
};
pub use choosing::Chooser;
pub use inputs::{External, Input, InputBlock, InputPath};
pub use items::Item;
pub use keep_laws::{states_that_are_not_kept, what_is_kept};
pub use laws::{
    constants_refine_by_value, ends_are_shown_at_once, examples_of_control_flow,
    examples_of_outcomes, examples_of_slots, examples_of_the_outside, lost_states_are_told,
    one_block_runs_end, refined_runs_are_shown, returns_are_told_apart, runs_are_steps,
    runs_reach_what_they_lead_to, well_formed_runs_go_on,
};
pub use lines::{align_or, count_made};
pub use machine::{KeptFrame, KeptWorld, Place, Progress, RunState, StartEnd, StepEnd, Stepped};
pub use refinement::{answers_are_steps, no_run_is_stuck, refinement_is_a_preorder};
pub use registers::RegisterFile;
pub use scalars::Scalar;
pub use start_laws::examples_of_starts;
pub use starting::start;
pub use stepping::step;
