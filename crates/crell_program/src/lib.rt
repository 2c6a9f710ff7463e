//! The commands of `crell`, over any shelf and any two sinks: which answer is due to the words and the files, and how it is delivered.
//!
//! `command_line` reads the words, `crell_answers` has the texts of the answers, and `definition_text` the text of `defs`.
#![tactic(auto)]

mod command;
mod command_line;
mod crell_answers;
mod definition_text;
mod delivery;
mod fetch;
mod in_memory;
mod judging;
mod laws;
mod program;

pub use command_line::{FileNames, examples_of_words};
pub use crell_answers::Answer;
pub use definition_text::lines_are_one;
pub use in_memory::{MemoryRun, crell_in_memory};
pub use judging::judge_pair;
pub use laws::{
    answers_are_told_apart, due_is_one, failed_sinks_hold_first_parts, memory_runs_meet_premises,
    refinement_is_of_modules, runs_are_judged, texts_within_room_fit,
};
pub use program::{WANT_OF_MEMORY, crell};
