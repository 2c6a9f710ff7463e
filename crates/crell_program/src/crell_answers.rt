//! What `crell` answers, as texts for its two sinks: what is wrong with a file, what is first at fault in a module's text,
//! and the checker's verdict.

mod answer;
mod faults;
mod pieces;
mod verdict_text;

pub use answer::{Answer, absent, past_limit, printed, read_failed, unfit};
pub use faults::module_fault;
pub use verdict_text::verdict_answer;
