//! The law that each text of the whole grammar (LangRef 3.7) is judged: it spells a module, or something is first at fault in it;
//! and examples of where texts pass the limit on blocks, and of what tokens stand for behind others.

mod laws;
mod spelled;

pub use laws::each_text_is_judged;
pub use spelled::{examples_of_blocks, examples_of_context};
