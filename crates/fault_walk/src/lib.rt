//! What is at fault in a module, and where a block is too large in it: read off its flat derivation, beside the module that is built of it.
#![tactic(auto, using(crate::proofs::Differ::differ))]

mod blocks;
mod constants;
mod inits;
mod items;
mod laws;
mod lines;
mod names;
mod sight;
mod told;

pub use items::note_module;
pub use laws::noted_faults_come_first;
pub use sight::Sight;
pub use told::Told;
