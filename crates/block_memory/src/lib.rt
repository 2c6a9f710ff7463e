//! Memory: blocks of bytes, the bytes of values, and the names by which the outside knows blocks (LangRef 3.7, Memory Access and Addressing
//! Operations, Pointer Type).
#![tactic(auto)]

mod blocks;
mod bytes;
mod items;
mod laws;
mod names;

pub use blocks::{Blocks, Trap};
pub use bytes::{byte_at, byte_count};
pub use items::{Choice, Shown, ShownByte};
pub use laws::{
    blocks_have_one_name, bytes_spell_values, examples_of_memory, examples_of_names,
    loads_keep_kinds, loads_keep_related, stores_are_loaded,
};
pub use names::{Names, ShowEnd};
