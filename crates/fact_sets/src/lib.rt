//! Sets of facts and of registers in which one is found without a walk, and which are walked only where a register that
//! leaves them may be in them; what is known at a place, on both sides; and how facts are added to it.
//!
//! `erhl_sides` has what is known at a place, and `added_facts` the facts that are added to it, as far as the limit on facts goes.
#![tactic(auto)]

mod added_facts;
mod added_registers;
mod erhl_sides;
mod fact_key;
mod indexed_set;
mod laws;
mod left_registers;
mod listed_registers;
mod naming;
mod near_facts;
mod register_set;
mod shields;

pub use added_facts::{
    AddEnd, LineEnd, add_equal, left_side, limits_are_apart, names, now_expr, now_operand,
    old_atom, old_fact, old_register,
};
pub use erhl_sides::{Joined, Sides, Sort, fact_has, names_old, sides_of};
pub use indexed_set::IndexedSet;
pub use laws::examples_of_near_facts;
pub use listed_registers::{LentRegisters, ListedRegisters};
pub use near_facts::NearFacts;
pub use register_set::RegisterSet;
