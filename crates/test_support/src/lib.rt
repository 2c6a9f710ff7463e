//! What tests stand on: analyses as a user of `flow_solver` brings them (`analyses`), and tables of rows that are run over a shelf and sinks
//! in memory (`row_table`). It is apart from the tests, so that it is proved once.
#![tactic(auto)]

mod analyses;
mod row_table;

pub use analyses::{Act, Effect, Gathered, Known, Marks, Reached, Sign, Signs, Small, is_same};
pub use row_table::{Fault, File, Given, Plan, Row, Table, Wanted};
