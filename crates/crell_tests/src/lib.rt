//! Tests of what no contract and no run of the built program shows: of texts (`text_tests`), of values, the machine and graphs
//! (`logic_tests`), of the system's shelf and sink (`io_tests`), of analyses as a user brings them (`flow_tests`), and of runs over a shelf
//! and sinks in memory (`rows`). What they stand on is in `test_support`.
#![tactic(auto)]

mod flow_tests;
mod io_tests;
mod logic_tests;
mod rows;
mod text_tests;
