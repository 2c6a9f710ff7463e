//! Tables of rows, read from JSON: what `crell` is given in each row, and what it must answer.
//!
//! A table is an array of rows (`row_table/row.rt`). A row that can't be read is an error, which the caller tells.

mod contents_of_files;
mod fault;
mod given;
mod members;
mod row;
mod table;
mod twice;
mod wanted;

pub use fault::Fault;
pub use given::{File, Given, Plan};
pub use row::Row;
pub use table::Table;
pub use wanted::Wanted;
