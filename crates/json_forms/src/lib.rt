//! Forms of JSON values: what a value of a form means, or the place of what is first at fault in it.
//!
//! `specs/Forms.antt` has the parts that forms are made of, `specs/Faults.antt` the places, `specs/Answers.antt` what a reader answers.
//! A format is made of these parts twice, once as a definition and once as an `impl` of a trait of forms, line by line alike.
//!
//! `json_values` has the values: what `serde_json` reads a text as, in little room.
#![tactic(auto)]

mod bytes;
mod failure;
mod form;
mod json_values;
mod leaves;
mod lists;
mod maps;
mod members;
mod path;

pub use bytes::read_bytes;
pub use failure::{Failure, Fault, unfit};
pub use form::{EntryForm, Form, RowForm, TextForm};
pub use json_values::Value;
pub use leaves::{Text, U64};
pub use lists::{ListOf, RowsOf};
pub use maps::MapOf;
pub use members::{has_members, item, item_count, member, optional, optional_list};
pub use path::{under_index, under_key};
