// A row, an object of JSON.
//
// | Member | What it is |
// |---|---|
// | `name` | what the row shows |
// | `words` | the words; without them `crell check a.ll b.ll h.json` |
// | `files` | what the shelf holds under each name (`contents_of_files.rt`) |
// | `failing_gets` | the calls of the shelf that fail, counted from 0 |
// | `out`, `err` | how the sinks take bytes: `room` in all, at `most` a call, and the calls `failing`, counted from 0; without a plan all at once |
// | `status`, `stdout`, `stderr` | what is expected; the two texts are told as what a file holds is |
// | `faults`, `taken` | how often the shelf failed, and how many bytes were taken from it, where the row speaks of them |
//
// `name`, `status`, `stdout` and `stderr` must be there. A member that isn't named here is an error.
use crate::row_table::fault::Fault;
use crate::row_table::given::{Given, Plan, given_of, plan_of};
use crate::row_table::members::{members_among, text_of};
use crate::row_table::wanted::{Wanted, wanted_of};
use serde_json::{Map, Value};
use std::alloc::Global;

const MEMBERS: [&str; 11] = [
    "name",
    "words",
    "files",
    "failing_gets",
    "out",
    "err",
    "status",
    "stdout",
    "stderr",
    "faults",
    "taken",
];

/// What `crell` is given, how the sinks take bytes, and what is expected.
pub struct Row {
    pub given: Given,
    pub out: Plan,
    pub err: Plan,
    pub wanted: Wanted,
}

impl Drop for Row {
    fn drop(self) {
        let Row {
            given: _,
            out: _,
            err: _,
            wanted: _,
        } = self;
    }
}

/// The row that a value is.
pub(crate) fn row_of(alloc: Global, value: &Value) -> Result<Row, Fault> {
    let members = members_among(value, &MEMBERS)?;
    text_of(members, "name")?;
    row_among(alloc, members)
}

fn row_among(alloc: Global, members: &Map<String, Value>) -> Result<Row, Fault> {
    let wanted = wanted_of(alloc, members)?;
    let out = plan_of(alloc, members, "out")?;
    let err = plan_of(alloc, members, "err")?;
    let given = given_of(alloc, members)?;
    Ok(Row {
        given,
        out,
        err,
        wanted,
    })
}
