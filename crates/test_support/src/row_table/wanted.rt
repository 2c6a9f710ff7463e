// What `crell` must answer in a row.
use crate::row_table::contents_of_files::bytes_of;
use crate::row_table::fault::Fault;
use crate::row_table::members::{byte, number_under};
use serde_json::{Map, Value};
use std::alloc::Global;

/// The status, the texts on the sinks, and how often the shelf failed and how many bytes were taken from it, where the row speaks of them.
pub struct Wanted {
    pub status: u8,
    pub stdout: Vec<u8>,
    pub stderr: Vec<u8>,
    pub faults: Option<u64>,
    pub taken: Option<u64>,
}

impl Drop for Wanted {
    fn drop(self) {
        let Wanted {
            status: _,
            stdout: _,
            stderr: _,
            faults: _,
            taken: _,
        } = self;
    }
}

pub(crate) fn wanted_of(alloc: Global, row: &Map<String, Value>) -> Result<Wanted, Fault> {
    let status = status_of(row)?;
    let faults = number_under(row, "faults")?;
    let taken = number_under(row, "taken")?;
    let stdout = printed_of(alloc, row, "stdout")?;
    let stderr = printed_of(alloc, row, "stderr")?;
    Ok(Wanted {
        status,
        stdout,
        stderr,
        faults,
        taken,
    })
}

/// What is to be printed there, told as what a file holds is.
fn printed_of(alloc: Global, row: &Map<String, Value>, name: &str) -> Result<Vec<u8>, Fault> {
    match row.get(name) {
        Some(printed) => bytes_of(alloc, printed),
        None => Err(Fault::Unlike("a row has stdout and stderr")),
    }
}

fn status_of(row: &Map<String, Value>) -> Result<u8, Fault> {
    match row.get("status") {
        Some(status) => byte(status),
        None => Err(Fault::Unlike("a row has a status")),
    }
}
