// A table of rows.
ghost use Rattle.std.specs.Prelude.{◌≡◌, IfOk, IsErr, None, Some, is_some, true};
ghost use Rattle.serde_json.specs.Find.{at, as_array};
ghost use Rattle.serde_json.specs.Read.{read};
ghost use Rattle.serde_json.specs.View.{view};
ghost use Rattle.test_support.specs.RowTable.Tables.{count_rows, name_of_row};

use crate::row_table::fault::Fault;
use crate::row_table::row::{Row, row_of};
use crate::row_table::twice::gives_twice;
use serde_json::Value;
use std::alloc::Global;

/// An array of JSON. Its rows are read one at a time, since what their files hold may be long.
pub struct Table {
    pub rows: Value,
}

impl Drop for Table {
    fn drop(self) {
        let Table { rows: _ } = self;
    }
}

impl Table {
    /// The table that a text is. What isn't JSON, isn't an array or has a member twice is an error.
    pub fn read(alloc: Global, text: &str) -> Result<Table, Fault>
        // Want of memory says nothing of the text.
        ensures read { IfOk result (λ table. read text.now ≡ Some (view table.rows)) }
        ensures array { IfOk result (λ table. is_some (as_array (view table.rows)) ≡ true) }
    {
        let table = table_of(alloc, text)?;
        test_rows(alloc, text, &table.rows)?;
        Ok(table)
    }

    /// How many rows it has.
    pub fn len(&self) -> usize
        ensures { result ≡ count_rows (view self.now.rows) }
    {
        match self.rows.as_array() {
            Some(rows) => rows.len(),
            None => 0,
        }
    }

    /// The row at that place.
    pub fn row(&self, alloc: Global, place: usize) -> Result<Row, Fault>
        ensures absent { at place (view self.now.rows) ≡ None → IsErr result }
    {
        match self.rows.get(place) {
            Some(row) => row_of(alloc, row),
            None => Err(Fault::Unlike("there is no such row")),
        }
    }

    /// What the row at that place shows, also where it can't be read.
    pub fn name(&self, place: usize) -> &str
        ensures { result.now ≡ name_of_row (at place (view self.now.rows)) }
    {
        match self.rows.get(place) {
            Some(row) => name_of(row),
            None => NO_NAME,
        }
    }
}

const NO_NAME: &str = "a row without a name";

fn name_of(row: &Value) -> &str
    ensures { result.now ≡ name_of_row (Some (view row.now)) }
{
    match row.get("name") {
        Some(Value::String(name)) => name.as_str(),
        _ => NO_NAME,
    }
}

fn table_of(alloc: Global, text: &str) -> Result<Table, Fault>
    ensures { IfOk result (λ table. read text.now ≡ Some (view table.rows)) }
{
    match Value::from_str(alloc, text) {
        Ok(rows) => Ok(Table { rows }),
        Err(_) => Err(Fault::Unlike("it can't be read as JSON")),
    }
}

fn test_rows(alloc: Global, text: &str, rows: &Value) -> Result<(), Fault>
    ensures { IfOk result (λ _. is_some (as_array (view rows.now)) ≡ true) }
{
    if !rows.is_array() {
        return Err(Fault::Unlike("it isn't an array of rows"));
    }
    if gives_twice(alloc, text, rows)? {
        return Err(Fault::Unlike("a member is given twice"));
    }
    Ok(())
}
