// What `crell` is given in a row: the words, the files, and how the sinks take bytes.
use crate::row_table::contents_of_files::bytes_of;
use crate::row_table::fault::Fault;
use crate::row_table::members::{members_among, number_under, numbers_of, push};
use serde_json::{Map, Value};
use std::alloc::{AllocError, Global};

const MEMBERS_OF_PLAN: [&str; 3] = ["room", "most", "failing"];

/// How many bytes a sink takes where a row doesn't say.
const ROOM: u64 = 65536;

/// The words where a row doesn't say.
const CHECK: [&str; 5] = ["crell", "check", "a.ll", "b.ll", "h.json"];

/// A file of the shelf.
#[derive(Drop)]
pub struct File {
    pub name: String,
    pub bytes: Vec<u8>,
}

/// The words, what the shelf holds, and its calls that fail, counted from 0.
pub struct Given {
    pub words: Vec<String>,
    pub files: Vec<File>,
    pub failing_gets: Vec<u64>,
}

impl Drop for Given {
    fn drop(self) {
        let Given {
            words: _,
            files: _,
            failing_gets: _,
        } = self;
    }
}

/// How many bytes a sink takes in all, how many a call (at least one), and its calls that fail, counted from 0.
pub struct Plan {
    pub room: u64,
    pub most: u64,
    pub failing: Vec<u64>,
}

impl Drop for Plan {
    fn drop(self) {
        let Plan {
            room: _,
            most: _,
            failing: _,
        } = self;
    }
}

pub(crate) fn given_of(alloc: Global, row: &Map<String, Value>) -> Result<Given, Fault> {
    let failing_gets = numbers_of(alloc, row, "failing_gets")?;
    let words = words_of(alloc, row.get("words"))?;
    let files = files_of(alloc, row.get("files"))?;
    Ok(Given {
        words,
        files,
        failing_gets,
    })
}

fn files_of(alloc: Global, files: Option<&Value>) -> Result<Vec<File>, Fault> {
    match files {
        None => Ok(Vec::new(alloc)),
        Some(Value::Object(files)) => files_among(alloc, files),
        Some(_) => Err(Fault::Unlike("the files stand under their names")),
    }
}

fn files_among(alloc: Global, members: &Map<String, Value>) -> Result<Vec<File>, Fault> {
    let mut files = Vec::new(alloc);
    for (name, value) in members.iter() {
        push_file(alloc, &mut files, name, value)?;
    }
    Ok(files)
}

fn push_file(
    alloc: Global,
    files: &mut Vec<File>,
    name: &String,
    value: &Value,
) -> Result<(), Fault> {
    Ok(push(files, file_of(alloc, name, value)?)?)
}

fn file_of(alloc: Global, name: &String, value: &Value) -> Result<File, Fault> {
    let bytes = bytes_of(alloc, value)?;
    let name = name.clone()?;
    Ok(File { name, bytes })
}

fn words_of(alloc: Global, words: Option<&Value>) -> Result<Vec<String>, Fault> {
    match words {
        None => Ok(usual_words(alloc)?),
        Some(Value::Array(words)) => words_among(alloc, words),
        Some(_) => Err(Fault::Unlike("the words are a list of texts")),
    }
}

fn usual_words(alloc: Global) -> Result<Vec<String>, AllocError> {
    let mut words = Vec::new(alloc);
    for word in CHECK {
        push(&mut words, String::from_str(alloc, word)?)?;
    }
    Ok(words)
}

fn words_among(alloc: Global, values: &[Value]) -> Result<Vec<String>, Fault> {
    let mut words = Vec::new(alloc);
    for value in values {
        push(&mut words, word_of(value)?)?;
    }
    Ok(words)
}

fn word_of(value: &Value) -> Result<String, Fault> {
    match value {
        Value::String(word) => Ok(word.clone()?),
        _ => Err(Fault::Unlike("the words are a list of texts")),
    }
}

/// The plan under that name; all at once where there is no such member.
pub(crate) fn plan_of(alloc: Global, row: &Map<String, Value>, name: &str) -> Result<Plan, Fault> {
    match row.get(name) {
        None => Ok(Plan {
            room: ROOM,
            most: ROOM,
            failing: Vec::new(alloc),
        }),
        Some(plan) => plan_among(alloc, members_among(plan, &MEMBERS_OF_PLAN)?),
    }
}

fn plan_among(alloc: Global, plan: &Map<String, Value>) -> Result<Plan, Fault> {
    let room = number_under(plan, "room")?.unwrap_or(ROOM);
    let most = most_of(plan)?;
    let failing = numbers_of(alloc, plan, "failing")?;
    Ok(Plan {
        room,
        most,
        failing,
    })
}

fn most_of(plan: &Map<String, Value>) -> Result<u64, Fault> {
    match number_under(plan, "most")? {
        None => Ok(ROOM),
        Some(0) => Err(Fault::Unlike("a sink takes at least a byte a call")),
        Some(most) => Ok(most),
    }
}
