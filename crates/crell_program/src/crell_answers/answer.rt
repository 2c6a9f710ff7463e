ghost use Rattle.std.specs.Prelude.{◌≡◌, ◌++◌, [], IfOk, OnOk, codes};
ghost use Rattle.crell_program.specs.CrellAnswers.Answer as answer;

use contents::Seq;
use ir_core::Limit;
use std::alloc::{AllocError, Global};

/// What the program answers: its status, and the texts for its two sinks.
pub struct Answer {
    pub status: u8,
    pub out: Seq<u8>,
    pub err: Seq<u8>,
}

impl Drop for Answer {
    fn drop(self) {
        let Answer {
            status: _,
            out: _,
            err: _,
        } = self;
    }
}

/// A text, printed whole.
pub fn printed(alloc: Global, text: Vec<u8>) -> Answer
    ensures { result ≡ answer.printed text.items }
{
    Answer {
        status: 0,
        out: Seq::from_vec(text),
        err: Seq::new(alloc),
    }
}

/// What is first at fault in a hint file stands at that place.
pub fn unfit(alloc: Global, path: &[u8], file: &str) -> Result<Answer, AllocError>
    ensures { IfOk result (λ a. a ≡ answer.unfit path.now file.now) }
{
    let mut what = Vec::from_slice(alloc, b": at ")?;
    what.extend_from_slice(path)?;
    fault(alloc, 5, file, what.as_slice())
}

/// Reading a file failed.
pub fn read_failed(alloc: Global, file: &str) -> Result<Answer, AllocError>
    ensures { IfOk result (λ a. a ≡ answer.read_failed file.now) }
{
    fault(alloc, 6, file, b": read failed")
}

/// A file, or a text in it, passes a limit.
pub fn past_limit(alloc: Global, limit: Limit, file: &str) -> Result<Answer, AllocError>
    ensures { IfOk result (λ a. a ≡ answer.past_limit limit file.now) }
{
    let mut what = Vec::from_slice(alloc, b": limit ")?;
    what.extend_from_slice(limit.name().as_bytes())?;
    fault(alloc, 9, file, what.as_slice())
}

/// The shelf holds no file of that name.
pub fn absent(alloc: Global, file: &str) -> Result<Answer, AllocError>
    ensures { IfOk result (λ a. a ≡ answer.absent file.now) }
{
    fault(alloc, 10, file, b": absent")
}

/// A refusal: nothing on out, and on err the file and what is wrong with it.
pub fn fault(alloc: Global, status: u8, file: &str, what: &[u8]) -> Result<Answer, AllocError>
    ensures { IfOk result (λ a. a ≡ answer.fault_of status file.now what.now) }
{
    let mut err = Vec::from_slice(alloc, file.as_bytes())?;
    err.extend_from_slice(what)?;
    err.push(b'\n')?;
    Ok(Answer {
        status,
        out: Seq::new(alloc),
        err: Seq::from_vec(err),
    })
}
