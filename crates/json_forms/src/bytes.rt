ghost use Rattle.std.specs.Prelude.{◌≡◌, ◌⊎◌, IfOk, IfErr};
ghost use Rattle.json_forms.specs.JsonValues.View.{view};
ghost use Rattle.json_forms.specs.Answers.{AnswersBytes, IsJson, IsNoJson};
ghost use Rattle.json_forms.specs.Faults.{here};
ghost use Rattle.json_forms.specs.declared.failure.Failure.TheVariants as failure;

use crate::json_values::{ReadEnd, Scratch, Value, read};
use crate::{Failure, Form, unfit};
use std::alloc::Global;

/// A value that is let go by one call.
struct Parsed<'a> {
    json: Value<'a>,
}

impl<'a> Drop for Parsed<'a> {
    fn drop(self) {
        let Parsed { json: _ } = self;
    }
}

fn parse<'a>(
    alloc: Global,
    bytes: &'a [u8],
    scratch: &'a mut Scratch,
) -> Result<Parsed<'a>, Failure>
    ensures ok { IfOk result (λ parsed. IsJson bytes.now (view parsed.json)) }
    ensures err { IfErr result (λ it. it ≡ failure.Memory ⊎ ((it ≡ failure.Form here) × IsNoJson bytes.now)) }
{
    match read(alloc, bytes, scratch) {
        Ok(json) => Ok(Parsed { json }),
        Err(ReadEnd::NoJson) => Err(unfit(alloc)),
        Err(ReadEnd::Memory) => Err(Failure::Memory),
    }
}

/// What a file's bytes are, as a value of that form.
pub fn read_bytes<F: Form>(alloc: Global, bytes: &[u8], form: &F) -> Result<F::Value, Failure>
    ensures { AnswersBytes result (F.form form.now) bytes.now }
{
    let mut scratch = Scratch::new(alloc);
    let parsed = parse(alloc, bytes, &mut scratch)?;
    form.read(alloc, &parsed.json)
}
