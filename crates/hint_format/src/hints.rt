ghost use Rattle.std.specs.Prelude.{◌≡◌, IfOk, IfErr};
ghost use Rattle.erhl_assert.specs.declared.hints.Hints.{Hints};
ghost use Rattle.json_forms.specs.Answers.{Answers, AnswersBytes};
ghost use Rattle.json_forms.specs.declared.failure.Fault.{Fault};
ghost use Rattle.hint_format.specs.Faults.{told_fault};
ghost use Rattle.hint_format.specs.Form.{HintsOf, IsHintFault, first_format, format_form, function_form, hints_form, key_form};
ghost use Rattle.hint_format.specs.Reading.{read_leaves};

use crate::HintFault;
use crate::blocks::BlockForm;
use crate::fault::hint_fault;
use crate::texts::NameText;
use erhl_assert::{FunctionHint, Hint, Hints};
use ir_core::Sigil;
use json_forms::{
    EntryForm, Failure, Form, MapOf, RowsOf, TextForm, Value, has_members, member, read_bytes,
    unfit,
};
use std::alloc::Global;

/// The hints of a file that has the form, or what is first at fault in it.
pub fn read_hints(alloc: Global, text: &[u8]) -> Result<Hints, HintFault>
    ensures ok { IfOk result (HintsOf text.now) }
    // The file has no other hints.
    ensures only { IfOk result (λ hints. (other : Hints) → HintsOf text.now other → other ≡ hints) }
    ensures fault { IfErr result (λ it. (fault : Fault) → it ≡ told_fault fault → IsHintFault text.now fault) }
    // A file with a fault has no hints, and no other fault is first.
    ensures refused { IfErr result (λ it. (fault : Fault) → it ≡ told_fault fault
        → (hints : Hints) → ¬ HintsOf text.now hints) }
{
    match read_bytes(alloc, text, &HintsForm) {
        Ok(hints) => Ok(hints),
        Err(failure) => Err(hint_fault(failure)),
    }
}

/// A whole file.
#[derive(Drop)]
struct HintsForm;

impl Form for HintsForm {
    type Value = Hints;

    ghost form = { λ _. hints_form read_leaves };

    fn read(&self, alloc: Global, value: &Value<'_>) -> Result<Hints, Failure> {
        if !has_members(value, &["format", "functions"], &[]) {
            return Err(unfit(alloc));
        }
        member(alloc, value, "format", &FirstFormat)?;
        let functions = member(alloc, value, "functions", &MapOf(FunctionForm))?;
        Ok(Hints { functions })
    }
}

/// The number 1.
#[derive(Drop)]
struct FirstFormat;

impl Form for FirstFormat {
    type Value = ();

    ghost form = { λ _. format_form };

    fn read(&self, alloc: Global, value: &Value<'_>) -> Result<(), Failure> {
        match value.as_u64() {
            Some(1) => Ok(()),
            _ => Err(unfit(alloc)),
        }
    }
}

/// A function's name, and the hints of its blocks.
#[derive(Drop)]
struct FunctionForm;

impl EntryForm for FunctionForm {
    type Value = FunctionHint;

    ghost key_form = { λ _. key_form read_leaves };

    ghost entry_form = { λ _. function_form read_leaves };

    fn test_key(&self, alloc: Global, key: &str) -> Result<(), Failure> {
        let sigil = Sigil::Global;
        NameText { sigil }.read_text(alloc, key)?;
        Ok(())
    }

    fn read_entry(
        &self,
        alloc: Global,
        key: &str,
        value: &Value<'_>,
    ) -> Result<FunctionHint, Failure> {
        let sigil = Sigil::Global;
        let function = NameText { sigil }.read_text(alloc, key)?;
        if !has_members(value, &["blocks"], &[]) {
            return Err(unfit(alloc));
        }
        let blocks = member(alloc, value, "blocks", &RowsOf(BlockForm))?;
        Ok(FunctionHint {
            function,
            hint: Hint { blocks },
        })
    }
}
