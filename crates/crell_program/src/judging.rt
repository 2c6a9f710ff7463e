ghost use Rattle.std.specs.Prelude.{◌≡◌, IfOk};
ghost use Rattle.ir_core.specs.WellFormed.{HasShape};
ghost use Rattle.ir_machine.specs.Refinement.{Refines};
ghost use Rattle.erhl_assert.specs.Acceptance.{module_answer};
ghost use Rattle.crell_program.specs.PairAnswer.{pair_answer};
ghost use Rattle.rule_base.specs.Book.{meanings_of, rules_of};
ghost use Rattle.crell_program.specs.CommandLine.Words.{shown_names};
ghost use Rattle.crell_program.specs.Due.{checked, DueOfCheck};
ghost use Rattle.crell_program.specs.Statuses.{AreRefined};

use crate::command_line::FileNames;
use crate::crell_answers::{Answer, module_fault, past_limit, unfit, verdict_answer};
use erhl_assert::Hints;
use erhl_checker::{CheckEnd, check_module};
use erhl_soundness::shapes_keep_phis_apart;
use hint_format::{HintFault, read_hints, settled_hints};
use ir_core::Module;
use ir_reader::read_well_formed;
use rule_base::{InferRule, RuleBook};
use std::alloc::{AllocError, Global};

/// Judges a pair of modules by a book of rules, as `check` does: `source` and `target` are the bytes of modules' texts, and `hints`
/// those of a hint file. The names are those of their files, for the texts of the answer alone.
///
/// The first cause decides: the source, the target, the hints, then the pair. The answer's status is 0 where the target is valid, 1
/// where it is refused, 3 or 4 at a module's first fault, 5 at the hints' first fault, and 9 where a limit is passed. A verdict is told on
/// out and anything else on err, each by one line; the other text is empty. It is an error only where memory is refused.
pub fn judge_pair(
    alloc: Global,
    names: &FileNames<'_>,
    rules: &RuleBook,
    source: &[u8],
    target: &[u8],
    hints: &[u8],
) -> Result<Answer, AllocError>
    // The answer is the one that is due to the three texts.
    ensures due { IfOk result
        (λ answer. DueOfCheck
        (meanings_of
        (λ b. (⟦<dyn InferRule as InferRule>⟧ b.vtable).called b.value)
        (λ b. (⟦<dyn InferRule as InferRule>⟧ b.vtable).takes b.value)
        rules.now.rules.items)
        (shown_names names.now) answer source.now target.now hints.now) }
    // Where its status is 0, the bytes that were given spell modules of which the target's refines the source's.
    ensures refines { IfOk result (λ answer. answer.status ≡ 0 → AreRefined source.now target.now) }
{
    let source_module = match read_well_formed(alloc, source) {
        Ok(module) => module,
        Err(fault) => return module_fault(alloc, &fault, source, names.source),
    };
    let target_module = match read_well_formed(alloc, target) {
        Ok(module) => module,
        Err(fault) => return module_fault(alloc, &fault, target, names.target),
    };
    let hints = match read_hints(alloc, hints) {
        Ok(hints) => hints,
        Err(HintFault::Memory) => return Err(AllocError),
        Err(HintFault::Unfit(path)) => return unfit(alloc, path.as_slice(), names.hints),
        Err(HintFault::Limit(limit)) => return past_limit(alloc, limit, names.hints),
    };
    judge(
        alloc,
        names.source,
        &source_module,
        &target_module,
        &hints,
        rules,
    )
}

/// The checker's verdict on two modules, the first of which stands in that file, where addresses in the hints point to what their indices
/// lead to.
fn judge(
    alloc: Global,
    file: &str,
    source: &Module,
    target: &Module,
    hints: &Hints,
    rules: &RuleBook,
) -> Result<Answer, AllocError>
    requires source { HasShape source.now }
    requires target { HasShape target.now }
    ensures verdict { IfOk result
        (λ answer. answer ≡ checked
        (pair_answer (rules_of called takes rules.now) source.now target.now hints.now) file.now) }
    ensures refines { IfOk result (λ answer. answer.status ≡ 0 → Refines source.now target.now) }
{
    let settled = settled_hints(alloc, &source.types, hints)?;
    judge_settled(alloc, file, source, target, &settled, rules)
}

/// The same where the hints are settled beside the source.
fn judge_settled(
    alloc: Global,
    file: &str,
    source: &Module,
    target: &Module,
    hints: &Hints,
    rules: &RuleBook,
) -> Result<Answer, AllocError>
    requires source { HasShape source.now }
    requires target { HasShape target.now }
    ensures verdict { IfOk result
        (λ answer. answer ≡ checked
        (module_answer (rules_of called takes rules.now) source.now target.now hints.now) file.now) }
    ensures refines { IfOk result (λ answer. answer.status ≡ 0 → Refines source.now target.now) }
{
    shapes_keep_phis_apart();
    match check_module(alloc, source, target, hints, rules) {
        Ok(verdict) => verdict_answer(alloc, &verdict),
        Err(CheckEnd::Limit(limit)) => past_limit(alloc, limit, file),
        Err(CheckEnd::Memory) => Err(AllocError),
    }
}
