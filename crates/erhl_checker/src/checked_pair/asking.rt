//! What is looked up of two functions and of their hint.
ghost use Rattle.std.specs.Prelude.{◌≡◌, IfOk};
ghost use Rattle.ir_machine.specs.State.{scope_of};
ghost use Rattle.erhl_assert.specs.Alignment.{block_hint, no_facts};
ghost use Rattle.erhl_assert.specs.Edges.{phis_at};
ghost use Rattle.erhl_assert.specs.Steps.{beside, rule_named};
ghost use Rattle.rule_base.specs.Book.{answer_of, rules_of};
ghost use Rattle.erhl_checker.specs.CheckedPair.Asked.{asked};
ghost use Rattle.erhl_checker.specs.CheckedPair.Empty.{AreParts};

use crate::checked_pair::pair::{Empty, Pair};
use crate::function_lookup::FunctionIndex;
use crate::hint_lists::ListedBlock;
use contents::Seq;
use erhl_assert::{HintBlock, Schema};
use fact_sets::{IndexedSet, LentRegisters, Sides};
use ir_core::{Function, Module, Name};
use line_align::ByName;
use postcondition::Phis;
use rule_base::{Fitness, RuleBook};
use std::alloc::{AllocError, Global};

impl<'a, 's, 't, 'h, 'l> Pair<'a, 's, 't, 'h, 'l> {
    #[tactic(auto, unfolding(crate::specs::CheckedPair::Asked::asked))]
    pub fn new(
        alloc: Global,
        module: &'a Module,
        book: &'a RuleBook,
        source: FunctionIndex<'s, 'a>,
        target: FunctionIndex<'t, 'a>,
        hints: ByName<'h, ListedBlock<'l, 'a>>,
    ) -> Result<Pair<'a, 's, 't, 'h, 'l>, AllocError>
        ensures { IfOk result
            (λ pair. asked called takes pair
            ≡ beside (rules_of called takes book.now) (scope_of «module».now) source.entry target.entry (record { blocks = hints.entry })) }
    {
        let empty = Empty::new(alloc)?;
        Ok(Pair {
            module,
            book,
            source,
            target,
            hints,
            empty,
        })
    }

    /// The module beside which they are checked.
    #[tactic(auto, unfolding(crate::specs::CheckedPair::Asked::asked))]
    pub fn enclosing_module(&self) -> &'a Module
        ensures { scope_of result.now ≡ (asked called takes self.now).scope }
    {
        self.module
    }

    /// The source.
    #[tactic(auto, unfolding(crate::specs::CheckedPair::Asked::asked))]
    pub fn source_function(&self) -> &'a Function
        ensures { result.now ≡ (asked called takes self.now).source }
    {
        self.source.function()
    }

    /// The hint of the block: the first of its name, or an empty one.
    #[tactic(auto, unfolding(crate::specs::CheckedPair::Asked::asked))]
    pub fn hint_of(&self, block: &Name) -> &HintBlock
        ensures { AreParts result.now (block_hint (asked called takes self.now).hint block.now) }
    {
        match self.hints.first(block) {
            Some(held) => match held.whole() {
                Some(hint) => hint,
                None => &self.empty.hint,
            },
            None => &self.empty.hint,
        }
    }

    /// The registers that the hint says may differ where the block begins.
    #[tactic(auto, unfolding(crate::specs::CheckedPair::Asked::asked))]
    pub fn list_of(&self, block: &Name) -> LentRegisters<'l, 'a>
        ensures { result ≡ (block_hint (asked called takes self.now).hint block.now).entry.diff }
    {
        let Some(held) = self.hints.first(block) else {
            return LentRegisters::none();
        };
        held.list()
    }

    /// Nothing is known.
    pub fn nothing(&self) -> &Sides<'l, 'a, IndexedSet>
        ensures { result.now ≡ no_facts }
    {
        &self.empty.nothing
    }

    /// The phis of the source's block of that name.
    #[tactic(auto, unfolding(crate::specs::CheckedPair::Asked::asked))]
    pub fn source_phis(&self, block: &Name) -> &Phis<'a>
        ensures { result.now ≡ phis_at block.now (asked called takes self.now).source }
    {
        self.source.phis_of(block)
    }

    /// The phis of the target's block of that name.
    #[tactic(auto, unfolding(crate::specs::CheckedPair::Asked::asked))]
    pub fn target_phis(&self, block: &Name) -> &Phis<'a>
        ensures { result.now ≡ phis_at block.now (asked called takes self.now).target }
    {
        self.target.phis_of(block)
    }

    /// The source with what is looked up of it.
    #[tactic(auto, unfolding(crate::specs::CheckedPair::Asked::asked))]
    pub fn source(&self) -> &FunctionIndex<'s, 'a>
        ensures { result.now ≡ (asked called takes self.now).source }
    {
        &self.source
    }

    /// The target with what is looked up of it.
    #[tactic(auto, unfolding(crate::specs::CheckedPair::Asked::asked))]
    pub fn target(&self) -> &FunctionIndex<'t, 'a>
        ensures { result.now ≡ (asked called takes self.now).target }
    {
        &self.target
    }

    /// Whether the rule of that name takes the schema.
    #[tactic(auto, unfolding(crate::specs::CheckedPair::Asked::asked))]
    pub fn ask(&self, rule: &Seq<u8>, schema: &Schema) -> Fitness
        ensures { result ≡ answer_of (rule_named (asked called takes self.now).rules rule.now) (asked called takes self.now).scope schema.now }
    {
        self.book.ask(rule, self.module, schema)
    }
}
