//! Two functions beside a module, with what is looked up of them by its name.
ghost use Rattle.std.specs.Prelude.{◌≡◌};
ghost use Rattle.std.specs.Coded.{codes};
ghost use Rattle.ir_types.specs.contracts.ty.Ty as ty;
ghost use Rattle.ir_core.specs.contracts.operands.Const as constant;
ghost use Rattle.erhl_assert.specs.Alignment.{no_facts};
ghost use Rattle.erhl_checker.specs.CheckedPair.Empty.{IsEmpty};

use crate::function_lookup::FunctionIndex;
use crate::hint_lists::ListedBlock;
use contents::Seq;
use erhl_assert::{Assertion, HintBlock};
use fact_sets::{IndexedSet, Sides};
use ir_core::{Module, Name};
use line_align::ByName;
use rule_base::RuleBook;
use std::alloc::{AllocError, Global};

/// A hint of a block that says nothing, and that nothing is known.
pub(crate) struct Empty<'l, 'a> {
    pub(crate) hint: HintBlock,
    pub(crate) nothing: Sides<'l, 'a, IndexedSet>,
    ghost empty: { IsEmpty hint } by { Prim.hlevel (codes, ty.the_row.coded, constant.the_row.coded) },
    ghost none: { nothing ≡ no_facts },
}

impl<'l, 'a> Drop for Empty<'l, 'a> {
    fn drop(self) {
        let Empty {
            hint: _,
            nothing: _,
        } = self;
    }
}

impl<'l, 'a> Empty<'l, 'a> {
    pub(crate) fn new(alloc: Global) -> Result<Empty<'l, 'a>, AllocError> {
        let hint = HintBlock {
            at: Name::Number(0),
            lines: None,
            entry: Assertion {
                src: Seq::new(alloc),
                tgt: Seq::new(alloc),
                diff: Seq::new(alloc),
            },
            steps: Seq::new(alloc),
            edges: Seq::new(alloc),
        };
        let nothing = Sides::empty(alloc)?;
        Ok(Empty { hint, nothing })
    }
}

/// What a check of two functions is asked of: rules, a module, the functions and the blocks of their hint.
pub struct Pair<'a, 's, 't, 'h, 'l> {
    pub(crate) module: &'a Module,
    pub(crate) book: &'a RuleBook,
    pub(crate) source: FunctionIndex<'s, 'a>,
    pub(crate) target: FunctionIndex<'t, 'a>,
    pub(crate) hints: ByName<'h, ListedBlock<'l, 'a>>,
    pub(crate) empty: Empty<'l, 'a>,
}

impl<'a, 's, 't, 'h, 'l> Drop for Pair<'a, 's, 't, 'h, 'l> {
    fn drop(self) {
        let Pair {
            module: _,
            book: _,
            source: _,
            target: _,
            hints: _,
            empty: _,
        } = self;
    }
}
