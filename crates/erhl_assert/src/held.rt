ghost use Rattle.std.specs.Prelude.{◌≡◌, true, IfOk, IfSome, IfNone};
ghost use Rattle.erhl_assert.specs.Held.{bare, hint_held};

use crate::HintBlock;
use contents::Boxed;
use ir_core::Name;
use std::alloc::{AllocError, Global};
use std::marker::Model;

/// How the hint of a block is held: by the block's name alone, where it says nothing more.
enum Held {
    Bare(Name),
    Whole(Boxed<HintBlock>),
}

impl Drop for Held {
    fn drop(self) {
        match self {
            Held::Bare(_) => {}
            Held::Whole(_) => {}
        }
    }
}

/// The hint of one block, in little room where it says nothing of it. Contracts see the hint.
pub struct HeldBlock {
    held: Held,
}

impl Drop for HeldBlock {
    fn drop(self) {
        let HeldBlock { held: _ } = self;
    }
}

impl Model for HeldBlock {
    ghost use Rattle.std.specs.Coded.{codes};
    ghost use Rattle.erhl_assert.specs.declared.hints.HintBlock.{HintBlock};
    ghost use Rattle.erhl_assert.specs.Held.{hint_held};
    ghost use Rattle.ir_core.specs.contracts.operands.Const as constant;
    ghost use Rattle.ir_types.specs.contracts.ty.Ty as ty;

    ghost Value = { HintBlock };

    ghost coded = { Prim.hlevel (codes, ty.the_row.coded, constant.the_row.coded) };

    ghost view = { λ it. hint_held it.held };
}

fn is_bare(hint: &HintBlock) -> bool
    ensures { result ≡ true → hint.now ≡ bare hint.now.at }
{
    hint.lines.is_none()
        && hint.entry.src.is_empty()
        && hint.entry.tgt.is_empty()
        && hint.entry.diff.is_empty()
        && hint.steps.is_empty()
        && hint.edges.is_empty()
}

impl HeldBlock {
    pub fn new(alloc: Global, hint: HintBlock) -> Result<HeldBlock, AllocError>
        ensures { IfOk result (λ held. held ≡ hint) }
    {
        let held = if is_bare(&hint) {
            Held::Bare(hint.into_name())
        } else {
            Held::Whole(Boxed::new(alloc, hint)?)
        };
        Ok(HeldBlock { held })
    }

    /// The block's name.
    pub fn name(&self) -> &Name
        ensures { result.now ≡ self.now.at }
    {
        match &self.held {
            Held::Bare(name) => name,
            Held::Whole(hint) => &hint.get().at,
        }
    }

    /// The hint, if it says more than the block's name.
    pub fn whole(&self) -> Option<&HintBlock>
        ensures some { IfSome result (λ hint. hint.now ≡ self.now) }
        ensures none { IfNone result (self.now ≡ bare self.now.at) }
    {
        match &self.held {
            Held::Bare(_) => None,
            Held::Whole(hint) => Some(hint.get()),
        }
    }
}
