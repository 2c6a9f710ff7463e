ghost use Rattle.std.specs.Prelude.{◌≡◌, ℕ, List, [], ◌∷◌, ◌++◌, take, IfOk, IfSome, MatchBool, MatchOption};
ghost use Rattle.predictive.specs.Frames.{framed};
ghost use Rattle.predictive.specs.Grammar.{Forest, Forms, yield, after_some, after_trees, IsFirstFault};
ghost use Rattle.predictive.specs.Moves.{IsMet, IsStuck, wanted};
ghost use Rattle.predictive.specs.Predictive.{IsFollowed, MayEnd, at_end};
ghost use Rattle.predictive.specs.declared.symbol.Symbol.TheVariants.{Non};

use crate::action::Action;
use crate::frames::Frame;
use crate::item::Item;
use crate::items::{open, pop};
use crate::stack::Stack;
use crate::symbol::Symbol;
use crate::table::Table;
use std::alloc::{AllocError, Global};

/// Reduces and opens rules until a token is wanted, and takes that off; whether it is what is ahead. The rule that was begun last is on top;
/// the lowest is none, but what was wanted at first.
#[inline(always)]
fn advance<'a, G: Table, A: Action>(
    alloc: Global,
    table: &'a G,
    actions: &mut A,
    top: &mut Frame<'a>,
    below: &mut Stack<Frame<'a>>,
    ahead: u16,
) -> Result<bool, AllocError>
    requires { IsFollowed (G.sets table.now) (wanted (framed top.old.rest.now top.old.rule below.old)) at_end }
    ensures { IfOk result (λ met. MatchBool met
        (IsMet (G.grammar table.now) (G.sets table.now) A.begun A.shifted A.reduced ahead (framed top.old.rest.now top.old.rule below.old) (A.state actions.old) (framed top.new.rest.now top.new.rule below.new) (A.state actions.new))
        (IsStuck (G.grammar table.now) ahead (framed top.old.rest.now top.old.rule below.old) × (A.mark (A.state actions.new) ≡ A.mark (A.state actions.old)))) }
{
    while let Some(item) = pop(top, below) {
        match item {
            Item::Done(rule) => actions.reduce(alloc, rule)?,
            Item::Kind(kind) => return Ok(u16::from(kind) + 1 == ahead),
            Item::Non(non) => match table.choose(non, ahead) {
                None => return Ok(false),
                Some(rule) => {
                    actions.begin(alloc, rule)?;
                    open(top, below, table.right(rule), rule)?;
                }
            },
        }
    }
    Ok(ahead == 0)
}

/// None where the kinds are a text of the start symbol, whose tree's acts are then done, one after another; else the place of the first
/// kind that no text goes on with (their number, where none ends there), and the mark is then that of the tokens before it. Fails where
/// memory does.
pub fn parse<G: Table, A: Action>(
    alloc: Global,
    table: &G,
    actions: &mut A,
    start: u8,
    kinds: &[u8],
) -> Result<Option<usize>, AllocError>
    requires { MayEnd (G.sets table.now) start }
    ensures answer { IfOk result (λ fault. MatchOption fault
        ((f : Forest) × Forms (G.grammar table.now) f (Non start ∷ []) × (yield f ≡ kinds.now) × (A.state actions.new ≡ after_trees A.begun A.shifted A.reduced f (A.state actions.old)))
        (λ place. IsFirstFault (G.grammar table.now) (Non start ∷ []) kinds.now place)) }
    ensures mark { IfOk result (λ fault. IfSome fault (λ place.
        (more : List ℕ) (f : Forest) → Forms (G.grammar table.now) f (Non start ∷ []) → yield f ≡ take place kinds.now ++ more
        → A.mark (after_some A.begun A.shifted A.reduced place f (A.state actions.old)) ≡ A.mark (A.state actions.new))) }
{
    let wanted = [Symbol::Non(start)];
    let mut top = Frame {
        rest: &wanted,
        rule: 0,
    };
    let mut below = Stack::new(alloc);
    for (place, kind) in kinds.iter().enumerate() {
        let ahead = u16::from(*kind) + 1;
        if !advance(alloc, table, actions, &mut top, &mut below, ahead)? {
            return Ok(Some(place));
        }
        actions.shift(alloc, *kind)?;
    }
    if advance(alloc, table, actions, &mut top, &mut below, 0)? {
        Ok(None)
    } else {
        Ok(Some(kinds.len()))
    }
}
