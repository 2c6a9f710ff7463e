ghost use Rattle.std.specs.Prelude.{◌≡◌, [], ◌∷◌, MatchOption, OnOk};
ghost use Rattle.predictive.specs.Frames.{framed};
ghost use Rattle.predictive.specs.Moves.{opened};
ghost use Rattle.predictive.specs.Moves as moves;
ghost use Rattle.predictive.specs.declared.item.Item.TheVariants.{Done};

use crate::frames::Frame;
use crate::item::Item;
use crate::stack::Stack;
use crate::symbol::Symbol;
use std::alloc::AllocError;

/// What a symbol has the engine do.
#[inline(always)]
fn item_of(symbol: Symbol) -> Item
    ensures { result ≡ moves.item_of symbol }
{
    match symbol {
        Symbol::Kind(kind) => Item::Kind(kind),
        Symbol::Non(non) => Item::Non(non),
    }
}

/// The first symbol of a row and the others, if there is one.
#[inline(always)]
fn split(row: &[Symbol]) -> Option<(Symbol, &[Symbol])>
    ensures { MatchOption result (row.now ≡ []) (λ parts. row.now ≡ parts.0 ∷ parts.1.now) }
{
    match row.split_first() {
        None => None,
        Some((symbol, others)) => Some((*symbol, others)),
    }
}

/// Takes what is next, if there is anything. The rule that was begun last stands apart from those below it, and nothing is moved as its
/// symbols are taken.
#[inline(always)]
#[tactic(auto, using(crate::proofs::Framing::symbol_framed, crate::proofs::Framing::done_framed, crate::proofs::Framing::none_framed))]
pub fn pop<'a>(top: &mut Frame<'a>, below: &mut Stack<Frame<'a>>) -> Option<Item>
    ensures { MatchOption result
        ((framed top.old.rest.now top.old.rule below.old ≡ []) × (framed top.new.rest.now top.new.rule below.new ≡ []))
        (λ item. framed top.old.rest.now top.old.rule below.old ≡ item ∷ framed top.new.rest.now top.new.rule below.new) }
{
    match split(top.rest) {
        None => match below.pop() {
            None => None,
            Some(frame) => {
                let rule = top.rule as u16;
                *top = frame;
                Some(Item::Done(rule))
            }
        },
        Some((symbol, others)) => {
            top.rest = others;
            Some(item_of(symbol))
        }
    }
}

/// Wants the right side of a rule, and then the rule is done.
#[inline(always)]
#[tactic(auto, using(crate::proofs::Framing::opened_framed))]
pub fn open<'a>(
    top: &mut Frame<'a>,
    below: &mut Stack<Frame<'a>>,
    right: &'a [Symbol],
    rule: u16,
) -> Result<(), AllocError>
    ensures { OnOk result (framed top.new.rest.now top.new.rule below.new ≡ opened right.now (Done rule ∷ framed top.old.rest.now top.old.rule below.old)) }
{
    below.push(*top)?;
    *top = Frame {
        rest: right,
        rule: usize::from(rule),
    };
    Ok(())
}
