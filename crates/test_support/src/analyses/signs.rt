//! The sign of one number, by what each node does to it.
ghost use Rattle.std.specs.Prelude.{◌≡◌, ◌↔◌, IsTrue};
ghost use Rattle.test_support.specs.Analyses.Signs.{made, met, negated, signs};
ghost use Rattle.test_support.specs.Analyses.SignLaws.{signs_are_monotone};

use flow_solver::Facts;
use std::alloc::{AllocError, Global};

#[derive(Drop, Clone, Copy)]
pub enum Sign {
    Negative,
    Zero,
    Positive,
}

/// What is known of it where a node is entered.
#[derive(Drop, Clone, Copy)]
pub enum Known {
    /// No path comes here.
    Unseen,
    /// It has this sign on every path.
    One(Sign),
    /// Nothing.
    Any,
}

/// What a node does to it.
#[derive(Drop, Clone, Copy)]
pub enum Act {
    Keep,
    Negate,
    /// It gets a number of that sign.
    Make(Sign),
}

/// What each node does; others keep it.
#[derive(Drop)]
pub struct Signs {
    pub acts: Vec<Act>,
}

pub fn is_same(a: &Known, b: &Known) -> bool
    ensures { IsTrue result ↔ (a.now ≡ b.now) }
{
    match (*a, *b) {
        (Known::Unseen, Known::Unseen) => true,
        (Known::Any, Known::Any) => true,
        (Known::One(Sign::Negative), Known::One(Sign::Negative)) => true,
        (Known::One(Sign::Zero), Known::One(Sign::Zero)) => true,
        (Known::One(Sign::Positive), Known::One(Sign::Positive)) => true,
        _ => false,
    }
}

fn met(a: Known, b: Known) -> Known
    ensures { result ≡ met a b }
{
    match (a, b) {
        (Known::Unseen, _) => b,
        (_, Known::Unseen) => a,
        (Known::Any, _) | (_, Known::Any) => Known::Any,
        (Known::One(Sign::Negative), Known::One(Sign::Negative)) => a,
        (Known::One(Sign::Zero), Known::One(Sign::Zero)) => a,
        (Known::One(Sign::Positive), Known::One(Sign::Positive)) => a,
        _ => Known::Any,
    }
}

fn negated(sign: Sign) -> Sign
    ensures { result ≡ negated sign }
{
    match sign {
        Sign::Negative => Sign::Positive,
        Sign::Zero => Sign::Zero,
        Sign::Positive => Sign::Negative,
    }
}

/// What is known after an act.
fn made(act: Act, known: Known) -> Known
    ensures { result ≡ made act known }
{
    match known {
        Known::Unseen => Known::Unseen,
        Known::One(sign) => match act {
            Act::Keep => Known::One(sign),
            Act::Negate => Known::One(negated(sign)),
            Act::Make(given) => Known::One(given),
        },
        Known::Any => match act {
            Act::Make(given) => Known::One(given),
            Act::Keep | Act::Negate => Known::Any,
        },
    }
}

impl Facts for Signs {
    type Set = Known;

    ghost framework = { λ it. signs it.acts.items };

    fn top(&self, _alloc: Global) -> Result<Known, AllocError> {
        Ok(Known::Unseen)
    }

    fn start(&self, _alloc: Global, node: usize) -> Result<Known, AllocError> {
        Ok(if node == 0 { Known::Any } else { Known::Unseen })
    }

    fn meet(&self, _alloc: Global, a: &Known, b: &Known) -> Result<Known, AllocError> {
        Ok(met(*a, *b))
    }

    fn transfer(&self, _alloc: Global, node: usize, set: &Known) -> Result<Known, AllocError> {
        let act = match self.acts.get(node) {
            Some(act) => *act,
            None => Act::Keep,
        };
        Ok(made(act, *set))
    }

    fn same(&self, a: &Known, b: &Known) -> bool {
        is_same(a, b)
    }

    ghost monotone = { λ it. signs_are_monotone it.acts.items };
}
