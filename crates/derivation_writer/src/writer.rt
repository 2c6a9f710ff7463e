ghost use Rattle.std.specs.Prelude.{◌≡◌, ℕ, [], OnOk};
ghost use Rattle.derivation_writer.specs.Writing.{begun, shifted, written_by};
ghost use Rattle.module_derivations.specs.Ahead.{chosen};

use contents::Seq;
use module_derivations::rule;
use std::alloc::{AllocError, Global};
use std::marker::Model;

/// Tokens are numbered from here on, behind the rules.
const FIRST_TOKEN: u32 = 2_147_483_648;

/// Whether a rule is written down: its nonterminal has others beside it.
#[inline(always)]
fn is_chosen(number: u32) -> bool
    ensures { result ≡ chosen number }
{
    !matches!(
        number,
        rule::RESULT
            | rule::HEAD
            | rule::HEAD_END
            | rule::PARAM
            | rule::ATTACHMENT
            | rule::POINTERS
            | rule::OPERAND
            | rule::CALLEE
            | rule::CALL_END
            | rule::ARGUMENT
            | rule::LINE
            | rule::LOCAL_NAME
            | rule::BLOCK
            | rule::NODE
            | rule::ENTRY
            | rule::END
            | rule::CASE
    )
}

/// What is written down of a text: the place of the next token, and the marks.
#[derive(Drop)]
pub(crate) struct Writer {
    place: u32,
    numbers: Seq<u32>,
}

impl Model for Writer {
    ghost use Rattle.std.specs.Coded.{codes};
    ghost use Rattle.module_derivations.specs.FlatMarks.Flat.{Written};
    ghost use Rattle.derivation_writer.specs.Writing.{written_by};

    ghost Value = { Written };

    ghost coded = { Prim.hlevel (codes) };

    ghost view = { λ it. written_by it.place it.numbers };
}

impl Writer {
    pub(crate) fn new(alloc: Global) -> Writer
        ensures { result ≡ written_by 0 [] }
    {
        Writer {
            place: 0,
            numbers: Seq::new(alloc),
        }
    }

    /// The numbers that are written down.
    pub(crate) fn into_numbers(self) -> Seq<u32>
        ensures { (place : ℕ) × (self ≡ written_by place result) }
    {
        let Writer { place: _, numbers } = self;
        numbers
    }

    /// Writes down that a rule begins.
    #[inline(always)]
    #[tactic(auto, using(crate::proofs::Steps::one_rule))]
    pub(crate) fn begin(&mut self, number: u16) -> Result<(), AllocError>
        ensures { OnOk result (self.new ≡ begun self.old number) }
    {
        let number = u32::from(number);
        if is_chosen(number) {
            self.numbers.push(number)?;
            return Ok(());
        }
        Ok(())
    }

    /// Writes down the next token.
    #[inline(always)]
    #[tactic(auto, using(crate::proofs::Steps::one_token, crate::proofs::Steps::no_token))]
    pub(crate) fn shift(&mut self, kind: u8) -> Result<(), AllocError>
        ensures { OnOk result (self.new ≡ shifted self.old kind) }
    {
        let place = self.place;
        if place >= FIRST_TOKEN {
            return Err(AllocError);
        }
        if kind < 23 {
            self.numbers.push(FIRST_TOKEN + place)?;
            self.place = place + 1;
            return Ok(());
        }
        self.place = place + 1;
        Ok(())
    }
}
