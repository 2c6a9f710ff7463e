ghost use Rattle.std.specs.Prelude.{◌≡◌, ℕ, OnOk};
ghost use Rattle.derivation_writer.specs.Watching as watching;
ghost use Rattle.derivation_writer.specs.Writing.{written_by};

use crate::Watch;
use crate::writer::Writer;
use contents::Seq;
use ir_core::Limit;
use predictive::Action;
use std::alloc::{AllocError, Global};

/// What a parser writes down of a text, and a watch over the limits. Once a token has passed one, nothing more is written down.
#[derive(Drop)]
pub(crate) struct Reading {
    writer: Writer,
    watch: Watch,
}

impl Reading {
    pub(crate) fn new(alloc: Global) -> Reading
        ensures { result ≡ watching.first }
    {
        Reading {
            writer: Writer::new(alloc),
            watch: Watch::new(alloc),
        }
    }

    /// The limit that was passed first.
    pub(crate) fn limit(&self) -> Option<Limit>
        ensures { result ≡ self.now.watch.mark }
    {
        self.watch.limit()
    }

    /// The numbers that are written down.
    pub(crate) fn into_numbers(self) -> Seq<u32>
        ensures { (place : ℕ) × (self.writer ≡ written_by place result) }
    {
        let Reading { writer, watch: _ } = self;
        writer.into_numbers()
    }

    /// Writes down that a rule begins, where no limit is passed.
    #[inline(always)]
    fn write_rule(&mut self, rule: u16) -> Result<(), AllocError>
        ensures { OnOk result (self.new ≡ watching.rule_written rule self.old) }
    {
        match self.watch.limit() {
            None => self.writer.begin(rule),
            Some(_) => Ok(()),
        }
    }

    /// Writes down the next token, where no limit is passed.
    #[inline(always)]
    fn write_token(&mut self, kind: u8) -> Result<(), AllocError>
        ensures { OnOk result (self.new ≡ watching.token_written kind self.old) }
    {
        match self.watch.limit() {
            None => self.writer.shift(kind),
            Some(_) => Ok(()),
        }
    }
}

impl Action for Reading {
    ghost use Rattle.std.specs.Prelude.{Option};
    ghost use Rattle.ir_core.specs.declared.limits.Limit.{Limit};
    ghost use Rattle.derivation_writer.specs.Unmarked as unmarked;
    ghost use Rattle.derivation_writer.specs.Watching as watching;

    type State = Reading;

    ghost state = { λ it. it };

    type Mark = Option<Limit>;

    ghost mark = { λ s. s.watch.mark };

    ghost begun = { watching.begun };

    ghost shifted = { watching.shifted };

    ghost reduced = { watching.reduced };

    #[inline(always)]
    fn begin(&mut self, alloc: Global, rule: u16) -> Result<(), AllocError> {
        self.watch.begin(alloc, rule)?;
        self.write_rule(rule)
    }

    #[inline(always)]
    fn shift(&mut self, alloc: Global, kind: u8) -> Result<(), AllocError> {
        self.watch.shift(alloc, kind)?;
        self.write_token(kind)
    }

    #[inline(always)]
    fn reduce(&mut self, alloc: Global, rule: u16) -> Result<(), AllocError> {
        self.watch.reduce(alloc, rule)
    }

    ghost begun_unmarked = { unmarked.begun };

    ghost reduced_unmarked = { unmarked.reduced };
}
