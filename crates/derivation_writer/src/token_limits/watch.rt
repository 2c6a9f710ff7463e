ghost use Rattle.std.specs.Prelude.{◌≡◌, ◌+◌, IfOk, IfSome, OnOk, MatchBool};
ghost use Rattle.derivation_writer.specs.TokenLimits.Watched as watched;

use crate::token_limits::nesting::{Nesting, one_more};
use crate::token_limits::role::Role;
use crate::token_limits::roles::role;
use ir_core::Limit;
use predictive::Action;
use std::alloc::{AllocError, Global};

/// A watch over the limits on depths and on the lines of a function. It is told the rules that begin, the tokens that are shifted and the
/// rules that are reduced, and marks the limit that is passed first. From then on nothing of it changes.
#[derive(Drop)]
pub struct Watch {
    nesting: Nesting,
    lines: u32,
    mark: Option<Limit>,
}

/// The limit that a token passes there.
#[inline(always)]
fn mark_at(level: u32, lines: u32) -> Option<Limit>
    ensures { result ≡ watched.mark_at level lines }
{
    if u64::from(level) > Limit::Depth.number() {
        Some(Limit::Depth)
    } else if u64::from(lines) > Limit::Lines.number() {
        Some(Limit::Lines)
    } else {
        None
    }
}

/// How many lines have begun, where another rule begins.
#[inline(always)]
fn lines_begun(lines: u32, role: Role) -> Result<u32, AllocError>
    ensures { IfOk result (λ more. more ≡ watched.lines_begun lines role) }
{
    match role {
        Role::Line => one_more(lines),
        _ => Ok(lines),
    }
}

/// How many lines of the function have begun, where a rule is reduced.
#[inline(always)]
fn lines_reduced(lines: u32, role: Role) -> u32
    ensures { result ≡ watched.lines_reduced lines role }
{
    match role {
        Role::Definition => 0,
        _ => lines,
    }
}

impl Watch {
    pub fn new(alloc: Global) -> Watch
        ensures { result ≡ watched.fresh }
    {
        Watch {
            nesting: Nesting::new(alloc),
            lines: 0,
            mark: None,
        }
    }

    /// The limit that was passed first.
    #[inline(always)]
    pub fn limit(&self) -> Option<Limit>
        ensures { result ≡ self.now.mark }
    {
        self.mark
    }
}

impl Watch {
    /// A rule of this role begins.
    #[inline(always)]
    fn begin_as(&mut self, role: Role) -> Result<(), AllocError>
        ensures { OnOk result (self.new ≡ watched.begun_as role self.old) }
    {
        if self.mark.is_some() {
            return Ok(());
        }
        self.nesting.begin(role)?;
        self.lines = lines_begun(self.lines, role)?;
        Ok(())
    }

    /// A rule of this role is reduced.
    #[inline(always)]
    fn reduce_as(&mut self, role: Role)
        ensures { self.new ≡ watched.reduced_as role self.old }
    {
        if self.mark.is_none() {
            self.nesting.reduce(role);
            self.lines = lines_reduced(self.lines, role);
        }
    }
}

impl Action for Watch {
    ghost use Rattle.std.specs.Prelude.{Option};
    ghost use Rattle.ir_core.specs.declared.limits.Limit.{Limit};

    type State = Watch;

    ghost state = { λ it. it };

    type Mark = Option<Limit>;

    ghost mark = { λ s. s.mark };

    ghost begun = { watched.begun };

    ghost shifted = { watched.shifted };

    ghost reduced = { watched.reduced };

    #[inline(always)]
    #[tactic(auto, using(crate::proofs::TokenLimits::Plain::plain_begun))]
    fn begin(&mut self, _alloc: Global, rule: u16) -> Result<(), AllocError> {
        match role(rule) {
            Role::Plain => Ok(()),
            role => self.begin_as(role),
        }
    }

    #[inline(always)]
    fn shift(&mut self, _alloc: Global, _kind: u8) -> Result<(), AllocError> {
        if self.mark.is_none() {
            self.nesting.shift();
            if let Some(limit) = mark_at(self.nesting.level(), self.lines) {
                self.mark = Some(limit);
            }
        }
        Ok(())
    }

    #[inline(always)]
    #[tactic(auto, using(crate::proofs::TokenLimits::Plain::plain_reduced))]
    fn reduce(&mut self, _alloc: Global, rule: u16) -> Result<(), AllocError> {
        match role(rule) {
            Role::Plain => {}
            role => self.reduce_as(role),
        }
        Ok(())
    }

    ghost begun_unmarked = { watched.begun_unmarked };

    ghost reduced_unmarked = { watched.reduced_unmarked };
}
