ghost use Rattle.std.specs.Prelude.{◌≡◌, ◌+◌, IfOk, OnOk};
ghost use Rattle.derivation_writer.specs.TokenLimits.Nested as nested;

use crate::token_limits::role::Role;
use predictive::Stack;
use std::alloc::{AllocError, Global};

/// What was open around a type, and how deep its tokens stood so far.
#[derive(Clone, Copy, Drop)]
pub struct Saved {
    level: u32,
    deepest: u32,
}

/// How many types, constants and initialisers are open, and how deep the tokens stood since the innermost type began.
#[derive(Drop)]
pub struct Nesting {
    level: u32,
    deepest: u32,
    saved: Stack<Saved>,
}

/// One more, or it gives up.
#[inline(always)]
pub fn one_more(count: u32) -> Result<u32, AllocError>
    ensures { IfOk result (λ more. more ≡ count + 1) }
{
    count.checked_add(1).ok_or(AllocError)
}

impl Nesting {
    pub fn new(alloc: Global) -> Nesting
        ensures { result ≡ nested.none_open }
    {
        Nesting {
            level: 0,
            deepest: 0,
            saved: Stack::new(alloc),
        }
    }

    pub fn level(&self) -> u32
        ensures { result ≡ self.now.level }
    {
        self.level
    }

    /// A type begins: from here on the deepest token is sought anew.
    fn open(&mut self) -> Result<(), AllocError>
        ensures { OnOk result (self.new ≡ nested.opened self.old) }
    {
        self.saved.push(Saved {
            level: self.level,
            deepest: self.deepest,
        })?;
        self.deepest = self.level;
        Ok(())
    }

    /// A type ends.
    fn close(&mut self)
        ensures { self.new ≡ nested.closed self.old }
    {
        if let Some(saved) = self.saved.pop() {
            self.level = saved.level;
            self.deepest = self.deepest.max(saved.deepest);
        }
    }

    #[inline(always)]
    pub fn begin(&mut self, role: Role) -> Result<(), AllocError>
        ensures { OnOk result (self.new ≡ nested.begun self.old role) }
    {
        match role {
            Role::Pointers => self.open(),
            Role::Base | Role::Part => {
                self.level = one_more(self.level)?;
                Ok(())
            }
            Role::Plain | Role::Line | Role::Definition => Ok(()),
        }
    }

    #[inline(always)]
    pub fn shift(&mut self)
        ensures { self.new ≡ nested.shifted self.old }
    {
        if self.level > self.deepest {
            self.deepest = self.level;
        }
    }

    /// A base ends as deep as its deepest token: the first star stands one deeper.
    #[inline(always)]
    pub fn reduce(&mut self, role: Role)
        ensures { self.new ≡ nested.reduced self.old role }
    {
        match role {
            Role::Pointers => self.close(),
            Role::Base => self.level = self.deepest,
            Role::Part => self.level = self.level.saturating_sub(1),
            Role::Plain | Role::Line | Role::Definition => {}
        }
    }
}
