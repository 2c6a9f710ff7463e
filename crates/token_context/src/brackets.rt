ghost use Rattle.std.specs.Prelude.{◌≡◌, ◌+◌, ◌++◌, ◌∷◌, ℕ, suc, List, OnOk, length};
ghost use Rattle.module_grammar.specs.Balanced.{is_plain_kind};
ghost use Rattle.token_context.specs.Brackets.{after, class_of, closing, forgotten, moved, start};
ghost use Rattle.token_context.specs.declared.brackets.Class.TheVariants.{Opens, Plain};

use predictive::Stack;
use std::alloc::{AllocError, Global};
use std::marker::Model;

/// What a token does among brackets.
#[derive(Drop, Clone, Copy)]
pub enum Class {
    /// It opens one.
    Opens,
    /// It closes one that a token of this kind opens.
    Closes(u8),
    /// It is none.
    Plain,
    /// It is of no kind that stands in a text.
    Outside,
}

/// A bracket that is open: its place among the tokens, its kind, and the kind of the token before it.
#[derive(Drop, Clone, Copy)]
pub struct Opened {
    pub place: usize,
    pub kind: u8,
    pub behind: u8,
}

/// What is open behind some tokens.
#[derive(Drop)]
pub struct Brackets {
    opened: Stack<Opened>,
    closed: Option<Opened>,
    last: u8,
}

impl Model for Brackets {
    ghost use Rattle.token_context.specs.Brackets.{State};

    ghost Value = { State };

    ghost view = { λ it. record { opened = it.opened; closed = it.closed; last = it.last } };
}

/// What a token of this kind does among brackets.
fn class_of(kind: u8) -> Class
    ensures { result ≡ class_of kind }
{
    match kind {
        18 | 19 | 66 => Class::Opens,
        67 => Class::Closes(66),
        69 => Class::Closes(18),
        68 => Class::Closes(19),
        _ => {
            if kind < 75 {
                Class::Plain
            } else {
                Class::Outside
            }
        }
    }
}

/// Whether a token of this kind is one of a text and no bracket.
#[inline(always)]
fn is_plain(kind: u8) -> bool
    ensures { result ≡ is_plain_kind kind }
{
    PLAIN_KINDS[usize::from(kind)]
}

impl Brackets {
    /// Nothing is open.
    pub fn new(alloc: Global) -> Brackets
        ensures { result ≡ start }
    {
        Brackets {
            opened: Stack::new(alloc),
            closed: None,
            last: 23,
        }
    }

    /// The pair that the last token closed, if it did.
    #[inline(always)]
    pub fn closed(&self) -> Option<Opened>
        ensures { result ≡ self.now.closed }
    {
        self.closed
    }

    fn open(&mut self, place: usize, kind: u8) -> Result<(), AllocError>
        ensures { OnOk result (self.new ≡ moved Opens self.old place kind) }
    {
        self.opened.push(Opened {
            place,
            kind,
            behind: self.last,
        })?;
        self.closed = None;
        self.last = kind;
        Ok(())
    }

    /// A token of this kind stands there across which nothing is balanced.
    fn forget(&mut self, alloc: Global, kind: u8)
        ensures { self.new ≡ forgotten kind }
    {
        self.opened = Stack::new(alloc);
        self.closed = None;
        self.last = kind;
    }

    /// What is open last is closed, where it is of the kind `opens`.
    fn close(&mut self, alloc: Global, kind: u8, opens: u8)
        ensures { self.new ≡ closing kind opens self.old.opened }
    {
        match self.opened.pop() {
            Some(opened) if opened.kind == opens => {
                self.closed = Some(opened);
                self.last = kind;
            }
            _ => self.forget(alloc, kind),
        }
    }

    /// Goes over a token that is no bracket.
    #[inline(always)]
    fn pass(&mut self, kind: u8)
        ensures { (place : ℕ) → self.new ≡ moved Plain self.old place kind }
    {
        self.closed = None;
        self.last = kind;
    }

    /// Goes over the token at this place, which can be a bracket.
    #[inline(never)]
    fn step_by_class(&mut self, alloc: Global, place: usize, kind: u8) -> Result<(), AllocError>
        ensures { OnOk result (self.new ≡ after self.old place kind) }
    {
        match class_of(kind) {
            Class::Opens => self.open(place, kind)?,
            Class::Closes(opens) => self.close(alloc, kind, opens),
            Class::Plain => self.pass(kind),
            Class::Outside => self.forget(alloc, kind),
        }
        Ok(())
    }

    /// Goes over the token at this place.
    #[inline(always)]
    pub fn step(&mut self, alloc: Global, place: usize, kind: u8) -> Result<(), AllocError>
        ensures { OnOk result (self.new ≡ after self.old place kind) }
    {
        if is_plain(kind) {
            self.pass(kind);
            Ok(())
        } else {
            self.step_by_class(alloc, place, kind)
        }
    }
}

/// What stands between the bracket at `place` and the one that closes it directly before `end`.
pub fn between(kinds: &[u8], place: usize, end: usize) -> &[u8]
    ensures { (front inside rest : List ℕ) (o c : ℕ) → kinds.now ≡ front ++ (o ∷ (inside ++ (c ∷ rest))) → place ≡ length front → end ≡ length front + suc (suc (length inside)) → result.now ≡ inside }
{
    let Some(pair) = kinds.get(place..end) else {
        return &[];
    };
    let Some((_, behind)) = pair.split_first() else {
        return &[];
    };
    match behind.split_last() {
        Some((_, inside)) => inside,
        None => &[],
    }
}

/// Which kinds are of tokens of a text that are no brackets, by their numbers.
static PLAIN_KINDS: [bool; 256] = [
    true, true, true, true, true, true, true, true, true, true, true, true, true, true, true, true,
    true, true, false, false, true, true, true, true, true, true, true, true, true, true, true,
    true, true, true, true, true, true, true, true, true, true, true, true, true, true, true, true,
    true, true, true, true, true, true, true, true, true, true, true, true, true, true, true, true,
    true, true, true, false, false, false, false, true, true, true, true, true, false, false,
    false, false, false, false, false, false, false, false, false, false, false, false, false,
    false, false, false, false, false, false, false, false, false, false, false, false, false,
    false, false, false, false, false, false, false, false, false, false, false, false, false,
    false, false, false, false, false, false, false, false, false, false, false, false, false,
    false, false, false, false, false, false, false, false, false, false, false, false, false,
    false, false, false, false, false, false, false, false, false, false, false, false, false,
    false, false, false, false, false, false, false, false, false, false, false, false, false,
    false, false, false, false, false, false, false, false, false, false, false, false, false,
    false, false, false, false, false, false, false, false, false, false, false, false, false,
    false, false, false, false, false, false, false, false, false, false, false, false, false,
    false, false, false, false, false, false, false, false, false, false, false, false, false,
    false, false, false, false, false, false, false, false, false, false, false, false, false,
    false, false, false, false, false, false, false, false, false, false, false, false, false,
    false, false, false, false, false, false, false, false, false, false,
];
