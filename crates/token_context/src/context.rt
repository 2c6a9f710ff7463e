ghost use Rattle.std.specs.Prelude.{◌≡◌, ◌↔◌, ◌++◌, [], ◌∷◌, ℕ, List, IfOk, OnOk, map};
ghost use Rattle.std.specs.List.{Contains};
ghost use Rattle.module_grammar.specs.Spelled.{symbol_in};
ghost use Rattle.module_grammar.specs.Symbols.{Symbol, kind_of};
ghost use Rattle.module_grammar.specs.declared.words.Language.TheVariants.{Ir};
ghost use Rattle.module_spelling.specs.Context.{AreKinds, StandFor, all_seen};
ghost use Rattle.module_spelling.specs.Faults.{IsDeepAt};
ghost use Rattle.token_context.specs.Readings.{IsContext, deep_seen, kind_seen};

use crate::brackets::Brackets;
use crate::matters::do_parens_matter;
use crate::reading::{Reading, seen};
use ir_lexer::Token;
use module_grammar::Language;
use module_tokens::kinds_of;
use std::alloc::{AllocError, Global};

/// The kinds of a text's tokens where they stand.
#[derive(Drop)]
pub struct InContext {
    pub kinds: Vec<u8>,
    /// The indices of the tokens that are of no kind only since what stands before them is too deep.
    pub deep: Vec<usize>,
}

impl InContext {
    /// The next token, of this kind by itself and at this place.
    fn push(&mut self, place: usize, kind: u8, reading: Reading) -> Result<(), AllocError>
        ensures kinds { OnOk result (self.new.kinds.items ≡ self.old.kinds.items ++ (kind_seen kind reading ∷ [])) }
        ensures deep { OnOk result (self.new.deep.items ≡ self.old.deep.items ++ deep_seen place reading) }
    {
        match reading {
            Reading::Whole => self.kinds.push(kind)?,
            Reading::Deep => {
                self.deep.push(place)?;
                self.kinds.push(23)?;
            }
            Reading::Other => self.kinds.push(23)?,
        }
        Ok(())
    }
}

/// What tokens of these kinds are where they stand.
fn in_context(alloc: Global, kinds: &[u8]) -> Result<InContext, AllocError>
    ensures { IfOk result (λ context. (own : List Symbol) → map kind_of own ≡ kinds.now → IsContext own context.kinds.items context.deep.items) }
{
    let mut brackets = Brackets::new(alloc);
    let mut context = InContext {
        kinds: Vec::with_capacity(alloc, kinds.len())?,
        deep: Vec::new(alloc),
    };
    for (place, kind) in kinds.iter().enumerate() {
        let reading = seen(alloc, kinds, place, *kind, brackets.closed())?;
        context.push(place, *kind, reading)?;
        brackets.step(alloc, place, *kind)?;
    }
    Ok(context)
}

/// What tokens of these kinds are where they stand, which most often is what they are by themselves.
fn seen_in_context(alloc: Global, kinds: Vec<u8>) -> Result<InContext, AllocError>
    ensures { IfOk result (λ context. (own : List Symbol) → map kind_of own ≡ kinds.items → IsContext own context.kinds.items context.deep.items) }
{
    if do_parens_matter(&kinds) {
        return in_context(alloc, &kinds);
    }
    Ok(InContext {
        kinds,
        deep: Vec::new(alloc),
    })
}

/// What a module's tokens are where they stand.
pub fn kinds_in_context(
    alloc: Global,
    text: &[u8],
    tokens: &[Token],
) -> Result<InContext, AllocError>
    ensures kinds { IfOk result (λ context.
        let own = map (symbol_in Ir text.now) tokens.now in
        StandFor own (all_seen own context.kinds.items) × AreKinds own context.kinds.items) }
    ensures deep { IfOk result (λ context.
        (k : ℕ) → Contains context.deep.items k ↔ IsDeepAt (map (symbol_in Ir text.now) tokens.now) k) }
{
    seen_in_context(alloc, kinds_of(alloc, Language::Ir, text, tokens)?)
}
