//! What stands between parentheses around the names of a text.
ghost use Rattle.derivation_cursor.specs.At.{ahead_of};
ghost use Rattle.ir_lexer.specs.Cut.{AreInOrder};
ghost use Rattle.ir_types.specs.declared.names.Name.{Name as NameOf};
ghost use Rattle.module_grammar.specs.Balanced.{IsBalanced};
ghost use Rattle.module_grammar.specs.Spelled.{symbol_in};
ghost use Rattle.module_grammar.specs.Symbols.{Debug as DebugName, Global as GlobalName, Symbol, close_paren, open_paren, unnamed_addr, void};
ghost use Rattle.module_grammar.specs.declared.functions.DeclaredText.{DeclaredText as Declared};
ghost use Rattle.module_grammar.specs.declared.places.Placed.{Placed as PlacedAt};
ghost use Rattle.module_grammar.specs.declared.types.CalledText.{CalledText as Called};
ghost use Rattle.module_grammar.specs.declared.words.Language.TheVariants.{Ir};
ghost use Rattle.module_spelling.specs.Context.{AreKinds, StandFor, all_seen};
ghost use Rattle.module_spelling.specs.Spells.{StatesParams, StatesTypes};
ghost use Rattle.token_context.specs.NameSurroundings.Between.{IsText, pair_if, seen, start_at};
ghost use Rattle.token_context.specs.NameSurroundings.Held.{AreParamsBefore, AreParamsTold, AreTypesBefore, AreTypesTold};
ghost use Rattle.token_context.specs.NameSurroundings.Told.{front_of, in_front, params_behind, types_in};
ghost use Rattle.std.specs.HashMap.{get};
ghost use Rattle.std.specs.List.{slice_range};
ghost use Rattle.std.specs.Option.{option_copied, option_map};
ghost use Rattle.std.specs.Prelude.{IfOk, List, OnOk, length, map, nat_eq, take, ◌++◌, ◌+◌, ◌-◌, ◌<◌, ◌∷◌, ◌≡◌, ◌≤◌};
ghost use Rattle.token_context.specs.Brackets.{after_all, start};
ghost use Rattle.token_context.specs.NameSurroundings.Told as told;

use crate::{Brackets, Opened, do_parens_matter};
use contents::Seq;
use derivation_cursor::{Cursor, Gaps};
use derivation_writer::{read_called, read_declared};
use ir_core::Name;
use ir_lexer::Token;
use module_grammar::{Language, Placed};
use std::alloc::{AllocError, Global};
use std::collections::HashMap;

/// The kinds of names of functions, of debugging or not, of `void`, of `unnamed_addr`, and of the parenthesis that opens.
const GLOBAL: u8 = 1;

const DEBUG: u8 = 2;

const VOID: u8 = 25;

const UNNAMED_ADDR: u8 = 51;

const OPEN_PAREN: u8 = 66;

/// The tokens that stand between two parentheses, and the marks of their derivation.
#[derive(Drop)]
struct Marked<'a> {
    text: &'a [u8],
    tokens: &'a [Token],
    numbers: Seq<u32>,
}

impl<'a> Marked<'a> {
    /// A walk that stands at the head of the marks.
    fn walk(&self) -> Cursor<'_>
        ensures { ahead_of result ≡ in_front self.now }
    {
        Cursor {
            language: Language::Ir,
            text: self.text,
            tokens: self.tokens,
            numbers: self.numbers.as_slice(),
        }
    }
}

/// A walk that stands there, or at the end of an empty text.
fn walk_over<'b>(marked: Option<&'b Marked<'b>>) -> Cursor<'b>
    ensures { ahead_of result ≡ front_of (option_copied marked.entry) }
{
    match marked {
        Some(marked) => marked.walk(),
        None => Cursor {
            language: Language::Ir,
            text: &[],
            tokens: &[],
            numbers: &[],
        },
    }
}

/// The pair that closed last, if it is of parentheses behind a token of the one kind, and a token of the other kind follows.
fn pair_if(opener: u8, follower: u8, kind: u8, closed: Option<Opened>) -> Option<Opened>
    ensures { result ≡ pair_if opener follower kind closed }
{
    let pair = closed?;
    if kind == follower && pair.kind == OPEN_PAREN && pair.behind == opener {
        Some(pair)
    } else {
        None
    }
}

/// What stands between the bracket at `place` and the one that closes it directly before `end`.
#[inline(always)]
fn between<T>(items: &[T], place: usize, end: usize) -> &[T]
    requires order { place + 2 ≤ end }
    requires inside { end ≤ length items.now }
    ensures { result.now ≡ slice_range items.now (place + 1) (end - 1) }
{
    &items[place + 1..end - 1]
}

/// Where the token of this index begins.
fn start_at(tokens: &[Token], index: usize) -> u32
    requires { index < length tokens.now }
    ensures { result ≡ start_at tokens.now index }
{
    tokens[index].start
}

/// The types that stand before the name at this place, if that is one behind `void` and parentheses.
fn types_before<'a>(
    alloc: Global,
    text: &'a [u8],
    tokens: &'a [Token],
    kinds: &[u8],
    place: usize,
    closed: Option<Opened>,
) -> Result<Option<Marked<'a>>, AllocError>
    requires text { IsText text.now tokens.now kinds.now }
    requires place { place < length kinds.now }
    requires closed { closed ≡ (after_all start 0 (take place kinds.now)).closed }
    ensures { IfOk result (λ told. AreTypesBefore (seen text.now tokens.now kinds.now) place (option_map types_in told)) }
{
    let Some(pair) = pair_if(VOID, GLOBAL, kinds[place], closed) else {
        return Ok(None);
    };
    let tokens = between(tokens, pair.place, place);
    let kinds = between(kinds, pair.place, place);
    match read_called(alloc, kinds)? {
        Ok(numbers) => Ok(Some(Marked {
            text,
            tokens,
            numbers,
        })),
        Err(_) => Ok(None),
    }
}

/// The parameters that end before the token at this place, with where the name begins that they stand behind, if that is one of debugging
/// and the token is `unnamed_addr`.
fn params_before<'a>(
    alloc: Global,
    text: &'a [u8],
    tokens: &'a [Token],
    kinds: &[u8],
    place: usize,
    closed: Option<Opened>,
) -> Result<Option<(u32, Marked<'a>)>, AllocError>
    requires text { IsText text.now tokens.now kinds.now }
    requires place { place < length kinds.now }
    requires closed { closed ≡ (after_all start 0 (take place kinds.now)).closed }
    ensures { IfOk result (λ told. AreParamsBefore (seen text.now tokens.now kinds.now) place (option_map params_behind told)) }
{
    let Some(pair) = pair_if(DEBUG, UNNAMED_ADDR, kinds[place], closed) else {
        return Ok(None);
    };
    let start = start_at(tokens, pair.place - 1);
    let tokens = between(tokens, pair.place, place);
    let kinds = between(kinds, pair.place, place);
    match read_declared(alloc, kinds)? {
        Ok(numbers) => Ok(Some((
            start,
            Marked {
                text,
                tokens,
                numbers,
            },
        ))),
        Err(_) => Ok(None),
    }
}

/// What stands between parentheses around names of a text, by where these begin.
#[derive(Drop)]
pub struct Around<'a> {
    called: HashMap<u32, Marked<'a>>,
    declared: HashMap<u32, Marked<'a>>,
}

impl<'a> Gaps for Around<'a> {
    ghost use Rattle.token_context.specs.NameSurroundings.Told as told;

    ghost called = { told.called };

    ghost declared = { told.declared };

    fn called(&self, name: &Placed<Name>) -> Cursor<'_> {
        walk_over(self.called.get(&name.start))
    }

    fn declared(&self, name: &Placed<Name>) -> Cursor<'_> {
        walk_over(self.declared.get(&name.start))
    }
}

/// What stands before the name at this place is told too.
fn tell_types<'a>(
    called: &mut HashMap<u32, Marked<'a>>,
    alloc: Global,
    text: &'a [u8],
    tokens: &'a [Token],
    kinds: &[u8],
    place: usize,
    closed: Option<Opened>,
) -> Result<(), AllocError>
    requires text { IsText text.now tokens.now kinds.now }
    requires place { place < length kinds.now }
    requires closed { closed ≡ (after_all start 0 (take place kinds.now)).closed }
    requires told { AreTypesTold (seen text.now tokens.now kinds.now) place (told.types_told (get nat_eq called.old)) }
    ensures { OnOk result (AreTypesTold (seen text.now tokens.now kinds.now) (place + 1) (told.types_told (get nat_eq called.new))) }
{
    if let Some(types) = types_before(alloc, text, tokens, kinds, place, closed)? {
        called.insert(start_at(tokens, place), types)?;
    }
    Ok(())
}

/// What ends before the token at this place, behind a name of debugging, is told too.
fn tell_params<'a>(
    declared: &mut HashMap<u32, Marked<'a>>,
    alloc: Global,
    text: &'a [u8],
    tokens: &'a [Token],
    kinds: &[u8],
    place: usize,
    closed: Option<Opened>,
) -> Result<(), AllocError>
    requires text { IsText text.now tokens.now kinds.now }
    requires place { place < length kinds.now }
    requires closed { closed ≡ (after_all start 0 (take place kinds.now)).closed }
    requires told { AreParamsTold (seen text.now tokens.now kinds.now) place (told.params_told (get nat_eq declared.old)) }
    ensures { OnOk result (AreParamsTold (seen text.now tokens.now kinds.now) (place + 1) (told.params_told (get nat_eq declared.new))) }
{
    if let Some((start, params)) = params_before(alloc, text, tokens, kinds, place, closed)? {
        declared.insert(start, params)?;
    }
    Ok(())
}

impl<'a> Around<'a> {
    /// Goes over the tokens and the brackets that are open.
    fn walk(
        alloc: Global,
        text: &'a [u8],
        tokens: &'a [Token],
        kinds: &[u8],
    ) -> Result<Around<'a>, AllocError>
        requires { IsText text.now tokens.now kinds.now }
        ensures types { IfOk result (λ it. AreTypesTold (seen text.now tokens.now kinds.now) (length (seen text.now tokens.now kinds.now)) (told.types_told (get nat_eq it.called))) }
        ensures params { IfOk result (λ it. AreParamsTold (seen text.now tokens.now kinds.now) (length (seen text.now tokens.now kinds.now)) (told.params_told (get nat_eq it.declared))) }
    {
        let mut called = HashMap::new(alloc);
        let mut declared = HashMap::new(alloc);
        let mut brackets = Brackets::new(alloc);
        for (place, kind) in kinds.iter().enumerate() {
            let closed = brackets.closed();
            tell_types(&mut called, alloc, text, tokens, kinds, place, closed)?;
            tell_params(&mut declared, alloc, text, tokens, kinds, place, closed)?;
            brackets.step(alloc, place, *kind)?;
        }
        Ok(Around { called, declared })
    }

    /// What is told of the names of a text: nothing where no brackets have to be matched.
    fn told(
        alloc: Global,
        text: &'a [u8],
        tokens: &'a [Token],
        kinds: &[u8],
    ) -> Result<Around<'a>, AllocError>
        requires { IsText text.now tokens.now kinds.now }
        ensures types { IfOk result (λ it. AreTypesTold (seen text.now tokens.now kinds.now) (length (seen text.now tokens.now kinds.now)) (told.types_told (get nat_eq it.called))) }
        ensures params { IfOk result (λ it. AreParamsTold (seen text.now tokens.now kinds.now) (length (seen text.now tokens.now kinds.now)) (told.params_told (get nat_eq it.declared))) }
    {
        if do_parens_matter(kinds) {
            return Around::walk(alloc, text, tokens, kinds);
        }
        Ok(Around {
            called: HashMap::new(alloc),
            declared: HashMap::new(alloc),
        })
    }

    /// What stands around the names of a text, whose tokens are of these kinds where they stand.
    pub fn new(
        alloc: Global,
        text: &'a [u8],
        tokens: &'a [Token],
        kinds: &[u8],
    ) -> Result<Around<'a>, AllocError>
        requires order { AreInOrder 0 (length text.now) tokens.now }
        requires kinds { AreKinds (map (symbol_in Ir text.now) tokens.now) kinds.now }
        requires stand { StandFor (map (symbol_in Ir text.now) tokens.now) (all_seen (map (symbol_in Ir text.now) tokens.now) kinds.now) }
        // No other types stand before a name.
        ensures types { IfOk result (λ it. (x : PlacedAt NameOf) (c : Called)
            → StatesTypes (all_seen (map (symbol_in Ir text.now) tokens.now) kinds.now) x c → told.called it x ≡ c) }
        // Nor do other parameters stand behind it.
        ensures params { IfOk result (λ it. (x : PlacedAt NameOf) (c : Declared)
            → StatesParams (all_seen (map (symbol_in Ir text.now) tokens.now) kinds.now) x c → told.declared it x ≡ c) }
        // What stands before a name between parentheses behind `void` is what is told.
        ensures stated { IfOk result (λ it. (x : PlacedAt NameOf) (before inside behind : List Symbol)
            → all_seen (map (symbol_in Ir text.now) tokens.now) kinds.now ≡ before ++ (void ∷ open_paren ∷ (inside ++ (close_paren ∷ GlobalName x ∷ behind)))
            → IsBalanced inside → StatesTypes (all_seen (map (symbol_in Ir text.now) tokens.now) kinds.now) x (told.called it x)) }
        // And so is what stands between parentheses behind a name of debugging and before `unnamed_addr`.
        ensures declares { IfOk result (λ it. (x : PlacedAt NameOf) (before inside behind : List Symbol)
            → all_seen (map (symbol_in Ir text.now) tokens.now) kinds.now ≡ before ++ (DebugName x ∷ open_paren ∷ (inside ++ (close_paren ∷ unnamed_addr ∷ behind)))
            → IsBalanced inside → StatesParams (all_seen (map (symbol_in Ir text.now) tokens.now) kinds.now) x (told.declared it x)) }
    {
        Around::told(alloc, text, tokens, kinds)
    }
}
