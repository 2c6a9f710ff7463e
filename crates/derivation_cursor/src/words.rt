//! What the token in front says that is a word.
ghost use Rattle.std.specs.Prelude.{◌≡◌};
ghost use Rattle.derivation_cursor.specs.At.{Passes, ahead_of};
ghost use Rattle.derivation_cursor.specs.Leaves.{IsAsWord, word_in};
ghost use Rattle.ir_lexer.specs.Said.{bytes_of};
ghost use Rattle.module_derivations.specs.Empty.{said};
ghost use Rattle.module_derivations.specs.Said.{exact_of, extension_of, flag_of, holding_of, linkage_of, overflow_of, plain_of, pred_of, resize_of, truth_of, width_of};
ghost use Rattle.module_grammar.specs.Spelled.{word_symbol};

use crate::cursor::Cursor;
use ir_core::Pred;
use ir_lexer::{Kind, Token};
use module_grammar::{
    ExactOp, ExtensionWord, FlagWord, HoldingWord, Language, LinkageWord, OverflowOp, Placed,
    PlainOp, ResizeOp, Word,
};
use module_tokens::{bytes_in, word_of};

/// The word that a token is.
#[inline(always)]
fn word_in(language: Language, text: &[u8], token: &Token) -> Word
    ensures { result ≡ word_in language token.now.kind (bytes_of text.now token.now) }
{
    match token.kind {
        Kind::Word => word_of(language, bytes_in(text, token)),
        _ => Word::Foreign,
    }
}

/// The word that stands in front, at its place.
#[tactic(auto, using(crate::proofs::Said::as_none))]
fn read_word(c: &mut Cursor) -> Placed<Word>
    ensures said { IsAsWord (said (ahead_of c.old)) (word_symbol result.what result.start result.end) }
    ensures passes { Passes c.old c.new }
{
    match c.token() {
        Some(token) => Placed {
            what: word_in(c.language, c.text, &token),
            start: token.start,
            end: token.end,
        },
        None => Placed {
            what: Word::Foreign,
            start: 0,
            end: 0,
        },
    }
}

/// The width of `iN`.
pub fn read_width(c: &mut Cursor) -> Placed<u32>
    ensures said { result ≡ width_of (said (ahead_of c.old)) }
    ensures passes { Passes c.old c.new }
{
    let word = read_word(c);
    match word.what {
        Word::Width(what) => Placed {
            what,
            start: word.start,
            end: word.end,
        },
        _ => Placed {
            what: 1,
            start: 0,
            end: 0,
        },
    }
}

/// `true` or `false`
pub fn read_truth(c: &mut Cursor) -> Placed<bool>
    ensures said { result ≡ truth_of (said (ahead_of c.old)) }
    ensures passes { Passes c.old c.new }
{
    let word = read_word(c);
    match word.what {
        Word::Truth(what) => Placed {
            what,
            start: word.start,
            end: word.end,
        },
        _ => Placed {
            what: false,
            start: 0,
            end: 0,
        },
    }
}

/// An operator behind which `nuw` and `nsw` may stand.
pub fn read_overflow(c: &mut Cursor) -> OverflowOp
    ensures said { result ≡ overflow_of (said (ahead_of c.old)) }
    ensures passes { Passes c.old c.new }
{
    match read_word(c).what {
        Word::Overflow(op) => op,
        _ => OverflowOp::Add,
    }
}

/// An operator behind which `exact` may stand.
pub fn read_exact(c: &mut Cursor) -> ExactOp
    ensures said { result ≡ exact_of (said (ahead_of c.old)) }
    ensures passes { Passes c.old c.new }
{
    match read_word(c).what {
        Word::Exact(op) => op,
        _ => ExactOp::LShr,
    }
}

/// An operator without flags.
pub fn read_plain(c: &mut Cursor) -> PlainOp
    ensures said { result ≡ plain_of (said (ahead_of c.old)) }
    ensures passes { Passes c.old c.new }
{
    match read_word(c).what {
        Word::Plain(op) => op,
        _ => PlainOp::And,
    }
}

/// A conversion between widths.
pub fn read_resize(c: &mut Cursor) -> ResizeOp
    ensures said { result ≡ resize_of (said (ahead_of c.old)) }
    ensures passes { Passes c.old c.new }
{
    match read_word(c).what {
        Word::Resize(op) => op,
        _ => ResizeOp::Trunc,
    }
}

/// A predicate.
pub fn read_pred(c: &mut Cursor) -> Pred
    ensures said { result ≡ pred_of (said (ahead_of c.old)) }
    ensures passes { Passes c.old c.new }
{
    match read_word(c).what {
        Word::Pred(pred) => pred,
        _ => Pred::Eq,
    }
}

/// `nuw` or `nsw`
pub fn read_flag(c: &mut Cursor) -> FlagWord
    ensures said { result ≡ flag_of (said (ahead_of c.old)) }
    ensures passes { Passes c.old c.new }
{
    match read_word(c).what {
        Word::Flag(flag) => flag,
        _ => FlagWord::Nuw,
    }
}

/// A word of linkage.
pub fn read_linkage(c: &mut Cursor) -> LinkageWord
    ensures said { result ≡ linkage_of (said (ahead_of c.old)) }
    ensures passes { Passes c.old c.new }
{
    match read_word(c).what {
        Word::Linkage(linkage) => linkage,
        _ => LinkageWord::Private,
    }
}

/// `signext` or `zeroext`
pub fn read_extension(c: &mut Cursor) -> ExtensionWord
    ensures said { result ≡ extension_of (said (ahead_of c.old)) }
    ensures passes { Passes c.old c.new }
{
    match read_word(c).what {
        Word::Extension(extension) => extension,
        _ => ExtensionWord::Signed,
    }
}

/// `global` or `constant`
pub fn read_holding(c: &mut Cursor) -> HoldingWord
    ensures said { result ≡ holding_of (said (ahead_of c.old)) }
    ensures passes { Passes c.old c.new }
{
    match read_word(c).what {
        Word::Holding(holding) => holding,
        _ => HoldingWord::Constant,
    }
}
