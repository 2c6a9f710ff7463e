//! The words of textual IR but for the types, in a table by slots, in which a word is looked for at one place.
ghost use Rattle.std.specs.Prelude.{◌≡◌, get_or, map};
ghost use Rattle.std.specs.Str.{bytes_eq};
ghost use Rattle.module_tokens.specs.Slots.{AreOfSlots, entry_of, nothing, said_as, said_named, slot};

use ir_core::Pred;
use module_grammar::{
    ExactOp, ExtensionWord, FlagWord, HoldingWord, KeyWord, LinkageWord, OverflowOp, PlainOp,
    ResizeOp, Word,
};

/// The words, in the order of `words` of `module_grammar/specs/Words.antt`.
static WORDS: [(&[u8], Word); 114] = [
    (b"true", Word::Truth(true)),
    (b"false", Word::Truth(false)),
    (b"nuw", Word::Flag(FlagWord::Nuw)),
    (b"nsw", Word::Flag(FlagWord::Nsw)),
    (b"signext", Word::Extension(ExtensionWord::Signed)),
    (b"zeroext", Word::Extension(ExtensionWord::Zero)),
    (b"global", Word::Holding(HoldingWord::Global)),
    (b"constant", Word::Holding(HoldingWord::Constant)),
    (b"add", Word::Overflow(OverflowOp::Add)),
    (b"sub", Word::Overflow(OverflowOp::Sub)),
    (b"mul", Word::Overflow(OverflowOp::Mul)),
    (b"shl", Word::Overflow(OverflowOp::Shl)),
    (b"udiv", Word::Exact(ExactOp::UDiv)),
    (b"sdiv", Word::Exact(ExactOp::SDiv)),
    (b"lshr", Word::Exact(ExactOp::LShr)),
    (b"ashr", Word::Exact(ExactOp::AShr)),
    (b"urem", Word::Plain(PlainOp::URem)),
    (b"srem", Word::Plain(PlainOp::SRem)),
    (b"and", Word::Plain(PlainOp::And)),
    (b"or", Word::Plain(PlainOp::Or)),
    (b"xor", Word::Plain(PlainOp::Xor)),
    (b"zext", Word::Resize(ResizeOp::ZExt)),
    (b"sext", Word::Resize(ResizeOp::SExt)),
    (b"trunc", Word::Resize(ResizeOp::Trunc)),
    (b"eq", Word::Pred(Pred::Eq)),
    (b"ne", Word::Pred(Pred::Ne)),
    (b"ugt", Word::Pred(Pred::Ugt)),
    (b"uge", Word::Pred(Pred::Uge)),
    (b"ult", Word::Pred(Pred::Ult)),
    (b"ule", Word::Pred(Pred::Ule)),
    (b"sgt", Word::Pred(Pred::Sgt)),
    (b"sge", Word::Pred(Pred::Sge)),
    (b"slt", Word::Pred(Pred::Slt)),
    (b"sle", Word::Pred(Pred::Sle)),
    (b"private", Word::Linkage(LinkageWord::Private)),
    (b"internal", Word::Linkage(LinkageWord::Internal)),
    (b"common", Word::Linkage(LinkageWord::Common)),
    (
        b"available_externally",
        Word::Linkage(LinkageWord::AvailableExternally),
    ),
    (b"linkonce_odr", Word::Linkage(LinkageWord::LinkonceOdr)),
    (b"weak_odr", Word::Linkage(LinkageWord::WeakOdr)),
    (b"null", Word::Null),
    (b"getelementptr", Word::Element),
    (b"bitcast", Word::BitCast),
    (b"ret", Word::Key(KeyWord::Ret)),
    (b"exact", Word::Key(KeyWord::Exact)),
    (b"icmp", Word::Key(KeyWord::Icmp)),
    (b"select", Word::Key(KeyWord::Select)),
    (b"to", Word::Key(KeyWord::To)),
    (b"undef", Word::Key(KeyWord::Undef)),
    (b"inbounds", Word::Key(KeyWord::Inbounds)),
    (b"load", Word::Key(KeyWord::Load)),
    (b"align", Word::Key(KeyWord::Align)),
    (b"void", Word::Key(KeyWord::Void)),
    (b"phi", Word::Key(KeyWord::Phi)),
    (b"br", Word::Key(KeyWord::Br)),
    (b"label", Word::Key(KeyWord::Label)),
    (b"switch", Word::Key(KeyWord::Switch)),
    (b"unreachable", Word::Key(KeyWord::Unreachable)),
    (b"alloca", Word::Key(KeyWord::Alloca)),
    (b"store", Word::Key(KeyWord::Store)),
    (b"call", Word::Key(KeyWord::Call)),
    (b"tail", Word::Key(KeyWord::Tail)),
    (b"define", Word::Key(KeyWord::Define)),
    (b"declare", Word::Key(KeyWord::Declare)),
    (b"type", Word::Key(KeyWord::TypeKey)),
    (b"opaque", Word::Key(KeyWord::Opaque)),
    (b"ccc", Word::Key(KeyWord::Ccc)),
    (b"alignstack", Word::Key(KeyWord::AlignStack)),
    (b"unnamed_addr", Word::Key(KeyWord::UnnamedAddr)),
    (b"external", Word::Key(KeyWord::External)),
    (b"target", Word::Key(KeyWord::Target)),
    (b"datalayout", Word::Key(KeyWord::Property)),
    (b"triple", Word::Key(KeyWord::Property)),
    (b"attributes", Word::Key(KeyWord::Attributes)),
    (b"distinct", Word::Key(KeyWord::Distinct)),
    (b"x", Word::Key(KeyWord::Times)),
    (b"c", Word::Key(KeyWord::Bytes)),
    (b"zeroinitializer", Word::Key(KeyWord::ZeroInitializer)),
    (b"noalias", Word::Key(KeyWord::ParamWord)),
    (b"nocapture", Word::Key(KeyWord::ParamWord)),
    (b"nonnull", Word::Key(KeyWord::ParamWord)),
    (b"returned", Word::Key(KeyWord::ParamWord)),
    (b"readonly", Word::Key(KeyWord::AccessWord)),
    (b"readnone", Word::Key(KeyWord::AccessWord)),
    (b"dereferenceable", Word::Key(KeyWord::SizedWord)),
    (b"dereferenceable_or_null", Word::Key(KeyWord::SizedWord)),
    (b"alwaysinline", Word::Key(KeyWord::FunctionWord)),
    (b"argmemonly", Word::Key(KeyWord::FunctionWord)),
    (b"builtin", Word::Key(KeyWord::FunctionWord)),
    (b"cold", Word::Key(KeyWord::FunctionWord)),
    (b"convergent", Word::Key(KeyWord::FunctionWord)),
    (b"inlinehint", Word::Key(KeyWord::FunctionWord)),
    (b"jumptable", Word::Key(KeyWord::FunctionWord)),
    (b"minsize", Word::Key(KeyWord::FunctionWord)),
    (b"naked", Word::Key(KeyWord::FunctionWord)),
    (b"nobuiltin", Word::Key(KeyWord::FunctionWord)),
    (b"noduplicate", Word::Key(KeyWord::FunctionWord)),
    (b"noimplicitfloat", Word::Key(KeyWord::FunctionWord)),
    (b"noinline", Word::Key(KeyWord::FunctionWord)),
    (b"nonlazybind", Word::Key(KeyWord::FunctionWord)),
    (b"noredzone", Word::Key(KeyWord::FunctionWord)),
    (b"noreturn", Word::Key(KeyWord::FunctionWord)),
    (b"nounwind", Word::Key(KeyWord::FunctionWord)),
    (b"optnone", Word::Key(KeyWord::FunctionWord)),
    (b"optsize", Word::Key(KeyWord::FunctionWord)),
    (b"returns_twice", Word::Key(KeyWord::FunctionWord)),
    (b"safestack", Word::Key(KeyWord::FunctionWord)),
    (b"sanitize_address", Word::Key(KeyWord::FunctionWord)),
    (b"sanitize_memory", Word::Key(KeyWord::FunctionWord)),
    (b"sanitize_thread", Word::Key(KeyWord::FunctionWord)),
    (b"ssp", Word::Key(KeyWord::FunctionWord)),
    (b"sspreq", Word::Key(KeyWord::FunctionWord)),
    (b"sspstrong", Word::Key(KeyWord::FunctionWord)),
    (b"uwtable", Word::Key(KeyWord::FunctionWord)),
];

/// For each slot the number of the word that has it, counted from 0, or 114 where none has. `tools/word-slots` writes it.
static NUMBERS: [u8; 512] = [
    114, 114, 114, 9, 114, 114, 114, 114, 114, 39, 114, 114, 114, 97, 114, 114, 114, 58, 114, 114,
    114, 114, 114, 44, 114, 114, 18, 16, 114, 114, 114, 65, 53, 114, 103, 91, 33, 114, 114, 114,
    114, 114, 114, 114, 112, 114, 114, 114, 114, 114, 114, 114, 114, 105, 114, 114, 114, 114, 114,
    114, 114, 114, 114, 114, 114, 20, 114, 114, 114, 114, 19, 114, 114, 27, 4, 41, 114, 114, 114,
    12, 22, 114, 114, 114, 114, 114, 114, 114, 114, 114, 114, 108, 60, 114, 114, 51, 114, 114, 114,
    114, 114, 114, 114, 114, 79, 102, 114, 114, 101, 104, 114, 114, 114, 114, 114, 25, 114, 114,
    114, 114, 114, 114, 114, 49, 114, 114, 114, 114, 114, 114, 114, 114, 114, 114, 114, 114, 114,
    47, 114, 114, 96, 114, 114, 114, 114, 114, 114, 114, 29, 114, 114, 52, 114, 114, 114, 45, 89,
    38, 114, 114, 114, 114, 114, 114, 68, 114, 114, 114, 114, 114, 114, 114, 114, 114, 114, 113,
    114, 59, 114, 84, 48, 114, 114, 114, 114, 114, 114, 114, 114, 114, 114, 114, 114, 114, 114,
    114, 40, 114, 35, 114, 64, 114, 114, 43, 114, 114, 114, 71, 114, 114, 34, 23, 114, 114, 114,
    114, 114, 114, 114, 114, 78, 114, 114, 114, 114, 107, 114, 10, 114, 114, 114, 74, 114, 114,
    114, 114, 114, 114, 114, 114, 114, 114, 114, 114, 114, 110, 114, 114, 114, 114, 83, 114, 114,
    106, 81, 114, 15, 114, 114, 114, 114, 114, 6, 114, 114, 114, 114, 114, 114, 114, 114, 114, 114,
    114, 114, 0, 114, 114, 114, 114, 114, 114, 114, 114, 114, 114, 114, 114, 114, 30, 114, 114, 88,
    94, 99, 114, 72, 114, 114, 114, 114, 114, 114, 114, 114, 114, 114, 114, 114, 114, 114, 114,
    114, 114, 114, 36, 77, 67, 114, 62, 114, 114, 114, 114, 114, 114, 114, 114, 114, 114, 114, 114,
    114, 76, 114, 114, 114, 114, 114, 114, 7, 114, 114, 114, 114, 114, 114, 37, 114, 114, 114, 114,
    114, 114, 114, 114, 114, 3, 114, 114, 14, 82, 114, 114, 32, 114, 54, 114, 11, 114, 80, 114,
    114, 114, 114, 114, 114, 114, 114, 114, 114, 114, 114, 85, 114, 114, 114, 2, 8, 114, 114, 114,
    114, 114, 114, 114, 114, 57, 114, 114, 114, 26, 114, 46, 114, 114, 90, 114, 114, 114, 114, 114,
    63, 114, 114, 114, 114, 114, 114, 114, 114, 114, 114, 114, 114, 114, 114, 17, 1, 66, 111, 114,
    114, 114, 114, 114, 100, 114, 114, 86, 75, 114, 114, 114, 114, 114, 114, 114, 114, 114, 114,
    109, 92, 114, 114, 114, 114, 114, 114, 114, 114, 114, 114, 24, 114, 114, 114, 114, 56, 114,
    114, 114, 21, 31, 114, 114, 28, 114, 114, 13, 114, 5, 114, 114, 114, 114, 69, 61, 114, 70, 114,
    114, 114, 42, 55, 50, 114, 114, 114, 87, 114, 114, 114, 95, 114, 114, 114, 114, 98, 93, 73,
    114,
];

/// The byte there, or 0 past the end.
fn byte_at(bytes: &[u8], index: usize) -> usize
    ensures { result ≡ get_or bytes.now index 0 }
{
    match bytes.get(index) {
        Some(byte) => *byte as usize,
        None => 0,
    }
}

/// The one slot where the word can stand. The factors were found by trial: of the words no two have one slot.
#[tactic(auto, unfolding(crate::specs::Slots::slot))]
fn slot(word: &[u8]) -> usize
    ensures { result ≡ slot word.now }
{
    let len = word.len() % 32;
    let ends = byte_at(word, 0) + byte_at(word, word.len().saturating_sub(1));
    (ends * 56 + byte_at(word, word.len() / 2) * 15 + len * 48) % 512
}

/// Whether the words are the same. They are short, so that each byte is looked at by itself.
#[inline(always)]
fn is_same(word: &[u8], other: &[u8]) -> bool
    ensures { result ≡ bytes_eq word.now other.now }
{
    if word.len() != other.len() {
        return false;
    }
    for (index, byte) in word.iter().enumerate() {
        if *byte != other[index] {
            return false;
        }
    }
    true
}

/// What a word is that can only be the word of this number.
fn said_at(entries: &[(&[u8], Word)], number: usize, word: &[u8]) -> Word
    ensures { result ≡ said_as (get_or (map entry_of entries.now) number nothing) word.now }
{
    match entries.get(number) {
        Some((other, said)) => {
            if is_same(word, other) {
                *said
            } else {
                Word::Foreign
            }
        }
        None => Word::Foreign,
    }
}

/// The numbers of the words by their slots.
fn numbers() -> &'static [u8]
    ensures { AreOfSlots result.now }
{
    &NUMBERS
}

/// What a word is that is no type.
pub fn named_word(word: &[u8]) -> Word
    ensures { result ≡ said_named word.now }
{
    said_at(&WORDS, byte_at(numbers(), slot(word)), word)
}
