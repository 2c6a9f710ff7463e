use ir_core::Name;
use ir_lexer::{LexFault, Token, TokenKind, bytes_of, is_word, lex, mark_of, says};
use std::alloc::Global;
use std::test::*;

/// What stands in front of a token's text where it is shown; nothing before a word.
fn sign_of(kind: &TokenKind) -> Option<u8> {
    match kind {
        TokenKind::Local(_) => Some(b'%'),
        TokenKind::Global(_) => Some(b'@'),
        TokenKind::Label(_) => Some(b':'),
        TokenKind::Attribute(_) => Some(b'#'),
        TokenKind::Bang | TokenKind::Metadata(_) => Some(b'!'),
        TokenKind::Dots => Some(b'.'),
        TokenKind::Number(number) => Some(if number.negative { b'-' } else { b'+' }),
        TokenKind::Word(_) => None,
        TokenKind::Text(_) => Some(b'"'),
        TokenKind::Mark(byte) => Some(*byte),
    }
}

fn name_text(name: &Name) -> &[u8] {
    match name {
        Name::Text(bytes) => bytes.as_slice(),
        Name::Number(_) => b"(number)",
    }
}

fn kind_text(kind: &TokenKind) -> &[u8] {
    match kind {
        TokenKind::Local(name) | TokenKind::Global(name) | TokenKind::Label(name) => name_text(
            name,
        ),
        TokenKind::Attribute(bytes) => bytes.as_slice(),
        TokenKind::Metadata(bytes) => bytes.as_slice(),
        TokenKind::Word(bytes) => bytes.as_slice(),
        TokenKind::Text(bytes) => bytes.as_slice(),
        TokenKind::Number(_) => b"N",
        TokenKind::Bang | TokenKind::Dots | TokenKind::Mark(_) => b"",
    }
}

/// What is left of the wanted text behind what the token shows, if it begins so.
fn after<'a>(wanted: &'a [u8], kind: &TokenKind) -> Option<&'a [u8]> {
    let rest = match sign_of(kind) {
        Some(mark) => wanted.strip_prefix(&[mark])?,
        None => wanted,
    };
    rest.strip_prefix(kind_text(kind))?.strip_prefix(b" ")
}

/// A fault's letter, and its place as a digit.
fn fault_text(fault: LexFault) -> [u8; 2] {
    match fault {
        LexFault::BadByte(place) => [b'B', digit(place)],
        LexFault::BadString(place) => [b'S', digit(place)],
        LexFault::BadNumber(place) => [b'N', digit(place)],
        LexFault::Limit(_) => *b"L ",
        LexFault::Memory => *b"M ",
    }
}

fn digit(place: usize) -> u8 {
    if place < 10 { b'0' + place as u8 } else { b'?' }
}

/// Whether the tokens of the text show so, a blank behind each.
fn are(alloc: Global, text: &[u8], tokens: &[Token], wanted: &[u8]) -> bool {
    let mut rest = wanted;
    for token in tokens {
        let Ok(kind) = says(alloc, text, token) else {
            return false;
        };
        match after(rest, &kind) {
            Some(left) => rest = left,
            None => return false,
        }
    }
    rest.is_empty()
}

/// Whether the text is cut so, or has that fault.
fn is_cut(alloc: Global, text: &[u8], wanted: &[u8]) -> bool {
    match lex(alloc, text) {
        Ok(tokens) => are(alloc, text, tokens.as_slice(), wanted),
        Err(fault) => fault_text(fault).as_slice() == wanted,
    }
}

/// Texts, and behind a byte 2 what they are cut into; a byte 1 ends each.
const ROWS: &[u8] = b"\x02\x01\
%5abc:\x02%(number) :abc \x01\
%a5=add i32 -7,%\"x y\"\x02%a5 = add i32 -N , %x y \x01\
a;b\nc;d\re\x02a c e \x01\
define @f(...)\x02define @f ( . ) \x01\
.... ...x ...: ..\x02.... ...x :... .. \x01\
5: 007: -5: 5x: \"5\":\x02:(number) :(number) :-5 :5x :5 \x01\
c\"ab\": c\"\"\x02c :ab c \" \x01\
\"\\\\41\\41\\4g\\zz\\\"\x02\"\\41A\\4g\\zz\\ \x01\
\"\\5c\" \"\\4G\" \"\\g4\"\x02\"\\ \"\\4G \"\\g4 \x01\
#1a #007\x02#1 a #007 \x01\
!run ! !{!5} !\"s\"\x02!run ! ! { !5 } ! \"s \x01\
340282366920938463463374607431768211455\x02+N \x01\
[2 x i8]*<>|\x02[ +N x i8 ] * < > | \x01\
%4294967295 @\"\\25\" @-\x02%(number) @% @- \x01\
\"\":\x02B2\x01\
a %4294967296\x02B2\x01\
4294967296:\x02N0\x01\
%a:\x02B2\x01\
!a:\x02B2\x01\
#1:\x02B2\x01\
a #x\x02B2\x01\
a % b\x02B2\x01\
%\"\"\x02S1\x01\
@\"a\x02S1\x01\
x \"a\x02S2\x01\
x 0x1F\x02N2\x01\
x - 1\x02N2\x01\
340282366920938463463374607431768211456\x02N0\x01\
a ^\x02B2\x01\
a\x0b\x02B1\x01\
a \x0cb\x02B2\x01";

#[test]
fn rows(rt: HostRuntime) {
    let mut count: u32 = 0;
    for row in ROWS.split(|byte| *byte == 1) {
        let mut parts = row.split(|byte| *byte == 2);
        if let (Some(text), Some(want)) = (parts.next(), parts.next()) {
            assert!(rt; is_cut(rt.alloc(), text, want), "row {count}");
            count = count.saturating_add(1);
        }
    }
    assert!(rt; count == 32);
}

/// Whether the last token stands there, and so many are before it.
fn is_last_at(alloc: Global, text: &[u8], before: usize, start: u32, end: u32) -> bool {
    let Ok(tokens) = lex(alloc, text) else {
        return false;
    };
    match tokens.split_last() {
        Some((last, others)) => others.len() == before && last.start == start && last.end == end,
        None => false,
    }
}

#[test]
fn places(rt: HostRuntime) {
    let alloc = rt.alloc();
    assert!(rt; is_last_at(alloc, b" %5", 0, 1, 3));
    assert!(rt; is_last_at(alloc, b" %5abc: ; x", 1, 3, 7));
    assert!(rt; is_last_at(alloc, b" %5abc: ; x\n\"a\\41\":", 2, 12, 19));
}

/// Whether the first token is the word `ret`, the second the mark `(`, and the third spelled `%"a b"`.
fn are_asked(alloc: Global, text: &[u8]) -> bool {
    let Ok(tokens) = lex(alloc, text) else {
        return false;
    };
    match tokens.as_slice() {
        [word, mark, name] => {
            is_word(text, word, b"ret")
                && !is_word(text, word, b"re")
                && !is_word(text, mark, b"(")
                && mark_of(text, mark) == Some(b'(')
                && mark_of(text, word).is_none()
                && bytes_of(text, name) == b"%\"a b\"".as_slice()
        }
        _ => false,
    }
}

#[test]
fn questions(rt: HostRuntime) {
    assert!(rt; are_asked(rt.alloc(), b"ret ( %\"a b\""));
}
