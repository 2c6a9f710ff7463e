use crate::text_tests::told::{is, starred, told};
use expression_reader::read_expr;
use ir_core::{Expr, Expr0};
use ir_printer::{print_expr, print_type};
use std::alloc::{AllocError, Global};
use std::test::*;

/// The expression that the text spells, as it is printed, or the text's first fault.
fn shown(alloc: Global, text: &[u8]) -> Result<Vec<u8>, AllocError> {
    match read_expr(alloc, text) {
        Ok(expression) => print_expr(alloc, &expression),
        Err(fault) => told(alloc, fault),
    }
}

/// Texts, and behind a `~` the expression that each spells, as it is printed, or its first fault. Behind an empty line come faults.
const ROWS: &[u8] = b"i32 %x~i32 %x
i32 old %x~i32 old %x
i32 ghost %\"a b\"~i32 ghost %\"a b\"
%pair old %7~%pair old %7
i8 -1~i8 -1
i8 255~i8 -1
i8 127~i8 127
i8 200~i8 -56
i8 -128~i8 -128
i1 true~i1 true
i1 1~i1 true
i1 -1~i1 true
i1 0~i1 false
i32 2147483647~i32 2147483647
i64 0~i64 0
i64 18446744073709551615~i64 -1
i8 null~i8 null
i8* null~i8* null
[2 x {i8}] undef~[2 x { i8 }] undef
i8 @f~i8 @f
i8* @\"llvm.dbg.value\"~i8* @llvm.dbg.value
i8* getelementptr ([4 x i8], [4 x i8]* @s, i32 0, i32 -1)~i8* getelementptr ([4 x i8], [4 x i8]* @s, i32 0, i32 -1)
i8 bitcast (i32* @g to i8*)~i8 bitcast (i32* @g to i8*)
add nsw nuw nsw i32 old %x, -1~add nuw nsw i32 old %x, -1
udiv exact i8 ghost %x, 200~udiv exact i8 ghost %x, -56
xor i1 %a, false~xor i1 %a, false
shl {} %a, undef~shl {} %a, undef
add nuw nsw i32 old %0, 0~add nuw nsw i32 old %0, 0
mul i8 %0, 3~mul i8 %0, 3
shl nuw nsw i8 %0, 3~shl nuw nsw i8 %0, 3
udiv exact i8 %0, 3~udiv exact i8 %0, 3
srem i8 %0, 3~srem i8 %0, 3
xor i8 %0, 3~xor i8 %0, 3
icmp ne i8 %0, 255~icmp ne i8 %0, -1
icmp ult i8 %0, -1~icmp ult i8 %0, -1
icmp sge i8 %0, 255~icmp sge i8 %0, -1
zext i1 %0 to i8~zext i1 %0 to i8
sext i8 %0 to i64~sext i8 %0 to i64
trunc i16 %0 to i1~trunc i16 %0 to i1
bitcast i8 %0 to i8~bitcast i8 %0 to i8
select i1 %0, i8 1, i8 %1~select i1 %0, i8 1, i8 %1
select i1 %0, i1 1, i1 %2~select i1 %0, i1 true, i1 %2
icmp ule i8* %p, null~icmp ule i8* %p, null
trunc i8 %x to i64~trunc i8 %x to i64
bitcast {i8*} old %s to [2 x %t]~bitcast { i8* } old %s to [2 x %t]
select i1 ghost %c, i8 1, i16 old %y~select i1 ghost %c, i8 1, i16 old %y
getelementptr inbounds %t, %t* old %p, i64 0, i32 ghost %i~getelementptr inbounds %t, %t* old %p, i64 0, i32 ghost %i
getelementptr i8, i32 %p~getelementptr i8, i32 %p
load i32, i32* %p~load i32, i32* %p, align 4
load i1, i1* %p, align 0~load i1, i1* %p, align 1
load i17, i17* ghost %p~load i17, i17* ghost %p, align 4
load i64, i64* %p, align 00~load i64, i64* %p, align 8
load i8**, i8*** @g~load i8**, i8*** @g, align 8
load i64, i64* %p, align 1~load i64, i64* %p, align 1
load i8, i8* %p, align 536870912~load i8, i8* %p, align 536870912
load %t, %t* %p~load %t, %t* %p, align 1
load [2 x i64], [2 x i64]* %p, align 0~load [2 x i64], [2 x i64]* %p, align 1
load {i64}, i8 undef~load { i64 }, i8 undef, align 1

~Expected 0
i32~Expected 3
%x~Expected 2
5~Expected 0
i32 old~Expected 7
i32 old 5~Expected 8
old i32 %x~Expected 0
i32 old ghost %x~Expected 8
i32 ghost @f~Expected 10
i32 ghost undef~Expected 10
zext i8 %x to old~Expected 14
i32 %x, i32 %y~Expected 6
i32 zeroinitializer~Expected 4
add i8 %x~Expected 9
and nsw i8 1, 2~Expected 4
icmp i8 1, 2~Expected 5
getelementptr i8, i8* %p, !a~Expected 26
load i8, i8* %p, !dbg !5~Expected 17
load i8, i8* %p, align~Expected 22
alloca i8~Expected 0
store i8 1, i8* %p~Expected 0
call i8 @f()~Expected 0
phi i8 [ 1, %a ]~Expected 0
%y = add i8 1, 2~Expected 3
load volatile i8, i8* %p~LeftOut 5 8
float %x~LeftOut 0 5
fadd i8 1, 2~LeftOut 0 4
i65 %x~LeftOut 0 3
zext i8 %x to double~LeftOut 14 6
i8 %x ^~BadByte 6
i8 -x~BadNumber 3
i8 %\"\"~BadString 4
i8 256~WrongType 3
i8 -129~WrongType 3
i1 2~WrongType 3
i64 18446744073709551616~WrongType 4
i8 true~WrongType 3
i8* 0~WrongType 4
%t 0~WrongType 3
{i8} false~WrongType 5
[-1 x i8] %x~WrongType 1
add i8 %x, 300~WrongType 11
add i8 300, -129~WrongType 7
add i8 300, old 5~Expected 16
icmp eq i8* %p, 0~WrongType 16
bitcast i8 %x to [-1 x i8]~WrongType 18
bitcast i8 300 to [-1 x i8]~WrongType 11
select i8 1, i1 2, i8 300~WrongType 16
getelementptr [-1 x i8], i8 300, i8 -129~WrongType 15
getelementptr i8, i8* %p, i8 1, i8 -129~WrongType 35
i8* getelementptr (i8, i8* @g, i8 300)~WrongType 34
i8 bitcast (i8* 5 to [-1 x i8])~WrongType 16
i8 bitcast (i8* @g to [-1 x i8])~WrongType 23
load i32, i32* %p, align 3~WrongType 25
load i32, i32* %p, align -4~WrongType 25
load i32, i32* %p, align 1073741824~WrongType 25
load i32, i32* 5, align 3~WrongType 15
load [-1 x i8], i8* 5, align 3~WrongType 6
load i32, i32* 5, align 3 )~Expected 26
load i32, i32* 5, align 3 0x1F~BadNumber 26";

#[test]
fn rows(rt: HostRuntime) {
    let mut count: u32 = 0;
    for row in ROWS.split(|byte| *byte == b'\n') {
        let mut parts = row.split(|byte| *byte == b'~');
        if let (Some(text), Some(wanted)) = (parts.next(), parts.next()) {
            assert!(rt; is(shown(rt.alloc(), text), wanted), "row {count}");
            count = count.saturating_add(1);
        }
    }
    assert!(rt; count == 118);
}

/// The same of registers of the logic; a `|` ends each.
const REGISTERS: &[u8] = b"i32 ghost %g~i32 ghost %g|\
i32 old %x~i32 old %x|\
i32 old ; before\n %x~i32 old %x|\
add nsw i32 old %x, ghost %y~add nsw i32 old %x, ghost %y|\
select i1 ghost %c, i32 %x, i32 old %y~select i1 ghost %c, i32 %x, i32 old %y|\
i32 old 5~Expected 8|\
old ghost %x~Expected 0|\
old i32 %x~Expected 0|\
i32 old ghost %x~Expected 8|\
i32 ghost undef~Expected 10|\
i32 ghost @f~Expected 10|\
i32 old~Expected 7|\
i32 %x old~Expected 7|\
zext i8 %x to old~Expected 14";

#[test]
fn registers(rt: HostRuntime) {
    let mut count: u32 = 0;
    for row in REGISTERS.split(|byte| *byte == b'|') {
        let mut parts = row.split(|byte| *byte == b'~');
        if let (Some(text), Some(wanted)) = (parts.next(), parts.next()) {
            assert!(rt; is(shown(rt.alloc(), text), wanted), "row {count}");
            count = count.saturating_add(1);
        }
    }
    assert!(rt; count == 14);
}

/// Texts of addresses, and behind a `~` the type that is kept of each: it follows where no name has fields.
const ADDRESSES: &[u8] = b"getelementptr i8, i8* %p~i8*
getelementptr %t, i8 %p, i1 %i~%t*
getelementptr [4 x i8], [4 x i8]* %p, i64 0, i8 %i~i8*
getelementptr {i32, [4 x %t]}, i8* %p, i64 0, i32 1, i64 2~%t*
getelementptr {i32, i16}, i8* %p, i64 0, i32 1~i16*
getelementptr {i32, i16}, i8* %p, i64 0, i32 2~{ i32, i16 }*
getelementptr {i32, i16}, i8* %p, i64 0, i64 1~{ i32, i16 }*
getelementptr {i32, i16}, i8* %p, i64 0, i32 old %i~{ i32, i16 }*
getelementptr i8, i8* %p, i8* null~i8*
getelementptr i8*, i8** %p, i64 0, i64 0~i8**
getelementptr %t, %t* %p, i64 0, i32 1~%t*
getelementptr [2 x %t], i8* %p, i64 0, i64 1, i32 0~[2 x %t]*";

fn shown_type(alloc: Global, expression: &Expr0) -> Result<Vec<u8>, AllocError> {
    match expression {
        Expr::Element(element) => print_type(alloc, &element.get().to),
        _ => Ok(Vec::new(alloc)),
    }
}

/// The type that is kept of the address that the text spells.
fn kept(alloc: Global, text: &[u8]) -> Result<Vec<u8>, AllocError> {
    match read_expr(alloc, text) {
        Ok(expression) => shown_type(alloc, &expression),
        Err(fault) => told(alloc, fault),
    }
}

#[test]
fn addresses(rt: HostRuntime) {
    let mut count: u32 = 0;
    for row in ADDRESSES.split(|byte| *byte == b'\n') {
        let mut parts = row.split(|byte| *byte == b'~');
        if let (Some(text), Some(wanted)) = (parts.next(), parts.next()) {
            assert!(rt; is(kept(rt.alloc(), text), wanted), "row {count}");
            count = count.saturating_add(1);
        }
    }
    assert!(rt; count == 12);
}

/// Whether this is shown of the text with so many stars behind it, and then more.
fn is_deep(alloc: Global, text: &[u8], stars: usize, behind: &[u8], wanted: &[u8]) -> bool {
    match starred(alloc, text, stars, behind) {
        Ok(text) => is(shown(alloc, text.as_slice()), wanted),
        Err(_) => false,
    }
}

/// The value stands beside its type, and not in it.
#[test]
fn expressions_of_a_depth_of_64_are_read(rt: HostRuntime) {
    let alloc = rt.alloc();
    let read = match starred(alloc, b"i8", 63, b" null") {
        Ok(text) => is(shown(alloc, text.as_slice()), text.as_slice()),
        Err(_) => false,
    };
    assert!(rt; read);
    assert!(rt; is_deep(alloc, b"i8", 65, b" null", b"Limit depth"));
    assert!(rt; is_deep(alloc, b"add i8 300, 5) i8", 65, b"", b"Expected 13"));
    assert!(rt; is_deep(alloc, b"i8 bitcast (i8", 63, b" @g to i8)", b"Limit depth"));
}
