use crate::text_tests::told::{is, starred, told};
use expression_reader::read_type;
use ir_printer::print_type;
use std::alloc::{AllocError, Global};
use std::test::*;

/// The type that the text spells, as it is printed, or the text's first fault.
fn shown(alloc: Global, text: &[u8]) -> Result<Vec<u8>, AllocError> {
    match read_type(alloc, text) {
        Ok(ty) => print_type(alloc, &ty),
        Err(fault) => told(alloc, fault),
    }
}

/// Texts, and behind a `~` the type that each spells, as it is printed, or its first fault.
const ROWS: &[u8] = b"i1~i1
i64~i64
i8*~i8*
 i8 * * ; a pointer to a pointer~i8**
[4 x i8]~[4 x i8]
[007 x i8]~[7 x i8]
[0 x i32]~[0 x i32]
[-0 x i32]~[0 x i32]
[18446744073709551615 x i8]~[18446744073709551615 x i8]
[2 x [3 x i16]]*~[2 x [3 x i16]]*
{}~{}
{ i32,i8* }~{ i32, i8* }
{{}, [2 x {i8}]*}~{ {}, [2 x { i8 }]* }
%pair*~%pair*
%007~%7
%\"pair\"~%pair
%\"a b\"~%\"a b\"
[4 x %\"7\"*]~[4 x %\"7\"*]
~Expected 0
void~Expected 0
@g~Expected 0
old~Expected 0
x~Expected 0
i0~Expected 0
i08~Expected 0
I8~Expected 0
i65~LeftOut 0 3
float~LeftOut 0 5
<4 x i8>~LeftOut 0 1
[4 x double]~LeftOut 5 6
i8 addrspace(1)*~LeftOut 3 9
i8*, double~Expected 3
i8 i8~Expected 3
i8)~Expected 2
[4 y i8]~Expected 3
[4 x i8~Expected 7
[i8]~Expected 1
{i8,}~Expected 4
{i8~Expected 3
i8 (i8)*~Expected 3
[-1 x i8]~WrongType 1
[18446744073709551616 x i8]~WrongType 1
{[2 x i8], [-2 x [-3 x i8]]}~WrongType 12
[-1 x [-1 x i8]~Expected 15
[-1 x float]~LeftOut 6 5
[-1 x i8] ^~BadByte 10
[-1 x i8] 0x1F~BadNumber 10
%\"\"~BadString 1
% a~BadByte 0
[-1 x i8] \"~BadString 10";

#[test]
fn rows(rt: HostRuntime) {
    let mut count: u32 = 0;
    for row in ROWS.split(|byte| *byte == b'\n') {
        let mut parts = row.split(|byte| *byte == b'~');
        if let (Some(text), Some(wanted)) = (parts.next(), parts.next()) {
            assert!(rt; is(shown(rt.alloc(), text), wanted), "row {count}");
            count = count.saturating_add(1);
        }
    }
    assert!(rt; count == 50);
}

/// Whether this is shown of the text with so many stars behind it, and then more.
fn is_deep(alloc: Global, text: &[u8], stars: usize, behind: &[u8], wanted: &[u8]) -> bool {
    match starred(alloc, text, stars, behind) {
        Ok(text) => is(shown(alloc, text.as_slice()), wanted),
        Err(_) => false,
    }
}

/// The type before the stars stands at 1, and the first star at 2.
#[test]
fn types_of_a_depth_of_64_are_read(rt: HostRuntime) {
    let alloc = rt.alloc();
    let read = match starred(alloc, b"%t", 63, b"") {
        Ok(text) => is(shown(alloc, text.as_slice()), text.as_slice()),
        Err(_) => false,
    };
    assert!(rt; read);
    assert!(rt; is_deep(alloc, b"%t", 64, b"", b"Limit depth"));
    assert!(rt; is_deep(alloc, b"[-1 x i8]", 65, b"", b"Limit depth"));
    // What comes first is told: the star that is too deep, or what isn't expected before it.
    assert!(rt; is_deep(alloc, b"i8", 64, b")", b"Limit depth"));
    assert!(rt; is_deep(alloc, b"i8)", 64, b"", b"Expected 2"));
    assert!(rt; is_deep(alloc, b"i8", 64, b" ^", b"BadByte 67"));
}
