//! Names with marks, by which most are seen to differ.
ghost use Rattle.std.specs.Prelude.{◌≡◌};
ghost use Rattle.ir_types.specs.Same as same;
ghost use Rattle.ir_typing.specs.ShapeKinds.Marks as marks;

use ir_core::{Name, same_name};

/// A name with its mark.
#[derive(Drop, Clone, Copy)]
pub(crate) struct Marked<'a> {
    mark: u32,
    name: &'a Name,
    ghost is_mark: { mark ≡ marks.mark_of name.now },
}

impl<'a> Marked<'a> {
    #[inline(always)]
    pub(crate) fn new(mark: u32, name: &'a Name) -> Marked<'a>
        requires { mark ≡ marks.mark_of name.now }
        ensures { result.name ≡ name.entry }
    {
        Marked { mark, name }
    }
}

#[inline(always)]
fn mark_of_bytes(bytes: &[u8]) -> u32
    ensures { result ≡ marks.mark_of_bytes bytes.now }
{
    match bytes.last() {
        Some(last) => u32::from(*last) + 256 * (bytes.len() % 65536) as u32,
        None => 0,
    }
}

/// By how long the name is, and how it ends.
#[inline(always)]
pub(crate) fn mark_of(name: &Name) -> u32
    ensures { result ≡ marks.mark_of name.now }
{
    match name {
        Name::Text(bytes) => mark_of_bytes(bytes.as_slice()),
        Name::Number(number) => *number,
    }
}

/// Whether it is the name of that mark.
#[inline(always)]
pub(crate) fn is_it(one: &Marked, mark: u32, name: &Name) -> bool
    requires { mark ≡ marks.mark_of name.now }
    ensures { result ≡ same.same_name name.now one.now.name.now }
{
    one.mark == mark && same_name(name, one.name)
}
