//! The blocks from which edges enter one, of which most have one or two.
ghost use Rattle.std.specs.Prelude.{◌≡◌, ◌++◌, [], ◌∷◌, length, IfOk, OnOk};
ghost use Rattle.ir_shape.specs.ShapeTests.Edges.{named, names_on};

use ir_core::Name;
use std::alloc::{AllocError, Global};
use std::mem;

#[derive(Drop, Clone, Copy)]
pub struct Single<'a> {
    pub names: [&'a Name; 1],
}

#[derive(Drop, Clone, Copy)]
pub struct Pair<'a> {
    pub names: [&'a Name; 2],
}

/// Names that are lent, in an order. Up to two take no memory.
pub enum Row<'a> {
    Empty,
    One(Single<'a>),
    Two(Pair<'a>),
    More(Vec<&'a Name>),
}

impl<'a> Drop for Row<'a> {
    fn drop(self) {
        match self {
            Row::Empty => {}
            Row::One(_) => {}
            Row::Two(_) => {}
            Row::More(_) => {}
        }
    }
}

fn two<'a>(one: &'a Name, two: &'a Name) -> Pair<'a>
    ensures { named result.names ≡ one.now ∷ two.now ∷ [] }
{
    Pair { names: [one, two] }
}

fn three<'a>(
    alloc: Global,
    one: &'a Name,
    two: &'a Name,
    three: &'a Name,
) -> Result<Vec<&'a Name>, AllocError>
    ensures { IfOk result (λ names. named names.items ≡ one.now ∷ two.now ∷ three.now ∷ []) }
{
    let mut names = Vec::with_capacity(alloc, 4)?;
    names.push(one)?;
    names.push(two)?;
    names.push(three)?;
    Ok(names)
}

#[tactic(auto, using(crate::proofs::ShapeTests::OneOrTwo::one_name))]
fn second<'a>(names: &[&'a Name], name: &'a Name) -> Pair<'a>
    requires { length names.now ≡ 1 }
    ensures { named result.names ≡ named names.now ++ name.now ∷ [] }
{
    two(names[0], name)
}

#[tactic(auto, using(crate::proofs::ShapeTests::OneOrTwo::two_names))]
fn third<'a>(alloc: Global, names: &[&'a Name], name: &'a Name) -> Result<Vec<&'a Name>, AllocError>
    requires { length names.now ≡ 2 }
    ensures { IfOk result (λ more. named more.items ≡ named names.now ++ name.now ∷ []) }
{
    three(alloc, names[0], names[1], name)
}

fn grown<'a>(names: Vec<&'a Name>, name: &'a Name) -> Result<Vec<&'a Name>, AllocError>
    ensures { IfOk result (λ more. named more.items ≡ named names.entry.items ++ name.now ∷ []) }
{
    let mut names = names;
    names.push(name)?;
    Ok(names)
}

impl<'a> Row<'a> {
    pub fn as_slice(&self) -> &[&'a Name]
        ensures { named result.now ≡ names_on self.now }
    {
        match self {
            Row::Empty => &[],
            Row::One(single) => single.names.as_slice(),
            Row::Two(pair) => pair.names.as_slice(),
            Row::More(names) => names.as_slice(),
        }
    }

    /// The same with one more.
    fn with(self, alloc: Global, name: &'a Name) -> Result<Row<'a>, AllocError>
        ensures { IfOk result (λ row. names_on row ≡ names_on self.entry ++ name.now ∷ []) }
    {
        match self {
            Row::Empty => Ok(Row::One(Single { names: [name] })),
            Row::One(single) => Ok(Row::Two(second(single.names.as_slice(), name))),
            Row::Two(pair) => Ok(Row::More(third(alloc, pair.names.as_slice(), name)?)),
            Row::More(names) => Ok(Row::More(grown(names, name)?)),
        }
    }
}

/// Puts a name behind those of a row.
pub(crate) fn put_on<'a>(row: &mut Row<'a>, alloc: Global, name: &'a Name) -> Result<(), AllocError>
    ensures { OnOk result (names_on row.new ≡ names_on row.old ++ name.now ∷ []) }
{
    let held = mem::replace(row, Row::Empty);
    *row = held.with(alloc, name)?;
    Ok(())
}
