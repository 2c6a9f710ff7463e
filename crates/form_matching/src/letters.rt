//! What stands where the letters of a form stand.
ghost use Rattle.std.specs.Prelude.{◌≡◌};
ghost use Rattle.form_matching.specs.Lent.{put_of};
ghost use Rattle.form_matching.specs.Instances as meaning;
ghost use Rattle.form_matching.specs.Instances.{put_at, put_type, put_flags, put_in, first_put, some_atom, some_type};

use erhl_assert::Fact;
use ir_core::{Atom, Const, Expr, Expr0, Flags, Reg, Select, Ty};
use rule_forms::{FlagPlace, Form, Pattern, Place, TypePlace};

/// What stands for the letters, lent.
#[derive(Drop)]
pub struct Letters<'a, R> {
    pub x: &'a Atom<R>,
    pub y: &'a Atom<R>,
    pub z: &'a Atom<R>,
    pub c: u64,
    pub d: u64,
    pub e: u64,
    pub f: Flags,
    pub g: Flags,
    pub h: Flags,
    pub s: &'a Ty,
    pub m: &'a Ty,
    pub t: &'a Ty,
}

/// The number that the atom is, and 0 where it is none.
fn number_in<R>(atom: &Atom<R>) -> u64
    ensures { result ≡ meaning.number_in atom.now }
{
    match atom {
        Atom::Constant(Const::Number(number)) => number.get(),
        _ => 0,
    }
}

/// The letters, with the operand for the one at the place.
fn at<'a, R>(letters: Letters<'a, R>, place: Place, atom: &'a Atom<R>) -> Letters<'a, R>
    ensures { put_of result ≡ put_at (put_of letters.entry) place atom.now }
{
    match place {
        Place::X => Letters { x: atom, ..letters },
        Place::Y => Letters { y: atom, ..letters },
        Place::Z => Letters { z: atom, ..letters },
        Place::C => Letters {
            c: number_in(atom),
            ..letters
        },
        Place::D => Letters {
            d: number_in(atom),
            ..letters
        },
        Place::E => Letters {
            e: number_in(atom),
            ..letters
        },
        _ => letters,
    }
}

/// The letters, with the type for the one at the place.
fn at_type<'a, R>(letters: Letters<'a, R>, place: TypePlace, ty: &'a Ty) -> Letters<'a, R>
    ensures { put_of result ≡ put_type (put_of letters.entry) place ty.now }
{
    match place {
        TypePlace::S => Letters { s: ty, ..letters },
        TypePlace::M => Letters { m: ty, ..letters },
        TypePlace::T => Letters { t: ty, ..letters },
        TypePlace::Bit => letters,
    }
}

/// The letters, with the flags for the one at the place.
fn with_flags<'a, R>(letters: Letters<'a, R>, place: FlagPlace, flags: Flags) -> Letters<'a, R>
    ensures { put_of result ≡ put_flags (put_of letters.entry) place flags }
{
    match place {
        FlagPlace::F => Letters {
            f: flags,
            ..letters
        },
        FlagPlace::G => Letters {
            g: flags,
            ..letters
        },
        FlagPlace::H => Letters {
            h: flags,
            ..letters
        },
        FlagPlace::Free => letters,
    }
}

/// Reads the letters of a selection.
fn within_arms<'a, R>(
    letters: Letters<'a, R>,
    condition: Place,
    ty: TypePlace,
    left: Place,
    right: Place,
    select: &'a Select<R>,
) -> Letters<'a, R>
    ensures { put_of result ≡ put_at (put_at (put_at (put_type (put_of letters.entry) ty select.now.left.ty) condition select.now.condition.atom) left select.now.left.atom) right select.now.right.atom }
{
    let letters = at_type(letters, ty, &select.left.ty);
    let letters = at(letters, condition, &select.condition.atom);
    at(
        at(letters, left, &select.left.atom),
        right,
        &select.right.atom,
    )
}

/// Reads the letters of a pattern where an expression has its shape.
pub fn within<'a, R>(
    letters: Letters<'a, R>,
    pattern: &Pattern,
    expr: &'a Expr<R>,
) -> Letters<'a, R>
    ensures { put_of result ≡ put_in (put_of letters.entry) pattern.now expr.now }
{
    match (pattern, expr) {
        (Pattern::Plain(ty, place), Expr::Plain(operand)) => {
            at(at_type(letters, *ty, &operand.ty), *place, &operand.atom)
        }
        (Pattern::Binary(_, flags, ty, left, right), Expr::Binary(binary)) => {
            let letters = with_flags(at_type(letters, *ty, &binary.ty), *flags, binary.flags);
            at(at(letters, *left, &binary.left), *right, &binary.right)
        }
        (Pattern::Icmp(_, ty, left, right), Expr::Icmp(icmp)) => {
            at(
                at(at_type(letters, *ty, &icmp.ty), *left, &icmp.left),
                *right,
                &icmp.right,
            )
        }
        (Pattern::Cast(_, ty, place, to), Expr::Cast(cast)) => {
            let letters = at_type(at_type(letters, *ty, &cast.operand.ty), *to, &cast.to);
            at(letters, *place, &cast.operand.atom)
        }
        (Pattern::Select(condition, ty, left, right), Expr::Select(select)) => {
            within_arms(letters, *condition, *ty, *left, *right, select.get())
        }
        _ => letters,
    }
}

/// Some operand of the expression.
fn some_atom<R>(expr: &Expr<R>) -> &Atom<R>
    ensures { result.now ≡ some_atom expr.now }
{
    match expr {
        Expr::Plain(operand) => &operand.atom,
        Expr::Binary(binary) => &binary.left,
        Expr::Icmp(icmp) => &icmp.left,
        Expr::Cast(cast) => &cast.operand.atom,
        Expr::Select(select) => &select.get().left.atom,
        Expr::Element(element) => &element.get().base.atom,
        Expr::Load(load) => &load.pointer.atom,
    }
}

/// The type of some operand of the expression.
fn some_type<R>(expr: &Expr<R>) -> &Ty
    ensures { result.now ≡ some_type expr.now }
{
    match expr {
        Expr::Plain(operand) => &operand.ty,
        Expr::Binary(binary) => &binary.ty,
        Expr::Icmp(icmp) => &icmp.ty,
        Expr::Cast(cast) => &cast.operand.ty,
        Expr::Select(select) => &select.get().left.ty,
        Expr::Element(element) => &element.get().base.ty,
        Expr::Load(load) => &load.pointer.ty,
    }
}

/// Letters before anything is read: some operand and some type of the expression, no number and no flag.
pub fn unread<'a, R>(expr: &'a Expr<R>) -> Letters<'a, R>
    ensures { put_of result ≡ first_put expr.now }
{
    let (atom, ty) = (some_atom(expr), some_type(expr));
    let none = Flags {
        nuw: false,
        nsw: false,
        exact: false,
    };
    Letters {
        x: atom,
        y: atom,
        z: atom,
        c: 0,
        d: 0,
        e: 0,
        f: none,
        g: none,
        h: none,
        s: ty,
        m: ty,
        t: ty,
    }
}

/// Reads the letters of a premise.
fn within_premise<'a>(
    letters: Letters<'a, Reg>,
    premise: &Option<Pattern>,
    from: &'a [Fact],
) -> Letters<'a, Reg>
    ensures { put_of result ≡ meaning.put_premise premise.now from.now (put_of letters.entry) }
{
    match (premise, from) {
        (Some(pattern), [Fact::LessDef(_, v)]) => within(letters, pattern, v),
        _ => letters,
    }
}

/// The letters of a form in a schema.
pub fn read<'a>(form: &Form, from: &'a [Fact], a: &'a Expr0, b: &'a Expr0) -> Letters<'a, Reg>
    ensures { put_of result ≡ meaning.read form.now from.now a.now b.now }
{
    let letters = within_premise(unread(a), &form.premise, from);
    within(within(letters, &form.left, a), &form.right, b)
}
