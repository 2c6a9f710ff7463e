//! Whether a schema is an instance of a form.
ghost use Rattle.std.specs.Prelude.{◌≡◌, ◌↔◌, ◌≤◌, ◌<◌, ◌+◌, ◌-◌, ◌^◌, ◌%◌, IsTrue, nat_eq, nat_lt, not, ◌&&◌, ◌||◌};
ghost use Rattle.std.specs.List.{list_any};
ghost use Rattle.rule_forms.specs.declared.forms.Form.{Form};
ghost use Rattle.ir_values.specs.Laws.{flags_among};
ghost use Rattle.ir_core.specs.Types.{is_width};
ghost use Rattle.form_matching.specs.Lent.{put_of};
ghost use Rattle.form_matching.specs.Instances as meaning;
ghost use Rattle.rule_forms.specs.Conditions.{asked};
ghost use Rattle.rule_forms.specs.Conditions as conditions;
ghost use Rattle.form_matching.specs.Instances.{atom_of, ty_of, instance, asks, at_type};

use crate::letters::{Letters, read};
use crate::typed::have_one_type;
use contents::Exact;
use erhl_assert::Fact;
use ir_core::{Atom, Const, Expr, Expr0, Flags, Reg, Ty, is_width};
use ir_values::width_of;
use rule_forms::{Condition, FlagPlace, Form, Pattern, Place, TypePlace};

/// Whether the atom is that number.
fn is_number<R>(number: u64, atom: &Atom<R>) -> bool
    ensures { IsTrue result ↔ (meaning.number number ≡ atom.now) }
{
    match atom {
        Atom::Constant(Const::Number(own)) => own.get() == number,
        _ => false,
    }
}

/// Whether the number is -1.
#[tactic(auto, using(crate::proofs::Literals::ones_too_wide))]
fn is_ones(number: u64, width: u32) -> bool
    ensures { result ≡ nat_eq (2 ^ width - 1) number }
{
    if width < 64 {
        return number == (1 << width) - 1;
    }
    if width == 64 {
        return number == u64::MAX;
    }
    false
}

/// Whether the number is the least in two's complement.
#[tactic(auto, using(crate::proofs::Literals::too_great))]
fn is_least(number: u64, width: u32) -> bool
    ensures { result ≡ nat_eq (2 ^ (width - 1)) number }
{
    let places = width.saturating_sub(1);
    if places < 64 {
        return number == 1 << places;
    }
    false
}

/// Whether the number is the greatest in two's complement.
#[tactic(auto, using(crate::proofs::Literals::ones_too_wide))]
fn is_most(number: u64, width: u32) -> bool
    ensures { result ≡ nat_eq (2 ^ (width - 1) - 1) number }
{
    let places = width.saturating_sub(1);
    if places < 64 {
        return number == (1 << places) - 1;
    }
    if places == 64 {
        return number == u64::MAX;
    }
    false
}

/// The number that the atom is.
fn number_of<R>(atom: &Atom<R>) -> Option<u64>
    ensures { result ≡ meaning.number_of atom.now }
{
    match atom {
        Atom::Constant(Const::Number(own)) => Some(own.get()),
        _ => None,
    }
}

/// Whether the atom is the number that the type decides for the place.
fn is_literal<R>(place: Place, width: u32, atom: &Atom<R>) -> bool
    ensures { result ≡ meaning.is_literal place width (meaning.number_of atom.now) }
{
    let Some(number) = number_of(atom) else {
        return false;
    };
    match place {
        Place::Zero => number == 0,
        Place::One => number == 1,
        Place::Ones => is_ones(number, width),
        Place::Least => is_least(number, width),
        Place::Most => is_most(number, width),
        _ => false,
    }
}

/// Whether the atom is what stands at the place.
fn stands<R: Exact>(letters: &Letters<R>, width: u32, place: Place, atom: &Atom<R>) -> bool
    ensures { IsTrue result ↔ (atom_of (put_of letters.now) width place ≡ atom.now) }
{
    match place {
        Place::X => letters.x.is(atom),
        Place::Y => letters.y.is(atom),
        Place::Z => letters.z.is(atom),
        Place::C => is_number(letters.c, atom),
        Place::D => is_number(letters.d, atom),
        Place::E => is_number(letters.e, atom),
        _ => is_literal(place, width, atom),
    }
}

/// Whether the type is what stands at the place.
fn is_type<R>(letters: &Letters<R>, place: TypePlace, ty: &Ty) -> bool
    ensures { IsTrue result ↔ (ty_of (put_of letters.now) place ≡ ty.now) }
{
    match place {
        TypePlace::S => letters.s.is(ty),
        TypePlace::M => letters.m.is(ty),
        TypePlace::T => letters.t.is(ty),
        TypePlace::Bit => matches!(ty, Ty::Int(1)),
    }
}

/// The flags that stand at the place.
fn flags_of<R>(letters: &Letters<R>, place: FlagPlace) -> Flags
    ensures { result ≡ meaning.flags_of (put_of letters.now) place }
{
    match place {
        FlagPlace::F => letters.f,
        FlagPlace::G => letters.g,
        FlagPlace::H => letters.h,
        FlagPlace::Free => Flags {
            nuw: false,
            nsw: false,
            exact: false,
        },
    }
}

/// Whether the operand's type and the operand are what stands there.
fn stands_at<R: Exact>(
    letters: &Letters<R>,
    ty: TypePlace,
    place: Place,
    stated: &Ty,
    atom: &Atom<R>,
) -> bool
    ensures { IsTrue result ↔ ((ty_of (put_of letters.now) ty ≡ stated.now) × (at_type (put_of letters.now) ty place ≡ atom.now)) }
{
    is_type(letters, ty, stated) && stands(letters, width_of(stated), place, atom)
}

/// Whether the expression is what the pattern becomes.
pub fn is_instance<R: Exact>(letters: &Letters<R>, pattern: &Pattern, expr: &Expr<R>) -> bool
    ensures { IsTrue result ↔ (instance (put_of letters.now) pattern.now ≡ expr.now) }
{
    match (pattern, expr) {
        (Pattern::Plain(ty, place), Expr::Plain(operand)) => {
            stands_at(letters, *ty, *place, &operand.ty, &operand.atom)
        }
        (Pattern::Binary(op, flags, ty, left, right), Expr::Binary(binary)) => {
            op.is(&binary.op)
                && flags_of(letters, *flags).is(&binary.flags)
                && stands_at(letters, *ty, *left, &binary.ty, &binary.left)
                && stands_at(letters, *ty, *right, &binary.ty, &binary.right)
        }
        (Pattern::Icmp(pred, ty, left, right), Expr::Icmp(icmp)) => {
            pred.is(&icmp.pred)
                && stands_at(letters, *ty, *left, &icmp.ty, &icmp.left)
                && stands_at(letters, *ty, *right, &icmp.ty, &icmp.right)
        }
        (Pattern::Cast(op, ty, place, to), Expr::Cast(cast)) => {
            op.is(&cast.op)
                && stands_at(letters, *ty, *place, &cast.operand.ty, &cast.operand.atom)
                && is_type(letters, *to, &cast.to)
        }
        (Pattern::Select(condition, ty, left, right), Expr::Select(select)) => {
            let select = select.get();
            matches!(select.condition.ty, Ty::Int(1))
                && stands(letters, 1, *condition, &select.condition.atom)
                && stands_at(letters, *ty, *left, &select.left.ty, &select.left.atom)
                && stands_at(letters, *ty, *right, &select.right.ty, &select.right.atom)
        }
        _ => false,
    }
}

/// Whether each flag of the first is one of the second's.
fn flags_among(few: Flags, many: Flags) -> bool
    ensures { result ≡ flags_among few many }
{
    (!few.nuw || many.nuw) && (!few.nsw || many.nsw) && (!few.exact || many.exact)
}

/// Whether the second is the first negated, and not 0.
fn is_negated(width: u32, c: u64, e: u64) -> bool
    requires { width ≤ 64 }
    ensures { result ≡ nat_eq (c + e) (2 ^ width) }
{
    u128::from(c) + u128::from(e) == 1u128 << width
}

/// Whether the last is the sum of the others modulo 2 to the width.
fn is_sum(width: u32, c: u64, d: u64, e: u64) -> bool
    requires { width ≤ 64 }
    ensures { result ≡ nat_eq e ((c + d) % 2 ^ width) }
{
    u128::from(e) == (u128::from(c) + u128::from(d)) % (1u128 << width)
}

/// Whether the last is the sum of the others, which isn't reduced, and is below the width.
fn are_places(width: u32, c: u64, d: u64, e: u64) -> bool
    ensures { result ≡ (nat_eq e (c + d) && nat_lt e width) }
{
    u128::from(e) == u128::from(c) + u128::from(d) && e < u64::from(width)
}

/// Whether the first is 2 to the second, which is below the width.
fn is_factor(width: u32, c: u64, e: u64) -> bool
    requires { width ≤ 64 }
    ensures { result ≡ conditions.is_factor width c e }
{
    e < u64::from(width) && c == 1 << e
}

/// Whether the first is a power of 2 and the second one less.
fn is_mask(c: u64, e: u64) -> bool
    ensures { result ≡ conditions.is_mask c e }
{
    let places = c.trailing_zeros();
    places < 64 && c == 1 << places && u128::from(c) == u128::from(e) + 1
}

/// Whether `nsw` may stand on a shift by so many places.
fn keeps_sign(width: u32, e: u64, flags: Flags) -> bool
    ensures { result ≡ (not flags.nsw || nat_lt (e + 1) width) }
{
    !flags.nsw || u128::from(e) + 1 < u128::from(width)
}

/// Whether the numbers and flags are as the condition asks.
fn asked<R>(condition: Condition, width: u32, letters: &Letters<R>) -> bool
    requires { width ≤ 64 }
    ensures { result ≡ asked condition width «letters».now.c «letters».now.d «letters».now.e «letters».now.f «letters».now.h }
{
    let (c, d, e) = (letters.c, letters.d, letters.e);
    match condition {
        Condition::Always => true,
        Condition::Negated => is_negated(width, c, e),
        Condition::Sum => is_sum(width, c, d, e),
        Condition::And => e == c & d,
        Condition::Or => e == c | d,
        Condition::Xor => e == c ^ d,
        Condition::Places => are_places(width, c, d, e),
        Condition::Factor => {
            is_factor(width, c, e)
                && flags_among(letters.h, letters.f)
                && keeps_sign(width, e, letters.h)
        }
        Condition::Divisor => is_factor(width, c, e) && flags_among(letters.h, letters.f),
        Condition::Mask => is_mask(c, e),
        Condition::Twice => 1 < width && flags_among(letters.h, letters.f),
    }
}

/// Whether the condition holds of what stands for the letters.
fn asks<R>(condition: Condition, letters: &Letters<R>) -> bool
    ensures { result ≡ asks condition (put_of letters.now) }
{
    if matches!(condition, Condition::Always) {
        return true;
    }
    let width = width_of(letters.t);
    is_width(width) && asked(condition, width, letters)
}

/// `is_instance` as the test of definitions.
#[tactic(auto, using(crate::proofs::Literals::same_as))]
fn is_reg_instance(letters: &Letters<Reg>, pattern: &Pattern, expr: &Expr0) -> bool
    ensures { result ≡ meaning.is_instance (put_of letters.now) pattern.now expr.now }
{
    is_instance(letters, pattern, expr)
}

/// The type of what a pattern gives.
fn gives(pattern: &Pattern) -> TypePlace
    ensures { result ≡ conditions.gives pattern.now }
{
    match pattern {
        Pattern::Plain(ty, _) => *ty,
        Pattern::Binary(_, _, ty, _, _) => *ty,
        Pattern::Icmp(_, _, _, _) => TypePlace::Bit,
        Pattern::Cast(_, _, _, to) => *to,
        Pattern::Select(_, ty, _, _) => *ty,
    }
}

/// Whether the premises are those of the form.
fn is_premise(letters: &Letters<Reg>, premise: &Option<Pattern>, from: &[Fact]) -> bool
    ensures { result ≡ meaning.is_premise (put_of letters.now) premise.now from.now }
{
    match (premise, from) {
        (None, []) => true,
        (Some(pattern), [Fact::LessDef(u, v)]) => {
            have_one_type(u, v)
                && is_reg_instance(letters, &Pattern::Plain(gives(pattern), Place::Z), u)
                && is_reg_instance(letters, pattern, v)
        }
        _ => false,
    }
}

/// Whether the schema is an instance of the form.
pub fn fits(form: &Form, from: &[Fact], to: &Fact) -> bool
    ensures { result ≡ meaning.fits form.now from.now to.now }
{
    let Fact::LessDef(a, b) = to else {
        return false;
    };
    let letters = read(form, from, a, b);
    is_premise(&letters, &form.premise, from)
        && have_one_type(a, b)
        && is_reg_instance(&letters, &form.left, a)
        && is_reg_instance(&letters, &form.right, b)
        && asks(form.condition, &letters)
}

/// Whether the schema is an instance of one of the forms.
pub fn fits_any(forms: &[Form], from: &[Fact], to: &Fact) -> bool
    ensures { result ≡ list_any (λ (form : Form). meaning.fits form from.now to.now) forms.now }
{
    forms.iter().any(|form| fits(form, from, to))
}
