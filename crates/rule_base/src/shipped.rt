ghost use Rattle.std.specs.Prelude.{◌≡◌, true, [], ◌∷◌, map, Contains};
ghost use Rattle.rule_base.specs.declared.shipped.Rule.{Rule};
ghost use Rattle.ir_values.specs.Laws.{flags_among};
ghost use Rattle.ir_machine.specs.State.{scope_of};
ghost use Rattle.rule_base.specs.Rows.{rule_name, stand_apart, is_refl, is_trans, is_undef_const, drops, drops_flags, drops_inbounds, is_drop_flags, is_undef, is_simple};

use crate::InferRule;
use crate::folding::is_fold;
use crate::substitution::{is_subst, same_operands};
use crate::typed::have_one_type;
use erhl_assert::{Fact, Schema};
use ir_core::{
    Atom, Binary, Const, Element, Expr, Expr0, Flags, Module, Reg, same_expr, same_op,
    same_reg_atom, same_reg_operand, same_ty,
};

/// The rules that are shipped.
#[derive(Drop, Clone, Copy)]
pub enum Rule {
    /// `e >= e`.
    Refl,
    /// `a >= b, b >= c` to `a >= c`.
    Trans,
    /// `undef >= C`, C a number, null, undef or a global.
    UndefConst,
    /// `a >= b` to `e >= e'`, a and b operands, e' being e with one operand that is a made b.
    Subst,
    /// `op F x y >= op G x y`, the flags G among F, and so of `getelementptr`.
    DropFlags,
    /// `e >= C`, e over numbers, C a constant that its outcome may become.
    Fold,
}

impl Rule {
    pub const ALL: [Rule; 6] = [
        Rule::Refl,
        Rule::Trans,
        Rule::UndefConst,
        Rule::Subst,
        Rule::DropFlags,
        Rule::Fold,
    ];
}

impl InferRule for Rule {
    ghost use Rattle.rule_base.specs.Rows.{rule_name, takes_row};
    ghost use Rattle.rule_base.specs.RowLaws.{row_is_sound};

    ghost called = { rule_name };

    ghost takes = { takes_row };

    ghost sound = { row_is_sound };

    fn name(&self) -> &str {
        match self {
            Rule::Refl => "refl",
            Rule::Trans => "trans",
            Rule::UndefConst => "undef_const",
            Rule::Subst => "subst",
            Rule::DropFlags => "drop_flags",
            Rule::Fold => "fold",
        }
    }

    fn fits(&self, module: &Module, schema: &Schema) -> bool {
        let (from, to) = (schema.from.as_slice(), &schema.to);
        match self {
            Rule::Refl => is_refl(module, from, to),
            Rule::Trans => is_trans(module, from, to),
            Rule::UndefConst => is_undef_const(module, from, to),
            Rule::Subst => is_subst(module, from, to),
            Rule::DropFlags => is_drop_flags(module, from, to),
            Rule::Fold => is_fold(module, from, to),
        }
    }
}

/// Empty on purpose: its contract is the law.
///
/// The table: each rule stands there once, in this order, and no two of them have one name.
pub fn rules_stand_in_the_table()
    ensures table { Rule.ALL ≡ Rule.Refl ∷ Rule.Trans ∷ Rule.UndefConst ∷ Rule.Subst ∷ Rule.DropFlags ∷ Rule.Fold ∷ [] }
    ensures whole { (rule : Rule) → Contains Rule.ALL rule }
    ensures named_apart { stand_apart (map rule_name Rule.ALL) ≡ true }
{}

fn is_refl(module: &Module, from: &[Fact], to: &Fact) -> bool
    ensures { result ≡ is_refl (scope_of «module».now) from.now to.now }
{
    if !from.is_empty() {
        return false;
    }
    let Fact::LessDef(a, b) = to else {
        return false;
    };
    have_one_type(module, a, b) && same_expr(a, b)
}

fn is_trans(module: &Module, from: &[Fact], to: &Fact) -> bool
    ensures { result ≡ is_trans (scope_of «module».now) from.now to.now }
{
    let [Fact::LessDef(a, b), Fact::LessDef(c, d)] = from else {
        return false;
    };
    let Fact::LessDef(e, f) = to else {
        return false;
    };
    have_one_type(module, a, b)
        && have_one_type(module, c, d)
        && same_expr(b, c)
        && same_expr(e, a)
        && same_expr(f, d)
}

pub(crate) fn is_undef(atom: &Atom<Reg>) -> bool
    ensures { result ≡ is_undef atom.now }
{
    matches!(atom, Atom::Constant(Const::Undef))
}

/// Whether the atom is a constant that isn't poison where it is one of its type.
fn is_simple(atom: &Atom<Reg>) -> bool
    ensures { result ≡ is_simple atom.now }
{
    matches!(
        atom,
        Atom::Constant(Const::Number(_) | Const::Undef | Const::Null | Const::Global(_))
    )
}

fn is_undef_const(module: &Module, from: &[Fact], to: &Fact) -> bool
    ensures { result ≡ is_undef_const (scope_of «module».now) from.now to.now }
{
    if !from.is_empty() {
        return false;
    }
    let Fact::LessDef(a, b) = to else {
        return false;
    };
    match (a, b) {
        (Expr::Plain(undef), Expr::Plain(other)) => {
            have_one_type(module, a, b) && is_undef(&undef.atom) && is_simple(&other.atom)
        }
        _ => false,
    }
}

/// Whether each flag of the first is one of the second's.
fn flags_among(few: Flags, many: Flags) -> bool
    ensures { result ≡ flags_among few many }
{
    (!few.nuw || many.nuw) && (!few.nsw || many.nsw) && (!few.exact || many.exact)
}

/// Whether the second is the first with some of its flags, or all.
fn drops_flags(a: &Binary<Reg>, b: &Binary<Reg>) -> bool
    ensures { result ≡ drops_flags a.now b.now }
{
    same_op(&a.op, &b.op)
        && same_reg_atom(&a.left, &b.left)
        && same_reg_atom(&a.right, &b.right)
        && flags_among(b.flags, a.flags)
}

/// Whether the second is the first with or without its `inbounds`.
fn drops_inbounds(a: &Element<Reg>, b: &Element<Reg>) -> bool
    ensures { result ≡ drops_inbounds a.now b.now }
{
    same_ty(&a.of, &b.of)
        && same_reg_operand(&a.base, &b.base)
        && same_operands(a.indices.as_slice(), b.indices.as_slice())
        && (!b.inbounds || a.inbounds)
}

fn drops(a: &Expr0, b: &Expr0) -> bool
    ensures { result ≡ drops a.now b.now }
{
    match (a, b) {
        (Expr::Binary(many), Expr::Binary(few)) => drops_flags(many, few),
        (Expr::Element(many), Expr::Element(few)) => drops_inbounds(many.get(), few.get()),
        _ => false,
    }
}

fn is_drop_flags(module: &Module, from: &[Fact], to: &Fact) -> bool
    ensures { result ≡ is_drop_flags (scope_of «module».now) from.now to.now }
{
    if !from.is_empty() {
        return false;
    }
    let Fact::LessDef(a, b) = to else {
        return false;
    };
    have_one_type(module, a, b) && drops(a, b)
}
