ghost use Rattle.std.specs.Prelude.{◌≡◌, true, [], ◌∷◌, map, Contains};
ghost use Rattle.rule_base.specs.Rows.{stand_apart};
ghost use Rattle.rules_memory.specs.Rows.{rule_name};
ghost use Rattle.rules_memory.specs.declared.rules.MemoryRule.{MemoryRule};

use crate::accesses::{is_load_align, is_load_ok, is_ok_align, is_ok_cast};
use crate::addresses::is_gep_zero;
use crate::aliases::{
    is_noalias_derived, is_noalias_globals, is_noalias_swap, is_noalias_unique, is_private_derived,
};
use crate::globals::is_ok_global;
use erhl_assert::Schema;
use ir_core::Module;
use rule_base::InferRule;

/// The rules of memory, in the order of the table.
#[derive(Drop, Clone, Copy)]
pub enum MemoryRule {
    /// `getelementptr F T, p, 0 >= p`.
    GepZero,
    /// `unique p` to `noalias p, q`, p a register of now, q another one or a global.
    NoAliasUnique,
    /// `noalias p, q` to `noalias q, p`.
    NoAliasSwap,
    /// `noalias p, q` and `r >= e` to `noalias r, q`, e being `getelementptr p, ..` or `bitcast p`.
    NoAliasDerived,
    /// `noalias @g, @h`.
    NoAliasGlobals,
    /// `private p` and `r >= e` to `private r`, e being `getelementptr p, ..` or `bitcast p`, p and r registers of now.
    PrivateDerived,
    /// `ok p, T, a` to `ok p, T, b`, b dividing a.
    OkAlign,
    /// `ok p, T, a` and `bitcast p >= r` to `ok r, T, a`.
    OkCast,
    /// `ok @g, T, a`, the bytes of T fitting in the global and a dividing its alignment.
    OkGlobal,
    /// `load T, p, a >= load T, p, b`, b dividing a.
    LoadAlign,
    /// `ok p, T, a` to `load T, p, b >= load T, p, a`.
    LoadOk,
}

impl MemoryRule {
    pub const ALL: [MemoryRule; 11] = [
        MemoryRule::GepZero,
        MemoryRule::NoAliasUnique,
        MemoryRule::NoAliasSwap,
        MemoryRule::NoAliasDerived,
        MemoryRule::NoAliasGlobals,
        MemoryRule::PrivateDerived,
        MemoryRule::OkAlign,
        MemoryRule::OkCast,
        MemoryRule::OkGlobal,
        MemoryRule::LoadAlign,
        MemoryRule::LoadOk,
    ];
}

impl InferRule for MemoryRule {
    ghost use Rattle.rules_memory.specs.Rows.{rule_name, takes_row};
    ghost use Rattle.rules_memory.specs.RowLaws.{row_is_sound};

    ghost called = { rule_name };

    ghost takes = { takes_row };

    ghost sound = { row_is_sound };

    fn name(&self) -> &str {
        match self {
            MemoryRule::GepZero => "gep_zero",
            MemoryRule::NoAliasUnique => "noalias_unique",
            MemoryRule::NoAliasSwap => "noalias_swap",
            MemoryRule::NoAliasDerived => "noalias_derived",
            MemoryRule::NoAliasGlobals => "noalias_globals",
            MemoryRule::PrivateDerived => "private_derived",
            MemoryRule::OkAlign => "ok_align",
            MemoryRule::OkCast => "ok_cast",
            MemoryRule::OkGlobal => "ok_global",
            MemoryRule::LoadAlign => "load_align",
            MemoryRule::LoadOk => "load_ok",
        }
    }

    fn fits(&self, module: &Module, schema: &Schema) -> bool {
        let (from, to) = (schema.from.as_slice(), &schema.to);
        match self {
            MemoryRule::GepZero => is_gep_zero(module, from, to),
            MemoryRule::NoAliasUnique => is_noalias_unique(module, from, to),
            MemoryRule::NoAliasSwap => is_noalias_swap(module, from, to),
            MemoryRule::NoAliasDerived => is_noalias_derived(module, from, to),
            MemoryRule::NoAliasGlobals => is_noalias_globals(module, from, to),
            MemoryRule::PrivateDerived => is_private_derived(module, from, to),
            MemoryRule::OkAlign => is_ok_align(module, from, to),
            MemoryRule::OkCast => is_ok_cast(module, from, to),
            MemoryRule::OkGlobal => is_ok_global(module, from, to),
            MemoryRule::LoadAlign => is_load_align(module, from, to),
            MemoryRule::LoadOk => is_load_ok(module, from, to),
        }
    }
}

/// Empty on purpose: its contract is the law.
///
/// The table: each rule stands there once, in this order, and no two of them have one name.
pub fn rules_stand_in_the_table()
    ensures table { MemoryRule.ALL ≡ MemoryRule.GepZero ∷ MemoryRule.NoAliasUnique ∷ MemoryRule.NoAliasSwap ∷ MemoryRule.NoAliasDerived
        ∷ MemoryRule.NoAliasGlobals ∷ MemoryRule.PrivateDerived ∷ MemoryRule.OkAlign ∷ MemoryRule.OkCast ∷ MemoryRule.OkGlobal
        ∷ MemoryRule.LoadAlign ∷ MemoryRule.LoadOk ∷ [] }
    ensures whole { (rule : MemoryRule) → Contains MemoryRule.ALL rule }
    ensures named_apart { stand_apart (map rule_name MemoryRule.ALL) ≡ true }
{}
