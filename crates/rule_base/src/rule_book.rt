ghost use Rattle.std.specs.Prelude.{◌≡◌, cond, nat_eq};
ghost use Rattle.ir_types.specs.Same.{same_list};
ghost use Rattle.ir_machine.specs.State.{scope_of};
ghost use Rattle.erhl_assert.specs.Steps.{rule_named, AreSound};
ghost use Rattle.rule_base.specs.Book.{meanings_of, answer_of};

use crate::InferRule;
use contents::Seq;
use erhl_assert::Schema;
use ir_core::Module;

/// A book of rules. Of two rules of one name the first counts.
#[derive(Drop)]
pub struct RuleBook {
    pub rules: Vec<Box<dyn InferRule>>,
}

/// What a book says of a schema under a rule's name.
#[derive(Drop, Clone, Copy)]
pub enum Fitness {
    /// The book has no rule of that name.
    Unknown,
    /// The rule of that name doesn't take the schema.
    Unfit,
    /// The rule of that name takes the schema.
    Fits,
}

fn same_bytes(a: &[u8], b: &[u8]) -> bool
    ensures { result ≡ same_list nat_eq a.now b.now }
{
    a == b
}

fn is_called(rule: &Box<dyn InferRule>, name: &Seq<u8>) -> bool
    ensures { result ≡ same_list nat_eq ((⟦<dyn InferRule as InferRule>⟧ rule.now.vtable).called rule.now.value) name.now }
{
    same_bytes(rule.name().as_bytes(), name.as_slice())
}

fn takes(rule: &Box<dyn InferRule>, module: &Module, schema: &Schema) -> bool
    ensures { result ≡ (⟦<dyn InferRule as InferRule>⟧ rule.now.vtable).takes rule.now.value (scope_of «module».now) schema.now }
{
    rule.fits(module, schema)
}

fn answer_by(rule: &Box<dyn InferRule>, module: &Module, schema: &Schema) -> Fitness
    ensures { result ≡ cond
        ((⟦<dyn InferRule as InferRule>⟧ rule.now.vtable).takes rule.now.value (scope_of «module».now) schema.now)
        Fitness.Fits Fitness.Unfit }
{
    if takes(rule, module, schema) {
        Fitness::Fits
    } else {
        Fitness::Unfit
    }
}

impl RuleBook {
    pub fn new(rules: Vec<Box<dyn InferRule>>) -> RuleBook
        ensures { result.rules ≡ rules }
    {
        RuleBook { rules }
    }

    /// Whether the rule of that name takes the schema beside the module.
    pub fn ask(&self, name: &Seq<u8>, module: &Module, schema: &Schema) -> Fitness
        ensures { result ≡ answer_of
            (rule_named
            (meanings_of
            (λ b. (⟦<dyn InferRule as InferRule>⟧ b.vtable).called b.value)
            (λ b. (⟦<dyn InferRule as InferRule>⟧ b.vtable).takes b.value)
            self.now.rules.items)
            name.now)
            (scope_of «module».now) schema.now }
    {
        for rule in &self.rules {
            if is_called(rule, name) {
                return answer_by(rule, module, schema);
            }
        }
        Fitness::Unknown
    }
}

/// Empty on purpose: its contract is the law.
///
/// What a book takes is sound, whatever rules it is made of: each brings its proof.
pub fn book_is_sound(book: &RuleBook)
    ensures { AreSound
        (meanings_of
        (λ b. (⟦<dyn InferRule as InferRule>⟧ b.vtable).called b.value)
        (λ b. (⟦<dyn InferRule as InferRule>⟧ b.vtable).takes b.value)
        book.now.rules.items) }
{}
