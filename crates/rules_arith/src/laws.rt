ghost use Rattle.std.specs.Prelude.{◌≡◌, ◌↔◌, true};
ghost use Rattle.std.specs.List.{AllByRecursion};
ghost use Rattle.ir_values.specs.Constants.{Scope};
ghost use Rattle.erhl_assert.specs.declared.facts.Schema.{Schema};
ghost use Rattle.rule_forms.specs.Meaning.{IsLawful};
ghost use Rattle.form_matching.specs.Exactness.{IsAnInstance};
ghost use Rattle.rules_arith.specs.declared.rules.ArithRule.{ArithRule};
ghost use Rattle.rules_arith.specs.Rules.{forms_of, takes_row};

/// Empty on purpose: its contract is the law.
///
/// A rule takes exactly the instances of its forms: schemas that a form becomes where letters are put in.
pub fn rules_take_their_instances()
    ensures { (rule : ArithRule) (scope : Scope) (schema : Schema) → (takes_row rule scope schema ≡ true) ↔ IsAnInstance (forms_of rule) schema.from schema.to }
{}

/// Empty on purpose: its contract is the law.
///
/// Each form of a rule is lawful, at every width.
pub fn rules_are_lawful()
    ensures { (rule : ArithRule) → AllByRecursion IsLawful (forms_of rule) }
{}
