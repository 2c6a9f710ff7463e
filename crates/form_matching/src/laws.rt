ghost use Rattle.std.specs.Prelude.{◌≡◌, true, List};
ghost use Rattle.ir_core.specs.declared.expressions.Reg.{Reg};
ghost use Rattle.ir_values.specs.Constants.{Scope};
ghost use Rattle.erhl_assert.specs.declared.facts.Fact.{Fact};
ghost use Rattle.erhl_assert.specs.declared.facts.Schema.{Schema};
ghost use Rattle.erhl_assert.specs.Facts.{IsSound};
ghost use Rattle.rule_forms.specs.declared.forms.Form.{Form};
ghost use Rattle.rule_forms.specs.Meaning.{IsLawful};
ghost use Rattle.form_matching.specs.Examples.{FormsTakeThese};
ghost use Rattle.form_matching.specs.Exactness.{IsInstance, ReadsBack};
ghost use Rattle.form_matching.specs.Instances.{Put, fits};

/// Empty on purpose: its contract is the law.
///
/// What fits a form is an instance of it; and each instance fits where the letters of the form can be read back.
pub fn forms_are_matched_exactly()
    ensures instances { (form : Form) (from : List Fact) (to : Fact) → fits form from to ≡ true → IsInstance form from to }
    ensures all { (form : Form) → ((put : Put Reg) → ReadsBack form put)
        → (from : List Fact) (to : Fact) → IsInstance form from to → fits form from to ≡ true }
{}

/// Empty on purpose: its contract is the law.
///
/// What fits a lawful form is sound.
pub fn lawful_forms_are_sound()
    ensures { (form : Form) → IsLawful form → (scope : Scope) (schema : Schema) → fits form schema.from schema.to ≡ true → IsSound scope schema }
{}

/// Empty on purpose: its contract is the law.
///
/// What forms take and what they don't: an example of each condition, of literals, premises and letters.
pub fn examples_of_forms()
    ensures { FormsTakeThese }
{}
