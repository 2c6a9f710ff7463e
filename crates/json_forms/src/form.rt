ghost use Rattle.std.specs.Prelude.{◌++◌, ◌∷◌, [], List, ℕ, Result, IfOk};
ghost use Rattle.serde_json.specs.Data.{Data};
ghost use Rattle.json_forms.specs.JsonValues.View.{view};
ghost use Rattle.json_forms.specs.Answers.{Answers};
ghost use Rattle.json_forms.specs.Forms.{Reading};

use crate::Failure;
use crate::json_values::Value;
use std::alloc::Global;

/// A form of JSON values, with what a value of it means.
pub trait Form {
    type Value: Drop;

    ghost form: { Self → Data → Reading Self.Value };

    fn read(&self, alloc: Global, value: &Value<'_>) -> Result<Self::Value, Failure>
        ensures { Answers result (form self.now (view value.now)) };
}

/// A form of an array's items that looks at the items before it.
pub trait RowForm {
    type Value: Drop;

    /// What is looked up among the items before without a walk through them.
    type Index: Drop;

    ghost row_form: { Self → List Self.Value → Data → Reading Self.Value };

    /// The index is that of these items.
    ghost is_of: { Self.Index → List Self.Value → Type 0 };

    fn new_index(&self, alloc: Global) -> Self::Index
        ensures { is_of result [] };

    /// Reads the item behind those before, and puts it into the index.
    fn read_row(
        &self,
        alloc: Global,
        index: &mut Self::Index,
        before: &[Self::Value],
        value: &Value<'_>,
    ) -> Result<Self::Value, Failure>
        requires { is_of index.old before.now }
        ensures read { Answers result (row_form self.now before.now (view value.now)) }
        ensures indexed { IfOk result (λ row. is_of index.new (before.now ++ row ∷ [])) };
}

/// A form of texts.
pub trait TextForm {
    type Value: Drop;

    ghost text_form: { Self → List ℕ → Reading Self.Value };

    fn read_text(&self, alloc: Global, text: &str) -> Result<Self::Value, Failure>
        ensures { Answers result (text_form self.now text.now) };
}

/// A form of an object's members, whose keys have a form of their own.
pub trait EntryForm {
    type Value: Drop;

    ghost key_form: { Self → List ℕ → Reading (Unit {0}) };

    ghost entry_form: { Self → List ℕ → Data → Reading Self.Value };

    fn test_key(&self, alloc: Global, key: &str) -> Result<(), Failure>
        ensures { Answers result (key_form self.now key.now) };

    fn read_entry(
        &self,
        alloc: Global,
        key: &str,
        value: &Value<'_>,
    ) -> Result<Self::Value, Failure>
        ensures { Answers result (entry_form self.now key.now (view value.now)) };
}
