ghost use Rattle.std.specs.Prelude.{◌≡◌, option_map, option_and_then};
ghost use Rattle.serde_json.specs.Find.{as_number, as_str, as_array, as_object, as_u64};
ghost use Rattle.json_forms.specs.JsonValues.View.{view, items_view, members_view};

use serde_json::Number;

/// A member of an object: its key, and its value.
pub type Member<'a> = (&'a str, Value<'a>);

/// A JSON value. Its texts are borrowed. An object has its members in the order of the text, also those whose key stands again later.
#[derive(Drop)]
pub enum Value<'a> {
    Null,
    Bool(bool),
    Number(Number),
    Text(&'a str),
    Array(Vec<Value<'a>>),
    Object(Vec<(&'a str, Value<'a>)>),
}

impl<'a> Value<'a> {
    pub fn as_str(&self) -> Option<&'a str>
        ensures { option_map (λ s. s.now) result ≡ as_str (view self.now) }
    {
        if let Value::Text(text) = self {
            Some(*text)
        } else {
            None
        }
    }

    pub fn as_u64(&self) -> Option<u64>
        ensures { result ≡ option_and_then as_u64 (as_number (view self.now)) }
    {
        if let Value::Number(number) = self {
            number.as_u64()
        } else {
            None
        }
    }

    pub fn as_array(&self) -> Option<&[Value<'a>]>
        ensures { option_map (λ v. items_view v.now) result ≡ as_array (view self.now) }
    {
        if let Value::Array(items) = self {
            Some(items.as_slice())
        } else {
            None
        }
    }

    /// The members in the order of the text. Of two with one key the last counts.
    pub fn as_object(&self) -> Option<&[Member<'a>]>
        ensures { option_map (λ m. members_view m.now) result ≡ as_object (view self.now) }
    {
        if let Value::Object(members) = self {
            Some(members.as_slice())
        } else {
            None
        }
    }
}
