ghost use Rattle.std.specs.Prelude.{◌≡◌};
ghost use Rattle.ir_core.specs.declared.values.Value.TheVariants.{Undef};
ghost use Rattle.ir_values.specs.Selections as meaning;

use crate::operations::{Outcome, is_poison};
use ir_core::Value;

/// The outcome of `select c, a, b`, on a condition of `i1` and two values of one kind. The arm that isn't chosen has no effect.
pub fn eval_select(c: &Value, a: &Value, b: &Value) -> Outcome
    ensures { result ≡ meaning.select_outcome c.now a.now b.now }
{
    Outcome::Gives(match c {
        Value::Poison => Value::Poison,
        Value::Undef | Value::Ptr(_, _) | Value::Bare(_) => undef_unless_poison(a, b),
        Value::Num(number) => { if *number == 1 { *a } else { *b } }
    })
}

/// What an undef condition gives.
fn undef_unless_poison(a: &Value, b: &Value) -> Value
    ensures { result ≡ meaning.select_value Undef a.now b.now }
{
    if is_poison(a) || is_poison(b) {
        Value::Poison
    } else {
        Value::Undef
    }
}
