//! Values as JSON texts.

ghost use Rattle.std.specs.List.{list_any};
ghost use Rattle.std.specs.Prelude.{◌≡◌, IfOk, false};
ghost use Rattle.lk_ast.specs.JsonText.{value_text_of};
ghost use Rattle.lk_ast.specs.Plain.{holds_function};
ghost use Rattle.lk_ast.specs.declared.value.Value.TheVariants.{List as list_value};
ghost use Rattle.lk_operators.specs.Values.{text as text_value};

use lk_ast::{Base, NoMemory, Text, Value, copy_values, value_text};
use std::alloc::Global;

/// The JSON of a text.
pub fn text_of(alloc: Global, text: &Text) -> Result<Text, NoMemory>
    ensures { IfOk result (λ json. json ≡ value_text_of (text_value text.now)) }
{
    value_text(alloc, &Value::Base(Base::Text(text.copy(alloc)?)))
}

/// The JSON of a list of values.
pub fn values_text(alloc: Global, values: &[Value]) -> Result<Text, NoMemory>
    requires plain { list_any holds_function values.now ≡ false }
    ensures { IfOk result (λ json. json ≡ value_text_of (list_value values.now)) }
{
    value_text(alloc, &Value::List(copy_values(alloc, values)?))
}
