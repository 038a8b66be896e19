//! Values as JSON (RFC 8259).

ghost use Rattle.std.specs.List.{list_any};
ghost use Rattle.std.specs.Prelude.{◌≡◌, IfOk, false, map};
ghost use Rattle.serde_json.specs.Data.{array, object};
ghost use Rattle.serde_json.specs.View.{view, items_of};
ghost use Rattle.lk_ast.specs.JsonText.{base_data, entry_of, members_of, value_data, value_text_of};
ghost use Rattle.lk_ast.specs.Plain.{holds_function as function_in};

use crate::memory::NoMemory;
use crate::table::Base;
use crate::text::Text;
use crate::value::{Field, Value};
use serde_json::{Map, Value as Json, json};
use std::alloc::Global;

/// The JSON text of a value without functions, with nothing between its tokens: `{"name":"ann","seen":[1,true]}`. The
/// record without fields is `null` and a tagged value is `{"tag":"T","value":v}`. The members of an object stand in byte
/// order of their keys; of two fields with one label the later counts.
pub fn value_text(alloc: Global, value: &Value) -> Result<Text, NoMemory>
    requires plain { function_in value.now ≡ false }
    ensures { IfOk result (λ text. text ≡ value_text_of value.now) }
{
    let json = value_json(alloc, value)?;
    Ok(Text::from_string(json.to_string(alloc)?))
}

#[cycle(json)]
fn value_json(alloc: Global, value: &Value) -> Result<Json, NoMemory>
    ensures { IfOk result (λ json. view json ≡ value_data value.now) }
{
    match value {
        Value::Base(base) => base_json(alloc, base),
        Value::List(elements) => array_json(alloc, elements.as_slice()),
        Value::Fields(fields) if fields.is_empty() => Ok(Json::Null),
        Value::Fields(fields) => object_json(alloc, fields.as_slice()),
        Value::Tag(tag, inner) => {
            let inner = value_json(alloc, inner.get())?;
            Ok(json!(in alloc; {"tag": tag.as_str(), "value": inner})?)
        }
        Value::Fun(_) => Ok(Json::Null),
    }
}

fn base_json(alloc: Global, base: &Base) -> Result<Json, NoMemory>
    ensures { IfOk result (λ json. view json ≡ base_data base.now) }
{
    match base {
        Base::Int(number) => Ok(Json::from(*number)),
        Base::Bool(truth) => Ok(Json::Bool(*truth)),
        Base::Text(text) => Ok(Json::try_from_str(alloc, text.as_str())?),
    }
}

#[cycle(json)]
fn array_json(alloc: Global, values: &[Value]) -> Result<Json, NoMemory>
    ensures { IfOk result (λ json. view json ≡ array (items_of (map value_data values.now))) }
{
    let mut elements = Vec::new(alloc);
    for value in values {
        elements.push(value_json(alloc, value)?)?;
    }
    Ok(Json::Array(elements))
}

#[cycle(json)]
fn object_json(alloc: Global, fields: &[Field]) -> Result<Json, NoMemory>
    ensures { IfOk result (λ json. view json ≡ object (members_of (map entry_of fields.now))) }
{
    let mut members = Map::new(alloc);
    for field in fields {
        let value = value_json(alloc, &field.value)?;
        serde_json::put(&mut members, alloc, field.label.as_str(), value)?;
    }
    Ok(Json::Object(members))
}

/// Whether the value is a function, or one stands in it.
#[cycle(plain)]
#[tactic(auto, using(crate::proofs::PlainLevels::of_base, crate::proofs::PlainLevels::of_list, crate::proofs::PlainLevels::of_fields, crate::proofs::PlainLevels::of_tag, crate::proofs::PlainLevels::of_fun))]
pub fn holds_function(value: &Value) -> bool
    ensures { result ≡ function_in value.now }
{
    match value {
        Value::Base(_) => false,
        Value::List(elements) => any_holds_function(elements.as_slice()),
        Value::Fields(fields) => any_field_holds_function(fields.as_slice()),
        Value::Tag(_, inner) => holds_function(inner.get()),
        Value::Fun(_) => true,
    }
}

#[cycle(plain)]
fn any_holds_function(values: &[Value]) -> bool
    ensures { result ≡ list_any function_in values.now }
{
    for value in values {
        if holds_function(value) {
            return true;
        }
    }
    false
}

#[cycle(plain)]
fn any_field_holds_function(fields: &[Field]) -> bool
    ensures { result ≡ list_any (λ field. function_in field.value) fields.now }
{
    for field in fields {
        if holds_function(&field.value) {
            return true;
        }
    }
    false
}
