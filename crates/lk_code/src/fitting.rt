//! Which values are of a type.

ghost use Rattle.lk_code.specs.Parts.{function_type};
ghost use Rattle.lk_code.specs.Sound.{info_of};
ghost use Rattle.lk_code.specs.Tables.{is_function};
ghost use Rattle.lk_code.specs.Values.{IsFun};
ghost use Rattle.lk_fits.specs.Levels.{IsBase, IsMade, IsTag};
ghost use Rattle.lk_fits.specs.Values.{AllFit, FieldsFit, FitEach, Fits};
ghost use Rattle.lk_types.specs.declared.ground.Ground.{out-Ground};
ghost use Rattle.std.specs.Prelude.{◌≡◌, ◌↔◌, ◌++◌, IsTrue, true};

use crate::code::{Code, fun_of};
use crate::infos::{FunInfo, FunKind};
use lk_ast::{Base, Field, FunValue, Text, Value};
use lk_ir::{same_effects, same_type, same_types};
use lk_types::{Ground, GroundField};

/// Whether the value is of the type. A function value is, where its label can be a value of this type and the values that it keeps are
/// of their types. Takes no memory.
#[cycle(fits)]
pub fn fits(c: &Code, v: &Value, t: &Ground) -> bool
    ensures { IsTrue result ↔ Fits (IsFun c.now.tables) v.now t.now }
{
    match (v, t) {
        (Value::Base(base), _) => base_fits(base, t),
        (Value::List(values), Ground::List(element)) => {
            all_fit(c, values.as_slice(), element.get())
        }
        (Value::Fields(fields), Ground::Fields(types)) => {
            fields_fit(c, fields.as_slice(), types.get().as_slice())
        }
        (Value::Tag(tag, held), Ground::Tags(types)) => {
            tag_fits(c, tag, held.get(), types.get().as_slice())
        }
        (Value::Fun(function), Ground::Fun(_, _, _)) => function_fits(c, function, t),
        _ => false,
    }
}

/// Whether it is an integer, a truth value or a text, and the type that of these.
fn base_fits(base: &Base, t: &Ground) -> bool
    ensures { IsTrue result ↔ IsBase base.now (out-Ground t.now) }
{
    match (base, t) {
        (Base::Int(_), Ground::Int) => true,
        (Base::Bool(_), Ground::Bool) => true,
        (Base::Text(_), Ground::Text) => true,
        _ => false,
    }
}

/// Whether all are of the type.
#[cycle(fits)]
fn all_fit(c: &Code, values: &[Value], t: &Ground) -> bool
    ensures { IsTrue result ↔ AllFit (IsFun c.now.tables) values.now t.now }
{
    for value in values {
        if !fits(c, value, t) {
            return false;
        }
    }
    true
}

/// Whether these are values of these types, one by one.
#[cycle(fits)]
fn each_fits(c: &Code, values: &[Value], types: &[Ground]) -> bool
    ensures { IsTrue result ↔ FitEach (IsFun c.now.tables) values.now types.now }
{
    if values.len() != types.len() {
        return false;
    }
    for (i, value) in values.iter().enumerate() {
        if !fits(c, value, &types[i]) {
            return false;
        }
    }
    true
}

/// Whether these are fields with these labels and values of their types, one by one.
#[cycle(fits)]
fn fields_fit(c: &Code, fields: &[Field], types: &[GroundField]) -> bool
    ensures { IsTrue result ↔ FieldsFit (IsFun c.now.tables) fields.now types.now }
{
    if fields.len() != types.len() {
        return false;
    }
    for (i, field) in fields.iter().enumerate() {
        let expected = &types[i];
        if !field.label.equals(&expected.label) {
            return false;
        }
        if !fits(c, &field.value, &expected.ty) {
            return false;
        }
    }
    true
}

/// Whether this is one of the tags, with a value of its type.
#[cycle(fits)]
fn tag_fits(c: &Code, tag: &Text, held: &Value, types: &[GroundField]) -> bool
    ensures { IsTrue result ↔ IsTag (IsFun c.now.tables) types.now tag.now held.now }
{
    for expected in types {
        if expected.label.equals(tag) && fits(c, held, &expected.ty) {
            return true;
        }
    }
    false
}

/// Whether this is a function of the type.
#[cycle(fits)]
fn function_fits(c: &Code, function: &FunValue, t: &Ground) -> bool
    ensures { IsTrue result ↔ IsMade (IsFun c.now.tables) t.now function.now }
{
    let Some(info) = fun_of(c, function.site) else {
        return false;
    };
    if !may_be(info, t) {
        return false;
    }
    each_fits(c, function.env.as_slice(), info.env.as_slice())
}

/// Whether it may be a value of the type.
fn may_be(info: &FunInfo, t: &Ground) -> bool
    ensures { IsTrue result ↔ ((is_function info.now.kind ≡ true) × (t.now ≡ function_type (info_of info.now))) }
{
    is_function(info.kind) && is_of_type(info, t)
}

/// Whether what is of this kind may be a value.
fn is_function(kind: FunKind) -> bool
    ensures { result ≡ is_function kind }
{
    match kind {
        FunKind::Top | FunKind::Lambda => true,
        FunKind::Print
        | FunKind::Query
        | FunKind::TableRead
        | FunKind::Insert
        | FunKind::Update
        | FunKind::Delete => false,
    }
}

/// Whether this is of the type.
fn is_of_type(info: &FunInfo, t: &Ground) -> bool
    ensures { IsTrue result ↔ (t.now ≡ function_type (info_of info.now)) }
{
    match t {
        Ground::Fun(params, effects, result) => {
            same_types(params.get().as_slice(), info.params.as_slice())
                && same_effects(effects.get().as_slice(), info.effects.as_slice())
                && same_type(result.get(), &info.result)
        }
        _ => false,
    }
}

/// Whether these are values of what a label keeps and then of its parameters, as many as it has of both. Takes no memory.
pub fn args_fit(c: &Code, info: &FunInfo, args: &[Value]) -> bool
    ensures { IsTrue result ↔ FitEach (IsFun c.now.tables) args.now (info.now.env ++ info.now.params) }
{
    if args.len() < info.env.len() {
        return false;
    }
    let (kept, passed) = args.split_at(info.env.len());
    each_fits(c, kept, info.env.as_slice()) && each_fits(c, passed, info.params.as_slice())
}
