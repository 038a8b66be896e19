//! Types as text.

ghost use Rattle.lk_types.specs.Names.{name};
ghost use Rattle.lk_types.specs.TypeText.{effect_word, effects_text, list_text, record_text, tail_text, type_text, variant_text, written, written_field, written_row};
ghost use Rattle.lk_types.specs.Variables.{tail_variable};
ghost use Rattle.lk_types.specs.declared.ty.Variable.TheVariants as variable;
ghost use Rattle.std.specs.List.{join_by};
ghost use Rattle.std.specs.Option.{option_map};
ghost use Rattle.std.specs.Prelude.{◌≡◌, ◌++◌, IfOk, OnOk, codes};

use crate::names::Names;
use crate::ty::{Effect, Effects, RowTail, Ty, TyField, TyRow, Variable};
use crate::variables::push_variables;
use lk_ast::{List, NoMemory, Text};
use std::alloc::Global;

/// The text of a type: `Int`, `Bool`, `String`, `[T]`, `(l:T,m:T)`, `[|A:T,B:T|]`, `(T,T) {e,e}-> T`. A row that isn't
/// closed has its variable behind a bar, as `(l:T|t1)`; the effects are left out where there are none, as `() -> T`. The
/// variables of all kinds are named `t1`, `t2` and so on in the order in which they come first in the text.
///
/// Fields, tags and effects are written in the order in which they stand. Whoever makes types keeps them in byte order.
pub fn print_type(alloc: Global, ty: &Ty) -> Result<Text, NoMemory>
    ensures { IfOk result (λ text. text ≡ type_text ty.now) }
{
    let mut found = List::new(alloc);
    push_variables(&mut found, ty)?;
    let names = Names::of(alloc, found.as_slice())?;
    let mut text = Text::new(alloc);
    write_type(alloc, &mut text, &names, ty)?;
    Ok(text)
}

#[cycle(types)]
#[tactic(auto, using(crate::proofs::Lists::texts_both, crate::proofs::Unfold::written_int, crate::proofs::Unfold::written_bool, crate::proofs::Unfold::written_string, crate::proofs::Unfold::written_list, crate::proofs::Unfold::written_record, crate::proofs::Unfold::written_variant, crate::proofs::Unfold::written_function, crate::proofs::Unfold::written_variable))]
fn write_type(alloc: Global, text: &mut Text, names: &Names, ty: &Ty) -> Result<(), NoMemory>
    ensures { OnOk result (text.new ≡ text.old ++ written (name names.now) ty.now) }
{
    match ty {
        Ty::Int => text.push("Int"),
        Ty::Bool => text.push("Bool"),
        Ty::Text => text.push("String"),
        Ty::List(item) => write_list(alloc, text, names, item.get()),
        Ty::Fields(row) => write_record(alloc, text, names, row),
        Ty::Tags(row) => write_variant(alloc, text, names, row),
        Ty::Fun(params, effects, answer) => {
            text.push("(")?;
            write_types(alloc, text, names, params.as_slice())?;
            text.push(") ")?;
            write_effects(alloc, text, names, effects)?;
            text.push("-> ")?;
            write_type(alloc, text, names, answer.get())
        }
        Ty::Var(number) => write_name(alloc, text, names, Variable::Plain(*number)),
    }
}

/// `[T]`.
#[cycle(types)]
#[tactic(auto, using(crate::proofs::Lists::texts_both))]
fn write_list(alloc: Global, text: &mut Text, names: &Names, item: &Ty) -> Result<(), NoMemory>
    ensures { OnOk result (text.new ≡ text.old ++ list_text (written (name names.now) item.now)) }
{
    text.push("[")?;
    write_type(alloc, text, names, item)?;
    text.push("]")
}

/// `(l:T,m:T|t1)`.
#[cycle(types)]
#[tactic(auto, using(crate::proofs::Lists::texts_both))]
fn write_record(alloc: Global, text: &mut Text, names: &Names, row: &TyRow) -> Result<(), NoMemory>
    ensures { OnOk result (text.new ≡ text.old ++ record_text (written_row (name names.now) row.now)) }
{
    text.push("(")?;
    write_row(alloc, text, names, row)?;
    text.push(")")
}

/// `[|A:T,B:T|t1|]`.
#[cycle(types)]
#[tactic(auto, using(crate::proofs::Lists::texts_both))]
fn write_variant(alloc: Global, text: &mut Text, names: &Names, row: &TyRow) -> Result<(), NoMemory>
    ensures { OnOk result (text.new ≡ text.old ++ variant_text (written_row (name names.now) row.now)) }
{
    text.push("[|")?;
    write_row(alloc, text, names, row)?;
    text.push("|]")
}

/// `T,T`.
#[cycle(types)]
#[tactic(auto, using(crate::proofs::Lists::texts_both))]
fn write_types(alloc: Global, text: &mut Text, names: &Names, types: &[Ty]) -> Result<(), NoMemory>
    ensures { OnOk result (text.new ≡ text.old ++ join_by (written (name names.now)) (codes ",") types.now) }
{
    if let Some((first, rest)) = types.split_first() {
        write_type(alloc, text, names, first)?;
        for ty in rest {
            text.push(",")?;
            write_type(alloc, text, names, ty)?;
        }
    }
    Ok(())
}

/// `l:T,m:T|t1`.
#[cycle(types)]
#[tactic(auto, using(crate::proofs::Lists::texts_both, crate::proofs::Unfold::written_of_row))]
fn write_row(alloc: Global, text: &mut Text, names: &Names, row: &TyRow) -> Result<(), NoMemory>
    ensures { OnOk result (text.new ≡ text.old ++ written_row (name names.now) row.now) }
{
    write_fields(alloc, text, names, row.fields.as_slice())?;
    write_tail(alloc, text, names, row.tail.of_row())
}

/// `l:T,m:T`.
#[cycle(types)]
#[tactic(auto, using(crate::proofs::Lists::texts_both))]
fn write_fields(
    alloc: Global,
    text: &mut Text,
    names: &Names,
    fields: &[TyField],
) -> Result<(), NoMemory>
    ensures { OnOk result (text.new ≡ text.old ++ join_by (written_field (name names.now)) (codes ",") fields.now) }
{
    if let Some((first, rest)) = fields.split_first() {
        write_field(alloc, text, names, first)?;
        for field in rest {
            text.push(",")?;
            write_field(alloc, text, names, field)?;
        }
    }
    Ok(())
}

/// `l:T`.
#[cycle(types)]
#[tactic(auto, using(crate::proofs::Lists::texts_both, crate::proofs::Unfold::written_of_field))]
fn write_field(
    alloc: Global,
    text: &mut Text,
    names: &Names,
    field: &TyField,
) -> Result<(), NoMemory>
    ensures { OnOk result (text.new ≡ text.old ++ written_field (name names.now) field.now) }
{
    text.push(field.label.as_str())?;
    text.push(":")?;
    write_type(alloc, text, names, &field.ty)
}

/// `{e,e|t1}`, or nothing.
#[tactic(auto, using(crate::proofs::Lists::texts_both))]
fn write_effects(
    alloc: Global,
    text: &mut Text,
    names: &Names,
    effects: &Effects,
) -> Result<(), NoMemory>
    ensures { OnOk result (text.new ≡ text.old ++ effects_text effects.now.labels (option_map (name names.now) (tail_variable variable.Effects effects.now.tail))) }
{
    if effects.labels.is_empty() && effects.tail == RowTail::Closed {
        return Ok(());
    }
    text.push("{")?;
    write_labels(text, effects.labels.as_slice())?;
    write_tail(alloc, text, names, effects.tail.of_effects())?;
    text.push("}")
}

/// `e,e`.
#[tactic(auto, using(crate::proofs::Lists::texts_both))]
pub fn write_labels(text: &mut Text, labels: &[Effect]) -> Result<(), NoMemory>
    ensures { OnOk result (text.new ≡ text.old ++ join_by effect_word (codes ",") labels.now) }
{
    if let Some((first, rest)) = labels.split_first() {
        text.push(effect_word(*first))?;
        for label in rest {
            text.push(",")?;
            text.push(effect_word(*label))?;
        }
    }
    Ok(())
}

/// The word of an effect.
pub fn effect_word(effect: Effect) -> &'static str
    ensures { result.now ≡ effect_word effect }
{
    match effect {
        Effect::Local => "local",
        Effect::Move => "move",
        Effect::Print => "print",
        Effect::Rec => "rec",
        Effect::Scan => "scan",
        Effect::Trap => "trap",
        Effect::Write => "write",
    }
}

/// `|t1`, or nothing.
#[tactic(auto, using(crate::proofs::Lists::texts_both))]
fn write_tail(
    alloc: Global,
    text: &mut Text,
    names: &Names,
    tail: Option<Variable>,
) -> Result<(), NoMemory>
    ensures { OnOk result (text.new ≡ text.old ++ tail_text (option_map (name names.now) tail)) }
{
    match tail {
        None => Ok(()),
        Some(variable) => {
            text.push("|")?;
            write_name(alloc, text, names, variable)
        }
    }
}

/// `t1`.
fn write_name(
    alloc: Global,
    text: &mut Text,
    names: &Names,
    variable: Variable,
) -> Result<(), NoMemory>
    ensures { OnOk result (text.new ≡ text.old ++ name names.now variable) }
{
    let number = names.number(variable);
    let name = format!(in alloc; "t{number}")?;
    text.push(name.as_str())
}
