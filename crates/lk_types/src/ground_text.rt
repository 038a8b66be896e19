//! Ground types as text.

ghost use Rattle.lk_types.specs.TypeText.{effects_text, ground_field_text, ground_text, list_text, record_text, variant_text};
ghost use Rattle.std.specs.List.{join_by};
ghost use Rattle.std.specs.Prelude.{◌≡◌, ◌++◌, IfOk, None, OnOk, codes};

use crate::ground::{Ground, GroundField};
use crate::ty::Effect;
use crate::type_text::write_labels;
use lk_ast::{NoMemory, Text};
use std::alloc::Global;

/// The text of a ground type, which is that of a type without variables.
///
/// Fields, tags and effects are written in the order in which they stand. Whoever makes types keeps them in byte order.
pub fn print_ground(alloc: Global, ty: &Ground) -> Result<Text, NoMemory>
    ensures { IfOk result (λ text. text ≡ ground_text ty.now) }
{
    let mut text = Text::new(alloc);
    write_ground(&mut text, ty)?;
    Ok(text)
}

#[cycle(grounds)]
#[tactic(auto, using(crate::proofs::Lists::texts_both, crate::proofs::Unfold::ground_int, crate::proofs::Unfold::ground_bool, crate::proofs::Unfold::ground_string, crate::proofs::Unfold::ground_list, crate::proofs::Unfold::ground_record, crate::proofs::Unfold::ground_variant, crate::proofs::Unfold::ground_function))]
fn write_ground(text: &mut Text, ty: &Ground) -> Result<(), NoMemory>
    ensures { OnOk result (text.new ≡ text.old ++ ground_text ty.now) }
{
    match ty {
        Ground::Int => text.push("Int"),
        Ground::Bool => text.push("Bool"),
        Ground::Text => text.push("String"),
        Ground::List(item) => write_list(text, item.get()),
        Ground::Fields(fields) => write_record(text, fields.get().as_slice()),
        Ground::Tags(tags) => write_variant(text, tags.get().as_slice()),
        Ground::Fun(params, labels, answer) => {
            text.push("(")?;
            write_grounds(text, params.get().as_slice())?;
            text.push(") ")?;
            write_effects(text, labels.get().as_slice())?;
            text.push("-> ")?;
            write_ground(text, answer.get())
        }
    }
}

/// `[T]`.
#[cycle(grounds)]
#[tactic(auto, using(crate::proofs::Lists::texts_both))]
fn write_list(text: &mut Text, item: &Ground) -> Result<(), NoMemory>
    ensures { OnOk result (text.new ≡ text.old ++ list_text (ground_text item.now)) }
{
    text.push("[")?;
    write_ground(text, item)?;
    text.push("]")
}

/// `(l:T,m:T)`.
#[cycle(grounds)]
#[tactic(auto, using(crate::proofs::Lists::texts_both))]
fn write_record(text: &mut Text, fields: &[GroundField]) -> Result<(), NoMemory>
    ensures { OnOk result (text.new ≡ text.old ++ record_text (join_by ground_field_text (codes ",") fields.now)) }
{
    text.push("(")?;
    write_fields(text, fields)?;
    text.push(")")
}

/// `[|A:T,B:T|]`.
#[cycle(grounds)]
#[tactic(auto, using(crate::proofs::Lists::texts_both))]
fn write_variant(text: &mut Text, tags: &[GroundField]) -> Result<(), NoMemory>
    ensures { OnOk result (text.new ≡ text.old ++ variant_text (join_by ground_field_text (codes ",") tags.now)) }
{
    text.push("[|")?;
    write_fields(text, tags)?;
    text.push("|]")
}

/// `T,T`.
#[cycle(grounds)]
#[tactic(auto, using(crate::proofs::Lists::texts_both))]
fn write_grounds(text: &mut Text, types: &[Ground]) -> Result<(), NoMemory>
    ensures { OnOk result (text.new ≡ text.old ++ join_by ground_text (codes ",") types.now) }
{
    if let Some((first, rest)) = types.split_first() {
        write_ground(text, first)?;
        for ty in rest {
            text.push(",")?;
            write_ground(text, ty)?;
        }
    }
    Ok(())
}

/// `l:T,m:T`.
#[cycle(grounds)]
#[tactic(auto, using(crate::proofs::Lists::texts_both))]
fn write_fields(text: &mut Text, fields: &[GroundField]) -> Result<(), NoMemory>
    ensures { OnOk result (text.new ≡ text.old ++ join_by ground_field_text (codes ",") fields.now) }
{
    if let Some((first, rest)) = fields.split_first() {
        write_field(text, first)?;
        for field in rest {
            text.push(",")?;
            write_field(text, field)?;
        }
    }
    Ok(())
}

/// `l:T`.
#[cycle(grounds)]
#[tactic(auto, using(crate::proofs::Lists::texts_both, crate::proofs::Unfold::ground_field))]
fn write_field(text: &mut Text, field: &GroundField) -> Result<(), NoMemory>
    ensures { OnOk result (text.new ≡ text.old ++ ground_field_text field.now) }
{
    text.push(field.label.as_str())?;
    text.push(":")?;
    write_ground(text, &field.ty)
}

/// `{e,e}`, or nothing.
#[tactic(auto, using(crate::proofs::Lists::texts_both))]
fn write_effects(text: &mut Text, labels: &[Effect]) -> Result<(), NoMemory>
    ensures { OnOk result (text.new ≡ text.old ++ effects_text labels.now None) }
{
    if labels.is_empty() {
        return Ok(());
    }
    text.push("{")?;
    write_labels(text, labels)?;
    text.push("}")
}
