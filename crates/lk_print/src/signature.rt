//! Types of signatures on a line.

ghost use Rattle.lk_ast.specs.declared.token.TokenKind.TheVariants.{Sign};
ghost use Rattle.lk_print.specs.Printed.{name_kind, named_field, separated, tagged_field, type_of};
ghost use Rattle.lk_print.specs.Written.{spaced};
ghost use Rattle.std.specs.Prelude.{◌≡◌, ◌++◌, ◌∷◌, [], OnOk, codes, flat_map, map};

use crate::token::{write_name, write_sign, write_tag};
use lk_ast::{NoMemory, Sig, SigField, SigType, Text};

/// `f : T;` behind `sig`.
#[tactic(auto, using(crate::proofs::Appends::behind_both, crate::proofs::Appends::spaced_both, crate::proofs::Appends::spaced_behind))]
pub fn write_signature(line: &mut Text, sig: &Sig) -> Result<(), NoMemory>
    ensures { OnOk result (line.new ≡ line.old ++ flat_map spaced (name_kind sig.now.name ∷ Sign (codes ":") ∷ (type_of sig.now.ty ++ Sign (codes ";") ∷ []))) }
{
    write_name(line, &sig.name)?;
    write_sign(line, ":")?;
    write_type(line, &sig.ty)?;
    write_sign(line, ";")
}

/// A type.
#[cycle(types)]
#[tactic(auto, using(crate::proofs::Appends::behind_both, crate::proofs::Appends::spaced_both, crate::proofs::Appends::spaced_behind))]
fn write_type(line: &mut Text, ty: &SigType) -> Result<(), NoMemory>
    ensures { OnOk result (line.new ≡ line.old ++ flat_map spaced (type_of ty.now)) }
{
    match ty {
        SigType::Int => write_tag(line, "Int"),
        SigType::Bool => write_tag(line, "Bool"),
        SigType::Text => write_tag(line, "String"),
        SigType::List(item) => {
            write_sign(line, "[")?;
            write_type(line, item.get())?;
            write_sign(line, "]")
        }
        SigType::Fields(fields) => {
            write_sign(line, "(")?;
            write_fields(line, fields.as_slice())?;
            write_sign(line, ")")
        }
        SigType::Tags(tags) => {
            write_sign(line, "[|")?;
            write_tags(line, tags.as_slice())?;
            write_sign(line, "|]")
        }
        SigType::Fun(params, answer) => {
            write_sign(line, "(")?;
            write_types(line, params.as_slice())?;
            write_sign(line, ")")?;
            write_sign(line, "->")?;
            write_type(line, answer.get())
        }
    }
}

/// `T, U`.
#[cycle(types)]
#[tactic(auto, using(crate::proofs::Appends::behind_both, crate::proofs::Appends::spaced_both, crate::proofs::Appends::spaced_behind))]
fn write_types(line: &mut Text, types: &[SigType]) -> Result<(), NoMemory>
    ensures { OnOk result (line.new ≡ line.old ++ flat_map spaced (separated (map type_of types.now))) }
{
    if let Some((first, rest)) = types.split_first() {
        write_type(line, first)?;
        for ty in rest {
            write_sign(line, ",")?;
            write_type(line, ty)?;
        }
    }
    Ok(())
}

/// `l : T, m : U`.
#[cycle(types)]
#[tactic(auto, using(crate::proofs::Appends::behind_both, crate::proofs::Appends::spaced_both, crate::proofs::Appends::spaced_behind))]
fn write_fields(line: &mut Text, fields: &[SigField]) -> Result<(), NoMemory>
    ensures { OnOk result (line.new ≡ line.old ++ flat_map spaced (separated (map named_field fields.now))) }
{
    if let Some((first, rest)) = fields.split_first() {
        write_field(line, first)?;
        for field in rest {
            write_sign(line, ",")?;
            write_field(line, field)?;
        }
    }
    Ok(())
}

#[cycle(types)]
#[tactic(auto, using(crate::proofs::Appends::behind_both, crate::proofs::Appends::spaced_both, crate::proofs::Appends::spaced_behind))]
fn write_field(line: &mut Text, field: &SigField) -> Result<(), NoMemory>
    ensures { OnOk result (line.new ≡ line.old ++ flat_map spaced (named_field field.now)) }
{
    write_name(line, &field.label)?;
    write_sign(line, ":")?;
    write_type(line, &field.ty)
}

/// `A : T, B : U`.
#[cycle(types)]
#[tactic(auto, using(crate::proofs::Appends::behind_both, crate::proofs::Appends::spaced_both, crate::proofs::Appends::spaced_behind))]
fn write_tags(line: &mut Text, tags: &[SigField]) -> Result<(), NoMemory>
    ensures { OnOk result (line.new ≡ line.old ++ flat_map spaced (separated (map tagged_field tags.now))) }
{
    if let Some((first, rest)) = tags.split_first() {
        write_tag_type(line, first)?;
        for tag in rest {
            write_sign(line, ",")?;
            write_tag_type(line, tag)?;
        }
    }
    Ok(())
}

#[cycle(types)]
#[tactic(auto, using(crate::proofs::Appends::behind_both, crate::proofs::Appends::spaced_both, crate::proofs::Appends::spaced_behind))]
fn write_tag_type(line: &mut Text, tag: &SigField) -> Result<(), NoMemory>
    ensures { OnOk result (line.new ≡ line.old ++ flat_map spaced (tagged_field tag.now)) }
{
    write_tag(line, tag.label.text.as_str())?;
    write_sign(line, ":")?;
    write_type(line, &tag.ty)
}
