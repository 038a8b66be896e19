//! Declarations, a line each.

ghost use Rattle.lk_ast.specs.declared.token.TokenKind.TheVariants.{Word};
ghost use Rattle.lk_print.specs.Printed.{base_kind, column, declaration, form_of, function, in_braces, in_round, joined, name_kind, names, place, separated, table as table_kinds};
ghost use Rattle.lk_print.specs.Written.{after_comma, line_of, spaced};
ghost use Rattle.std.specs.Prelude.{◌≡◌, ◌++◌, ◌∷◌, OnOk, codes, flat_map, map};

use crate::expression::write_braces;
use crate::signature::write_signature;
use crate::token::{write_name, write_sign, write_tag, write_word};
use crate::words::{write_names, write_place};
use lk_ast::{BaseKind, ColumnDecl, Decl, FunDef, NoMemory, TableDecl, Text};
use std::alloc::Global;

/// A declaration and the end of its line.
pub fn write_decl(alloc: Global, text: &mut Text, decl: &Decl) -> Result<(), NoMemory>
    ensures { OnOk result (text.new ≡ text.old ++ line_of (declaration decl.now)) }
{
    match decl {
        Decl::Table(table) => write_table(text, table),
        Decl::Fun(function) => write_function_line(alloc, text, function),
        Decl::Mutual(functions) => write_mutual(alloc, text, functions.as_slice()),
    }
}

/// `table t with (l : Int);`.
#[tactic(auto, using(crate::proofs::Appends::behind_both, crate::proofs::Appends::spaced_both, crate::proofs::Appends::spaced_behind))]
fn write_table(text: &mut Text, table: &TableDecl) -> Result<(), NoMemory>
    ensures { OnOk result (text.new ≡ text.old ++ line_of (table_kinds table.now)) }
{
    text.push("table")?;
    write_name(text, &table.name)?;
    write_word(text, "with")?;
    write_sign(text, "(")?;
    write_columns(text, table.columns.as_slice())?;
    write_sign(text, ")")?;
    write_sign(text, ";")?;
    text.push("\n")
}

/// `l : Int, m : String`.
#[tactic(auto, using(crate::proofs::Appends::behind_both, crate::proofs::Appends::spaced_both, crate::proofs::Appends::spaced_behind))]
fn write_columns(line: &mut Text, columns: &[ColumnDecl]) -> Result<(), NoMemory>
    ensures { OnOk result (line.new ≡ line.old ++ flat_map spaced (separated (map column columns.now))) }
{
    if let Some((first, rest)) = columns.split_first() {
        write_column(line, first)?;
        more_columns(line, rest)?;
    }
    Ok(())
}

#[tactic(auto, using(crate::proofs::Appends::behind_both, crate::proofs::Appends::spaced_both, crate::proofs::Appends::spaced_behind))]
fn more_columns(line: &mut Text, columns: &[ColumnDecl]) -> Result<(), NoMemory>
    ensures { OnOk result (line.new ≡ line.old ++ flat_map (λ c. after_comma (column c)) columns.now) }
{
    for column in columns {
        write_sign(line, ",")?;
        write_column(line, column)?;
    }
    Ok(())
}

#[tactic(auto, using(crate::proofs::Appends::behind_both, crate::proofs::Appends::spaced_both, crate::proofs::Appends::spaced_behind))]
fn write_column(line: &mut Text, one: &ColumnDecl) -> Result<(), NoMemory>
    ensures { OnOk result (line.new ≡ line.old ++ flat_map spaced (column one.now)) }
{
    write_name(line, &one.label)?;
    write_sign(line, ":")?;
    write_base(line, one.kind)
}

#[tactic(auto, using(crate::proofs::Appends::behind_both, crate::proofs::Appends::spaced_both, crate::proofs::Appends::spaced_behind))]
fn write_base(line: &mut Text, kind: BaseKind) -> Result<(), NoMemory>
    ensures { OnOk result (line.new ≡ line.old ++ flat_map spaced (base_kind kind)) }
{
    match kind {
        BaseKind::Int => write_tag(line, "Int"),
        BaseKind::Bool => write_tag(line, "Bool"),
        BaseKind::Text => write_tag(line, "String"),
    }
}

/// `f(x, y) client { e }` behind `fun`.
#[tactic(auto, using(crate::proofs::Appends::behind_both, crate::proofs::Appends::spaced_both, crate::proofs::Appends::spaced_behind))]
fn write_definition(alloc: Global, line: &mut Text, fun: &FunDef) -> Result<(), NoMemory>
    ensures { OnOk result (line.new ≡ line.old ++ flat_map spaced (name_kind fun.now.name ∷ (in_round (names fun.now.params) ++ (place fun.now.place ++ in_braces (form_of fun.now.body).inside)))) }
{
    write_name(line, &fun.name)?;
    write_sign(line, "(")?;
    write_names(line, fun.params.as_slice())?;
    write_sign(line, ")")?;
    write_place(line, fun.place)?;
    write_braces(alloc, line, &fun.body)
}

/// A function alone on its line.
#[tactic(auto, using(crate::proofs::Appends::behind_both, crate::proofs::Appends::spaced_both, crate::proofs::Appends::spaced_behind))]
fn write_function_line(alloc: Global, text: &mut Text, fun: &FunDef) -> Result<(), NoMemory>
    ensures { OnOk result (text.new ≡ text.old ++ line_of (function fun.now)) }
{
    match &fun.sig {
        None => {
            text.push("fun")?;
            write_definition(alloc, text, fun)?;
            text.push("\n")
        }
        Some(sig) => {
            text.push("sig")?;
            write_signature(text, sig)?;
            write_word(text, "fun")?;
            write_definition(alloc, text, fun)?;
            text.push("\n")
        }
    }
}

/// A function behind other tokens.
#[tactic(auto, using(crate::proofs::Appends::behind_both, crate::proofs::Appends::spaced_both, crate::proofs::Appends::spaced_behind))]
fn write_function(alloc: Global, line: &mut Text, fun: &FunDef) -> Result<(), NoMemory>
    ensures { OnOk result (line.new ≡ line.old ++ flat_map spaced (function fun.now)) }
{
    match &fun.sig {
        None => {
            write_word(line, "fun")?;
            write_definition(alloc, line, fun)
        }
        Some(sig) => {
            write_word(line, "sig")?;
            write_signature(line, sig)?;
            write_word(line, "fun")?;
            write_definition(alloc, line, fun)
        }
    }
}

/// `mutual { functions }`.
#[tactic(auto, using(crate::proofs::Appends::behind_both, crate::proofs::Appends::spaced_both, crate::proofs::Appends::spaced_joined))]
fn write_mutual(alloc: Global, text: &mut Text, functions: &[FunDef]) -> Result<(), NoMemory>
    ensures { OnOk result (text.new ≡ text.old ++ line_of (Word (codes "mutual") ∷ in_braces (joined (map function functions.now)))) }
{
    text.push("mutual")?;
    write_sign(text, "{")?;
    write_functions(alloc, text, functions)?;
    write_sign(text, "}")?;
    text.push("\n")
}

fn write_functions(alloc: Global, line: &mut Text, functions: &[FunDef]) -> Result<(), NoMemory>
    ensures { OnOk result (line.new ≡ line.old ++ flat_map (λ f. flat_map spaced (function f)) functions.now) }
{
    for function in functions {
        write_function(alloc, line, function)?;
    }
    Ok(())
}
