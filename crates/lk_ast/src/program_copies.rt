//! Copies of programs, each equal to what it copies.

ghost use Rattle.std.specs.Prelude.{◌≡◌, IfOk};

use crate::boxed::Boxed;
use crate::declaration::{ColumnDecl, Decl, FunDef, Program, TableDecl};
use crate::list::List;
use crate::memory::NoMemory;
use crate::signature::{Sig, SigField, SigType};
use crate::tree_copies::copy_expr;
use crate::words::{copy_word, copy_words};
use std::alloc::Global;

/// The same program once more.
pub fn copy_program(alloc: Global, program: &Program) -> Result<Program, NoMemory>
    ensures { IfOk result (λ copy. copy ≡ program.now) }
{
    let mut decls = List::new(alloc);
    for decl in program.decls.as_slice() {
        decls.push(copy_decl(alloc, decl)?)?;
    }
    Ok(Program { decls })
}

fn copy_decl(alloc: Global, decl: &Decl) -> Result<Decl, NoMemory>
    ensures { IfOk result (λ copy. copy ≡ decl.now) }
{
    match decl {
        Decl::Table(table) => copy_table(alloc, table).map(Decl::Table),
        Decl::Fun(function) => copy_function(alloc, function).map(Decl::Fun),
        Decl::Mutual(functions) => {
            let functions = copy_functions(alloc, functions.as_slice())?;
            Ok(Decl::Mutual(functions))
        }
    }
}

fn copy_table(alloc: Global, table: &TableDecl) -> Result<TableDecl, NoMemory>
    ensures { IfOk result (λ copy. copy ≡ table.now) }
{
    let name = copy_word(alloc, &table.name)?;
    let mut columns = List::new(alloc);
    for column in table.columns.as_slice() {
        let label = copy_word(alloc, &column.label)?;
        let kind = column.kind;
        columns.push(ColumnDecl { label, kind })?;
    }
    Ok(TableDecl { name, columns })
}

fn copy_functions(alloc: Global, functions: &[FunDef]) -> Result<List<FunDef>, NoMemory>
    ensures { IfOk result (λ copy. copy ≡ functions.now) }
{
    let mut copies = List::new(alloc);
    for function in functions {
        copies.push(copy_function(alloc, function)?)?;
    }
    Ok(copies)
}

fn copy_function(alloc: Global, function: &FunDef) -> Result<FunDef, NoMemory>
    ensures { IfOk result (λ copy. copy ≡ function.now) }
{
    let name = copy_word(alloc, &function.name)?;
    let sig = copy_sig(alloc, &function.sig)?;
    let params = copy_words(alloc, function.params.as_slice())?;
    let place = function.place;
    let body = copy_expr(alloc, &function.body)?;
    Ok(FunDef {
        name,
        sig,
        params,
        place,
        body,
    })
}

fn copy_sig(alloc: Global, sig: &Option<Sig>) -> Result<Option<Sig>, NoMemory>
    ensures { IfOk result (λ copy. copy ≡ sig.now) }
{
    match sig {
        None => Ok(None),
        Some(sig) => {
            let name = copy_word(alloc, &sig.name)?;
            let ty = copy_type(alloc, &sig.ty)?;
            Ok(Some(Sig { name, ty }))
        }
    }
}

#[cycle(type_copies)]
fn copy_type(alloc: Global, ty: &SigType) -> Result<SigType, NoMemory>
    ensures { IfOk result (λ copy. copy ≡ ty.now) }
{
    match ty {
        SigType::Int => Ok(SigType::Int),
        SigType::Bool => Ok(SigType::Bool),
        SigType::Text => Ok(SigType::Text),
        SigType::List(item) => {
            let item = copy_type(alloc, item.get())?;
            Ok(SigType::List(Boxed::new(alloc, item)?))
        }
        SigType::Fields(fields) => copy_fields(alloc, fields.as_slice()).map(SigType::Fields),
        SigType::Tags(tags) => copy_fields(alloc, tags.as_slice()).map(SigType::Tags),
        SigType::Fun(params, made) => {
            let params = copy_types(alloc, params.as_slice())?;
            let made = copy_type(alloc, made.get())?;
            Ok(SigType::Fun(params, Boxed::new(alloc, made)?))
        }
    }
}

#[cycle(type_copies)]
fn copy_types(alloc: Global, types: &[SigType]) -> Result<List<SigType>, NoMemory>
    ensures { IfOk result (λ copy. copy ≡ types.now) }
{
    let mut copies = List::new(alloc);
    for ty in types {
        copies.push(copy_type(alloc, ty)?)?;
    }
    Ok(copies)
}

#[cycle(type_copies)]
fn copy_fields(alloc: Global, fields: &[SigField]) -> Result<List<SigField>, NoMemory>
    ensures { IfOk result (λ copy. copy ≡ fields.now) }
{
    let mut copies = List::new(alloc);
    for field in fields {
        let label = copy_word(alloc, &field.label)?;
        let ty = copy_type(alloc, &field.ty)?;
        copies.push(SigField { label, ty })?;
    }
    Ok(copies)
}
