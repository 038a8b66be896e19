//! Programs, their names resolved.

ghost use Rattle.lk_scope.specs.Scoped.{scoped_decl, scoped_function, scoped_program};
ghost use Rattle.std.specs.Prelude.{◌≡◌, IfOk, map};

use crate::expression::under_all;
use crate::names::Names;
use lk_ast::{Decl, FunDef, List, NoMemory, Program};
use std::alloc::Global;

/// The program that is meant by a tree in which each word of an expression is a name and each call is one of a value.
pub fn scoped(alloc: Global, raw: Program) -> Result<Program, NoMemory>
    ensures { IfOk result (λ program. program ≡ scoped_program raw) }
{
    let mut decls = List::new(alloc);
    for decl in raw.decls.into_vec() {
        decls.push(scoped_decl(alloc, decl)?)?;
    }
    Ok(Program { decls })
}

fn scoped_decl(alloc: Global, decl: Decl) -> Result<Decl, NoMemory>
    ensures { IfOk result (λ made. made ≡ scoped_decl decl) }
{
    match decl {
        Decl::Table(table) => Ok(Decl::Table(table)),
        Decl::Fun(function) => scoped_function(alloc, function).map(Decl::Fun),
        Decl::Mutual(functions) => scoped_functions(alloc, functions).map(Decl::Mutual),
    }
}

fn scoped_functions(alloc: Global, functions: List<FunDef>) -> Result<List<FunDef>, NoMemory>
    ensures { IfOk result (λ made. made ≡ map scoped_function functions) }
{
    let mut made = List::new(alloc);
    for function in functions.into_vec() {
        made.push(scoped_function(alloc, function)?)?;
    }
    Ok(made)
}

fn scoped_function(alloc: Global, function: FunDef) -> Result<FunDef, NoMemory>
    ensures { IfOk result (λ made. made ≡ scoped_function function) }
{
    let mut names = Names::new(alloc);
    let body = under_all(
        alloc,
        &mut names,
        function.params.as_slice(),
        &function.body,
    )?;
    Ok(function.with_body(body))
}
