//! Programs, declaration by declaration.

ghost use Rattle.lk_names.specs.Faults.{Answers};
ghost use Rattle.lk_names.specs.Programs.{no_globals, with_decl, names_of, sig_fault, function_fault, functions_fault, table_fault, decl_fault, decls_fault, IsBound, IsRefused};
ghost use Rattle.lk_scope.specs.Names.{no_names, bind, bind_all};
ghost use Rattle.std.specs.Prelude.{◌≡◌, IfOk, IfErr, OnOk, map};

use crate::error::NameError;
use crate::expression::expr;
use crate::globals::Globals;
use crate::repeats::{columns, once, words};
use crate::scoped::Scoped;
use crate::types::sig_type;
use lk_ast::{Decl, FunDef, List, NoMemory, Program, Sig, TableDecl, Word, main_of};
use lk_scope::Names;
use std::alloc::Global;

/// A program whose names are bound. Scope is static: an inner name hides an outer one, and a local name hides tables and
/// functions too. A function's body sees the tables and functions before it in the text, itself, and all functions of its
/// `mutual` block.
///
/// # Errors
/// The first in text order: `Unbound` for a name that isn't seen in the role that it is used in, and for a signature with
/// another name than its function; `Twice` for the second of two equal names among the tables and functions of the program,
/// in one list of parameters, among the labels of one record, table, `set`, `orderby` or record type, or among the tags of
/// one switch or variant type. `NoMain` where there is none of these, and no function `main` with one parameter and the mark
/// of the client.
pub fn resolve(alloc: Global, program: Program) -> Result<Scoped, NameError>
    // The program is kept as it is.
    ensures same { IfOk result (λ scoped. scoped ≡ program) }
    // It is one whose names are bound.
    ensures bound { OnOk result (IsBound program) }
    // Refused is the first fault in text order.
    ensures refused { IfErr result (λ why. IsRefused program why) }
{
    decls(alloc, program.decls.as_slice())?;
    match main_of(&program) {
        None => Err(NameError::NoMain),
        Some(_main) => Ok(Scoped::new(program)),
    }
}

/// Declarations from a program's begin on.
fn decls(alloc: Global, list: &[Decl]) -> Result<(), NameError>
    ensures { Answers result (decls_fault no_names no_globals list.now) }
{
    let mut declared = Names::new(alloc);
    let mut globals = Globals {
        tables: Names::new(alloc),
        functions: Names::new(alloc),
    };
    for one in list {
        decl(alloc, &mut declared, &mut globals, one)?;
    }
    Ok(())
}

/// A declaration.
fn decl(
    alloc: Global,
    declared: &mut Names,
    globals: &mut Globals,
    decl: &Decl,
) -> Result<(), NameError>
    ensures fault { Answers result (decl_fault declared.old globals.old decl.now) }
    ensures declared { OnOk result (declared.new ≡ bind_all (names_of decl.now) declared.old) }
    ensures seen { OnOk result (globals.new ≡ with_decl decl.now globals.old) }
{
    see(alloc, globals, decl)?;
    match decl {
        Decl::Table(one) => table(alloc, declared, one),
        Decl::Fun(one) => function(alloc, declared, globals, one),
        Decl::Mutual(list) => functions(alloc, declared, globals, list.as_slice()),
    }
}

/// What a declaration declares is seen too.
fn see(alloc: Global, globals: &mut Globals, decl: &Decl) -> Result<(), NoMemory>
    ensures { OnOk result (globals.new ≡ with_decl decl.now globals.old) }
{
    match decl {
        Decl::Table(one) => {
            let _is_new = globals.tables.insert(alloc, one.name.text.as_str())?;
            Ok(())
        }
        Decl::Fun(one) => {
            let _is_new = globals.functions.insert(alloc, one.name.text.as_str())?;
            Ok(())
        }
        Decl::Mutual(list) => see_all(alloc, &mut globals.functions, list.as_slice()),
    }
}

/// The names of these functions too.
fn see_all(alloc: Global, seen: &mut Names, list: &[FunDef]) -> Result<(), NoMemory>
    ensures { OnOk result (seen.new ≡ bind_all (map (λ (f : FunDef). f.name) list.now) seen.old) }
{
    for one in list {
        let _is_new = seen.insert(alloc, one.name.text.as_str())?;
    }
    Ok(())
}

/// `table t with (l : Int);`.
fn table(alloc: Global, declared: &mut Names, table: &TableDecl) -> Result<(), NameError>
    ensures fault { Answers result (table_fault declared.old table.now) }
    ensures declared { OnOk result (declared.new ≡ bind table.now.name declared.old) }
{
    once(alloc, declared, &table.name)?;
    columns(alloc, table.columns.as_slice())
}

/// The functions of a `mutual` block.
fn functions(
    alloc: Global,
    declared: &mut Names,
    globals: &Globals,
    list: &[FunDef],
) -> Result<(), NameError>
    ensures fault { Answers result (functions_fault declared.old globals.now list.now) }
    ensures declared { OnOk result (declared.new ≡ bind_all (map (λ (f : FunDef). f.name) list.now) declared.old) }
{
    for one in list {
        function(alloc, declared, globals, one)?;
    }
    Ok(())
}

/// `sig f : T; fun f(x, y) server { e }`.
fn function(
    alloc: Global,
    declared: &mut Names,
    globals: &Globals,
    f: &FunDef,
) -> Result<(), NameError>
    ensures fault { Answers result (function_fault declared.old globals.now f.now) }
    ensures declared { OnOk result (declared.new ≡ bind f.now.name declared.old) }
{
    signature(alloc, &f.name, &f.sig)?;
    once(alloc, declared, &f.name)?;
    words(alloc, f.params.as_slice())?;
    let mut names = Names::new(alloc);
    let mut noted = List::new(alloc);
    names.enter_all(alloc, &mut noted, f.params.as_slice())?;
    expr(alloc, globals, &mut names, &f.body)
}

/// The signature of the function of this name, if it has one.
fn signature(alloc: Global, name: &Word, sig: &Option<Sig>) -> Result<(), NameError>
    ensures { Answers result (sig_fault name.now sig.now) }
{
    match sig {
        None => Ok(()),
        Some(sig) => {
            if sig.name.text.equals(&name.text) {
                sig_type(alloc, &sig.ty)
            } else {
                Err(NameError::Unbound(sig.name.at))
            }
        }
    }
}
