//! The functions of a program, in text order and by their names.

ghost use Rattle.std.specs.Prelude.{◌≡◌, ◌++◌, IfOk, OnOk, map};
ghost use Rattle.std.specs.Option.{option_copied};
ghost use Rattle.lk_ast.specs.Functions.{functions_in, functions_of, function_named, is_main as is_main_function, main_of as main_in};

use crate::declaration::{Decl, FunDef, Program};
use crate::list::List;
use crate::memory::NoMemory;
use crate::place::Loc;
use crate::text::Text;
use std::alloc::Global;
use std::slice;

/// The functions of a declaration: none of a table, one alone, or those of a `mutual` block.
pub fn functions_in(decl: &Decl) -> &[FunDef]
    ensures { result.now ≡ functions_in decl.now }
{
    match decl {
        Decl::Table(_) => &[],
        Decl::Fun(function) => slice::from_ref(function),
        Decl::Mutual(functions) => functions.as_slice(),
    }
}

/// The functions of a program in text order. `NoMemory` where memory runs out.
pub fn functions_of(alloc: Global, program: &Program) -> Result<List<&FunDef>, NoMemory>
    ensures { IfOk result (λ functions. map (λ f. f.now) functions ≡ functions_of program.now) }
{
    let mut functions = List::new(alloc);
    for decl in program.decls.as_slice() {
        add_all(&mut functions, functions_in(decl))?;
    }
    Ok(functions)
}

/// These functions too.
fn add_all<'p>(functions: &mut List<&'p FunDef>, more: &'p [FunDef]) -> Result<(), NoMemory>
    ensures { OnOk result (map (λ f. f.now) functions.new ≡ map (λ f. f.now) functions.old ++ more.now) }
{
    for function in more {
        functions.push(function)?;
    }
    Ok(())
}

/// Where a session begins: the first function `main` with one parameter and the mark of the client.
pub fn main_of(program: &Program) -> Option<&FunDef>
    ensures { option_copied result ≡ main_in program.now }
{
    program
        .decls
        .as_slice()
        .iter()
        .flat_map(functions_in)
        .find(|function| is_main(function))
}

/// Whether a session may begin in this function: it is `main` with one parameter and the mark of the client.
pub fn is_main(function: &FunDef) -> bool
    ensures { result ≡ is_main_function function.now }
{
    function.name.text.as_str() == "main"
        && function.params.len() == 1
        && function.place == Loc::Client
}

/// The first function of that name.
pub fn find_function<'p>(program: &'p Program, name: &Text) -> Option<&'p FunDef>
    ensures { option_copied result ≡ function_named program.now name.now }
{
    program
        .decls
        .as_slice()
        .iter()
        .flat_map(functions_in)
        .find(|function| function.name.text.equals(name))
}
