//! What `check` prints for a program.

ghost use Rattle.std.specs.Prelude.{◌≡◌, IfOk, map};
ghost use Rattle.lk_ast.specs.Functions.{functions_of};
ghost use Rattle.lk_cli.specs.Report.{lines_of, scheme_line};

use lk_ast::{FunDef, NoMemory, Program, Text, functions_of};
use lk_types::{Scheme, print_type};
use std::alloc::Global;

/// A line for each function of a program, in text order, with its scheme.
pub fn print_schemes(alloc: Global, program: &Program, schemes: &[Scheme]) -> Result<Text, NoMemory>
    ensures { IfOk result (λ text. text ≡ lines_of (functions_of program.now) schemes.now) }
{
    let functions = functions_of(alloc, program)?;
    lines_of(alloc, functions.as_slice(), schemes)
}

/// A line for each function with its scheme. Where there are more of one than of the other, these have none.
fn lines_of(alloc: Global, functions: &[&FunDef], schemes: &[Scheme]) -> Result<Text, NoMemory>
    ensures { IfOk result (λ text. text ≡ lines_of (map (λ f. f.now) functions.now) schemes.now) }
{
    let mut text = Text::new(alloc);
    for (function, scheme) in functions.iter().zip(schemes.iter()) {
        text.push(line_of_scheme(alloc, function, scheme)?.as_str())?;
    }
    Ok(text)
}

/// `NAME : TYPE`.
fn line_of_scheme(alloc: Global, function: &FunDef, scheme: &Scheme) -> Result<Text, NoMemory>
    ensures { IfOk result (λ line. line ≡ scheme_line function.now scheme.now) }
{
    let body = scheme.body.tree(alloc)?;
    let ty = print_type(alloc, &body)?;
    let line = format!(in alloc; "{} : {}\n", function.name.text.as_str(), ty.as_str())?;
    Ok(Text::from_string(line))
}
