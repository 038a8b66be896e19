//! Which programs are accepted: bound, typed, with a ground program, and with their queries, updates and deletions as SQL.

ghost use Rattle.lk_ast.specs.Tables.{HaveColumns};
ghost use Rattle.lk_compile.specs.Accepted.{IsAccepted, IsRefusedProgram, IsRefusedTyped, IsTranslated, IsTyped};
ghost use Rattle.std.specs.Prelude.{◌≡◌, IfErr, IfOk};

use crate::error::CompileError;
use lk_ast::{List, Program};
use lk_infer::{Typed, infer};
use lk_mono::ground;
use lk_names::{Scoped, resolve};
use lk_translate::{Translated, translate, translate_laws};
use std::alloc::Global;

/// A program that nothing refuses: its names are bound, with what is inferred of it, and what its queries, updates and deletions are as
/// SQL.
#[derive(Drop)]
pub struct Accepted {
    pub program: Scoped,
    pub typed: Typed,
    pub queries: List<Translated>,
}

/// The program, accepted, or the first reason why it isn't.
pub fn accept(alloc: Global, program: Program) -> Result<Accepted, CompileError>
    requires columns { HaveColumns program }
    ensures same { IfOk result (λ accepted. accepted.program ≡ program) }
    ensures accepted { IfOk result (λ accepted. IsAccepted accepted.program accepted.typed accepted.queries) }
    ensures refused { IfErr result (IsRefusedProgram program) }
{
    let scoped = resolve(alloc, program)?;
    let typed = infer(alloc, &scoped)?;
    let queries = translate_program(alloc, &scoped, &typed)?;
    Ok(Accepted {
        program: scoped,
        typed,
        queries,
    })
}

/// The queries, updates and deletions of a typed program as SQL, those of its ground program.
fn translate_program(
    alloc: Global,
    program: &Scoped,
    typed: &Typed,
) -> Result<List<Translated>, CompileError>
    requires typed { IsTyped program.now typed.now }
    requires columns { HaveColumns program.now }
    ensures made { IfOk result (IsTranslated program.now typed.now) }
    ensures refused { IfErr result (IsRefusedTyped program.now typed.now) }
{
    translate_laws();
    let ground = ground(alloc, program, typed)?;
    Ok(translate(alloc, &ground)?)
}
