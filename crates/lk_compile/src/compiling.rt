//! Compilation.

ghost use Rattle.lk_ast.specs.Tables.{HaveColumns};
ghost use Rattle.lk_ast.specs.declared.declaration.Program.{Program as TheProgram};
ghost use Rattle.lk_code.specs.Sound.{AreSound};
ghost use Rattle.lk_code.specs.TypedLaw.{CallsLaw};
ghost use Rattle.lk_compile.specs.Accepted.{IsRefusedProgram, IsRefusedText, IsRefusedTyped, IsTyped};
ghost use Rattle.lk_compile.specs.Compiled.{AreGroundParts, AreParts, IsCodeOf, IsSource};
ghost use Rattle.lk_ir.specs.Law.{ContinuesLaw};
ghost use Rattle.lk_lowered.specs.Law.{EntersLaw, SessionsLaw, StandsLaw};
ghost use Rattle.lk_parse.specs.Refusals.{IsProgramText};
ghost use Rattle.std.specs.Prelude.{◌≡◌, IfErr, IfOk, Some};

use crate::blocks::all_blocks;
use crate::error::CompileError;
use crate::tables::code_tables;
use lk_ast::{List, NoMemory, Program, TableDef};
use lk_bag::table_defs;
use lk_code::{BlockCode, Code, Origin, sound_laws};
use lk_ground::GroundProgram;
use lk_infer::{Typed, infer};
use lk_ir::ir_laws;
use lk_lowered::lowered_laws;
use lk_mono::ground;
use lk_names::{Scoped, resolve};
use lk_parse::parse;
use lk_places::places_law;
use lk_translate::{Translated, translate, translate_laws};
use std::alloc::Global;

/// What of the code is made of a ground program.
pub struct Parts {
    pub code: Code,
    pub blocks: List<Option<BlockCode>>,
    pub defs: List<TableDef>,
}

impl Drop for Parts {
    fn drop(self) {
        let Self {
            code: _,
            blocks: _,
            defs: _,
        } = self;
    }
}

impl Parts {
    /// The code of this program.
    fn whole(self, program: Program) -> Code
        ensures sound { AreSound self.code.tables }
        ensures whole { result ≡ record { tables = self.code.tables; blocks = self.blocks; defs = self.defs; origin = Some (record { program = program }) } }
    {
        let Self { code, blocks, defs } = self;
        code.complete(blocks, defs, Some(Origin { program }))
    }
}

/// The code of a text, or the first reason why it has none: it is no program, its names aren't bound, no types are inferred, there is no
/// ground program, or what reads or changes tables is too large.
pub fn compile(alloc: Global, text: &[u8]) -> Result<Code, CompileError>
    ensures code { IfOk result (λ code. (program : TheProgram) × IsProgramText text.now program × IsCodeOf program code) }
    ensures refused { IfErr result (IsRefusedText text.now) }
{
    places_law();
    let program = parse(alloc, text)?;
    compile_program(alloc, program)
}

/// The code of a program, or the first reason why it has none.
pub fn compile_program(alloc: Global, program: Program) -> Result<Code, CompileError>
    requires columns { HaveColumns program }
    ensures code { IfOk result (IsCodeOf program) }
    ensures refused { IfErr result (IsRefusedProgram program) }
{
    session_laws();
    let scoped = resolve(alloc, program)?;
    let typed = infer(alloc, &scoped)?;
    let parts = typed_parts(alloc, &scoped, &typed)?;
    Ok(parts.whole(scoped.into_program()))
}

/// Why nodes of code stand in bodies, and why its sessions and calls do what those of the ground program do: labels, what continuations
/// keep, and lowering.
fn session_laws()
    ensures stands { StandsLaw }
    ensures calls { CallsLaw }
    ensures continues { ContinuesLaw }
    ensures same { SessionsLaw }
    ensures enters { EntersLaw }
{
    sound_laws();
    ir_laws();
    lowered_laws();
}

/// What of the code is made of the ground program of a typed program.
fn typed_parts(alloc: Global, program: &Scoped, typed: &Typed) -> Result<Parts, CompileError>
    requires typed { IsTyped program.now typed.now }
    requires columns { HaveColumns program.now }
    ensures parts { IfOk result (AreParts program.now typed.now) }
    ensures refused { IfErr result (IsRefusedTyped program.now typed.now) }
{
    translate_laws();
    let ground = ground(alloc, program, typed)?;
    let queries = translate(alloc, &ground)?;
    Ok(ground_parts(alloc, &ground, queries)?)
}

/// What of the code is made of a ground program and of its SQL.
fn ground_parts(
    alloc: Global,
    ground: &GroundProgram<'_>,
    queries: List<Translated>,
) -> Result<Parts, NoMemory>
    requires source { IsSource ground.now }
    ensures { IfOk result (AreGroundParts ground.now queries) }
{
    let code = code_tables(alloc, ground)?;
    let defs = table_defs(alloc, ground.program)?;
    let blocks = all_blocks(alloc, code.tables(), defs.as_slice(), queries)?;
    Ok(Parts { code, blocks, defs })
}
