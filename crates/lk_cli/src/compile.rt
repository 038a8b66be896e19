//! The program of a command: read, and accepted or compiled.

ghost use Rattle.std.specs.Prelude.{◌≡◌, ◌≤◌, IfErr, IfOk};
ghost use Rattle.lk_ast.specs.Tables.{HaveColumns};
ghost use Rattle.lk_bag.specs.Blocks.{AreBlocksApart};
ghost use Rattle.lk_cli.specs.Answers.{HasNoProgram, IsNotAccepted, IsProgram, TellsReads};
ghost use Rattle.lk_cli.specs.Seen.{seen};
ghost use Rattle.lk_compile.specs.Accepted.{IsAccepted};
ghost use Rattle.lk_compile.specs.Compiled.{IsCodeOf};
ghost use Rattle.lk_ground.specs.UsesApart.{AreUsesApart};
ghost use Rattle.lk_index.specs.Places.{ArePlaced};

use crate::READ_MAX;
use crate::answer::Refusal;
use crate::refused::Sources;
use lk_ast::{Program, Text};
use lk_code::Code;
use lk_compile::{Accepted, accept, compile_program};
use lk_outside::{Files, OutFault};
use lk_parse::parse;
use lk_places::places_law;
use std::alloc::Global;

/// The program of the file of that name. Its functions and lambdas begin at places of their own, and so do the uses of
/// functions in each body, and all that acts on tables. Its tables have columns. What the file contains is kept.
pub fn read_program<F: Files>(
    alloc: Global,
    name: &str,
    files: &mut F,
    sources: &mut Sources,
) -> Result<Program, Refusal>
    ensures contents { F.contents files.new ≡ F.contents files.old }
    ensures later { F.faults files.old ≤ F.faults files.new }
    ensures reads { TellsReads (F.faults files.old) (F.faults files.new) result }
    ensures program { IfOk result (IsProgram (seen F.contents F.failed F.faults files.old files.new) name.now) }
    ensures placed { IfOk result ArePlaced }
    ensures apart { IfOk result AreUsesApart }
    ensures blocks { IfOk result AreBlocksApart }
    ensures columns { IfOk result HaveColumns }
    ensures refused { IfErr result (HasNoProgram (seen F.contents F.failed F.faults files.old files.new) name.now) }
{
    places_law();
    let text = match files.read(alloc, name, READ_MAX) {
        Ok(text) => text,
        Err(OutFault::NoMemory) => return Err(Refusal::NoMemory),
        Err(OutFault::Failed) => {
            return Err(Refusal::ReadFault(Text::from_str(alloc, files.failed())?));
        }
    };
    let parsed = parse(alloc, text.as_slice());
    sources.keep_program(alloc, name, text);
    Ok(parsed?)
}

/// The program, accepted with its schemes, its types, and its queries, updates and deletions as SQL.
#[tactic(auto, using(crate::proofs::NotAccepted::not_accepted))]
pub fn check_program(alloc: Global, program: Program) -> Result<Accepted, Refusal>
    requires columns { HaveColumns program }
    ensures same { IfOk result (λ accepted. accepted.program ≡ program) }
    ensures accepted { IfOk result (λ accepted. IsAccepted accepted.program accepted.typed accepted.queries) }
    ensures refused { IfErr result (IsNotAccepted program) }
{
    Ok(accept(alloc, program)?)
}

/// The code of the program.
#[tactic(auto, using(crate::proofs::NotAccepted::not_accepted))]
pub fn program_code(alloc: Global, program: Program) -> Result<Code, Refusal>
    requires columns { HaveColumns program }
    ensures code { IfOk result (IsCodeOf program) }
    ensures refused { IfErr result (IsNotAccepted program) }
{
    Ok(compile_program(alloc, program)?)
}
