//! The tables of code: the ground program as one table of nodes, with continuations, by numbers.

ghost use Rattle.lk_compile.specs.Compiled.{AreTablesOf, IsSource};
ghost use Rattle.std.specs.Prelude.{IfOk};

use lk_ast::NoMemory;
use lk_code::Code;
use lk_cps::cps;
use lk_defun::defun;
use lk_ground::GroundProgram;
use lk_lower::lower;
use lk_lowered::lowered_laws;
use std::alloc::Global;

/// The code of a ground program without what its labels run at the server.
pub fn code_tables(alloc: Global, ground: &GroundProgram<'_>) -> Result<Code, NoMemory>
    requires source { IsSource ground.now }
    ensures { IfOk result (λ code. AreTablesOf ground.now code.tables) }
{
    lowered_laws();
    let table = lower(alloc, ground)?;
    let program = cps(alloc, &table)?;
    Ok(defun(alloc, &program)?)
}
