//! Numbering.

ghost use Rattle.lk_code.specs.declared.tables.CodeTables.{CodeTables as TheTables};
ghost use Rattle.lk_defun.specs.Numbers.{AreTables};
ghost use Rattle.lk_defun.specs.Whole.{IsWhole};
ghost use Rattle.std.specs.Prelude.{◌≡◌, IfOk};

use crate::frames::all_frames;
use crate::funs::all_funs;
use crate::homes::all_homes;
use lk_ast::{List, NoMemory};
use lk_code::{Code, CodeTables, FrameInfo, FunInfo, Home};
use lk_ir::CpsProgram;
use std::alloc::Global;

/// The code of a program with continuations, which runs nothing at the server yet: its functions have the numbers of their labels; the
/// returns of these are the first frames, and those of positions with continuations come behind them.
///
/// `NoMemory` also where there are 2^32 labels, nodes or positions of one node, and where a label tells nothing of itself or has no
/// name, which isn't so in the table of a program.
#[tactic(auto, using(crate::proofs::Numbered::numbered_sound))]
pub fn defun(alloc: Global, p: &CpsProgram) -> Result<Code, NoMemory>
    requires whole { IsWhole p.now }
    ensures tables { IfOk result (λ c. AreTables p.now c.tables) }
{
    let tables = numbered(alloc, p)?;
    Ok(Code::new(alloc, tables))
}

/// The tables.
#[tactic(auto, using(crate::proofs::Numbered::are_tables))]
fn numbered(alloc: Global, p: &CpsProgram) -> Result<CodeTables, NoMemory>
    ensures { IfOk result (AreTables p.now) }
{
    let funs = all_funs(alloc, p)?;
    let homes = all_homes(alloc, p.conts.get().as_slice())?;
    let frames = all_frames(alloc, p, funs.as_slice(), homes.as_slice())?;
    Ok(tables(p, funs, frames, homes)?)
}

/// Tables over the same nodes and continuations.
fn tables(
    p: &CpsProgram,
    funs: List<FunInfo>,
    frames: List<FrameInfo>,
    homes: List<Home>,
) -> Result<CodeTables, NoMemory>
    ensures { IfOk result (λ c. c ≡ record { forms = p.now.forms; conts = p.now.conts; funs = funs; frames = frames; homes = homes }) }
{
    Ok(CodeTables {
        forms: p.forms.share()?,
        conts: p.conts.share()?,
        funs,
        frames,
        homes,
    })
}
