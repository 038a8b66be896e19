//! Continuations of a table.

ghost use Rattle.lk_cps.specs.Conts.{AreEnvs, AreTyped};
ghost use Rattle.lk_ir.specs.Orders.{CountFrom, all_orders};
ghost use Rattle.lk_cps.specs.Numbered.{AreWhole};
ghost use Rattle.lk_ir.specs.Uses.{AreNamed};
ghost use Rattle.std.specs.Prelude.{◌≡◌, IfOk};

use crate::envs::envs_of;
use crate::numbers::number_all;
use crate::table::Table;
use crate::walk::walk_nodes;
use lk_ast::{List, NoMemory, Shared};
use lk_ir::{Conts, CpsProgram, Forms, Ir};
use std::alloc::Global;

/// The same table with continuations. One loop goes from the last node to the first, and the names that a node uses are handed on
/// to the node that it is a child of.
///
/// `NoMemory` also where all continuations together keep more than 2^22 names, since what they keep may grow with the square of the
/// text; and where a child, or the body of a lambda, doesn't stand behind its node, or two nodes have the same child, which isn't so
/// in the table of a program.
pub fn cps(alloc: Global, p: &Ir) -> Result<CpsProgram, NoMemory>
    ensures forms { IfOk result (λ c. c.forms ≡ p.now) }
    ensures named { IfOk result (λ c. AreNamed p.now c.conts) }
    ensures order { IfOk result (λ c. CountFrom 0 (all_orders c.conts)) }
    ensures types { IfOk result (λ c. AreTyped p.now c.conts) }
    ensures envs { IfOk result (λ c. AreEnvs p.now c.envs) }
{
    let mut table = Table::new(alloc, p.forms().get())?;
    let conts = conts_of(alloc, &mut table)?;
    let envs = envs_of(alloc, &table)?;
    with_conts(alloc, p.forms(), conts, envs)
}

/// The continuations of all nodes.
fn conts_of(alloc: Global, table: &mut Table) -> Result<List<Conts>, NoMemory>
    ensures table { table.new ≡ table.old }
    ensures conts { IfOk result (AreWhole table.old) }
{
    let backwards = walk_nodes(alloc, table)?;
    number_all(alloc, backwards)
}

/// The whole program.
fn with_conts(
    alloc: Global,
    forms: &Shared<Forms>,
    conts: List<Conts>,
    envs: List<List<u32>>,
) -> Result<CpsProgram, NoMemory>
    ensures { IfOk result (λ c. c ≡ record { forms = forms.now; conts = conts; envs = envs }) }
{
    Ok(CpsProgram {
        forms: forms.share()?,
        conts: Shared::new(alloc, conts)?,
        envs: Shared::new(alloc, envs)?,
    })
}
