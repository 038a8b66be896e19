//! The types of what lambdas capture.

ghost use Rattle.lk_cps.specs.Conts.{AreEnvs, IsEnv, IsEnvOf, IsTypeOf};
ghost use Rattle.lk_evaluation.specs.Laws.{Both};
ghost use Rattle.std.specs.Prelude.{IfOk};

use crate::table::Table;
use lk_ast::{List, NoMemory};
use lk_ir::{Body, LabelForm};
use std::alloc::Global;

/// The numbers of the types of names that a node uses.
fn types_of(alloc: Global, table: &Table, node: u32, names: &[u32]) -> Result<List<u32>, NoMemory>
    ensures { IfOk result (Both (IsTypeOf table.now node) names.now) }
{
    let mut types = List::new(alloc);
    for name in names {
        let ty = table.type_of(node, *name)?;
        types.push(ty)?;
    }
    Ok(types)
}

/// The numbers of the types of what a body captures, if there is one.
fn env_of(alloc: Global, table: &Table, body: &Option<Body>) -> Result<List<u32>, NoMemory>
    ensures { IfOk result (IsEnv table.now body.now) }
{
    match body {
        Some(body) => types_of(alloc, table, body.root, body.names.as_slice()),
        None => Ok(List::new(alloc)),
    }
}

/// The numbers of the types of what the bodies with these labels capture.
fn envs_at(alloc: Global, table: &Table, labels: &[LabelForm]) -> Result<List<List<u32>>, NoMemory>
    ensures { IfOk result (Both (IsEnvOf table.now) labels.now) }
{
    let mut envs = List::new(alloc);
    for label in labels {
        let env = env_of(alloc, table, &label.body)?;
        envs.push(env)?;
    }
    Ok(envs)
}

/// The numbers of the types of what lambdas capture, by label.
pub fn envs_of(alloc: Global, table: &Table) -> Result<List<List<u32>>, NoMemory>
    ensures { IfOk result (AreEnvs table.now) }
{
    envs_at(alloc, table, table.forms().labels.as_slice())
}
