//! The session of a program over a store.

ghost use Rattle.std.specs.List.{AllZip};
ghost use Rattle.std.specs.Prelude.{◌≡◌, false, IfErr, IfOk, IfSome};
ghost use Rattle.lk_ast.specs.Tables.{table_defs as declared_tables};
ghost use Rattle.lk_cli.specs.Answers.{IsSessionOver};
ghost use Rattle.lk_cli.specs.Ended.{run_of};
ghost use Rattle.lk_cli.specs.Loading.{AreLeft, BreaksOff, IsOfTable};
ghost use Rattle.lk_outside.specs.Causes.{HasCause};
ghost use Rattle.lk_outside.specs.Scans.{IsScanned};
ghost use Rattle.lk_sem.specs.SourceRuns.{HasBegunSession, IsPlainRun, IsRun, commits_after};
ghost use Rattle.lk_sound.specs.Histories.{HasAnswer, HasHistory, KeepsOthers};
ghost use Rattle.lk_sound.specs.Instances.{IsShaped};
ghost use Rattle.lk_sound.specs.Law.{AreBoundAndApart};
ghost use Rattle.lk_sound.specs.Tables.{AreTables};
ghost use Rattle.lk_types.specs.Each.{Each};

use crate::answer::Done;
use crate::ended::{Ended, ended_run};
use crate::load::{last_scan, load};
use lk_ast::{List, Program, TableDef, TableRows};
use lk_outside::{OutFault, Store};
use lk_sem::source_run;
use lk_words::SourceCommand;
use std::alloc::Global;

/// What became of a session, and the store that it ran over.
#[derive(Drop)]
pub struct Tried {
    pub outcome: Result<Done, OutFault>,
    pub store: Box<dyn Store + Drop>,
}

/// The declared tables of a program, and the rows that a session begins with.
#[derive(Drop)]
pub struct Rows {
    pub defs: List<TableDef>,
    pub loaded: List<TableRows>,
}

/// Runs a session over a store in a box, and hands it back.
pub fn run_in_box(
    alloc: Global,
    program: &Program,
    command: &SourceCommand,
    rows: Rows,
    store: Box<dyn Store + Drop>,
) -> Tried
    requires apart { AreBoundAndApart program.now }
    requires shaped { IsShaped program.now }
    requires declared { rows.defs ≡ declared_tables program.now }
    requires fit { AllZip IsOfTable rows.defs rows.loaded }
    requires idle { is_open store ≡ false }
    ensures name { name result.store ≡ name store }
    ensures kind { result.store.vtable ≡ store.vtable }
    ensures idle { is_open result.store ≡ false }
    ensures session { IfOk result.outcome (λ done. IsSessionOver program.now command.now rows.loaded done (tables store) (tables result.store) (commits store) (commits result.store)) }
    ensures plain { IfOk result.outcome (λ done. IsPlainRun (run_of done.run)) }
    ensures refused { IfErr result.outcome (λ fault. AreLeft program.now command.now rows.loaded fault (tables store) (tables result.store) (commits store) (commits result.store)) }
    ensures cause { HasCause (faults store) (faults result.store) result.outcome }
{
    let mut store = store;
    let outcome = run_over(alloc, program, command, rows, &mut *store);
    Tried { outcome, store }
}

/// Runs a session over a store: gives it the rows to begin with, evaluates the program, and reads the declared tables.
fn run_over(
    alloc: Global,
    program: &Program,
    command: &SourceCommand,
    rows: Rows,
    store: &mut dyn Store,
) -> Result<Done, OutFault>
    requires apart { AreBoundAndApart program.now }
    requires shaped { IsShaped program.now }
    requires declared { rows.defs ≡ declared_tables program.now }
    requires fit { AllZip IsOfTable rows.defs rows.loaded }
    requires idle { is_open store.old ≡ false }
    ensures name { name store.new ≡ name store.old }
    ensures idle { is_open store.new ≡ false }
    ensures session { IfOk result (λ done. IsSessionOver program.now command.now rows.loaded done (tables store.old) (tables store.new) (commits store.old) (commits store.new)) }
    ensures plain { IfOk result (λ done. IsPlainRun (run_of done.run)) }
    ensures refused { IfErr result (λ fault. AreLeft program.now command.now rows.loaded fault (tables store.old) (tables store.new) (commits store.old) (commits store.new)) }
    ensures cause { HasCause (faults store.old) (faults store.new) result }
{
    let Rows { defs, loaded } = rows;
    load(alloc, defs.as_slice(), loaded, store)?;
    run_loaded(alloc, program, command, defs.as_slice(), store)
}

/// Runs a session over a store that has the rows to begin with.
fn run_loaded(
    alloc: Global,
    program: &Program,
    command: &SourceCommand,
    defs: &[TableDef],
    store: &mut dyn Store,
) -> Result<Done, OutFault>
    requires apart { AreBoundAndApart program.now }
    requires shaped { IsShaped program.now }
    requires declared { defs.now ≡ declared_tables program.now }
    requires fit { IfSome (tables store.old) (AreTables program.now) }
    requires idle { is_open store.old ≡ false }
    ensures name { name store.new ≡ name store.old }
    ensures idle { is_open store.new ≡ false }
    ensures run { IfOk result (λ done. IsRun program.now command.now.arg command.now.fuel (tables store.new) (run_of done.run)) }
    ensures history { IfOk result (λ done. HasHistory program.now (tables store.old) (tables store.new) done.run.log) }
    ensures answered { IfOk result (λ done. Each (HasAnswer program.now) done.run.log) }
    ensures committed { IfOk result (λ done. commits store.new ≡ commits_after done.run.log (commits store.old)) }
    ensures others { KeepsOthers program.now (tables store.old) (tables store.new) }
    ensures scanned { IfOk result (λ done. AllZip (IsScanned (tables store.new)) defs.now done.tables) }
    ensures plain { IfOk result (λ done. IsPlainRun (run_of done.run)) }
    ensures refused { IfErr result (λ fault. BreaksOff program.now command.now fault (tables store.old) (tables store.new) (commits store.old) (commits store.new)) }
    ensures cause { HasCause (faults store.old) (faults store.new) result }
{
    let run = evaluate(alloc, program, command, store)?;
    let tables = last_scan(alloc, defs, store)?;
    Ok(Done { run, tables })
}

/// Evaluates the session of a program. It is refused where the store failed.
fn evaluate(
    alloc: Global,
    program: &Program,
    command: &SourceCommand,
    store: &mut dyn Store,
) -> Result<Ended, OutFault>
    requires apart { AreBoundAndApart program.now }
    requires shaped { IsShaped program.now }
    requires fit { IfSome (tables store.old) (AreTables program.now) }
    requires idle { is_open store.old ≡ false }
    ensures name { name store.new ≡ name store.old }
    ensures idle { is_open store.new ≡ false }
    ensures run { IfOk result (λ run. IsRun program.now command.now.arg command.now.fuel (tables store.new) (run_of run)) }
    ensures history { IfOk result (λ run. HasHistory program.now (tables store.old) (tables store.new) run.log) }
    ensures begun { IfOk result (λ run. HasBegunSession program.now command.now.arg command.now.fuel run.log) }
    ensures answered { IfOk result (λ run. Each (HasAnswer program.now) run.log) }
    ensures committed { IfOk result (λ run. commits store.new ≡ commits_after run.log (commits store.old)) }
    ensures others { KeepsOthers program.now (tables store.old) (tables store.new) }
    ensures plain { IfOk result (λ run. IsPlainRun (run_of run)) }
    ensures fit { IfSome (tables store.new) (AreTables program.now) }
    ensures refused { IfErr result (λ fault. BreaksOff program.now command.now fault (tables store.old) (tables store.new) (commits store.old) (commits store.new)) }
    ensures cause { HasCause (faults store.old) (faults store.new) result }
{
    let run = source_run(alloc, program, &command.arg, store, command.fuel)?;
    match ended_run(run) {
        Some(run) => Ok(run),
        None => Err(OutFault::Failed),
    }
}
