//! The direct evaluation of a program over a store.

ghost use Rattle.std.specs.Prelude.{◌≡◌, ◌≢◌, ◌≤◌, [], false, length, IfErr, IfOk, IfSome};
ghost use Rattle.lk_ast.specs.Functions.{main_of as main_in};
ghost use Rattle.lk_evaluation.specs.Laws.{HasBegun};
ghost use Rattle.lk_evaluation.specs.Source.{session};
ghost use Rattle.lk_outside.specs.Causes.{Rose};
ghost use Rattle.lk_outside.specs.declared.fault.OutFault.TheVariants.{Failed};
ghost use Rattle.lk_sem.specs.Machine.{outcome};
ghost use Rattle.lk_sem.specs.SourceRuns.{HasBegunSession, HasFirstHistory, HasSomeHistory, IsPlainRun, IsRun, IsRunBy, commits_after};
ghost use Rattle.lk_sem.specs.Standing.{Ends, IsSound};
ghost use Rattle.lk_sem.specs.declared.run.SourceEnd.TheVariants.{StoreFault};
ghost use Rattle.lk_sound.specs.Histories.{AreFit, HasAnswer, HasHistory, KeepsOthers};
ghost use Rattle.lk_sound.specs.Instances.{IsShaped};
ghost use Rattle.lk_sound.specs.Law.{AreBoundAndApart};
ghost use Rattle.lk_sound.specs.Tables.{AreTables};
ghost use Rattle.lk_types.specs.Each.{Each};

use crate::catalog::Catalog;
use crate::machine::{Machine, Next};
use crate::reads::read_at;
use crate::run::{SourceEnd, SourceRun};
use crate::writes::{Written, write_at};
use lk_ast::{Base, FunDef, List, Loc, NoMemory, Program, Text, Value, main_of};
use lk_locals::Locals;
use lk_outside::{OutFault, Store};
use lk_sound::soundness_laws;
use std::alloc::Global;

/// Evaluates the `main` of a program with this argument and at most this fuel, over a store where no transaction is under way and,
/// where its tables are told, their rows fit the program's. Each reading and each writing is a transaction of its own, which ends
/// with a commit and is in the log then, as the store's count of commits tells. So where memory runs out the tables are those after
/// the last transaction that was committed: first events of the session lead to them, and no others were committed. The program's
/// names are bound, what is found by its place stands at a place of its own, and its sessions use a closed set of instances. So no
/// expression lacks a rule for what it meets, and no function is shown.
pub fn source_run(
    alloc: Global,
    program: &Program,
    arg: &Text,
    store: &mut dyn Store,
    fuel: u64,
) -> Result<SourceRun, NoMemory>
    requires apart { AreBoundAndApart program.now }
    requires shaped { IsShaped program.now }
    requires idle { is_open store.old ≡ false }
    requires fit { IfSome (tables store.old) (AreTables program.now) }
    ensures run { IfOk result (λ run. IsRun program.now arg.now fuel (tables store.new) run) }
    ensures history { IfOk result (λ run. HasHistory program.now (tables store.old) (tables store.new) run.log) }
    ensures begun { IfOk result (λ run. HasBegunSession program.now arg.now fuel run.log) }
    ensures answered { IfOk result (λ run. Each (HasAnswer program.now) run.log) }
    ensures committed { IfOk result (λ run. commits store.new ≡ commits_after run.log (commits store.old)) }
    ensures refused { IfErr result (λ error. HasSomeHistory program.now arg.now fuel (tables store.old) (tables store.new) (commits store.old) (commits store.new)) }
    ensures fit { IfSome (tables store.new) (AreTables program.now) }
    ensures others { KeepsOthers program.now (tables store.old) (tables store.new) }
    ensures plain { IfOk result IsPlainRun }
    ensures name { name store.new ≡ name store.old }
    ensures idle { is_open store.new ≡ false }
    ensures later { faults store.old ≤ faults store.new }
    ensures fault { IfOk result (λ run. run.end ≡ StoreFault → Rose (faults store.old) (faults store.new)) }
    ensures passed { IfOk result (λ run. run.end ≢ StoreFault → faults store.new ≡ faults store.old) }
{
    soundness_laws();
    let catalog = Catalog::new(alloc, program)?;
    match main_of(program) {
        Some(main) => run_main(alloc, &catalog, main, arg, store, fuel),
        None => unreachable!(),
    }
}

/// Evaluates the body of a function of one parameter at the client.
fn run_main<'p>(
    alloc: Global,
    catalog: &Catalog<'p>,
    main: &'p FunDef,
    arg: &Text,
    store: &mut dyn Store,
    fuel: u64,
) -> Result<SourceRun, NoMemory>
    requires apart { AreBoundAndApart catalog.now }
    requires one { length main.now.params ≡ 1 }
    requires sound { IsSound catalog.now (session catalog.now main.now arg.now) fuel }
    requires idle { is_open store.old ≡ false }
    requires fit { AreFit catalog.now (tables store.old) }
    ensures run { IfOk result (λ run. IsRunBy catalog.now (session catalog.now main.now arg.now) fuel (tables store.new) run run.end) }
    ensures history { IfOk result (λ run. HasHistory catalog.now (tables store.old) (tables store.new) run.log) }
    ensures begun { IfOk result (λ run. HasBegun (session catalog.now main.now arg.now) fuel run.log) }
    ensures answered { IfOk result (λ run. Each (HasAnswer catalog.now) run.log) }
    ensures committed { IfOk result (λ run. commits store.new ≡ commits_after run.log (commits store.old)) }
    ensures refused { IfErr result (λ error. HasFirstHistory catalog.now (session catalog.now main.now arg.now) fuel (tables store.old) (tables store.new) (commits store.old) (commits store.new)) }
    ensures fit { AreFit catalog.now (tables store.new) }
    ensures others { KeepsOthers catalog.now (tables store.old) (tables store.new) }
    ensures plain { IfOk result IsPlainRun }
    ensures name { name store.new ≡ name store.old }
    ensures idle { is_open store.new ≡ false }
    ensures later { faults store.old ≤ faults store.new }
    ensures fault { IfOk result (λ run. run.end ≡ StoreFault → Rose (faults store.old) (faults store.new)) }
    ensures passed { IfOk result (λ run. run.end ≢ StoreFault → faults store.new ≡ faults store.old) }
{
    let mut args = List::new(alloc);
    args.push(Value::Base(Base::Text(arg.copy(alloc)?)))?;
    let none = Locals::new(alloc)?;
    let scope = match none.bind_all(alloc, main.params.as_slice(), args)? {
        Some(scope) => scope,
        None => unreachable!(),
    };
    let mut machine = Machine {
        stack: List::new(alloc),
        log: List::new(alloc),
        fuel,
    };
    let first = Next::Enter(&main.body, scope, Loc::Client);
    let end = run(alloc, catalog, &mut machine, store, first)?;
    Ok(SourceRun {
        end,
        used: fuel - machine.fuel,
        log: machine.log,
    })
}

/// Goes on to the end.
fn run<'p>(
    alloc: Global,
    catalog: &Catalog<'p>,
    machine: &mut Machine<'p>,
    store: &mut dyn Store,
    first: Next<'p>,
) -> Result<SourceEnd, NoMemory>
    requires apart { AreBoundAndApart catalog.now }
    requires stack { machine.old.stack ≡ [] }
    requires log { machine.old.log ≡ [] }
    requires sound { IsSound catalog.now (outcome catalog.now first) machine.old.fuel }
    requires idle { is_open store.old ≡ false }
    requires fit { AreFit catalog.now (tables store.old) }
    ensures ends { IfOk result (Ends catalog.now (outcome catalog.now first.entry) machine.old.fuel (tables store.old) (tables store.new) machine.new) }
    ensures committed { IfOk result (λ end. commits store.new ≡ commits_after machine.new.log (commits store.old)) }
    ensures refused { IfErr result (λ error. HasFirstHistory catalog.now (outcome catalog.now first.entry) machine.old.fuel (tables store.old) (tables store.new) (commits store.old) (commits store.new)) }
    ensures fit { AreFit catalog.now (tables store.new) }
    ensures others { KeepsOthers catalog.now (tables store.old) (tables store.new) }
    ensures name { name store.new ≡ name store.old }
    ensures idle { is_open store.new ≡ false }
    ensures later { faults store.old ≤ faults store.new }
    ensures fault { IfOk result (λ end. end ≡ StoreFault → Rose (faults store.old) (faults store.new)) }
    ensures passed { IfOk result (λ end. end ≢ StoreFault → faults store.new ≡ faults store.old) }
{
    let mut next = first;
    loop {
        next = match next {
            Next::Enter(e, scope, place) => {
                machine.enter(alloc, catalog.index(), e, scope, place)?
            }
            Next::Give(value) => match machine.stack.pop() {
                Some(frame) => machine.give(alloc, catalog.index(), frame, value)?,
                None => return Ok(SourceEnd::Value(value)),
            },
            Next::Read(back, site, args) => {
                match read_at(alloc, catalog, store, site, args.as_slice()) {
                    Ok(rows) => machine.answered(alloc, catalog.index(), back, site, args, rows)?,
                    Err(fault) => return refused(fault),
                }
            }
            Next::Write(back, site, args) => {
                match write_at(alloc, catalog, store, site, args.as_slice()) {
                    Ok(Written::Done) => machine.written(alloc, catalog.index(), back, site, args)?,
                    Ok(Written::Full(size)) => return Ok(SourceEnd::TableFull(size)),
                    Err(fault) => return refused(fault),
                }
            }
            Next::Stop(halt) => match halt.end() {
                Some(end) => return Ok(end),
                None => unreachable!(),
            },
        };
    }
}

/// The end at a store that refuses.
fn refused(fault: OutFault) -> Result<SourceEnd, NoMemory>
    ensures { IfOk result (λ end. (end ≡ StoreFault) × (fault ≡ Failed)) }
{
    match fault {
        OutFault::Failed => Ok(SourceEnd::StoreFault),
        OutFault::NoMemory => Err(NoMemory),
    }
}
