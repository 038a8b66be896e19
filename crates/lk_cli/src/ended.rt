//! Evaluations that came to an end of their own.

ghost use Rattle.std.specs.Prelude.{◌≡◌, ◌≢◌, IfSome, None};
ghost use Rattle.lk_cli.specs.Ended.{run_of, source_end};
ghost use Rattle.lk_sem.specs.declared.run.SourceEnd.TheVariants.{StoreFault};

use lk_ast::{Event, List, Trap, Value};
use lk_sem::{SourceEnd, SourceRun};

/// How an evaluation ends, but for the end where the store failed.
#[derive(Drop)]
pub enum End {
    Value(Value),
    Trap(Trap),
    Spent,
    TableFull(u64),
}

/// An evaluation that didn't end where the store failed.
#[derive(Drop)]
pub struct Ended {
    pub end: End,
    pub log: List<Event>,
    pub used: u64,
}

/// The same run, or `None` where it ended at a fault of the store.
pub fn ended_run(run: SourceRun) -> Option<Ended>
    ensures ended { IfSome result (λ ended. run_of ended ≡ run) }
    ensures fault { result ≡ None → run.end ≡ StoreFault }
    ensures other { IfSome result (λ _. run.end ≢ StoreFault) }
{
    let SourceRun { end, log, used } = run;
    match own_end(end) {
        Some(end) => Some(Ended { end, log, used }),
        None => None,
    }
}

/// The same end, or `None` where it is a fault of the store.
fn own_end(end: SourceEnd) -> Option<End>
    ensures ended { IfSome result (λ own. source_end own ≡ end) }
    ensures fault { result ≡ None → end ≡ StoreFault }
    ensures other { IfSome result (λ _. end ≢ StoreFault) }
{
    match end {
        SourceEnd::Value(value) => Some(End::Value(value)),
        SourceEnd::Trap(trap) => Some(End::Trap(trap)),
        SourceEnd::Spent => Some(End::Spent),
        SourceEnd::TableFull(size) => Some(End::TableFull(size)),
        SourceEnd::StoreFault => None,
    }
}
