//! What the evaluation of a program comes to.

use lk_ast::{Event, List, Span, Trap, Value};

/// How the evaluation of an accepted program ends: with a value or a trap, without fuel, where the store refused a reading
/// or writing, or at an insertion that would have left that many rows in its table, too many.
#[derive(Drop)]
pub enum SourceEnd {
    Value(Value),
    Trap(Trap),
    Spent,
    /// The store refused a reading or writing, which isn't in the log.
    StoreFault,
    /// An insertion would have left so many rows in its table, over 65,536, and nothing was changed.
    TableFull(u64),
}

/// An evaluation: its end, its events in order, and the fuel that it used, one unit for each node entered.
#[derive(Drop)]
pub struct SourceRun {
    pub end: SourceEnd,
    pub log: List<Event>,
    pub used: u64,
}

/// An end without a value, at a trap, without fuel or for want of a rule.
#[derive(Clone, Copy)]
pub enum Halt {
    Trap(Trap),
    Spent,
    Stuck(Span),
}

impl Halt {
    ghost use Rattle.lk_sem.specs.Ends.{end_of};
    ghost use Rattle.std.specs.Prelude.{◌≡◌};

    /// That end, if an accepted program may come to it.
    pub fn end(self) -> Option<SourceEnd>
        ensures { result ≡ end_of self }
    {
        match self {
            Halt::Trap(trap) => Some(SourceEnd::Trap(trap)),
            Halt::Spent => Some(SourceEnd::Spent),
            Halt::Stuck(_) => None,
        }
    }
}
