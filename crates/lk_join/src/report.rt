//! What a run reports.

use lk_ast::{Bytes, Event, List, TableRows, Trap, Value};

/// How a session ended, or that it didn't.
pub enum End {
    /// With this value.
    Done(Value),
    /// In a trap.
    Trap(Trap),
    /// It didn't.
    Running,
    /// It was dropped.
    Dropped,
    /// A call of the store was refused.
    StoreFault,
    /// An insertion would have left a table with that many rows.
    TableFull(u64),
    /// A visit would have taken more steps than this.
    VisitBudget(u64),
    /// A request or reply had that many bytes.
    TooBig(u64),
    /// A request or reply nested that deep.
    TooDeep(u64),
}

impl Drop for End {
    fn drop(self) {
        match self {
            Self::Done(_) => {}
            Self::Trap(_) => {}
            Self::Running => {}
            Self::Dropped => {}
            Self::StoreFault => {}
            Self::TableFull(_) => {}
            Self::VisitBudget(_) => {}
            Self::TooBig(_) => {}
            Self::TooDeep(_) => {}
        }
    }
}

/// A session at the end of a run, with the steps that it took.
#[derive(Drop)]
pub struct SessionReport {
    pub end: End,
    pub steps: u64,
}

/// What happened in a run, with the number of the session that it belongs to, from 1 on, or 0 for a stranger.
pub enum Entry {
    /// An event.
    Happened(u32, Event),
    /// The bytes of a request.
    Request(u32, Bytes),
    /// The bytes of a reply.
    Reply(u32, Bytes),
    /// Bytes that ended too early.
    Cut(u32),
}

impl Drop for Entry {
    fn drop(self) {
        match self {
            Self::Happened(_, _) => {}
            Self::Request(_, _) => {}
            Self::Reply(_, _) => {}
            Self::Cut(_) => {}
        }
    }
}

/// The sessions of a run in the order of their numbers, what happened in it in order, and the declared tables at its end.
pub struct Report {
    pub sessions: List<SessionReport>,
    pub entries: List<Entry>,
    pub tables: List<TableRows>,
}

impl Drop for Report {
    fn drop(self) {
        let Self {
            sessions: _,
            entries: _,
            tables: _,
        } = self;
    }
}
