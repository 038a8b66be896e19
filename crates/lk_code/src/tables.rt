//! What code is made of.

ghost use Rattle.std.specs.Prelude.{◌≡◌};

use crate::infos::{FrameInfo, FunInfo};
use lk_ast::{List, Program, Shared, TableDef, Value};
use lk_ir::{Conts, Forms};
use lk_sql::{Change, Sql};

/// A waiting frame: its number, and the values that it holds.
pub struct Frame {
    pub number: u32,
    pub env: List<Value>,
}

impl Drop for Frame {
    fn drop(self) {
        let Self { number: _, env: _ } = self;
    }
}

/// The position of a node, counted from 0, that a frame waits at. Behind the positions of a `for` comes its body.
#[derive(Clone, Copy, PartialEq, Eq)]
pub struct Home {
    pub node: u32,
    pub position: u32,
}

/// What reads or changes tables.
pub enum BlockCode {
    Select(Sql),
    Insert(TableDef),
    Update(TableDef, Change),
    Delete(TableDef, Change),
}

impl Drop for BlockCode {
    fn drop(self) {
        match self {
            Self::Select(_) => {}
            Self::Insert(_) => {}
            Self::Update(_, _) => {}
            Self::Delete(_, _) => {}
        }
    }
}

/// The program that code was made of.
#[derive(Drop)]
pub struct Origin {
    pub program: Program,
}

/// A table of nodes with its continuations, and what is told of labels and frames by their numbers. Frames have the numbers of labels
/// first, for their returns; the others have homes.
pub struct CodeTables {
    pub forms: Shared<Forms>,
    pub conts: Shared<List<Conts>>,
    pub funs: List<FunInfo>,
    pub frames: List<FrameInfo>,
    pub homes: List<Home>,
}

impl Drop for CodeTables {
    fn drop(self) {
        let Self {
            forms: _,
            conts: _,
            funs: _,
            frames: _,
            homes: _,
        } = self;
    }
}

/// What code holds: its tables, what each label runs at the server, the tables of the program, and what it was made of.
pub struct Contents {
    pub tables: CodeTables,
    pub blocks: List<Option<BlockCode>>,
    pub defs: List<TableDef>,
    pub origin: Option<Origin>,
}

impl Drop for Contents {
    fn drop(self) {
        let Self {
            tables: _,
            blocks: _,
            defs: _,
            origin: _,
        } = self;
    }
}

impl Contents {
    /// The tables alone.
    pub fn into_tables(self) -> CodeTables
        ensures { result ≡ self.tables }
    {
        let Self {
            tables,
            blocks: _,
            defs: _,
            origin: _,
        } = self;
        tables
    }
}
