//! Code, and look-ups in it.

ghost use Rattle.lk_code.specs.Sound.{AreSound};
ghost use Rattle.lk_code.specs.Tables.{frame_info, fun_info, program_in};
ghost use Rattle.std.specs.Option.{option_copied};
ghost use Rattle.std.specs.Prelude.{◌≡◌, [], None};

use crate::infos::{FrameInfo, FunInfo};
use crate::tables::{BlockCode, CodeTables, Contents, Origin};
use lk_ast::{List, Program, TableDef};
use std::alloc::Global;
use std::marker::Model;

/// Code whose tables are sound: no step on values that fit lacks a rule at a place where `runs_at` is true. Contracts see what it holds.
#[derive(Drop)]
pub struct Code {
    contents: Contents,
}

impl Model for Code {
    ghost use Rattle.lk_ast.specs.contracts.expression.Expr as e;
    ghost use Rattle.lk_ast.specs.contracts.signature.SigType as ty;
    ghost use Rattle.lk_code.specs.Sound.{AreSound};
    ghost use Rattle.lk_code.specs.declared.tables.Contents.{Contents as TheContents};
    ghost use Rattle.lk_sql.specs.contracts.tree.Out as column;
    ghost use Rattle.lk_sql.specs.contracts.tree.Scalar as scalar;
    ghost use Rattle.lk_sql.specs.contracts.tree.Select as select;
    ghost use Rattle.lk_types.specs.contracts.ground.Ground as g;
    ghost use Rattle.std.specs.Coded.{codes};

    ghost Value = { TheContents };

    ghost coded = { Prim.hlevel (codes, e.the_row.coded, ty.the_row.coded, g.the_row.coded, scalar.the_row.coded, column.the_row.coded, select.the_row.coded) };

    ghost view = { λ code. code.contents };

    ghost invariant = { λ code. AreSound code.contents.tables };
}

impl Code {
    /// Code of these tables, which runs nothing at the server and keeps no program.
    pub fn new(alloc: Global, tables: CodeTables) -> Code
        requires { AreSound tables }
        ensures { result ≡ record { tables = tables; blocks = []; defs = []; origin = None } }
    {
        Code {
            contents: Contents {
                tables,
                blocks: List::new(alloc),
                defs: List::new(alloc),
                origin: None,
            },
        }
    }

    /// The same code with what its labels run at the server, over these tables, and what it was made of.
    pub fn complete(
        self,
        blocks: List<Option<BlockCode>>,
        defs: List<TableDef>,
        origin: Option<Origin>,
    ) -> Code
        ensures { result ≡ record { tables = self.tables; blocks = blocks; defs = defs; origin = origin } }
    {
        let Code { contents } = self;
        let tables = contents.into_tables();
        Code {
            contents: Contents {
                tables,
                blocks,
                defs,
                origin,
            },
        }
    }

    /// The tables.
    pub fn tables(&self) -> &CodeTables
        ensures same { result.now ≡ self.now.tables }
        ensures sound { AreSound result.now }
    {
        &self.contents.tables
    }

    /// What each label runs at the server, by label.
    pub fn blocks(&self) -> &List<Option<BlockCode>>
        ensures { result.now ≡ self.now.blocks }
    {
        &self.contents.blocks
    }

    /// The tables of the program.
    pub fn defs(&self) -> &List<TableDef>
        ensures { result.now ≡ self.now.defs }
    {
        &self.contents.defs
    }

    /// What the code was made of, if it keeps that.
    pub fn origin(&self) -> &Option<Origin>
        ensures { result.now ≡ self.now.origin }
    {
        &self.contents.origin
    }
}

/// What has this label; none exactly where nothing has it.
pub fn fun_of(c: &Code, label: u32) -> Option<&FunInfo>
    ensures { option_copied result ≡ fun_info c.now.tables label }
{
    c.tables().funs.get(label as usize)
}

/// The frame with this number; none exactly where there is none.
pub fn frame_of(c: &Code, number: u32) -> Option<&FrameInfo>
    ensures { option_copied result ≡ frame_info c.now.tables number }
{
    c.tables().frames.get(number as usize)
}

/// The program that the code was made of; none exactly where it keeps none.
pub fn program_of(c: &Code) -> Option<&Program>
    ensures { option_copied result ≡ program_in c.now }
{
    match c.origin() {
        Some(origin) => Some(&origin.program),
        None => None,
    }
}
