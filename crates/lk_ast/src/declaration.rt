ghost use Rattle.std.specs.Prelude.{◌≡◌};

use crate::expression::Expr;
use crate::list::List;
use crate::place::{Loc, Word};
use crate::signature::Sig;
use crate::table::BaseKind;

/// `l : Int` in the declaration of a table.
#[derive(Drop)]
pub struct ColumnDecl {
    pub label: Word,
    pub kind: BaseKind,
}

/// `table t with (l : Int, m : String);`, its columns in text order.
pub struct TableDecl {
    pub name: Word,
    pub columns: List<ColumnDecl>,
}

impl Drop for TableDecl {
    fn drop(self) {
        let Self {
            name: _,
            columns: _,
        } = self;
    }
}

/// `sig f : T; fun f(x, y) server { body }`, where the signature and the mark may be left out.
pub struct FunDef {
    pub name: Word,
    pub sig: Option<Sig>,
    pub params: List<Word>,
    pub place: Loc,
    pub body: Expr,
}

impl Drop for FunDef {
    fn drop(self) {
        let Self {
            name: _,
            sig: _,
            params: _,
            place: _,
            body: _,
        } = self;
    }
}

impl FunDef {
    /// The same function with this body.
    pub fn with_body(self, body: Expr) -> FunDef
        ensures { result ≡ record { name = self.name; sig = self.sig; params = self.params; place = self.place; body = body } }
    {
        let Self {
            name,
            sig,
            params,
            place,
            body: _,
        } = self;
        FunDef {
            name,
            sig,
            params,
            place,
            body,
        }
    }
}

/// A declaration: a table, a function, or functions that may call one another.
#[derive(Drop)]
pub enum Decl {
    Table(TableDecl),
    Fun(FunDef),
    Mutual(List<FunDef>),
}

/// A program: its declarations in text order.
#[derive(Drop)]
pub struct Program {
    pub decls: List<Decl>,
}
