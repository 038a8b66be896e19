//! Selects and what stands in them.

use lk_ast::{Base, Boxed, List, Text};

/// An operation on base values. `Neg` and `Not` take one operand, each other one takes two.
#[derive(Clone, Copy, PartialEq, Eq)]
pub enum SqlOp {
    Add,
    Sub,
    Mul,
    Neg,
    /// Two texts put together.
    Concat,
    Eq,
    Ne,
    Lt,
    Le,
    Gt,
    Ge,
    And,
    Or,
    Not,
}

/// What gives a base value for each choice of rows.
#[cycle(scalar)]
pub enum Scalar {
    Lit(Base),
    /// A parameter by its number, counted from 1.
    Param(u32),
    /// A column of the row of the generator with this number.
    Column(u32, Text),
    Op(SqlOp, List<Scalar>),
    /// The second where the first is true, else the third.
    Case(Boxed<Scalar>, Boxed<Scalar>, Boxed<Scalar>),
    /// Whether one of the selects gives a row.
    Exists(List<Select>),
}

impl Drop for Scalar {
    #[cycle(scalar)]
    fn drop(self) {
        match self {
            Self::Lit(_) => {}
            Self::Param(_) => {}
            Self::Column(_, _) => {}
            Self::Op(_, _) => {}
            Self::Case(_, _, _) => {}
            Self::Exists(_) => {}
        }
    }
}

/// A generator: its number, and the table whose rows it runs over.
pub struct FromItem {
    pub var: u32,
    pub table: Text,
}

impl Drop for FromItem {
    fn drop(self) {
        let Self { var: _, table: _ } = self;
    }
}

/// A column of what a select gives.
#[cycle(scalar)]
pub struct Out {
    pub label: Text,
    pub scalar: Scalar,
}

impl Drop for Out {
    #[cycle(scalar)]
    fn drop(self) {
        let Self {
            label: _,
            scalar: _,
        } = self;
    }
}

/// A row for each choice of rows of the generators for which the condition holds. The outputs stand in byte order of their
/// labels.
#[cycle(scalar)]
pub struct Select {
    pub froms: List<FromItem>,
    pub cond: Scalar,
    pub outs: List<Out>,
}

impl Drop for Select {
    #[cycle(scalar)]
    fn drop(self) {
        let Self {
            froms: _,
            cond: _,
            outs: _,
        } = self;
    }
}

/// A column by which rows are sorted, in falling order where `desc` says so.
pub struct Key {
    pub label: Text,
    pub desc: bool,
}

impl Drop for Key {
    fn drop(self) {
        let Self { label: _, desc: _ } = self;
    }
}

/// A query: the rows of its selects, one behind the other, sorted by the keys if there are any.
#[derive(Drop)]
pub struct Sql {
    pub selects: List<Select>,
    pub keys: List<Key>,
}

/// An update or, where it sets no column, a deletion: which rows of its table it is about, and what the columns become. The
/// row is that of generator 1.
#[derive(Drop)]
pub struct Change {
    pub cond: Scalar,
    pub sets: List<Out>,
}
