//! Tables of nodes.

use lk_ast::{List, Loc, Span, Text};
use lk_types::Ground;

/// An operation: what it comes to depends on the values of its operands alone. Those of records name the labels of their parts.
pub enum Op {
    Int(i64),
    Text(Text),
    Bool(bool),
    List,
    Concat,
    Append,
    Cons,
    Add,
    Sub,
    Mul,
    Div,
    Mod,
    Eq,
    Ne,
    Lt,
    Le,
    Gt,
    Ge,
    Neg,
    Not,
    Hd,
    Tl,
    Empty,
    IntToString,
    Record(List<Text>),
    Extend(List<Text>),
    Project(Text),
    Tag(Text),
}

impl Drop for Op {
    fn drop(self) {
        match self {
            Self::Int(_) => {}
            Self::Text(_) => {}
            Self::Bool(_) => {}
            Self::List => {}
            Self::Concat => {}
            Self::Append => {}
            Self::Cons => {}
            Self::Add => {}
            Self::Sub => {}
            Self::Mul => {}
            Self::Div => {}
            Self::Mod => {}
            Self::Eq => {}
            Self::Ne => {}
            Self::Lt => {}
            Self::Le => {}
            Self::Gt => {}
            Self::Ge => {}
            Self::Neg => {}
            Self::Not => {}
            Self::Hd => {}
            Self::Tl => {}
            Self::Empty => {}
            Self::IntToString => {}
            Self::Record(_) => {}
            Self::Extend(_) => {}
            Self::Project(_) => {}
            Self::Tag(_) => {}
        }
    }
}

/// What decides by a truth value which of its tails comes next, if one does.
#[derive(Clone, Copy, PartialEq, Eq)]
pub enum Choice {
    If,
    And,
    Or,
    Where,
}

/// What reads or changes tables.
#[derive(Clone, Copy, PartialEq, Eq)]
pub enum Block {
    Query,
    TableRead,
    Insert,
    Update,
    Delete,
}

/// A case: its tag, and the local name that it binds.
pub struct CaseForm {
    pub tag: Text,
    pub name: Option<u32>,
}

impl Drop for CaseForm {
    fn drop(self) {
        let Self { tag: _, name: _ } = self;
    }
}

/// A captured local name, and the number of its type.
#[derive(Clone, Copy, PartialEq, Eq)]
pub struct Kept {
    pub name: u32,
    pub ty: u32,
}

/// What a node is without its children. Local names are meant by their places in the table's list of them.
pub enum Kind {
    Op(Op),
    Name(u32),
    /// The value of an instance, by its number.
    Function(u32),
    /// A lambda's label, and the names that it captures.
    Lambda(u32, List<u32>),
    /// A call of an instance, by its number.
    Call(u32),
    /// A call of the first value with the others.
    Apply,
    Bind(u32),
    Then,
    Choose(Choice),
    Print,
    /// The cases, and the name that the last one binds, which is for all other tags.
    Switch(List<CaseForm>, Option<u32>),
    For(u32),
    /// What reads or changes tables: its label, and the names that it captures.
    Reach(Block, u32, List<Kept>),
}

impl Drop for Kind {
    fn drop(self) {
        match self {
            Self::Op(_) => {}
            Self::Name(_) => {}
            Self::Function(_) => {}
            Self::Lambda(_, _) => {}
            Self::Call(_) => {}
            Self::Apply => {}
            Self::Bind(_) => {}
            Self::Then => {}
            Self::Choose(_) => {}
            Self::Print => {}
            Self::Switch(_, _) => {}
            Self::For(_) => {}
            Self::Reach(_, _, _) => {}
        }
    }
}

/// A node: where it stands in the text, the label of the innermost function around it, what it is, the numbers of its positions, which
/// are evaluated first, and of its tails, which come in its stead or not at all, and the number of its type.
pub struct Form {
    pub at: Span,
    pub within: u32,
    pub kind: Kind,
    pub parts: List<u32>,
    pub tails: List<u32>,
    pub ty: u32,
}

impl Drop for Form {
    fn drop(self) {
        let Self {
            at: _,
            within: _,
            kind: _,
            parts: _,
            tails: _,
            ty: _,
        } = self;
    }
}

/// The body of an instance or of a lambda: its mark, the names that it has captured, its parameters, and the number of its first
/// node.
pub struct Body {
    pub place: Loc,
    pub names: List<u32>,
    pub params: List<u32>,
    pub root: u32,
}

impl Drop for Body {
    fn drop(self) {
        let Self {
            place: _,
            names: _,
            params: _,
            root: _,
        } = self;
    }
}

/// What has a label: the instance that it stands in, the number of its type, its node, and its body. Instances and `print` have no
/// node; `print` and what reads or changes tables have no body.
pub struct LabelForm {
    pub owner: u32,
    pub ty: u32,
    pub node: Option<u32>,
    pub body: Option<Body>,
}

impl Drop for LabelForm {
    fn drop(self) {
        let Self {
            owner: _,
            ty: _,
            node: _,
            body: _,
        } = self;
    }
}

/// The table that the insertion, update or deletion with this label changes.
pub struct Touched {
    pub label: u32,
    pub table: Text,
}

impl Drop for Touched {
    fn drop(self) {
        let Self { label: _, table: _ } = self;
    }
}

/// A table of nodes.
pub struct Forms {
    /// In the order of the text, each before its children.
    pub nodes: List<Form>,
    pub labels: List<LabelForm>,
    /// The label of each instance.
    pub wholes: List<u32>,
    /// The name of each instance.
    pub titles: List<Text>,
    /// The local names, each once and in byte order. Everything else names them by their places here.
    pub locals: List<Text>,
    /// The types, each once.
    pub types: List<Ground>,
    pub tables: List<Touched>,
}

impl Drop for Forms {
    fn drop(self) {
        let Self {
            nodes: _,
            labels: _,
            wholes: _,
            titles: _,
            locals: _,
            types: _,
            tables: _,
        } = self;
    }
}

/// A continuation: its place in the order of all, and the names that it keeps.
pub struct Cont {
    pub order: u32,
    pub keeps: List<Kept>,
}

impl Drop for Cont {
    fn drop(self) {
        let Self { order: _, keeps: _ } = self;
    }
}

/// The continuations of a node's positions; of a `for` one more, for its body.
pub struct Conts {
    pub of: List<Option<Cont>>,
}

impl Drop for Conts {
    fn drop(self) {
        let Self { of: _ } = self;
    }
}
