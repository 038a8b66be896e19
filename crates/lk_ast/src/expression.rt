ghost use Rattle.lk_ast.specs.declared.expression.Expr.{size-Expr};
ghost use Rattle.lk_ast.specs.declared.expression.Node.{size-Node};
ghost use Rattle.std.specs.Prelude.{◌<◌, IfSome};

use crate::boxed::Boxed;
use crate::list::List;
use crate::place::{Loc, Span, Word};
use crate::text::Text;

/// A key of `orderby`.
#[derive(Drop)]
pub struct SortKey {
    pub label: Word,
    pub desc: bool,
}

/// An expression: its first to its last token, without parentheses or braces round it, and what it is.
#[cycle(tree)]
pub struct Expr {
    pub span: Span,
    pub node: Boxed<Node>,
}

impl Drop for Expr {
    /// A text of a mebibyte may chain half a million statements. The loop goes down the rests of a block: a call for
    /// each would take more stack than there is.
    #[cycle(tree)]
    fn drop(mut self) {
        loop {
            let Expr { span: _, node } = self;
            match node.into_inner().into_rest() {
                Some(rest) => self = rest,
                None => return,
            }
        }
    }
}

/// `l = e` in a record or in the `set` of an update.
#[cycle(tree)]
pub struct PartExpr {
    pub label: Word,
    pub expr: Expr,
}

impl Drop for PartExpr {
    #[cycle(tree)]
    fn drop(self) {
        let Self { label: _, expr: _ } = self;
    }
}

/// `fun (x, y) client { body }`.
#[cycle(tree)]
pub struct LambdaExpr {
    pub params: List<Word>,
    pub place: Loc,
    pub body: Expr,
}

impl Drop for LambdaExpr {
    #[cycle(tree)]
    fn drop(self) {
        let Self {
            params: _,
            place: _,
            body: _,
        } = self;
    }
}

/// `case T(x) -> body`, or without a name `case T -> body`.
#[cycle(tree)]
pub struct Case {
    pub tag: Word,
    pub name: Option<Word>,
    pub body: Expr,
}

impl Drop for Case {
    #[cycle(tree)]
    fn drop(self) {
        let Self {
            tag: _,
            name: _,
            body: _,
        } = self;
    }
}

/// `case x -> body` after all other cases.
#[cycle(tree)]
pub struct LastCase {
    pub name: Word,
    pub body: Expr,
}

impl Drop for LastCase {
    #[cycle(tree)]
    fn drop(self) {
        let Self { name: _, body: _ } = self;
    }
}

/// `(x <-- t) where (cond) set (l = e)` of an update, or without sets of a deletion.
#[cycle(tree)]
pub struct ChangeExpr {
    pub name: Word,
    pub table: Word,
    pub cond: Expr,
    pub sets: List<PartExpr>,
}

impl Drop for ChangeExpr {
    #[cycle(tree)]
    fn drop(self) {
        let Self {
            name: _,
            table: _,
            cond: _,
            sets: _,
        } = self;
    }
}

/// What an expression is, its parts in text order. An expression that the text leaves out (the `Table` of a
/// `ForTable`, and the unit value of a tag without parentheses) has the span of the node that holds it.
#[cycle(tree)]
pub enum Node {
    Int(i64),
    Text(Text),
    Bool(bool),
    /// A local name.
    Name(Text),
    /// A function of the program that isn't called here.
    Function(Text),
    Lambda(LambdaExpr),
    /// A call of a function of the program.
    Call(Word, List<Expr>),
    /// A call of a value.
    Apply(Expr, List<Expr>),
    /// `var x = e; rest`.
    Var(Word, Expr, Expr),
    /// `e; rest`.
    Seq(Expr, Expr),
    If(Expr, Expr, Expr),
    And(Expr, Expr),
    Or(Expr, Expr),
    Concat(Expr, Expr),
    Append(Expr, Expr),
    Cons(Expr, Expr),
    Add(Expr, Expr),
    Sub(Expr, Expr),
    Mul(Expr, Expr),
    Div(Expr, Expr),
    Mod(Expr, Expr),
    Eq(Expr, Expr),
    Ne(Expr, Expr),
    Lt(Expr, Expr),
    Le(Expr, Expr),
    Gt(Expr, Expr),
    Ge(Expr, Expr),
    Neg(Expr),
    Not(Expr),
    Hd(Expr),
    Tl(Expr),
    Empty(Expr),
    IntToString(Expr),
    Print(Expr),
    Record(List<PartExpr>),
    /// `(l = e | r)`.
    Extend(List<PartExpr>, Expr),
    List(List<Expr>),
    Project(Expr, Word),
    Tag(Word, Expr),
    Switch(Expr, List<Case>, Option<LastCase>),
    /// `for (x <- e) d`.
    ForList(Word, Expr, Expr),
    /// `for (x <-- t) d`; the first expression is its `Table`.
    ForTable(Word, Expr, Expr),
    Table(Word),
    Where(Expr, Expr),
    Query(List<SortKey>, Expr),
    Insert(Word, Expr),
    Update(ChangeExpr),
    /// A deletion, without sets.
    Delete(ChangeExpr),
}

impl Node {
    /// What follows the statement that this node begins with, where it is one. All else of the node is let go.
    #[cycle(tree)]
    fn into_rest(self) -> Option<Expr>
        ensures { IfSome result (λ rest. size-Expr rest < size-Node self) }
    {
        match self {
            Self::Seq(_, rest) => Some(rest),
            Self::Var(_, _, rest) => Some(rest),
            _ => None,
        }
    }
}

impl Drop for Node {
    #[cycle(tree)]
    fn drop(self) {
        match self {
            Self::Int(_) => {}
            Self::Text(_) => {}
            Self::Bool(_) => {}
            Self::Name(_) => {}
            Self::Function(_) => {}
            Self::Lambda(_) => {}
            Self::Call(_, _) => {}
            Self::Apply(_, _) => {}
            Self::Var(_, _, _) => {}
            Self::Seq(_, _) => {}
            Self::If(_, _, _) => {}
            Self::And(_, _) => {}
            Self::Or(_, _) => {}
            Self::Concat(_, _) => {}
            Self::Append(_, _) => {}
            Self::Cons(_, _) => {}
            Self::Add(_, _) => {}
            Self::Sub(_, _) => {}
            Self::Mul(_, _) => {}
            Self::Div(_, _) => {}
            Self::Mod(_, _) => {}
            Self::Eq(_, _) => {}
            Self::Ne(_, _) => {}
            Self::Lt(_, _) => {}
            Self::Le(_, _) => {}
            Self::Gt(_, _) => {}
            Self::Ge(_, _) => {}
            Self::Neg(_) => {}
            Self::Not(_) => {}
            Self::Hd(_) => {}
            Self::Tl(_) => {}
            Self::Empty(_) => {}
            Self::IntToString(_) => {}
            Self::Print(_) => {}
            Self::Record(_) => {}
            Self::Extend(_, _) => {}
            Self::List(_) => {}
            Self::Project(_, _) => {}
            Self::Tag(_, _) => {}
            Self::Switch(_, _, _) => {}
            Self::ForList(_, _, _) => {}
            Self::ForTable(_, _, _) => {}
            Self::Table(_) => {}
            Self::Where(_, _) => {}
            Self::Query(_, _) => {}
            Self::Insert(_, _) => {}
            Self::Update(_) => {}
            Self::Delete(_) => {}
        }
    }
}
