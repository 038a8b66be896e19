//! What an outline consists of.

use lk_ast::{List, Span, Text};

/// Whose effects an expression has.
#[derive(Clone, Copy, Debug)]
pub enum Around {
    /// Those of the function.
    Function,
    /// Those of the lambda which is the node of that number.
    Lambda(usize),
    /// Those of a query.
    Query,
    /// Those of an update or a deletion.
    Change,
}

/// What a node is. Nodes are told by their numbers in the outline.
#[derive(Drop)]
pub enum Kind<'p> {
    /// A use of a function that isn't called.
    Function(&'p Text),
    /// A call of a function, with these nodes as its arguments.
    Call(&'p Text, List<usize>),
    /// `==` or `<>`, with that node as its left operand.
    Equality(usize),
    /// `<`, `<=`, `>` or `>=`, with that node as its left operand.
    Order(usize),
    /// A local name that is bound by the node before that number, or by the function where it is 0.
    Name(usize),
    /// A query in which that many nodes stand.
    Query(usize),
    /// An update or a deletion in which that many nodes stand.
    Change(usize),
    Other,
}

/// A node of a function's body.
#[derive(Drop)]
pub struct Site<'p> {
    /// Its number in the outline.
    pub number: usize,
    pub span: Span,
    pub kind: Kind<'p>,
    pub around: Around,
    /// Whether it stands inside a query, an update or a deletion.
    pub inside: bool,
}
