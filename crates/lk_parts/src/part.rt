use lk_ast::{Case, Expr, LastCase, List, Word};

/// What a part would take of the tokens behind it, or what it is where that matters.
#[derive(Clone, Copy)]
pub enum Ends {
    /// It takes nothing.
    Closed,
    /// It is one word that names something.
    Name,
    /// It is a tag alone, which takes a `(`.
    Tag,
    /// It ends in a form that takes any operator.
    Form,
    /// It ends in a form that takes any operator but a comparison.
    Compared,
}

/// A part of an expression, from its first to its last token, with the parentheses or braces round it.
#[derive(Drop)]
pub struct Part {
    /// The byte at which it begins.
    pub from: u32,
    /// The byte behind its end.
    pub to: u32,
    /// Its tree.
    pub expr: Expr,
    /// What it would take of the tokens behind it.
    pub ends: Ends,
    /// Whether the comparison at its right end is made, so that no other one goes on with it.
    pub compared: bool,
}

/// `var x = e;` or `e;`, which begins at this byte.
#[derive(Drop)]
pub struct Statement {
    /// The byte at which it begins.
    pub from: u32,
    /// The name that is bound, if there is one.
    pub name: Option<Word>,
    /// What is evaluated.
    pub expr: Expr,
}

/// The cases of a switch.
#[derive(Drop)]
pub struct Cases {
    /// Those with a tag, in order.
    pub list: List<Case>,
    /// The one for all others, if it has come.
    pub last: Option<LastCase>,
}

/// `(x <-- t) where (cond)` of an update or a deletion, which ends at this byte.
#[derive(Drop)]
pub struct Change {
    /// The name that a row has.
    pub name: Word,
    /// The table.
    pub table: Word,
    /// Which rows are meant.
    pub cond: Expr,
    /// The byte behind its end.
    pub to: u32,
}
