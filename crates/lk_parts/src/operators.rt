//! Operators, by how tightly they bind.

ghost use Rattle.lk_parts.specs.Operators.{level_of_sign, level_of_word, level_of, rank, is_operator, comparison_node, join_node, sum_node, product_node, operator_node, prefix_node};
ghost use Rattle.lk_read.specs.Gives.{GivesToken};
ghost use Rattle.lk_read.specs.Reader.{one, peek};
ghost use Rattle.std.specs.Prelude.{◌≡◌};

use lk_ast::{Expr, Node, Token, TokenKind};
use lk_read::{Stop, is_one_of};

/// The operators that compare.
const COMPARISONS: [&str; 6] = ["==", "<>", "<", "<=", ">", ">="];

/// The operators that put lists or texts together.
const JOINS: [&str; 3] = ["::", "++", "^^"];

/// The operators that bind as `+` does.
const SUMS: [&str; 2] = ["+", "-"];

/// The signs that bind as `*` does, as the word `mod` does too.
const PRODUCTS: [&str; 2] = ["*", "/"];

/// How tightly an operator binds, from the loosest to the tightest.
#[derive(Clone, Copy)]
pub enum Level {
    /// `||`.
    Or,
    /// `&&`.
    And,
    /// `==` and the like, one at most.
    Comparison,
    /// `::`, `++` and `^^`, from the right.
    Join,
    /// `+` and `-`.
    Sum,
    /// `*`, `/` and `mod`.
    Product,
}

/// The level of a sign, from 1, or 0 where it is no operator.
#[tactic(auto, unfolding(crate::specs::Operators::level_of_sign))]
fn level_of_sign(sign: &str) -> u8
    ensures { result ≡ level_of_sign sign.now }
{
    if sign == "||" {
        1
    } else if sign == "&&" {
        2
    } else if is_one_of(sign, &COMPARISONS) {
        3
    } else if is_one_of(sign, &JOINS) {
        4
    } else if is_one_of(sign, &SUMS) {
        5
    } else if is_one_of(sign, &PRODUCTS) {
        6
    } else {
        0
    }
}

/// The same of a word.
#[tactic(auto, unfolding(crate::specs::Operators::level_of_word))]
fn level_of_word(word: &str) -> u8
    ensures { result ≡ level_of_word word.now }
{
    if word == "mod" { 6 } else { 0 }
}

/// The same of a token.
fn level_of(token: &Token) -> u8
    ensures { result ≡ level_of token.now }
{
    match &token.kind {
        TokenKind::Sign(sign) => level_of_sign(sign.as_str()),
        TokenKind::Word(word) => level_of_word(word.as_str()),
        _ => 0,
    }
}

/// The number of a level.
fn rank(level: Level) -> u8
    ensures { result ≡ rank level }
{
    match level {
        Level::Or => 1,
        Level::And => 2,
        Level::Comparison => 3,
        Level::Join => 4,
        Level::Sum => 5,
        Level::Product => 6,
    }
}

/// Whether a token is an operator of this level.
#[tactic(auto, unfolding(crate::specs::Operators::is_operator))]
fn is_operator(token: &Token, level: Level) -> bool
    ensures { result ≡ is_operator level token.now }
{
    level_of(token) == rank(level)
}

/// Whether the next token is an operator of this level.
pub fn next_is_operator(tokens: &[Token], level: Level) -> bool
    ensures { result ≡ peek (is_operator level) tokens.now }
{
    match tokens {
        [token, ..] => is_operator(token, level),
        [] => false,
    }
}

/// The next token, which is an operator of this level.
pub fn eat_operator(tokens: &[Token], level: Level) -> Result<(&Token, &[Token]), Stop>
    ensures { GivesToken result (one (is_operator level) tokens.now) }
{
    match tokens {
        [token, rest @ ..] if is_operator(token, level) => Ok((token, rest)),
        _ => Err(Stop::At(tokens.len())),
    }
}

/// What a comparison makes of its operands.
#[tactic(auto, unfolding(crate::specs::Operators::comparison_node))]
fn comparison_node(sign: &str, a: Expr, b: Expr) -> Node
    ensures { result ≡ comparison_node sign.now a b }
{
    if sign == "==" {
        Node::Eq(a, b)
    } else if sign == "<>" {
        Node::Ne(a, b)
    } else if sign == "<" {
        Node::Lt(a, b)
    } else if sign == "<=" {
        Node::Le(a, b)
    } else if sign == ">" {
        Node::Gt(a, b)
    } else {
        Node::Ge(a, b)
    }
}

/// What `::`, `++` or `^^` makes of its operands.
#[tactic(auto, unfolding(crate::specs::Operators::join_node))]
fn join_node(sign: &str, a: Expr, b: Expr) -> Node
    ensures { result ≡ join_node sign.now a b }
{
    if sign == "::" {
        Node::Cons(a, b)
    } else if sign == "++" {
        Node::Append(a, b)
    } else {
        Node::Concat(a, b)
    }
}

/// What `+` or `-` makes of its operands.
#[tactic(auto, unfolding(crate::specs::Operators::sum_node))]
fn sum_node(sign: &str, a: Expr, b: Expr) -> Node
    ensures { result ≡ sum_node sign.now a b }
{
    if sign == "+" {
        Node::Add(a, b)
    } else {
        Node::Sub(a, b)
    }
}

/// What `*`, `/` or `mod` makes of its operands.
#[tactic(auto, unfolding(crate::specs::Operators::product_node))]
fn product_node(sign: &str, a: Expr, b: Expr) -> Node
    ensures { result ≡ product_node sign.now a b }
{
    if sign == "*" {
        Node::Mul(a, b)
    } else if sign == "/" {
        Node::Div(a, b)
    } else {
        Node::Mod(a, b)
    }
}

/// What an operator makes of its operands.
pub fn operator_node(level: Level, sign: &str, a: Expr, b: Expr) -> Node
    ensures { result ≡ operator_node level sign.now a b }
{
    match level {
        Level::Or => Node::Or(a, b),
        Level::And => Node::And(a, b),
        Level::Comparison => comparison_node(sign, a, b),
        Level::Join => join_node(sign, a, b),
        Level::Sum => sum_node(sign, a, b),
        Level::Product => product_node(sign, a, b),
    }
}

/// What a word before parentheses makes of the expression in them.
#[tactic(auto, unfolding(crate::specs::Operators::prefix_node))]
pub fn prefix_node(word: &str, e: Expr) -> Node
    ensures { result ≡ prefix_node word.now e }
{
    if word == "print" {
        Node::Print(e)
    } else if word == "not" {
        Node::Not(e)
    } else if word == "hd" {
        Node::Hd(e)
    } else if word == "tl" {
        Node::Tl(e)
    } else if word == "empty" {
        Node::Empty(e)
    } else {
        Node::IntToString(e)
    }
}
