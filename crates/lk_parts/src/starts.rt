//! What an expression can begin with.

ghost use Rattle.lk_parts.specs.Starts.{start_of_keyword, start_of_sign, start_of, number, begins};
ghost use Rattle.lk_read.specs.Gives.{GivesToken};
ghost use Rattle.lk_read.specs.Reader.{one, peek};
ghost use Rattle.std.specs.Prelude.{◌≡◌};

use lk_ast::{Token, TokenKind};
use lk_read::{Stop, is_keyword, is_one_of};

/// The words that are values.
const TRUTHS: [&str; 2] = ["true", "false"];

/// The words that stand before one expression in parentheses.
const PREFIXES: [&str; 6] = ["print", "not", "hd", "tl", "empty", "intToString"];

/// The words that begin a form.
const FORMS: [&str; 9] = [
    "if", "for", "where", "insert", "update", "delete", "switch", "query", "fun",
];

/// What an expression can begin with.
#[derive(Clone, Copy)]
pub enum Start {
    /// A number, a text, `true` or `false`.
    Literal,
    /// A word that isn't a keyword.
    Name,
    /// A tag.
    Tag,
    /// `(`.
    Round,
    /// `[`.
    Square,
    /// `{`.
    Brace,
    /// A word that stands before one expression in parentheses.
    Prefix,
    /// `-`.
    Minus,
    /// A word that begins a form.
    Form,
    /// None of these: no expression begins so.
    Other,
}

/// What a keyword begins.
#[tactic(auto, unfolding(crate::specs::Starts::start_of_keyword))]
fn start_of_keyword(word: &str) -> Start
    ensures { result ≡ start_of_keyword word.now }
{
    if is_one_of(word, &TRUTHS) {
        Start::Literal
    } else if is_one_of(word, &PREFIXES) {
        Start::Prefix
    } else if is_one_of(word, &FORMS) {
        Start::Form
    } else {
        Start::Other
    }
}

/// What a sign begins.
#[tactic(auto, unfolding(crate::specs::Starts::start_of_sign))]
fn start_of_sign(sign: &str) -> Start
    ensures { result ≡ start_of_sign sign.now }
{
    if sign == "(" {
        Start::Round
    } else if sign == "[" {
        Start::Square
    } else if sign == "{" {
        Start::Brace
    } else if sign == "-" {
        Start::Minus
    } else {
        Start::Other
    }
}

/// What a token begins.
fn start_of(token: &Token) -> Start
    ensures { result ≡ start_of token.now }
{
    match &token.kind {
        TokenKind::Word(word) => {
            if is_keyword(word.as_str()) {
                start_of_keyword(word.as_str())
            } else {
                Start::Name
            }
        }
        TokenKind::Tag(_) => Start::Tag,
        TokenKind::Int(_) | TokenKind::Text(_) => Start::Literal,
        TokenKind::Sign(sign) => start_of_sign(sign.as_str()),
    }
}

/// Each start has a number of its own.
fn number(start: Start) -> u8
    ensures { result ≡ number start }
{
    match start {
        Start::Literal => 0,
        Start::Name => 1,
        Start::Tag => 2,
        Start::Round => 3,
        Start::Square => 4,
        Start::Brace => 5,
        Start::Prefix => 6,
        Start::Minus => 7,
        Start::Form => 8,
        Start::Other => 9,
    }
}

/// Whether a token begins so.
#[tactic(auto, unfolding(crate::specs::Starts::begins))]
fn begins(token: &Token, start: Start) -> bool
    ensures { result ≡ begins start token.now }
{
    number(start_of(token)) == number(start)
}

/// Whether the next token begins so.
pub fn next_begins(tokens: &[Token], start: Start) -> bool
    ensures { result ≡ peek (begins start) tokens.now }
{
    match tokens {
        [token, ..] => begins(token, start),
        [] => false,
    }
}

/// The next token, which begins so.
pub fn eat_begin(tokens: &[Token], start: Start) -> Result<(&Token, &[Token]), Stop>
    ensures { GivesToken result (one (begins start) tokens.now) }
{
    match tokens {
        [token, rest @ ..] if begins(token, start) => Ok((token, rest)),
        _ => Err(Stop::At(tokens.len())),
    }
}
