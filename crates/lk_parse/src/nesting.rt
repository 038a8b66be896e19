//! How deeply tokens nest.

ghost use Rattle.lk_parse.specs.Nesting.{is_sign_of, opening, closing, adds, begins_part, begins_declaration, no_load, opened_load, closed_load, base_of, grown_load, next_load, IsLight, IsSmall, nesting_limit};
ghost use Rattle.lk_parse.specs.Refusals.{IsTooHeavy};
ghost use Rattle.lk_parse.specs.declared.error.ParseError.TheVariants as refusal;
ghost use Rattle.std.specs.Prelude.{◌≡◌, ◌≤◌, ◌∷◌, [], codes, IsTrue, ◌↔◌, IfErr, OnOk};

use crate::error::ParseError;
use lk_ast::{NoMemory, Token, TokenKind};
use lk_read::is_one_of;
use std::alloc::Global;
use std::marker::Model;

/// How much a front of a text may weigh.
const NESTING_LIMIT: u32 = 200;

const OPENING: [&str; 4] = ["(", "{", "[", "[|"];

const CLOSING: [&str; 4] = [")", "}", "]", "|]"];

const OPERATORS: [&str; 16] = [
    "||", "&&", "==", "<>", "<", "<=", ">", ">=", "::", "++", "^^", "+", "-", "*", "/", ".",
];

const FORMS: [&str; 11] = [
    "mod", "if", "else", "for", "where", "switch", "query", "insert", "update", "delete", "fun",
];

const DECLARATIONS: [&str; 4] = ["table", "sig", "fun", "mutual"];

fn is_opening(kind: &TokenKind) -> bool
    ensures { result ≡ is_sign_of opening kind.now }
{
    match kind {
        TokenKind::Sign(sign) => is_one_of(sign.as_str(), &OPENING),
        _ => false,
    }
}

fn is_closing(kind: &TokenKind) -> bool
    ensures { result ≡ is_sign_of closing kind.now }
{
    match kind {
        TokenKind::Sign(sign) => is_one_of(sign.as_str(), &CLOSING),
        _ => false,
    }
}

fn is_closing_brace(kind: &TokenKind) -> bool
    ensures { result ≡ is_sign_of (codes "}" ∷ []) kind.now }
{
    match kind {
        TokenKind::Sign(sign) => sign.as_str() == "}",
        _ => false,
    }
}

/// Whether a token adds one and opens no bracket.
fn adds(kind: &TokenKind) -> bool
    ensures { result ≡ adds kind.now }
{
    match kind {
        TokenKind::Sign(sign) => is_one_of(sign.as_str(), &OPERATORS),
        TokenKind::Word(word) => is_one_of(word.as_str(), &FORMS),
        _ => false,
    }
}

/// Whether a token begins a new part.
fn begins_part(kind: &TokenKind) -> bool
    ensures { result ≡ begins_part kind.now }
{
    match kind {
        TokenKind::Sign(sign) => sign.as_str() == "," || sign.as_str() == ";",
        TokenKind::Word(word) => word.as_str() == "case",
        _ => false,
    }
}

fn begins_declaration(kind: &TokenKind) -> bool
    ensures { result ≡ begins_declaration kind.now }
{
    match kind {
        TokenKind::Word(word) => is_one_of(word.as_str(), &DECLARATIONS),
        _ => false,
    }
}

/// The weight so far, what it was just behind each open bracket, the innermost last, and whether `}` came last.
#[derive(Drop)]
struct Load {
    weight: u32,
    brackets: Vec<u32>,
    braced: bool,
}

impl Model for Load {
    ghost use Rattle.lk_parse.specs.Nesting.{Load};
    ghost use Rattle.std.specs.Prelude.{reverse};

    ghost Value = { Load };

    ghost view = { λ load. record { weight = load.weight; opened = reverse load.brackets.items; braced = load.braced } };
}

impl Load {
    /// Nothing has been read.
    fn new(alloc: Global) -> Load
        ensures { result ≡ no_load }
    {
        Load {
            weight: 0,
            brackets: Vec::new(alloc),
            braced: false,
        }
    }

    /// Whether the weight is within the limit.
    fn is_light(&self) -> bool
        ensures { IsTrue result ↔ (self.now.weight ≤ nesting_limit) }
    {
        self.weight <= NESTING_LIMIT
    }

    /// Reads an opening bracket.
    fn open(&mut self) -> Result<(), NoMemory>
        requires { self.old.weight ≤ nesting_limit }
        ensures { OnOk result (self.new ≡ opened_load self.old) }
    {
        self.weight += 1;
        self.brackets.push(self.weight)?;
        self.braced = false;
        Ok(())
    }

    /// Reads a closing bracket, which is `}` or another.
    fn close(&mut self, is_brace: bool)
        ensures { self.new ≡ closed_load is_brace self.old.weight self.old.opened }
    {
        self.braced = is_brace;
        if let Some(weight) = self.brackets.pop() {
            self.weight = weight;
        }
    }

    /// What the weight is before another token adds to it.
    fn base(&self, kind: &TokenKind) -> u32
        ensures { result ≡ base_of self.now kind.now }
    {
        if begins_part(kind) || (self.braced && begins_declaration(kind)) {
            match self.brackets.as_slice() {
                [.., weight] => *weight,
                [] => 0,
            }
        } else {
            self.weight
        }
    }

    /// Reads a token that is no bracket.
    fn grow(&mut self, kind: &TokenKind)
        requires { IsSmall self.old }
        ensures { self.new ≡ grown_load self.old kind.now }
    {
        self.weight = self.base(kind) + u32::from(adds(kind));
        self.braced = false;
    }

    /// Reads the next token.
    fn read(&mut self, kind: &TokenKind) -> Result<(), NoMemory>
        requires { IsSmall self.old }
        ensures { OnOk result (self.new ≡ next_load self.old kind.now) }
    {
        if is_opening(kind) {
            return self.open();
        }
        if is_closing(kind) {
            self.close(is_closing_brace(kind));
        } else {
            self.grow(kind);
        }
        Ok(())
    }
}

/// Refuses tokens that nest too deep, at the first one with which they do.
pub fn check_nesting(alloc: Global, tokens: &[Token]) -> Result<(), ParseError>
    ensures light { OnOk result (IsLight tokens.now) }
    ensures refused { IfErr result (IsTooHeavy tokens.now) }
    // Light tokens are refused only for want of memory.
    ensures complete { IfErr result (λ why. IsLight tokens.now → why ≡ refusal.NoMemory) }
{
    let mut load = Load::new(alloc);
    for token in tokens {
        load.read(&token.kind)?;
        if !load.is_light() {
            return Err(ParseError::TooNested(token.span));
        }
    }
    Ok(())
}
