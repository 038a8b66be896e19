//! The parser. `tokens` reads a text's tokens, `check_nesting` how deeply they nest, `parse` the program.
//!
//! `specs/Pieces` and `specs/Tokens` have the tokens, `specs/Nesting` the weight and `specs/Refusals` what is refused and
//! why. The grammar is that of `lk_grammar`, and the scope of names that of `lk_scope`.
#![tactic(auto)]

mod error;
mod literals;
mod nesting;
mod piece;
mod program;
mod scan;
mod signs;
mod start;

pub use error::ParseError;
pub use lk_ast::{Token, TokenKind};
pub use nesting::check_nesting;
pub use program::parse;
pub use scan::tokens;
