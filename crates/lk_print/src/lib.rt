//! Programs as text, which is read again as the same program.
//!
//! `specs/Printed` says which tokens are printed, `specs/Written` how a line of them is written, and `specs/Again` what holds
//! of the text: the grammar of `lk_grammar` and the scope of `lk_scope` give it the program that was printed.
#![tactic(auto)]

mod declaration;
mod expression;
mod form;
mod operator;
mod program;
mod shape;
mod signature;
mod text_literal;
mod token;
mod words;

pub use program::print;
