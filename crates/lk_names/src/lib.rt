//! Bound names: each name of a program is one that is seen where it is used, and none is there twice.
//!
//! `resolve` refuses a program in which that isn't so, with the first place in text order, and keeps any other as a
//! `Scoped`. `specs/Programs` says which programs are refused and why. It takes the program with its words told apart, as
//! `scoped` of `lk_scope` makes it.
#![tactic(auto)]

mod error;
mod expression;
mod globals;
mod program;
mod repeats;
mod scoped;
mod types;

pub use error::NameError;
pub use program::resolve;
pub use scoped::Scoped;
