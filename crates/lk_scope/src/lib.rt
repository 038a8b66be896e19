//! Names by scope: which words of a program are local names, and which are functions of the program.
//!
//! The tree that the grammar gives has each word of an expression as a name and each call as one of a value. `scoped`
//! makes of it the tree that is meant, by lexical scope. `specs/Scoped` says what that is. A program whose words are told
//! apart may still have names that nothing binds: `Scoped` of `lk_names` is one that has none.
#![tactic(auto)]

mod expression;
mod names;
mod program;

pub use names::Names;
pub use program::scoped;
