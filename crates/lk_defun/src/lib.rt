//! Functions and frames by numbers: a program with continuations becomes code.
//!
//! `specs/Numbers` says which number stands for what, `specs/Whole` which programs can be numbered, and `specs/Words` has the words of
//! nodes. `proofs/Numbered` shows that numbering makes sound code.
#![tactic(auto)]

mod frames;
mod funs;
mod homes;
mod numbering;
mod positions;
mod told;
mod types;
mod words;

pub use numbering::defun;
