//! Compilation: the code of a program's text, or its first refusal.
//!
//! `specs/Accepted` says which programs are accepted and why others are refused, `specs/Compiled` which code is that of a program.
#![tactic(auto)]

mod accepted;
mod blocks;
mod compiling;
mod error;
mod tables;

pub use accepted::{Accepted, accept};
pub use compiling::{compile, compile_program};
pub use error::CompileError;
