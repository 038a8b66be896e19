//! The grammar of programs, over tokens, and the reader of it. `specs/Expressions` and `specs/Programs` have the grammar,
//! `specs/Reading` and `specs/ReadingPrograms` the readers; the parts that both speak of stand in `lk_parts`.
#![tactic(auto)]

mod blocks;
mod calls;
mod cases;
mod error;
mod forms;
mod levels;
mod names;
mod primaries;
mod program;

pub use error::GrammarError;
pub use program::read_program;
