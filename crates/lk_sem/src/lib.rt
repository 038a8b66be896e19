//! The direct evaluation of programs.
//!
//! Located evaluation, and the language of programs, are defined in `lk_evaluation`. `source_run` evaluates a program by a
//! machine that keeps its waiting parts in a list of its own, and reads and writes the tables of a store. Its contract says
//! that it does what the definition says over the answers read, that what happened is a legal history of the tables
//! (`lk_bag`), and that no function is shown. A program of that shape lacks no rule (`lk_sound`), so there is no such end.
#![tactic(auto)]

mod act;
mod calls;
mod captures;
mod cases;
mod catalog;
mod machine;
mod reads;
mod rows;
mod run;
mod source;
mod syntax;
mod values;
mod writes;

pub use run::{SourceEnd, SourceRun};
pub use source::source_run;
