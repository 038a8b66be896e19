//! The process of the program `links`: the system's words and files, standard output, standard error and a store in memory, and the top
//! call, which does all else.
#![tactic(auto)]

mod process;

pub use process::{Ended, end_of, run};
