//! The words of a command line: which have a form, and what they ask for.
//!
//! `read_words` reads them with clap. `specs/Words` says which words have a form, over what clap's crate says of a command
//! line. The program's own name isn't among the words.
#![tactic(auto)]

mod command;
mod error;
mod line;
mod read;

pub use command::{CheckCommand, Command, LabelsCommand, SourceCommand, SqlCommand};
pub use error::WordsError;
pub use read::read_words;
