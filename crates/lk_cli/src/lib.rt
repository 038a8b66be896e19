//! The top call: all that the program `links` does, over any files, any stores and any sink. docs/LANGUAGE.md has the table of
//! its statuses, `specs/Answers.antt` their causes.
#![tactic(auto)]

mod answer;
mod compile;
mod ended;
mod load;
mod queries;
mod refused;
mod report;
mod schemes;
mod session;
mod top;

// No public call takes an answer or gives one: they are public for the clauses of the top call. A refusal is handed back for
// its message.
pub use answer::{Answer, Done, Refusal, TablesFault};
pub use ended::{End, Ended};
pub use lk_mono::ShapeKind;
pub use lk_translate::Size;
pub use refused::{Refused, Source, Sources};
pub use top::{Ran, links_main};

/// How many bytes of a program's file are read: one more than a program's text may have.
const READ_MAX: u64 = 1_048_577;

/// How many bytes of a tables file are read: one more than a tables file may have.
const TABLES_READ_MAX: u64 = 16_777_217;
