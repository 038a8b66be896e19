//! Ground programs in SQL: their queries, readings of tables, updates and deletions, or the refusal of the first that is too
//! large.
//!
//! `specs/Translation` says what each of them is in SQL, and which one is refused and for what; `translate_laws` says that this is
//! well formed, and that a database may answer it with just what the program's readings may be answered with.
#![tactic(auto)]

mod block;
mod error;
mod law;
mod program;
mod translated;

pub use error::{Size, TranslateError};
pub use law::translate_laws;
pub use program::translate;
pub use translated::{Code, Translated};
