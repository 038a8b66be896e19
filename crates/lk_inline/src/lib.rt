//! The queries, readings of tables, updates and deletions of a ground program, with the bodies of functions in the places of their
//! calls.
//!
//! `specs/Inlined` says what is inlined at a site; `inline_laws` says that it means what the program's text says there.
#![tactic(auto)]

mod error;
mod inline;
mod law;
mod sets;
mod tables;

pub use error::InlineError;
pub use inline::Inliner;
pub use law::inline_laws;
