//! SQL as data: what queries, updates and deletions become, and what it means.
//!
//! `specs/Meaning` says what a select gives over tables, `specs/Text` how all of it is written, `specs/Good` when it is well
//! formed.
#![tactic(auto)]

mod tree;

pub use tree::{Change, FromItem, Key, Out, Scalar, Select, Sql, SqlOp};
