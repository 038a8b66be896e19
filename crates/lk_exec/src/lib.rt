//! The executor of SQL and of changes over any store: what queries answer, and what insertions, updates and deletions make of a
//! table.
//!
//! Each call scans a table once at most, so what it answers is said of the rows that the scans gave.
#![tactic(auto)]

mod cells;
mod changes;
mod choices;
mod error;
mod operations;
mod order;
mod product;
mod queries;
mod scans;
mod scope;
mod values;
mod writes;

pub use error::ExecError;
pub use queries::select;
pub use writes::{delete_rows, insert_rows, update_rows};
