//! The tables of a program, what queries give over them, and what changes make of them.
#![tactic(auto)]

mod answers;
mod blocks;
mod captured;
mod change;
mod order;
mod rows;
mod tables;
mod values;
mod walk;

pub use answers::answer;
pub use blocks::Blocks;
pub use change::{kept_rows, updated_rows};
pub use tables::table_defs;
pub use walk::query_value;
