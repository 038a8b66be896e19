//! Where the functions of a program stand, and which names a lambda, a query or a change of a table captures.
#![tactic(auto)]

mod free;
mod index;
mod places;

pub use free::{captured, captured_change, captured_query};
pub use index::{Index, IndexedLambda};
