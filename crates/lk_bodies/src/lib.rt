//! The bodies of queries and changes: how many nodes they have with the bodies that they call, what they use from outside, and which
//! parts an inlined query has for them, with the bodies of functions in the places of their calls.
//!
//! `specs/Nodes` counts, `specs/Uses` and `specs/Captured` say what is captured, `specs/Walk` which parts there are.
#![tactic(auto)]

mod arms;
mod captured;
mod names;
mod nodes;
mod parts;
mod room;
mod shapes;
mod uses;
mod walk;

pub use captured::{bound_parts, captured_at, numbered};
pub use nodes::count_nodes;
pub use parts::{labelled, table};
pub use shapes::element_columns;
pub use uses::{NameUse, change_uses, query_uses};
pub use walk::{Over, Walked, walk_expr, walk_fields};
