//! Types and rows as numbered nodes that are merged into classes.
//!
//! `specs/Shapes` says which values nodes can have, a value being a type or a row of types (`specs/Values`), and `specs/Steps`
//! what a new node, a binding of a row or a union of two classes says of them. `specs/Measures` is why merging ends,
//! `specs/Order` says when no type is a part of itself, and `specs/Counting` how large types are.
#![tactic(auto)]

mod arena;
mod by_label;
mod clean;
mod counting;
mod depth;
mod ends;
mod flat;
mod joining;
mod kind;
mod labels;
mod merge;
mod node;
mod order;

pub use arena::Arena;
pub use by_label::{are_distinct, node_of};
pub use clean::is_clean;
pub use counting::{Count, count_at, counts};
pub use ends::once_open;
pub use kind::is_loose;
pub use merge::merge_nodes;
pub use node::{Field, Head, Pair, Shape};
pub use order::{is_ordered, parts_first};
