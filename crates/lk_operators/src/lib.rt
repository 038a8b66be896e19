//! What the nodes of the language come to whose values depend on those of their parts alone: literals, operators, lists,
//! records and tags. `operate` goes by the node; the other functions serve those who keep operators as data.
#![tactic(auto)]

mod entries;
mod lists;
mod nodes;
mod numbers;
mod operands;
mod order;
mod outcome;
mod records;

pub use lists::{append, concat, cons, empty, head, tail};
pub use nodes::{negation, operate};
pub use numbers::{Operation, arithmetic, int_to_string, negate};
pub use order::{Test, comparison, same};
pub use outcome::Outcome;
pub use records::{project, record_with, tag};
