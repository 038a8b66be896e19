//! Queries after inlining, and what they give.
//!
//! `specs/Given` says what the parts of a query give over tables, `specs/Order` how parts are numbered, `specs/Captured` how
//! captured values stand in them, and `specs/Branches` how many branches the normal form of each has.
#![tactic(auto)]

mod part;
mod query;

pub use part::{Labelled, Part};
pub use query::{Captured, Inlined, InlinedChange, OrderedParts, Query};
