//! The walk through the functions of a declaration: what is said of their types, step by step.
#![tactic(auto)]

mod block;
mod context;
mod expression;
mod group;
mod member;
mod uses;
mod walker;

pub use group::{GroupWalk, walk_group};
