//! Continuations of a table of nodes: what each of them keeps.
//!
//! `specs/Conts` says which types what they and lambdas keep has;
//! `specs/Live` and `specs/Steps` are words for the walk that finds them.
#![tactic(auto)]

mod envs;
mod live;
mod needs;
mod numbers;
mod positions;
mod program;
mod table;
mod tails;
mod walk;

pub use program::cps;
