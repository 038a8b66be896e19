//! Inference: the principal schemes of the functions of a program and the principal types of its nodes, or the first place at
//! which it isn't well typed.
//!
//! `specs/Inferred` says which schemes and types are principal, `specs/Refusals` and `specs/Programs` what a program is refused for.
#![tactic(auto)]

mod constraints;
mod declare;
mod disagreement;
mod error;
mod group;
mod lacks;
mod late;
mod program;
mod schemes;
mod solving;
mod typed;

pub use disagreement::{Disagreement, first_disagreement};
pub use error::InferError;
pub use program::infer;
pub use typed::Typed;
