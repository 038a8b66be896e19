//! Ground programs: the instances of a typed program, or what it is refused for.
//!
//! `specs/Instances` says which instances there are and in which order, `specs/Grounded` what a ground program has of each,
//! `specs/Shapes` which shapes it must have, `specs/Keeps` that it keeps every evaluation, and `specs/Law` that it is refused for
//! one reason at the most.
#![tactic(auto)]

mod body;
mod calls;
mod error;
mod law;
mod listed;
mod listing;
mod look;
mod member;
mod program;
mod queue;
mod shapes;

pub use error::{MonoError, ShapeKind};
pub use law::refusal_laws;
pub use program::ground;
