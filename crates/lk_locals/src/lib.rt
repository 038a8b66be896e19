//! The values of local names.
//!
//! `Locals` is seen as a finite map from names to values. It keeps layers of names, and binds a name without a copy of the
//! others also where somebody else needs them as they are.
#![tactic(auto)]

mod layer;
mod locals;

pub use locals::Locals;
