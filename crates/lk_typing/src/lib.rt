//! What it means that a program is well typed, over types without unknowns (`specs/Typing`, `specs/Programs`), and the walk
//! through a text that says the same in equations with unknowns (`specs/Walk`), for those who infer types.
#![tactic(auto)]

mod law;
mod step;

pub use law::typing_laws;
pub use step::{Said, Step};
