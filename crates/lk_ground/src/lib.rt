//! Ground programs: what they are, and what they mean.
//!
//! A ground program is the list of a program's instances: its functions at ground types. `specs/Language` says what one
//! means; `ground_laws` says that it means the same as the program.
#![tactic(auto)]

mod law;
mod program;

pub use law::ground_laws;
pub use program::{GroundFun, GroundProgram};
