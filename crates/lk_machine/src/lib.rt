//! The machine that runs code: frames by their numbers, and one step at a time.
//!
//! `specs/Going` says what a machine still has to do, as a stretch of the evaluation that the code stands for; `specs/Stepped` what a
//! step makes of that, by cases on its answer; `specs/Typed` what the values that a machine holds fit.
#![tactic(auto)]

mod act;
mod calls;
mod cases;
mod choices;
mod frames;
mod look;
mod machine;
mod moves;
mod plain;
mod scope;
mod state;
mod turns;
mod values;

pub use machine::Machine;
pub use state::Next;
