//! Located evaluation: what a program does, and where. `specs/Evaluation` defines it for any language, with fuel, steps and
//! a log, and `specs/Source` makes the language of programs one of them. `evaluation_laws` says what holds of it.
#![tactic(auto)]

mod law;

pub use law::evaluation_laws;
