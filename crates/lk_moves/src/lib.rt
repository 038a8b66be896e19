//! Stretches of evaluation: what waiting frames still do, what an evaluation takes on its way from one place to a later one, and that
//! it only ever gets later. `specs/Frames` and `specs/Courses` define them for any language; `moves_laws` says what holds of them.
#![tactic(auto)]

mod law;

pub use law::moves_laws;
