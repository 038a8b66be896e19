//! Why a program whose instances are a closed set never lacks a rule, and shows no effects but those of its types.
//!
//! `specs/Values` says which values have a type, `specs/Outcomes` what an evaluation with some effects may come to;
//! `soundness_laws` says that what has a type comes to such an outcome.
#![tactic(auto)]

mod law;

pub use law::soundness_laws;
