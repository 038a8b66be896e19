//! Functions with principal schemes at ground types.
//!
//! `specs/Bodies` says how they and their nodes are typed; `principal_laws` says that each instance is, and what is used in it.
#![tactic(auto)]

mod law;

pub use law::principal_laws;
