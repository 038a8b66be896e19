//! Outlines of function bodies, and the nodes of typed ones.
//!
//! `specs/Nodes` of lk_sound says which nodes a typed expression has, `specs/Outline` what its outline is, and `specs/Typed` how
//! the one comes from the other; `outline_laws` proves it. `specs/Shown` says how contracts see the outline that the code makes.
#![tactic(auto)]

mod form;
mod law;
mod noting;
mod site;
mod walk;

pub use law::outline_laws;
pub use site::{Around, Kind, Site};
pub use walk::outline;
