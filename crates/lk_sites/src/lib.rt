//! The queries, readings of tables, updates and deletions of a ground program, each once, in the order of their labels.
//!
//! `specs/Sites` says which there are and what their labels are; `sites_laws` says that each is a typed block of an instance.
#![tactic(auto)]

mod law;
mod site;
mod sites;

pub use law::sites_laws;
pub use site::QuerySite;
pub use sites::query_sites;
