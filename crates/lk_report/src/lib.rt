//! Lines of reports: what `source` and `run` print of events, of the ends of sessions and of tables.
#![tactic(auto)]

mod ends;
mod events;
mod tables;
mod values;

pub use ends::{line_of_done, line_of_trap};
pub use events::line_of_event;
pub use tables::line_of_tables;
