//! Runs of several sessions: the schedules that say how a run goes, and its reports. `specs/Schedule` defines which texts are a schedule,
//! and what their lines say; `specs/Reports` what is printed of a run.
#![tactic(auto)]

mod bytes;
mod error;
mod line;
mod number;
mod report;
mod schedule;
mod text;

pub use error::ScheduleError;
pub use line::Line;
pub use report::{End, Entry, Report, SessionReport};
pub use schedule::read_schedule;
pub use text::{report_status, report_text};
