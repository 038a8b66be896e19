//! SQL as text.
//!
//! What each piece is as text is said in `specs/Text` of lk_sql. Each function here writes its piece onto a text that it
//! borrows.
#![tactic(auto)]

mod literals;
mod queries;
mod selects;

pub use queries::print_sql;
