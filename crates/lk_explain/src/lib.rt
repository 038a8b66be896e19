//! What a person is told of a refusal, on standard error: the place, what is wrong in words, and the line of the text with
//! carets below the place.
//!
//! `specs/Places` says where a place is, `specs/Shown` what is shown of it. All of it is total: a place behind the end of
//! the text counts as its end. Want of memory is the one error. No control character of the text is shown. The words are
//! wording, which tests ask for.
#![tactic(auto)]

mod bytes;
mod excerpts;
mod expected;
mod messages;
mod page;
mod places;
mod refusals;
mod tables;
mod typing;
mod usage;

pub use excerpts::{excerpt, shown_part};
pub use messages::{message, message_at};
pub use places::{Position, position_at};
pub use refusals::explain;
