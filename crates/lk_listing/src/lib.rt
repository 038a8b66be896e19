//! What is printed of code: a line for each label, and one for each frame that is no return.
//!
//! `specs/Listing` says which lines.
#![tactic(auto)]

mod lines;
mod listing;
mod types;

pub use listing::print_labels;

/// How many bytes are printed at the most: 64 MiB. What frames keep may grow with the square of a text, and a type is written out
/// wherever it stands.
const MOST_BYTES: usize = 67_108_864;
