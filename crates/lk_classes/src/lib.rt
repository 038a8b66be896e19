//! Which numbers are equal.
//!
//! `Classes` is seen as the list of the names of the classes. It is a forest whose trees are the classes, and joins two of
//! them by their sizes, so that a number is never more than about log n steps below its root.
#![tactic(auto)]

mod classes;
mod forest;

pub use classes::Classes;
