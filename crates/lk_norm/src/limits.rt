//! The limits of a normal form.

/// The most branches that a query's may have.
pub const MOST_BRANCHES: u32 = 1_024;

/// The most bytes that a query's text may have, or the texts of the scalars of a change together.
pub const MOST_BYTES: u64 = 1_048_576;

/// How deep parts may stand in one another, each of which takes a piece of the stack.
pub const ROOM: usize = 4_096;
