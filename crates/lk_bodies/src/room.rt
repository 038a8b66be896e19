//! How deep a walk may go.

/// How deep parts and calls may stand in one another, each of which takes a piece of the stack.
pub const ROOM: usize = 4_096;
