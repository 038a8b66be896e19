//! How large tables, and messages between client and server, may be.

/// The most rows that a table may have in a tables file, or behind an insertion.
pub const MOST_ROWS: u64 = 65_536;

/// The most bytes of a message's body.
pub const MESSAGE_LIMIT: u64 = 1_048_576;

/// The most arrays and objects of a message's body that stand in one another.
pub const MESSAGE_DEPTH: u64 = 100;
