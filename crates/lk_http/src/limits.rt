//! How large heads may be. Of bodies, `lk_ast` says it.

/// The most bytes of a head.
pub const HEAD_LIMIT: usize = 8_192;

/// The most fields of a head.
pub const FIELD_LIMIT: usize = 32;

/// The room that is lent to httparse for fields. A field has three bytes at least, so no head of `HEAD_LIMIT` bytes has more.
pub const ROOM: usize = 2_731;
