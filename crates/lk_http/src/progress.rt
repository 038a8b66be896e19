//! Where readers stand.

use crate::verdict::{Fed, ReplyFed};
use lk_ast::Bytes;

/// Where a reader of requests stands.
#[derive(Drop)]
pub enum RequestProgress {
    /// No head has come yet. These are all bytes so far.
    Head(Bytes),
    /// A head has come. These are the bytes behind it, fewer than this number, which its body has.
    Body(Bytes, usize),
    /// It has its verdict.
    Over(Fed),
    /// Memory ran out.
    Broken,
}

/// Where a reader of replies stands.
#[derive(Drop)]
pub enum ReplyProgress {
    /// No head has come yet. These are all bytes so far.
    Head(Bytes),
    /// A head with this status has come. These are the bytes behind it, fewer than this number, which its body has.
    Body(u16, Bytes, usize),
    /// It has its verdict.
    Over(ReplyFed),
    /// Memory ran out.
    Broken,
}
