//! Verdicts on the bytes of messages.

use crate::refusal::HttpRefusal;
use lk_ast::Bytes;

/// The verdict on the bytes of a request so far.
#[derive(Drop)]
pub enum Fed {
    /// More bytes are needed.
    More,
    /// The request is there, with this body.
    Done(Bytes),
    /// The request is refused.
    Refused(HttpRefusal),
}

/// The verdict on the bytes of a reply so far.
#[derive(Drop)]
pub enum ReplyFed {
    /// More bytes are needed.
    More,
    /// The reply is there, with this status and this body.
    Done(u16, Bytes),
    /// It is no reply.
    Bad(ReplyKind),
}

/// What is wrong with a reply.
#[derive(Clone, Copy, Debug, PartialEq, Eq)]
pub enum ReplyKind {
    /// Its head is none, or is too large.
    Head,
    /// The length of its body is missing, is there twice, or is no number.
    Length,
    /// Its body is too large.
    Large,
    /// It ended before it was whole.
    Cut,
    /// Its body doesn't say what it should. No reader answers this: it is for those who read bodies.
    Body,
}
