//! HTTP messages (RFC 9110, RFC 9112), as far as a session needs them: a reader of requests and one of replies, which are fed
//! pieces however cut, and the texts of messages.
//!
//! `specs/Verdicts` says what bytes come to: a relation of all bytes so far, which knows nothing of pieces. `specs/Requests`
//! and `specs/Replies` say how messages are judged by their heads, `specs/Written` how they are written, and `specs/Law` that
//! verdicts stay, that there is one, and that what is written is read.
#![tactic(auto)]

mod fault;
mod fields;
mod laws;
mod limits;
mod place;
mod progress;
mod refusal;
mod reply;
mod request;
mod verdict;
mod write;

pub use laws::{message_laws, verdict_laws};
pub use limits::{FIELD_LIMIT, HEAD_LIMIT};
pub use progress::{ReplyProgress, RequestProgress};
pub use refusal::HttpRefusal;
pub use reply::ReplyReader;
pub use request::RequestReader;
pub use verdict::{Fed, ReplyFed, ReplyKind};
pub use write::{is_status, write_reply, write_request};
