use crate::event::Trap;
use crate::value::Value;

/// How a session ends at its client.
pub enum ClientEnd {
    /// The session's value.
    Done(Value),
    /// An evaluation ended without a value.
    Trapped(Trap),
    /// The next request would have so many bytes, more than `MESSAGE_LIMIT`.
    TooBig(u64),
    /// The next request would nest so deep, deeper than `MESSAGE_DEPTH`.
    TooDeep(u64),
}

impl Drop for ClientEnd {
    fn drop(self) {
        match self {
            Self::Done(_) => {}
            Self::Trapped(_) => {}
            Self::TooBig(_) => {}
            Self::TooDeep(_) => {}
        }
    }
}
