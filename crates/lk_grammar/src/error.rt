use thiserror::Error;

/// Why tokens are no program.
#[derive(Clone, Copy, Debug, PartialEq, Eq, Error)]
pub enum GrammarError {
    /// The token of this number, counted from 0, is the first with which the tokens begin no program; their number where
    /// all fit and more are needed.
    #[error("unexpected token {0}")]
    Unexpected(u64),
    #[error("out of memory")]
    NoMemory,
}
