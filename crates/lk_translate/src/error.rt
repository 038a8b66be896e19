//! Why a program has no SQL.

ghost use Rattle.lk_translate.specs.declared.error.TranslateError.TheVariants as errors;
ghost use Rattle.std.specs.Prelude.{◌≡◌};

use lk_ast::{NoMemory, Span};
use thiserror::Error;

/// What a query, a reading of a table, an update or a deletion is too large in.
#[derive(Clone, Copy, Debug, PartialEq, Eq)]
pub enum Size {
    /// It has more than 65,536 nodes with those of the bodies that it calls.
    Nodes,
    /// Its normal form has more than 1,024 branches.
    Branches,
    /// Its text, or those of the scalars of an update or a deletion together, has more than 1,048,576 bytes.
    Text,
}

/// Why a program has no SQL.
#[derive(Clone, Copy, Debug, PartialEq, Eq, Error)]
pub enum TranslateError {
    /// What stands here is too large.
    #[error("a query, an update or a deletion is too large")]
    TooLarge(Size, Span),
    #[error("out of memory")]
    NoMemory,
}

impl From<NoMemory> for TranslateError {
    ghost from_gives = { λ _ error. error ≡ errors.NoMemory };

    fn from(_error: NoMemory) -> TranslateError {
        TranslateError::NoMemory
    }
}
