//! Why no types are inferred.

ghost use Rattle.lk_infer.specs.declared.error.InferError.TheVariants as errors;
ghost use Rattle.std.specs.Prelude.{◌≡◌};

use lk_ast::{NoMemory, Span};
use thiserror::Error;

/// Why no types of a program are inferred.
#[derive(Clone, Copy, Debug, PartialEq, Eq, Error)]
pub enum InferError {
    /// What the walk says up to here can't hold: the program isn't well typed.
    #[error("not well typed")]
    IllTyped(Span),
    /// A type has too many nodes here.
    #[error("a type is too large")]
    TypeTooLarge(Span),
    #[error("out of memory")]
    NoMemory,
}

impl From<NoMemory> for InferError {
    ghost from_gives = { λ _ error. error ≡ errors.NoMemory };

    fn from(_error: NoMemory) -> InferError {
        InferError::NoMemory
    }
}
